//! Commands, each with the lines that belong to it, carried out on a session and on the store of its files.

ghost use Rattle.std.specs.Prelude.{◌≡◌, ◌<◌, ◌≤◌, nat_le, false, Option, None, [], length, IfOk, IsErr, OnErr, OnOk};
ghost use Rattle.std.specs.Result.{result_unwrap_or};
ghost use Rattle.abc2midi_live_protocol.specs.Command.{line_count};
ghost use Rattle.abc_lines.specs.Text.{text_of};
ghost use Rattle.abc_lines.specs.Edits.{edited, insertion};
ghost use Rattle.abc_live.specs.Edit.{splice_of};
ghost use Rattle.abc_publish.specs.Publisher.{maps_of};
ghost use Rattle.abc2midi_live.specs.Building.{IsIdle};
ghost use Rattle.abc2midi_live.specs.Transcript.{book_lines, edit_answer, no_directory, request_of};
ghost use Rattle.abc2midi_live.specs.Dialogue.{CommandStops, RequestStops, RespondsBy, with_first_lines, is_taken};

use crate::book_lines::book_lines;
use crate::build_command::build;
use crate::machine::{Machine, Reply};
use crate::streams::Store;
use abc_fold::Work;
use abc_live::{Edit, Session};
use abc_publish::Publisher;
use abc2midi_live_protocol::{Command, fault_list, hex_line, refusal, report_line, title_list};
use std::alloc::{AllocError, Global};

/// A command whose lines have not all come.
#[derive(Drop)]
pub struct PendingCommand {
    pub command: Command,
    pub lines: Vec<Vec<u8>>,
    ghost incomplete: { nat_le (line_count command) (length lines.items) ≡ false },
}

/// Commands that are carried out on a session, line by line.
#[derive(Drop)]
pub struct Dialogue {
    pub alloc: Global,
    pub session: Session,
    pub publisher: Publisher,
    pub pending: Option<PendingCommand>,
    ghost idle: { IsIdle (maps_of publisher) },
}

impl Dialogue {
    ghost use Rattle.abc2midi_live.specs.DialogueState.{ProceedsBy, view_of};

    /// No command has come yet. It returns an error if an allocation fails.
    pub fn new(alloc: Global) -> Result<Dialogue, AllocError>
        ensures session { IfOk result (λ d. d.session.text ≡ []) }
        ensures directory { IfOk result (λ d. (maps_of d.publisher).directory ≡ no_directory) }
        ensures pending { IfOk result (λ d. d.pending ≡ None) }
    {
        Ok(Dialogue {
            alloc,
            session: Session::new(alloc)?,
            publisher: Publisher::new(alloc)?,
            pending: None,
        })
    }

    /// Edits the text, and returns the answer.
    fn change(&mut self, edit: &Edit, work: &mut Work) -> Result<Vec<u8>, AllocError>
        ensures answer { let before = self.old.session.text in IfOk result
            (λ text. text.items ≡ edit_answer before (edited before (splice_of edit.now))) }
        ensures text { let before = self.old.session.text in IfOk result
            (λ _. self.new.session.text ≡ result_unwrap_or (edited before (splice_of edit.now)) before) }
        ensures publisher { self.new.publisher ≡ self.old.publisher }
        ensures pending { self.new.pending ≡ self.old.pending }
        ensures uncounted { OnOk result (IsErr (edited self.old.session.text (splice_of edit.now)) → work.new ≡ work.old) }
    {
        match self.session.apply(edit, work) {
            Ok(report) => report_line(self.alloc, &report),
            Err(error) => refusal(self.alloc, error),
        }
    }

    /// Puts the lines of a tune book before line 1, and returns the answer. It returns an error if an allocation fails.
    pub fn take_book(&mut self, book: &[u8], work: &mut Work) -> Result<Vec<u8>, AllocError>
        ensures answer { IfOk result (λ text. text.items ≡ edit_answer self.old.session.text
            (edited self.old.session.text (insertion 1 (book_lines book.now)))) }
        ensures session { IfOk result (λ _. self.new.session.text
            ≡ result_unwrap_or (edited self.old.session.text (insertion 1 (book_lines book.now))) self.old.session.text) }
        ensures publisher { self.new.publisher ≡ self.old.publisher }
        ensures pending { self.new.pending ≡ self.old.pending }
    {
        let lines = book_lines(self.alloc, book)?;
        self.change(&Edit::Insert { at: 1, lines }, work)
    }

    /// Carries out a command with its lines, and answers it.
    fn respond<S: Store>(
        &mut self,
        command: Command,
        lines: Vec<Vec<u8>>,
        store: &mut S,
        work: &mut Work,
    ) -> Result<Reply, AllocError>
        requires { length lines.items ≡ line_count command }
        ensures reply { let request = request_of command (text_of lines) in
            IfOk result (λ reply. RespondsBy (view_of self.old) (view_of self.new) request reply
            (S.seen store.old) (S.seen store.new)) }
        ensures stop { let request = request_of command (text_of lines) in
            OnErr result (RequestStops (view_of self.old) request (S.seen store.old) (S.seen store.new)) }
        ensures pending { self.new.pending ≡ self.old.pending }
        ensures uncounted { OnOk result (is_taken self.old.session.text (request_of command (text_of lines)) ≡ false
            → work.new ≡ work.old) }
    {
        match command {
            Command::Insert { at, .. } => {
                let text = self.change(&Edit::Insert { at, lines }, work)?;
                Ok(Reply::Answer(text))
            }
            Command::Replace { from, to, .. } => {
                let text = self.change(&Edit::Replace { from, to, lines }, work)?;
                Ok(Reply::Answer(text))
            }
            Command::Delete { from, to } => {
                let text = self.change(&Edit::Delete { from, to }, work)?;
                Ok(Reply::Answer(text))
            }
            Command::Faults => {
                let text = fault_list(self.alloc, self.session.faults())?;
                Ok(Reply::Answer(text))
            }
            Command::Titles => {
                let text = title_list(self.alloc, self.session.titles())?;
                Ok(Reply::Answer(text))
            }
            Command::Hex { number } => {
                let text = hex_line(self.alloc, self.session.output(number))?;
                Ok(Reply::Answer(text))
            }
            Command::Build => {
                let text = build(self.alloc, &mut self.publisher, &self.session, store)?;
                Ok(Reply::Answer(text))
            }
            Command::Quit => Ok(Reply::End),
            Command::Unknown => {
                let text = Vec::from_slice(self.alloc, b"error command\n")?;
                Ok(Reply::Answer(text))
            }
        }
    }

    /// Goes on with a command and those of its lines that have come.
    fn proceed<S: Store>(
        &mut self,
        command: Command,
        lines: Vec<Vec<u8>>,
        store: &mut S,
        work: &mut Work,
    ) -> Result<Reply, AllocError>
        requires idle { self.old.pending ≡ None }
        requires few { length lines.items ≤ line_count command }
        ensures stop { let begun = with_first_lines command (text_of lines) in
            OnErr result (CommandStops (view_of self.old) begun (S.seen store.old) (S.seen store.new)) }
        ensures reply { let begun = with_first_lines command (text_of lines) in
            IfOk result (λ reply. ProceedsBy self.old self.new begun reply (S.seen store.old) (S.seen store.new)) }
        ensures uncounted { OnOk result (is_taken self.old.session.text (request_of command (text_of lines)) ≡ false
            → work.new ≡ work.old) }
    {
        if lines.len() < command.line_count() {
            self.pending = Some(PendingCommand { command, lines });
            return Ok(Reply::Nothing);
        }
        self.respond(command, lines, store, work)
    }
}

impl Machine for Dialogue {
    ghost use Rattle.abc2midi_live.specs.Dialogue.{dialogue_future, request_with};
    ghost use Rattle.abc2midi_live.specs.DialogueState.{view_of};
    ghost use Rattle.abc2midi_live.specs.PendingCommand.{begun_command};
    ghost use Rattle.abc2midi_live.specs.Machine.{machine_state};
    ghost use Rattle.abc2midi_live.specs.Waiting.{dialogue_unasked, dialogue_waits};

    ghost state = { λ d. machine_state (dialogue_future (view_of d) (begun_command d.pending)) (maps_of d.publisher).directory };

    ghost costs = { λ d line. is_taken d.session.text (request_with (begun_command d.pending) line) };

    ghost waits = { λ d. dialogue_waits (view_of d) d.pending };

    ghost unasked = { λ d lines. dialogue_unasked (view_of d) (begun_command d.pending) lines };

    fn take_line<S: Store>(
        &mut self,
        line: Vec<u8>,
        store: &mut S,
        work: &mut Work,
    ) -> Result<Reply, AllocError> {
        match self.pending.take() {
            Some(PendingCommand { command, mut lines }) => {
                lines.push(line)?;
                self.proceed(command, lines, store, work)
            }
            None => {
                let lines = Vec::new(self.alloc);
                self.proceed(Command::of(&line), lines, store, work)
            }
        }
    }

    fn on_end_of_input(&self) -> &'static [u8] {
        match self.pending {
            Some(_) => b"error truncated\n",
            None => b"",
        }
    }
}
