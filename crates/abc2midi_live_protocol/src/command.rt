//! The commands, and the reading of a line.

ghost use Rattle.std.specs.Prelude.{◌≡◌, ◌≤◌, ◌∷◌, take, Some, MatchOption, IfSome};
ghost use Rattle.abc_text.specs.Number.{number_of};
ghost use Rattle.abc2midi_live_protocol.specs.Command.{insertion, replacement, deletion, hex_dump, without_numbers, within_line_limit};
ghost use Rattle.abc2midi_live_protocol.specs.Command.{command_named, command_of, command_of_words, numbers_of, words_after, IsUseless};
ghost use Rattle.abc2midi_live_protocol.specs.Command.{words_of, line_count};

use abc_lines::{LONGEST_LINE, MOST_LINES};
use abc_text::{cut_at, number_of, without_return};
use std::str;

/// A command. `Insert` and `Replace` take the `count` lines after them.
#[derive(Clone, Copy)]
pub enum Command {
    /// Puts lines before line `at`.
    Insert { at: u32, count: u32 },
    /// Replaces the lines `from` to `to`.
    Replace { from: u32, to: u32, count: u32 },
    /// Removes the lines `from` to `to`.
    Delete { from: u32, to: u32 },
    /// Lists the faults of the text.
    Faults,
    /// Lists the titles of the tunes.
    Titles,
    /// Shows the MIDI file of a number.
    Hex { number: u32 },
    /// Brings the MIDI files in the folder up to date.
    Build,
    /// Ends the run.
    Quit,
    /// A line that is none of these.
    Unknown,
}

/// The most numbers of a command.
const MOST_NUMBERS: usize = 3;

/// The numbers of a command: the first `count` values.
#[derive(Drop)]
struct Numbers {
    values: [u32; MOST_NUMBERS],
    count: usize,
}

impl Numbers {
    fn as_slice(&self) -> &[u32]
        requires { self.now.count ≤ 3 }
        ensures { result.now ≡ take self.now.count self.now.values }
    {
        &self.values[..self.count]
    }
}

/// Returns the first word of a text, and what follows the space after it if there is one.
fn first_word(text: &[u8]) -> (&[u8], Option<&[u8]>)
    ensures { words_of text.now ≡ result.0.now ∷ words_after result.1 }
{
    match cut_at(text, b' ') {
        Some((word, after)) => (word, Some(after)),
        None => (text, None),
    }
}

/// Returns the numbers that words spell, if each of them spells one and there are at most three.
fn numbers_of(words: Option<&[u8]>) -> Option<Numbers>
    ensures numbers { MatchOption result (IsUseless (numbers_of (words_after words.entry)))
        (λ n. numbers_of (words_after words.entry) ≡ Some (take n.count n.values)) }
    ensures few { IfSome result (λ n. n.count ≤ 3) }
{
    let mut values = [0; MOST_NUMBERS];
    let mut count = 0;
    let mut rest = words;
    while let Some(text) = rest {
        let (word, after) = first_word(text);
        let number = number_of(word)?;
        if count == MOST_NUMBERS {
            return None;
        }
        values[count] = number;
        count += 1;
        rest = after;
    }
    Some(Numbers { values, count })
}

#[tactic(auto, unfolding(crate::specs::Command::within_line_limit))]
fn within_line_limit(count: u32, command: Command) -> Command
    ensures { result ≡ within_line_limit count command }
{
    if count as usize <= MOST_LINES {
        command
    } else {
        Command::Unknown
    }
}

#[tactic(auto, unfolding(crate::specs::Command::insertion))]
fn insertion(numbers: &[u32]) -> Command
    ensures { result ≡ insertion numbers.now }
{
    match *numbers {
        [at, count] => within_line_limit(count, Command::Insert { at, count }),
        _ => Command::Unknown,
    }
}

#[tactic(auto, unfolding(crate::specs::Command::replacement))]
fn replacement(numbers: &[u32]) -> Command
    ensures { result ≡ replacement numbers.now }
{
    match *numbers {
        [from, to, count] => within_line_limit(count, Command::Replace { from, to, count }),
        _ => Command::Unknown,
    }
}

#[tactic(auto, unfolding(crate::specs::Command::deletion))]
fn deletion(numbers: &[u32]) -> Command
    ensures { result ≡ deletion numbers.now }
{
    match *numbers {
        [from, to] => Command::Delete { from, to },
        _ => Command::Unknown,
    }
}

#[tactic(auto, unfolding(crate::specs::Command::hex_dump))]
fn hex_dump(numbers: &[u32]) -> Command
    ensures { result ≡ hex_dump numbers.now }
{
    match *numbers {
        [number] => Command::Hex { number },
        _ => Command::Unknown,
    }
}

#[tactic(auto, unfolding(crate::specs::Command::without_numbers))]
fn without_numbers(command: Command, numbers: &[u32]) -> Command
    ensures { result ≡ without_numbers command numbers.now }
{
    match *numbers {
        [] => command,
        _ => Command::Unknown,
    }
}

/// Returns the command of a name and the numbers after it.
#[tactic(auto, unfolding(crate::specs::Command::command_named))]
fn command_named(name: &str, numbers: &[u32]) -> Command
    ensures { result ≡ command_named name.now numbers.now }
{
    match name {
        "insert" => insertion(numbers),
        "replace" => replacement(numbers),
        "delete" => deletion(numbers),
        "faults" => without_numbers(Command::Faults, numbers),
        "titles" => without_numbers(Command::Titles, numbers),
        "hex" => hex_dump(numbers),
        "build" => without_numbers(Command::Build, numbers),
        "quit" => without_numbers(Command::Quit, numbers),
        _ => Command::Unknown,
    }
}

/// The same for a word that need not be text.
fn command_named_by_bytes(name: &[u8], numbers: &[u32]) -> Command
    ensures { result ≡ command_named name.now numbers.now }
{
    match str::from_utf8(name) {
        Ok(name) => command_named(name, numbers),
        Err(_) => Command::Unknown,
    }
}

/// Returns the command that the words of a line spell.
fn command_of_words(line: &[u8]) -> Command
    ensures { result ≡ command_of_words (words_of line.now) }
{
    let (name, words) = first_word(line);
    match numbers_of(words) {
        Some(numbers) => command_named_by_bytes(name, numbers.as_slice()),
        None => Command::Unknown,
    }
}

impl Command {
    /// Returns the command of a line without its line feed.
    pub fn of(line: &[u8]) -> Command
        ensures { result ≡ command_of line.now }
    {
        if line.len() > LONGEST_LINE {
            return Command::Unknown;
        }
        command_of_words(without_return(line))
    }

    /// Returns how many of the lines after it belong to the command.
    pub fn line_count(self) -> usize
        ensures { result ≡ line_count self }
    {
        match self {
            Command::Insert { count, .. } | Command::Replace { count, .. } => count as usize,
            _ => 0,
        }
    }
}
