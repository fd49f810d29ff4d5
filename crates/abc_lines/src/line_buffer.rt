//! A text, and a splice of it that has been prepared.

ghost use Rattle.std.specs.Prelude.{◌≡◌, ◌+◌, ◌≤◌, [], IfOk, IsOk, IfErr, Ok, Err, option_copied, slice_get, length};
ghost use Rattle.abc_lines.specs.Text.{IsText, splice_from, spliced};
ghost use Rattle.abc_lines.specs.Edits.{replaced, Refuses};

use crate::edit_error::EditError;
use crate::gap_list::GapList;
use crate::limits::MOST_LINES;
use crate::line::{Line, are_lines, copies};
use crate::splice_patch::SplicePatch;
use std::alloc::{AllocError, Global};
use std::marker::Model;

/// The lines of a text, with a gap where it was last changed. Contracts see the list of them, the gap and the room.
#[derive(Drop)]
pub struct LineBuffer {
    lines: GapList<Line>,
}

impl Model for LineBuffer {
    ghost use Rattle.abc_lines.specs.Text.{IsText};
    ghost use Rattle.abc_lines.specs.LineBuffer.{LineBufferView, line_buffer_view};

    ghost Value = { LineBufferView };

    ghost view = { λ b. line_buffer_view b.lines };

    ghost invariant = { λ b. IsText b.lines.items };
}

/// A splice of a text, with all the memory that it needs: a list with more room if the text's own has too little.
/// It must be spent, by `commit` of its text or by `drop_patch`. Contracts see the text that it was prepared on and
/// the text after it.
pub struct LinePatch {
    splice: SplicePatch<Line>,
}

impl Model for LinePatch {
    ghost use Rattle.abc_lines.specs.Text.{IsText};
    ghost use Rattle.abc_lines.specs.LineBuffer.{LinePatchView, line_patch_view};

    ghost Value = { LinePatchView };

    ghost view = { λ p. line_patch_view p.splice };

    ghost invariant = { λ p. IsText p.splice.after.items };
}

impl LineBuffer {
    /// Returns a text with no lines. It allocates nothing and returns no error.
    pub fn new(alloc: Global) -> Result<LineBuffer, AllocError>
        ensures empty { IfOk result (λ lines. lines.text ≡ []) }
        ensures succeeds { IsOk result }
    {
        Ok(LineBuffer {
            lines: GapList::with_room(alloc, 0)?,
        })
    }

    /// The allocator of the lines.
    pub fn allocator(&self) -> Global {
        self.lines.allocator()
    }

    /// Returns the number of lines.
    pub fn len(&self) -> usize
        ensures value { result ≡ length self.now.text }
        ensures limits { IsText self.now.text }
    {
        self.lines.len()
    }

    /// Returns the line at index `i`, counted from 0, or none if the text has no such line.
    pub fn line(&self, i: usize) -> Option<&[u8]>
        ensures { option_copied result ≡ slice_get self.now.text i }
    {
        match self.lines.get(i) {
            Some(line) => Some(line.as_slice()),
            None => None,
        }
    }

    /// Prepares to replace the `removed` lines from index `at` on by copies of `lines`. Nothing changes. Refuses, in the order of
    /// `EditError`: a range outside the text, a bad line, too many lines, out of memory.
    pub fn splice_prepare(
        &self,
        at: usize,
        removed: usize,
        lines: &[Vec<u8>],
    ) -> Result<LinePatch, EditError>
        ensures on { IfOk result (λ patch. patch.on ≡ self.now) }
        ensures after { IfOk result
            (λ patch. replaced self.now.text (splice_from at removed lines.now) ≡ Ok patch.after) }
        ensures limits { IfOk result (λ patch. IsText patch.after) }
        ensures refused { IfErr result (λ e. Refuses e (replaced self.now.text (splice_from at removed lines.now))) }
    {
        self.validate(at, removed, lines)?;
        let alloc = self.allocator();
        let lines = copies(alloc, lines)?;
        let splice = self.lines.splice_prepare(alloc, at, removed, lines)?;
        Ok(LinePatch { splice })
    }

    /// Whether the lines may be spliced in, or the first reason why they may not.
    fn validate(&self, at: usize, removed: usize, lines: &[Vec<u8>]) -> Result<(), EditError>
        ensures inside { IfOk result (λ _. at + removed ≤ length self.now.text) }
        ensures limits { let s = splice_from at removed lines.now in
            IfOk result (λ _. IsText (spliced self.now.text s)) }
        ensures accepted { let s = splice_from at removed lines.now in
            IfOk result (λ _. replaced self.now.text s ≡ Ok (spliced self.now.text s)) }
        ensures refused { let s = splice_from at removed lines.now in
            IfErr result (λ e. replaced self.now.text s ≡ Err e) }
    {
        let count = self.len();
        if at > count || removed > count - at {
            return Err(EditError::BadRange);
        }
        if !are_lines(lines) {
            return Err(EditError::BadLine);
        }
        let kept = count - removed;
        if lines.len() > MOST_LINES - kept {
            return Err(EditError::TooLarge);
        }
        Ok(())
    }

    /// Commits a prepared splice without allocating. The patch belongs to the text as it is now.
    pub fn commit(&mut self, patch: LinePatch)
        requires { patch.on ≡ self.old }
        ensures { self.new.text ≡ patch.after }
    {
        let LinePatch { splice } = patch;
        self.lines.commit(splice);
    }
}

impl LinePatch {
    /// Drops the patch: nothing changes.
    pub fn drop_patch(self) {
        let LinePatch { splice } = self;
        splice.drop_patch();
    }
}
