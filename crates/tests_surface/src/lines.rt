//! The lines of a text, by `abc_lines`.

ghost use Rattle.std.specs.Prelude.{◌≡◌, ◌+◌, ◌<◌, ◌≤◌, [], ◌∷◌, IfErr, IfOk, Ok, Some, length, option_copied, slice_get};
ghost use Rattle.abc_lines.specs.Edits.{Refuses, replaced};
ghost use Rattle.abc_lines.specs.Text.{splice_from};

use abc_lines::{EditError, GapList, LineBuffer, LinePatch, SplicePatch};
use std::alloc::{AllocError, Global};

/// Returns a text without lines.
pub fn no_lines(alloc: Global) -> Result<LineBuffer, AllocError>
    ensures value { IfOk result (λ buffer. buffer.text ≡ []) }
{
    LineBuffer::new(alloc)
}

/// Returns the last line.
pub fn last_line(buffer: &LineBuffer) -> Option<&[u8]> {
    let count = buffer.len();
    if count == 0 {
        return None;
    }
    buffer.line(count - 1)
}

/// Returns a line.
pub fn line_at(buffer: &LineBuffer, i: usize) -> Option<&[u8]>
    ensures value { option_copied result ≡ slice_get buffer.now.text i }
{
    buffer.line(i)
}

/// Prepares a splice.
pub fn prepare_splice(
    buffer: &LineBuffer,
    at: usize,
    removed: usize,
    lines: &[Vec<u8>],
) -> Result<LinePatch, EditError>
    ensures ok { IfOk result (λ patch. replaced buffer.now.text (splice_from at removed lines.now) ≡ Ok patch.after) }
    ensures refused { IfErr result (λ e. Refuses e (replaced buffer.now.text (splice_from at removed lines.now))) }
{
    buffer.splice_prepare(at, removed, lines)
}

/// Commits a patch.
pub fn commit_splice(buffer: &mut LineBuffer, patch: LinePatch)
    requires { patch.on ≡ buffer.old }
    ensures value { buffer.new.text ≡ patch.after }
{
    buffer.commit(patch);
}

/// Drops a patch.
pub fn drop_splice(patch: LinePatch) {
    patch.drop_patch();
}

/// Returns a list of one item.
pub fn list_of(alloc: Global, item: u32) -> Result<GapList<u32>, AllocError>
    ensures value { IfOk result (λ list. list.items ≡ item ∷ []) }
{
    let mut list = GapList::with_room(alloc, 1)?;
    list.insert(0, item);
    Ok(list)
}

/// Returns the count of a list's items, its room for more, the place of its gap, and how far the gap has moved.
pub fn sizes_of(list: &GapList<u32>) -> (usize, usize, usize, u64)
    ensures value { result ≡ (length list.now.items, list.now.room, list.now.gap, list.now.moved) }
{
    (list.len(), list.room(), list.gap(), list.moved())
}

/// Returns an item of a list.
pub fn item_at(list: &GapList<u32>, i: usize) -> Option<&u32>
    ensures value { option_copied result ≡ slice_get list.now.items i }
{
    list.get(i)
}

/// Takes the first item out of a list.
pub fn take_first(list: &mut GapList<u32>) -> u32
    requires { 0 < length list.old.items }
    ensures value { slice_get list.old.items 0 ≡ Some result }
{
    list.remove(0)
}

/// Prepares to replace items of a list.
pub fn prepare_items(
    alloc: Global,
    list: &GapList<u32>,
    at: usize,
    removed: usize,
    items: Vec<u32>,
) -> Result<SplicePatch<u32>, AllocError>
    requires { at + removed ≤ length list.now.items }
    ensures value { IfOk result (λ patch. patch.on ≡ list.now) }
{
    list.splice_prepare(alloc, at, removed, items)
}

/// Commits a patch of items.
pub fn commit_items(list: &mut GapList<u32>, patch: SplicePatch<u32>)
    requires { patch.on ≡ list.old }
    ensures value { list.new ≡ patch.after }
{
    list.commit(patch);
}

/// Whether an edit is refused for its lines and not because an allocation failed.
pub fn is_of_lines(error: EditError) -> bool {
    match error {
        EditError::BadRange | EditError::BadLine | EditError::TooLarge => true,
        EditError::OutOfMemory => false,
    }
}
