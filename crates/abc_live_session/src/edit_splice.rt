//! The splice of a text that an edit names.

ghost use Rattle.std.specs.Prelude.{◌≡◌};
ghost use Rattle.std.specs.Option.{option_map};
ghost use Rattle.abc_lines.specs.Edits.{replacement};
ghost use Rattle.abc_lines.specs.Text.{lines_of};
ghost use Rattle.abc_live_session.specs.Edit.{splice_of};
ghost use Rattle.abc_live_text.specs.ItemSplice.{splice_in};

use crate::edit::Edit;
use abc_live_text::ItemSplice;

/// Returns the splice that an edit names, with lines counted from 0. None if its numbers name no lines.
pub(crate) fn splice_of(edit: &Edit) -> Option<ItemSplice<'_, Vec<u8>>>
    ensures { option_map splice_in result ≡ splice_of edit.now }
{
    match edit {
        Edit::Insert { at, lines } => {
            if *at == 0 {
                return None;
            }
            Some(ItemSplice {
                at: *at as usize - 1,
                removed: 0,
                new: lines,
            })
        }
        Edit::Replace { from, to, lines } => splice_between(*from, *to, lines),
        Edit::Delete { from, to } => splice_between(*from, *to, &[]),
    }
}

/// Returns the splice that replaces the lines from one number to another by others. None if it names no lines.
fn splice_between(from: u32, to: u32, new: &[Vec<u8>]) -> Option<ItemSplice<'_, Vec<u8>>>
    ensures { option_map splice_in result ≡ replacement from to (lines_of new.now) }
{
    if from == 0 || from > to {
        return None;
    }
    Some(ItemSplice {
        at: from as usize - 1,
        removed: (to - from) as usize + 1,
        new,
    })
}
