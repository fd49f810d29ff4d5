//! The items of a tune that come from its fields.

ghost use Rattle.std.specs.Prelude.{◌≡◌, IfOk};
ghost use Rattle.abc_voices_sections.specs.Items.{items_of};
ghost use Rattle.abc_voices.specs.Fields.{is_music, is_change, is_steady, sets_program, keeps_programs, without_music};

use crate::setting::{Programs, Setting};
use abc_bars_items::Item;
use abc_voices_sections::{is_field, is_step};
use std::alloc::{AllocError, Global};

/// Whether an item is music: a note, a chord, a rest, a bar line or the beginning of an ending.
fn is_music(item: &Item) -> bool
    ensures { result ≡ is_music item.now }
{
    matches!(
        item,
        Item::Tone { .. } | Item::Rest { .. } | Item::Bar(_) | Item::Ending(_)
    )
}

/// Whether an item may change the tempo, the meter, the key or the program while a tune is played.
fn is_change(item: &Item) -> bool
    ensures { result ≡ is_change item.now }
{
    is_field(item) && is_step(item)
}

/// Whether no item of a tune changes its tempo, its meter, its key or a program while it is played.
pub(crate) fn is_steady(fields: &[&Item]) -> bool
    ensures { result ≡ is_steady (items_of fields.now) }
{
    for item in fields {
        if is_change(item) {
            return false;
        }
    }
    true
}

/// Whether an item sets a program.
fn sets_program(item: &Item) -> bool
    ensures { result ≡ sets_program item.now }
{
    Programs::value_of(item).is_some()
}

/// Whether no item of a tune sets a program while it is played.
pub(crate) fn keeps_programs(fields: &[&Item]) -> bool
    ensures { result ≡ keeps_programs (items_of fields.now) }
{
    for item in fields {
        if sets_program(item) && is_step(item) {
            return false;
        }
    }
    true
}

/// Returns the items of a tune that are not music. They are few, and they alone determine what the tune opens with, its
/// parts and their order, and its voices.
pub(crate) fn without_music<'a>(
    alloc: Global,
    tune: &[&'a Item],
) -> Result<Vec<&'a Item>, AllocError>
    ensures { IfOk result (λ found. items_of found.items ≡ without_music (items_of tune.now)) }
{
    let mut found = Vec::new(alloc);
    for item in tune {
        if !is_music(item) {
            found.push(*item)?;
        }
    }
    Ok(found)
}
