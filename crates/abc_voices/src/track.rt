//! The voices of a tune.

ghost use Rattle.std.specs.Prelude.{◌≡◌, IfOk, OnOk, map};
ghost use Rattle.abc_voices_sections.specs.Items.{items_of};
ghost use Rattle.abc_voices_sections.specs.Section.{opening_voice};
ghost use Rattle.abc_voices.specs.Track.{with_name, voice_names, plays_first, has_unnamed_track};

use abc_bars_items::Item;
use indexmap::IndexSet;
use std::alloc::{AllocError, Global};

/// Appends the name of a voice to the known ones, unless it is one of them.
fn put_name<'a>(known: &mut IndexSet<&'a [u8]>, name: &'a [u8]) -> Result<(), AllocError>
    ensures { OnOk result (map (λ voice. voice.now) known.new.keys
        ≡ with_name (map (λ voice. voice.now) known.old.keys) name.entry.now) }
{
    known.insert(name)?;
    Ok(())
}

/// Returns the names of the voices of a tune, first the empty one for the voice without a name. It returns an error if an
/// allocation fails.
pub fn voice_names<'a>(alloc: Global, tune: &[&'a Item]) -> Result<IndexSet<&'a [u8]>, AllocError>
    ensures { IfOk result (λ voices. map (λ voice. voice.now) voices.keys ≡ voice_names (items_of tune.now)) }
{
    let mut voices = IndexSet::new(alloc);
    let nameless: &[u8] = &[];
    voices.insert(nameless)?;
    for item in tune {
        if let Item::Voice { name, .. } = item {
            put_name(&mut voices, name.as_slice())?;
        }
    }
    Ok(voices)
}

/// Whether a note, chord, rest or bar rest is before the first V: of the body.
fn plays_first(tune: &[&Item]) -> bool
    ensures { result ≡ plays_first (items_of tune.now) }
{
    for item in tune {
        match item {
            Item::Tone { .. } | Item::Rest { .. } => return true,
            Item::Voice { opening: false, .. } => return false,
            _ => {}
        }
    }
    false
}

/// Whether the voice without a name has a track, if `opening` is the current voice before the first V: of the body.
pub fn has_unnamed_track(tune: &[&Item], opening: &[u8]) -> bool
    requires { opening.now ≡ opening_voice (items_of tune.now) }
    ensures { result ≡ has_unnamed_track (items_of tune.now) }
{
    opening.is_empty() && plays_first(tune)
}
