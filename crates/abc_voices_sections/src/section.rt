//! The sections of a tune, and the steps of a voice in each.

ghost use Rattle.std.specs.Prelude.{◌≡◌, ◌&&◌, [], not, false, All, IfOk, IsTrue, map};
ghost use Rattle.abc_repeat.specs.Mark.{is_single};
ghost use Rattle.abc_voices_sections.specs.Items.{items_of};
ghost use Rattle.abc_voices_sections.specs.OwnItems.{is_own_after};
ghost use Rattle.abc_voices_sections.specs.Play.{without_single_bars};
ghost use Rattle.abc_voices_sections.specs.Stage.{steps_at};
ghost use Rattle.abc_voices_sections.specs.Step.{mark_of};
ghost use Rattle.abc_voices_sections.specs.Section.{is_step, is_section, letters, opening_voice, cut, own_steps};

use crate::step::{AsItem, is_own_after, is_own_step, is_section, is_single_bar, voice_after};
use abc_bars_items::Item;
use std::alloc::{AllocError, Global};

/// A section of a tune.
#[derive(Clone, Copy)]
pub struct Section<'s, T> {
    /// The current voice at its beginning.
    pub voice: &'s [u8],
    /// Its steps.
    pub items: &'s [T],
}

/// Returns the current voice before the first V: of the body.
pub fn opening_voice<'a>(tune: &[&'a Item]) -> &'a [u8]
    ensures { result.now ≡ opening_voice (items_of tune.now) }
{
    for item in tune {
        if let Item::Voice {
            opening: true,
            name,
        } = item
        {
            return name.as_slice();
        }
    }
    &[]
}

/// Whether a step is played, or a mark that changes the play: a bar line that neither repeats nor is double does not.
fn is_turn_or_sign<T: AsItem>(step: &T) -> bool
    ensures { result ≡ (is_step (T.item_of step.now) && not (is_single (mark_of (T.item_of step.now)))) }
{
    is_own_step(step) && !is_single_bar(step)
}

/// Returns the steps of a voice from a place on, at which `opening` is the current voice, without the bar lines that change
/// nothing. Names may be long, so they are compared only when the current voice changes.
#[tactic(auto, using(crate::proofs::Owned::own_from_part))]
pub(crate) fn part<T: AsItem>(
    alloc: Global,
    voice: &[u8],
    opening: &[u8],
    steps: &[T],
) -> Result<Vec<T>, AllocError>
    ensures { IfOk result (λ part. part.items
        ≡ without_single_bars T.item_of (own_steps T.item_of voice.now opening.now steps.now)) }
{
    let mut part = Vec::with_capacity(alloc, steps.len())?;
    let mut is_own = opening == voice;
    for step in steps {
        if is_own && is_turn_or_sign(step) {
            part.push(*step)?;
        }
        is_own = is_own_after(voice, is_own, step);
    }
    Ok(part)
}

/// Returns the sections of steps, the opening one first; `first` is the current voice before them. It returns an error if an
/// allocation fails.
pub fn sections<'s, T: AsItem>(
    alloc: Global,
    steps: &'s [T],
    first: &'s [u8],
) -> Result<Vec<Section<'s, T>>, AllocError>
    ensures { IfOk result (λ found. map steps_at found.items ≡ cut T.item_of first.entry.now steps.entry.now) }
{
    let mut found = Vec::new(alloc);
    let mut voice = first;
    let mut opening = first;
    let mut begin = 0;
    for (at, step) in steps.iter().enumerate() {
        if is_section(step) {
            found.push(Section {
                voice: opening,
                items: &steps[begin..at],
            })?;
            begin = at + 1;
            opening = voice;
        } else {
            voice = voice_after(voice, step);
        }
    }
    found.push(Section {
        voice: opening,
        items: &steps[begin..],
    })?;
    Ok(found)
}

/// Whether the opening section is a tune's only one.
pub fn has_one_section(tune: &[&Item]) -> bool
    ensures { IsTrue result → letters (items_of tune.now) ≡ [] }
{
    for item in tune {
        if let Item::Section(_) = item {
            return false;
        }
    }
    true
}

/// Returns the only section of steps without reading them. `first` is the current voice before them. It returns an error if an
/// allocation fails.
pub fn only_section<'s, T: AsItem>(
    alloc: Global,
    steps: &'s [T],
    first: &'s [u8],
) -> Result<Vec<Section<'s, T>>, AllocError>
    requires { All (λ step. is_section (T.item_of step) ≡ false) steps.now }
    ensures { IfOk result (λ found. map steps_at found.items ≡ cut T.item_of first.entry.now steps.entry.now) }
{
    let mut found = Vec::new(alloc);
    found.push(Section {
        voice: first,
        items: steps,
    })?;
    Ok(found)
}

/// Returns the letters of the sections after the opening one. It returns an error if an allocation fails.
pub fn letters(alloc: Global, tune: &[&Item]) -> Result<Vec<u8>, AllocError>
    ensures { IfOk result (λ found. found.items ≡ letters (items_of tune.now)) }
{
    let mut found = Vec::new(alloc);
    for item in tune {
        if let Item::Section(letter) = item {
            found.push(*letter)?;
        }
    }
    Ok(found)
}
