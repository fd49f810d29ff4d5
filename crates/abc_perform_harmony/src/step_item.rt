//! A step of the accompaniment as an item.

ghost use Rattle.std.specs.Prelude.{◌≡◌, ◌-◌, ◌≤◌, ◌∷◌, [], All, IfOk, length, map};
ghost use Rattle.abc_bars_items.specs.Item.{AreTones, IsTone};
ghost use Rattle.abc_marks.specs.ChordName.{IsChordName};
ghost use Rattle.abc_bars_items.specs.Velocity.{IsVelocity};
ghost use Rattle.abc_perform_note.specs.Length.{IsLengthOfANote};
ghost use Rattle.abc_perform_item.specs.Performance.{IsPerformed};
ghost use Rattle.abc_perform_harmony.specs.Harmony.{IsHarmony};
ghost use Rattle.abc_perform_harmony.specs.StepItem.{AreKeys, chord_item, keys_in, rest_item, step_item, tone_of, velocity_of};

use crate::harmony::Harmony;
use crate::harmony_mark::{Part, SoundingChord};
use abc_bars_items::{HIGHEST_KEY, Item, Tone, Tones};
use abc_marks::StepSound;
use abc_perform_chords::{StepSpan, bass_keys, chord_keys};
use abc_perform_item::{Performed, Place, Source};
use abc_text::ShortSequence;
use abc_time::Grains;
use std::alloc::{AllocError, Global};

/// Returns the velocity of a voice of the accompaniment.
fn velocity_of(part: Part, harmony: Harmony) -> u8
    requires { IsHarmony harmony }
    ensures value { result ≡ velocity_of part harmony }
    ensures range { IsVelocity result }
{
    match part {
        Part::Chords => harmony.chord_velocity,
        Part::Bass => harmony.bass_velocity,
    }
}

/// Returns the keys of a chord in a voice of the accompaniment.
#[tactic(auto, using(crate::proofs::Keys::bass_are_keys, crate::proofs::Keys::chords_are_keys))]
fn keys_in(
    alloc: Global,
    part: Part,
    chord: SoundingChord,
    sound: StepSound,
) -> Result<Vec<u8>, AllocError>
    requires { IsChordName chord.name }
    ensures value { IfOk result (λ keys. keys.items ≡ keys_in part chord sound) }
    ensures range { IfOk result (λ keys. AreKeys keys.items) }
{
    match part {
        Part::Chords => chord_keys(alloc, chord.name, sound, chord.by),
        Part::Bass => bass_keys(alloc, chord.name, sound, chord.by),
    }
}

/// Returns a key as a tone.
fn tone_of(velocity: u8, length: Grains, key: u8) -> Tone
    requires velocity { IsVelocity velocity }
    requires length { IsLengthOfANote length.0 }
    requires key { key ≤ HIGHEST_KEY }
    ensures value { result ≡ tone_of velocity length key }
    ensures range { IsTone result }
{
    Tone {
        length,
        key: Some(key),
        velocity,
        tied: false,
    }
}

/// Returns keys as tones.
fn tones_of(
    alloc: Global,
    velocity: u8,
    length: Grains,
    keys: &[u8],
) -> Result<ShortSequence<Tone>, AllocError>
    requires velocity { IsVelocity velocity }
    requires length { IsLengthOfANote length.0 }
    requires keys { All (λ key. key ≤ HIGHEST_KEY) keys.now }
    ensures value { IfOk result (λ tones. tones ≡ map (tone_of velocity length) keys.now) }
    ensures range { IfOk result (λ tones. All IsTone tones) }
{
    let mut tones = ShortSequence::new(alloc);
    for key in keys {
        tones.push(tone_of(velocity, length, *key))?;
    }
    Ok(tones)
}

/// Returns a rest.
fn rest_item(length: Grains) -> Performed
    requires { IsLengthOfANote length.0 }
    ensures value { result ≡ rest_item length }
    ensures range { IsPerformed result }
{
    Performed {
        item: Item::Rest { length, bar: false },
        source: Source::Nothing,
    }
}

/// Returns keys that sound together, or a rest if there are none.
fn chord_item(
    alloc: Global,
    velocity: u8,
    place: Place,
    length: Grains,
    keys: &[u8],
) -> Result<Performed, AllocError>
    requires velocity { IsVelocity velocity }
    requires length { IsLengthOfANote length.0 }
    requires keys { AreKeys keys.now }
    ensures value { IfOk result (λ item. item ≡ chord_item velocity place length keys.now) }
    ensures range { IfOk result IsPerformed }
{
    if keys.is_empty() {
        return Ok(rest_item(length));
    }
    let tones = tones_of(alloc, velocity, length, keys)?;
    Ok(Performed {
        item: Item::Tone {
            tones: Tones::of(alloc, tones)?,
            length,
        },
        source: Source::ChordName(place),
    })
}

/// Returns what a voice of the accompaniment plays in a step.
pub(crate) fn step_item(
    alloc: Global,
    part: Part,
    harmony: Harmony,
    step: StepSpan,
) -> Result<Performed, AllocError>
    requires harmony { IsHarmony harmony }
    requires order { step.from.0 ≤ step.to.0 }
    requires length { IsLengthOfANote step.to.0 }
    ensures value { IfOk result (λ item. item ≡ step_item part harmony step) }
    ensures range { IfOk result IsPerformed }
{
    let length = Grains(step.to.0 - step.from.0);
    match harmony.chord {
        Some(chord) if harmony.on => {
            let keys = keys_in(alloc, part, chord, step.sound)?;
            chord_item(
                alloc,
                velocity_of(part, harmony),
                chord.place,
                length,
                &keys,
            )
        }
        _ => Ok(rest_item(length)),
    }
}
