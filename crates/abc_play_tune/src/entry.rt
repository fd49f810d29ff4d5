//! The entries of a play: one for each tone, rest and bar line that is passed.

ghost use Rattle.std.specs.Prelude.{◌≡◌, ◌++◌, [], IfOk, OnOk};
ghost use Rattle.abc_voices_sections.specs.Step.{tones_of};
ghost use Rattle.abc_play_sections.specs.Step.{as_item};
ghost use Rattle.abc_play_tune.specs.Entries.{end_by, tone_entry, tone_entries, item_entries, step_entries, previous_after, entries_from};

use crate::joined::is_joined;
use crate::timed::TimedStep;
use abc_bars_items::{Item, Tone, Tones, TonesView};
use abc_play_sections::PlayStep;
use abc_time::Grains;
use std::alloc::{AllocError, Global};

/// What an entry of a play is.
#[derive(Clone, Copy, Debug, PartialEq, Eq)]
pub enum EntryKind {
    /// One tone.
    Note {
        /// Its index in its note or chord.
        tone: usize,
        /// The key of MIDI; None if MIDI has no key for it, and it is silent.
        key: Option<u8>,
        /// The velocity of MIDI.
        velocity: u8,
        /// Whether a tie joins it with a tone before it.
        joined: bool,
        /// Whether a tie follows it and it has a key.
        tied: bool,
    },
    /// A rest, or a rest of bars.
    Rest,
    /// A bar line that is passed.
    Bar,
}

/// A tone, rest or bar line that is played.
#[derive(Clone, Copy, Debug)]
pub struct PlayEntry {
    /// When it begins.
    pub on: Grains,
    /// Its own end: a tie does not lengthen it.
    pub off: Grains,
    /// The index of its item in the tune.
    pub place: usize,
    pub kind: EntryKind,
}

/// Returns the end of what begins at a moment.
fn end_by(at: Grains, length: Grains) -> Grains
    ensures { result ≡ end_by at.0 length }
{
    Grains(at.0.saturating_add(length.0))
}

/// Returns the entry of a tone, after the tones `past` of its time token.
fn tone_entry(at: Grains, place: usize, previous: &[Tone], past: &[Tone], tone: Tone) -> PlayEntry
    ensures { result ≡ tone_entry previous.now at.0 place past.now tone }
{
    PlayEntry {
        on: at,
        off: end_by(at, tone.length),
        place,
        kind: EntryKind::Note {
            tone: past.len(),
            key: tone.key,
            velocity: tone.velocity,
            joined: is_joined(previous, past, tone.key),
            tied: tone.tied && tone.key.is_some(),
        },
    }
}

/// Appends the entries of the tones of a time token.
fn put_tones(
    entries: &mut Vec<PlayEntry>,
    at: Grains,
    place: usize,
    previous: &[Tone],
    tones: &[Tone],
) -> Result<(), AllocError>
    ensures { OnOk result (entries.new.items ≡ entries.old.items ++ tone_entries previous.now at.0 place [] tones.now) }
{
    for (index, tone) in tones.iter().enumerate() {
        let entry = tone_entry(at, place, previous, &tones[..index], *tone);
        entries.push(entry)?;
    }
    Ok(())
}

/// Appends the entries of a note or chord.
fn put_token(
    entries: &mut Vec<PlayEntry>,
    at: Grains,
    place: usize,
    previous: &[Tone],
    tones: &Tones,
) -> Result<(), AllocError>
    ensures { OnOk result (entries.new.items ≡ entries.old.items ++ tone_entries previous.now at.0 place [] tones.now) }
{
    match tones.view() {
        TonesView::One(tone) => put_tones(entries, at, place, previous, &[tone]),
        TonesView::List(tones) => put_tones(entries, at, place, previous, tones),
    }
}

/// Appends the entries of an item that is played at a moment.
fn put_item(
    entries: &mut Vec<PlayEntry>,
    at: Grains,
    place: usize,
    previous: &[Tone],
    item: &Item,
) -> Result<(), AllocError>
    ensures { OnOk result (entries.new.items ≡ entries.old.items ++ item_entries previous.now at.0 place item.now) }
{
    match item {
        Item::Tone { tones, .. } => put_token(entries, at, place, previous, tones),
        Item::Rest { length, .. } => {
            entries.push(PlayEntry {
                on: at,
                off: end_by(at, *length),
                place,
                kind: EntryKind::Rest,
            })?;
            Ok(())
        }
        _ => Ok(()),
    }
}

/// Appends the entries of a step that is played at a moment.
fn put_step(
    entries: &mut Vec<PlayEntry>,
    at: Grains,
    previous: &[Tone],
    step: PlayStep,
) -> Result<(), AllocError>
    ensures { OnOk result (entries.new.items ≡ entries.old.items ++ step_entries previous.now at.0 step.entry) }
{
    match step {
        PlayStep::Item { item, place } => put_item(entries, at, place, previous, item),
        PlayStep::BarLine { place } => {
            entries.push(PlayEntry {
                on: at,
                off: at,
                place,
                kind: EntryKind::Bar,
            })?;
            Ok(())
        }
    }
}

/// Makes the tones of a note or chord those of the last time token.
fn set_token(previous: &mut Vec<Tone>, tones: &Tones) -> Result<(), AllocError>
    ensures { OnOk result (previous.new.items ≡ tones.now) }
{
    previous.clear();
    match tones.view() {
        TonesView::One(tone) => previous.push(tone)?,
        TonesView::List(tones) => previous.extend_from_slice(tones)?,
    }
    Ok(())
}

/// Makes the tones of an item those of the last time token, if it is one.
fn set_previous(previous: &mut Vec<Tone>, item: &Item) -> Result<(), AllocError>
    ensures { OnOk result (previous.new.items ≡ previous_after previous.old.items (tones_of item.now)) }
{
    match item {
        Item::Tone { tones, .. } => set_token(previous, tones),
        Item::Rest { bar: false, .. } => {
            previous.clear();
            Ok(())
        }
        _ => Ok(()),
    }
}

/// Makes the tones of a step those of the last time token, if it is one.
fn set_after(previous: &mut Vec<Tone>, step: PlayStep) -> Result<(), AllocError>
    ensures { OnOk result (previous.new.items ≡ previous_after previous.old.items (tones_of (as_item step.entry))) }
{
    match step {
        PlayStep::Item { item, .. } => set_previous(previous, item),
        PlayStep::BarLine { .. } => Ok(()),
    }
}

/// Returns the entries of what a voice plays, in order of play. It returns an error if an allocation fails.
pub fn entries_of(alloc: Global, timed: &[TimedStep]) -> Result<Vec<PlayEntry>, AllocError>
    ensures { IfOk result (λ entries. entries.items ≡ entries_from [] timed.now) }
{
    let mut entries = Vec::with_capacity(alloc, timed.len())?;
    let mut previous = Vec::new(alloc);
    for one in timed {
        put_step(&mut entries, one.at, &previous, one.step)?;
        set_after(&mut previous, one.step)?;
    }
    Ok(entries)
}
