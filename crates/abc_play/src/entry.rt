//! The entries of a play, with their places in the text.

ghost use Rattle.std.specs.Prelude.{◌≡◌, map, IfOk};
ghost use Rattle.abc_time.specs.Grains.{tick_at};
ghost use Rattle.abc_play.specs.Play.{placed_entry, placed_track, tone_of};

use crate::place::{Place, place_at};
use abc_play_tune::{EntryKind, PlayEntry, TimedStep, entries_of};
use abc_text::{Sequence, ShortSequence};
use abc_time::Grains;
use std::alloc::{AllocError, Global};

/// A tone, rest or bar line that is played. Its moments are ticks from the beginning of the tune, rounded down, as in the file.
#[derive(Clone, Copy, Debug)]
pub struct PlayedEntry {
    /// When it begins.
    pub on: u64,
    /// Its own end: a tie does not lengthen it. A silent tone may last longer than any file.
    pub off: u64,
    pub kind: EntryKind,
    /// Where it is in the text.
    pub place: Place,
}

/// A tick: 1,920 are a whole note.
const GRAINS_OF_A_TICK: u64 = 484_323_840;

/// Returns the tick of a moment.
#[tactic(auto, unfolding(abc_time::specs::Grains::grains_of_a_tick))]
fn tick_at(moment: Grains) -> u64
    ensures { result ≡ tick_at moment.0 }
{
    moment.0 / GRAINS_OF_A_TICK
}

/// Returns the index of a tone in its note or chord.
fn tone_of(kind: EntryKind) -> usize
    ensures { result ≡ tone_of kind }
{
    match kind {
        EntryKind::Note { tone, .. } => tone,
        EntryKind::Rest | EntryKind::Bar => 0,
    }
}

/// Returns an entry with its place.
fn placed_entry(places: &[ShortSequence<Place>], entry: PlayEntry) -> PlayedEntry
    ensures { result ≡ placed_entry places.now entry }
{
    PlayedEntry {
        on: tick_at(entry.on),
        off: tick_at(entry.off),
        kind: entry.kind,
        place: place_at(places, entry.place, tone_of(entry.kind)),
    }
}

/// Returns entries with their places.
fn placed_entries(
    alloc: Global,
    places: &[ShortSequence<Place>],
    entries: &[PlayEntry],
) -> Result<Sequence<PlayedEntry>, AllocError>
    ensures { IfOk result (λ track. track ≡ map (placed_entry places.now) entries.now) }
{
    let mut track = Vec::with_capacity(alloc, entries.len())?;
    for entry in entries {
        track.push(placed_entry(places, *entry))?;
    }
    Ok(Sequence::from(track))
}

/// Returns the entries of what a voice plays.
fn placed_track(
    alloc: Global,
    places: &[ShortSequence<Place>],
    timed: &[TimedStep],
) -> Result<Sequence<PlayedEntry>, AllocError>
    ensures { IfOk result (λ track. track ≡ placed_track places.now timed.now) }
{
    let entries = entries_of(alloc, timed)?;
    placed_entries(alloc, places, &entries)
}

/// Returns the entries of what voices play.
pub(crate) fn placed_tracks(
    alloc: Global,
    places: &[ShortSequence<Place>],
    voices: &[Sequence<TimedStep>],
) -> Result<Sequence<Sequence<PlayedEntry>>, AllocError>
    ensures { IfOk result (λ tracks. tracks ≡ map (placed_track places.now) voices.now) }
{
    let mut tracks = Vec::with_capacity(alloc, voices.len())?;
    for timed in voices {
        let track = placed_track(alloc, places, timed.as_slice())?;
        tracks.push(track)?;
    }
    Ok(Sequence::from(tracks))
}
