//! What a number plays, by `abc_play`.

ghost use Rattle.std.specs.Prelude.{◌≡◌, IfErr, IfOk, Some};
ghost use Rattle.tests_surface.specs.Plays.{RefusesPlay, play_of};

use abc_live::Session;
use abc_play::{EntryKind, Place, Play, PlayError, PlayedEntry, Sequence, play_of_number};
use std::alloc::Global;

/// Returns the play of a number.
pub fn number_play(alloc: Global, session: &Session, number: u32) -> Result<Play, PlayError>
    ensures value { IfOk result (λ play. play_of session.now.text number ≡ Some play.tracks) }
    ensures refused { IfErr result (RefusesPlay session.now.text number) }
{
    play_of_number(alloc, session, number)
}

/// Returns the first entry of a track.
pub fn first_entry(track: &Sequence<PlayedEntry>) -> Option<PlayedEntry> {
    track.as_slice().first().copied()
}

/// Returns the key of an entry, if it has one.
pub fn entry_key(entry: PlayedEntry) -> Option<u8> {
    match entry.kind {
        EntryKind::Note { key, .. } => key,
        EntryKind::Rest | EntryKind::Bar => None,
    }
}

/// Returns the place of an entry in the text.
pub fn entry_place(entry: PlayedEntry) -> Place {
    entry.place
}
