//! The calls that read the play of a number.

ghost use Rattle.std.specs.Prelude.{◌≡◌, ◌++◌, IfOk, None, OnOk, map};
ghost use Rattle.abc_play.specs.Play.{play_of};
ghost use Rattle.c_handle.specs.Copies.{copy_answer};
ghost use Rattle.c_handle.specs.PlayRecords.{CopiesPlay, play_answer, play_record, play_records, refusal_code, track_sizes};
ghost use Rattle.c_handle.specs.Slot.{session_in};
ghost use Rattle.c_handle.specs.TokenRecords.{CopiesFound, CopiesOrFails};

use crate::codes::{CODE_NOT_FOUND, CODE_OUT_OF_MEMORY, CODE_TOO_LONG};
use crate::copying::{CopyAnswer, copy, without_items};
use crate::play_record::PlayRecord;
use crate::slot::{SessionSlot, read_session};
use abc_live::Session;
use abc_play::{Play, PlayError, PlayedEntry, Sequence, play_of_number};
use std::alloc::{AllocError, Global};

/// Returns the code of a refused play.
fn refusal_code(error: PlayError) -> u32
    ensures value { result ≡ refusal_code error }
{
    match error {
        PlayError::NoSuchNumber => CODE_NOT_FOUND,
        PlayError::TooLong => CODE_TOO_LONG,
        PlayError::OutOfMemory => CODE_OUT_OF_MEMORY,
    }
}

/// Returns how many entries each track of a file has. The first is the conductor's, which has none.
fn sizes_of(alloc: Global, tracks: &[Sequence<PlayedEntry>]) -> Result<Vec<usize>, AllocError>
    ensures value { IfOk result (λ sizes. sizes.items ≡ track_sizes tracks.now) }
{
    let mut sizes = Vec::new(alloc);
    sizes.push(0)?;
    for entries in tracks {
        sizes.push(entries.len())?;
    }
    Ok(sizes)
}

/// Appends the records of the entries of a track.
fn put_records(records: &mut Vec<PlayRecord>, entries: &[PlayedEntry]) -> Result<(), AllocError>
    ensures value { OnOk result (records.new.items ≡ records.old.items ++ map play_record entries.now) }
{
    for entry in entries {
        records.push(PlayRecord::of(*entry))?;
    }
    Ok(())
}

/// Returns the records of the entries of tracks, one track after another.
fn records_of(
    alloc: Global,
    tracks: &[Sequence<PlayedEntry>],
) -> Result<Vec<PlayRecord>, AllocError>
    ensures value { IfOk result (λ records. records.items ≡ play_records tracks.now) }
{
    let mut records = Vec::new(alloc);
    for entries in tracks {
        put_records(&mut records, entries.as_slice())?;
    }
    Ok(records)
}

/// Copies the sizes of the tracks of a play, unless an allocation fails.
fn copy_sizes(alloc: Global, play: &Play, sizes: &mut [usize]) -> CopyAnswer
    ensures value { CopiesOrFails (copy_answer (track_sizes play.now.tracks) sizes.old) sizes.old (result.code, result.count, sizes.new) }
{
    match sizes_of(alloc, play.tracks.as_slice()) {
        Ok(found) => copy(&found, sizes),
        Err(_) => without_items(CODE_OUT_OF_MEMORY),
    }
}

/// Copies the entries of a play, unless an allocation fails.
fn copy_records(alloc: Global, play: &Play, records: &mut [PlayRecord]) -> CopyAnswer
    ensures value { CopiesOrFails (copy_answer (play_records play.now.tracks) records.old) records.old
        (result.code, result.count, records.new) }
{
    match records_of(alloc, play.tracks.as_slice()) {
        Ok(found) => copy(&found, records),
        Err(_) => without_items(CODE_OUT_OF_MEMORY),
    }
}

/// Copies the sizes of the tracks of a number's play, unless it is refused or an allocation fails.
#[tactic(auto, using(crate::proofs::PlayCopies::copied, crate::proofs::PlayCopies::refused))]
fn sizes_of_number(alloc: Global, session: &Session, number: u32, sizes: &mut [usize]) -> CopyAnswer
    ensures value { CopiesFound (play_of session.now.text number) (play_answer track_sizes session.now.text number sizes.old)
        sizes.old (result.code, result.count, sizes.new) }
{
    match play_of_number(alloc, session, number) {
        Ok(play) => copy_sizes(alloc, &play, sizes),
        Err(error) => without_items(refusal_code(error)),
    }
}

/// Copies the entries of a number's play, unless it is refused or an allocation fails.
#[tactic(auto, using(crate::proofs::PlayCopies::copied, crate::proofs::PlayCopies::refused))]
fn records_of_number(
    alloc: Global,
    session: &Session,
    number: u32,
    records: &mut [PlayRecord],
) -> CopyAnswer
    ensures value { CopiesFound (play_of session.now.text number) (play_answer play_records session.now.text number records.old)
        records.old (result.code, result.count, records.new) }
{
    match play_of_number(alloc, session, number) {
        Ok(play) => copy_records(alloc, &play, records),
        Err(error) => without_items(refusal_code(error)),
    }
}

/// Copies how many entries each track of a number's file has. The first is the conductor's, which has none.
pub fn copy_tracks(
    alloc: Global,
    slot: &mut SessionSlot,
    number: u32,
    sizes: &mut [usize],
) -> CopyAnswer
    ensures unchanged { session_in slot.new ≡ session_in slot.old }
    ensures empty { session_in slot.old ≡ None → slot.new ≡ slot.old }
    ensures value { CopiesPlay track_sizes number (session_in slot.old) sizes.old (result.code, result.count, sizes.new) }
{
    read_session!(slot, alloc, session => sizes_of_number(alloc, &session.session, number, sizes))
}

/// Copies the entries of a number's play, one track after another.
pub fn copy_play(
    alloc: Global,
    slot: &mut SessionSlot,
    number: u32,
    records: &mut [PlayRecord],
) -> CopyAnswer
    ensures unchanged { session_in slot.new ≡ session_in slot.old }
    ensures empty { session_in slot.old ≡ None → slot.new ≡ slot.old }
    ensures value { CopiesPlay play_records number (session_in slot.old) records.old (result.code, result.count, records.new) }
{
    read_session!(slot, alloc, session => records_of_number(alloc, &session.session, number, records))
}
