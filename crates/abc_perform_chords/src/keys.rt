//! The keys of the accompaniment.

ghost use Rattle.std.specs.Prelude.{◌≡◌, ◌+◌, ◌<◌, ◌≤◌, ◌^◌, ◌++◌, All, IfOk, IfSome, OnOk, slice_get};
ghost use Rattle.abc_marks.specs.ChordName.{IsChordName};
ghost use Rattle.abc_perform_chords.specs.Keys.{bass_keys, chord_keys, note_key, note_keys, one_key, root_key};

use abc_marks::{ChordName, StepSound};
use abc_perform_note::transposed_key;
use std::alloc::{AllocError, Global};

/// The lowest root of a chord. Not in ABC 2.1.
const LOWEST_ROOT: u8 = 48;

/// The lowest key of a bass, an octave below that of a root. Not in ABC 2.1.
const LOWEST_BASS: u8 = 36;

/// Appends the key some semitones above a key, moved as its voice is, if MIDI has it.
fn put_key(keys: &mut Vec<u8>, key: u8, by: i64, above: u8) -> Result<(), AllocError>
    requires { key + above < 2 ^ 8 }
    ensures { OnOk result (keys.new.items ≡ keys.old.items ++ note_key key by above) }
{
    if let Some(moved) = transposed_key(key + above, by) {
        keys.push(moved)?;
    }
    Ok(())
}

/// Appends the keys of the notes of a chord.
fn put_keys(keys: &mut Vec<u8>, key: u8, by: i64, notes: &[u8]) -> Result<(), AllocError>
    requires key { key < 60 }
    requires notes { All (λ n. n ≤ 21) notes.now }
    ensures { OnOk result (keys.new.items ≡ keys.old.items ++ note_keys key by notes.now) }
{
    for above in notes {
        put_key(keys, key, by, *above)?;
    }
    Ok(())
}

/// Returns the note with an index, if there are as many.
fn note_at(notes: &[u8], index: u8) -> Option<u8>
    requires { All (λ n. n ≤ 21) notes.now }
    ensures value { result ≡ slice_get notes.now index }
    ensures range { IfSome result (λ n. n ≤ 21) }
{
    let index = usize::from(index);
    if index < notes.len() {
        Some(notes[index])
    } else {
        None
    }
}

/// Appends the key of one note of a chord, if it has that note.
fn put_one(keys: &mut Vec<u8>, key: u8, by: i64, notes: &[u8], index: u8) -> Result<(), AllocError>
    requires key { key < 60 }
    requires notes { All (λ n. n ≤ 21) notes.now }
    ensures { OnOk result (keys.new.items ≡ keys.old.items ++ one_key key by notes.now index) }
{
    match note_at(notes, index) {
        Some(above) => put_key(keys, key, by, above),
        None => Ok(()),
    }
}

/// Returns the key of a chord's root, or the one an octave lower.
fn root_key(name: ChordName, lower: bool) -> u8
    requires { IsChordName name }
    ensures value { result ≡ root_key name lower }
    ensures range { result < 60 }
{
    if lower {
        LOWEST_BASS + name.root
    } else {
        LOWEST_ROOT + name.root
    }
}

/// Returns the keys of a chord in a step of the accompaniment. It returns an error if an allocation fails.
pub fn chord_keys(
    alloc: Global,
    name: ChordName,
    sound: StepSound,
    by: i64,
) -> Result<Vec<u8>, AllocError>
    requires { IsChordName name }
    ensures { IfOk result (λ keys. keys.items ≡ chord_keys name by sound) }
{
    let mut keys = Vec::new(alloc);
    let notes = name.kind.half_tones();
    match sound {
        StepSound::Chord | StepSound::Both => {
            put_keys(&mut keys, root_key(name, false), by, notes)?;
        }
        StepSound::Note { index, lower } => {
            put_one(&mut keys, root_key(name, lower), by, notes, index)?;
        }
        StepSound::Bass | StepSound::Rest => {}
    }
    Ok(keys)
}

/// Returns the keys of the bass in a step of the accompaniment: one, or none. It returns an error if an allocation fails.
pub fn bass_keys(
    alloc: Global,
    name: ChordName,
    sound: StepSound,
    by: i64,
) -> Result<Vec<u8>, AllocError>
    requires { IsChordName name }
    ensures { IfOk result (λ keys. keys.items ≡ bass_keys name by sound) }
{
    let mut keys = Vec::new(alloc);
    match sound {
        StepSound::Bass | StepSound::Both => {
            put_key(&mut keys, LOWEST_BASS + name.bass, by, 0)?;
        }
        StepSound::Chord | StepSound::Note { .. } | StepSound::Rest => {}
    }
    Ok(keys)
}
