//! An entry of a play as C sees it.

ghost use Rattle.std.specs.Prelude.{◌≡◌};
ghost use Rattle.c_handle.specs.PlayRecords.{key_number, kind_number, play_record, ties_number, velocity_number};

use abc_play::{EntryKind, PlayedEntry};

/// The key of what has no key of MIDI: a silent tone, a rest, a bar line.
pub const NO_KEY: u8 = 128;

const _: () = prove!(NO_KEY == 128);

/// The bit of a tone that a tie joins with one before it.
pub const JOINED: u8 = 1;

const _: () = prove!(JOINED == 1);

/// The bit of a tone with a key that a tie follows.
pub const TIED: u8 = 2;

const _: () = prove!(TIED == 2);

/// The ticks of an entry, its place, and what it is. In C it is two `uint64_t`, three `uint32_t` and four `uint8_t`.
#[repr(C)]
#[derive(Clone, Copy)]
pub struct PlayRecord {
    /// When it begins, in ticks from the beginning of the tune.
    pub on: u64,
    /// Its own end: a tie does not lengthen it.
    pub off: u64,
    /// The number of its line, from 1.
    pub line: u32,
    /// The column of its first byte, from 1.
    pub from: u32,
    /// The column after its last byte.
    pub to: u32,
    pub kind: u8,
    /// The key of a tone, or `NO_KEY`.
    pub key: u8,
    /// The velocity of a tone with a key, else 0.
    pub velocity: u8,
    /// The bits `JOINED` and `TIED` of a tone, else 0.
    pub ties: u8,
}

/// Returns the number of a kind. Numbers keep their meaning within a major version: new kinds come at the end.
fn kind_number(kind: EntryKind) -> u8
    ensures value { result ≡ kind_number kind }
{
    match kind {
        EntryKind::Note { .. } => 1,
        EntryKind::Rest => 2,
        EntryKind::Bar => 3,
    }
}

/// Returns the key of a tone that has one, else `NO_KEY`.
fn key_number(kind: EntryKind) -> u8
    ensures value { result ≡ key_number kind }
{
    match kind {
        EntryKind::Note { key: Some(key), .. } => key,
        EntryKind::Note { key: None, .. } | EntryKind::Rest | EntryKind::Bar => NO_KEY,
    }
}

/// Returns the velocity of a tone with a key, else 0.
fn velocity_number(kind: EntryKind) -> u8
    ensures value { result ≡ velocity_number kind }
{
    match kind {
        EntryKind::Note {
            key: Some(_),
            velocity,
            ..
        } => velocity,
        EntryKind::Note { key: None, .. } | EntryKind::Rest | EntryKind::Bar => 0,
    }
}

/// Returns the bits of the ties of a tone, else 0.
fn ties_number(kind: EntryKind) -> u8
    ensures value { result ≡ ties_number kind }
{
    match kind {
        EntryKind::Note { joined, tied, .. } => match (joined, tied) {
            (false, false) => 0,
            (true, false) => JOINED,
            (false, true) => TIED,
            (true, true) => JOINED + TIED,
        },
        EntryKind::Rest | EntryKind::Bar => 0,
    }
}

impl PlayRecord {
    /// Returns the record of an entry.
    pub fn of(entry: PlayedEntry) -> PlayRecord
        ensures value { result ≡ play_record entry }
    {
        PlayRecord {
            on: entry.on,
            off: entry.off,
            line: entry.place.line,
            from: entry.place.from,
            to: entry.place.to,
            kind: kind_number(entry.kind),
            key: key_number(entry.kind),
            velocity: velocity_number(entry.kind),
            ties: ties_number(entry.kind),
        }
    }
}
