//! The score of a tune, from which its file is written.

use abc_text::Sequence;
use abc_time::Grains;

/// A tune as notes and changes, at exact moments from its start.
#[derive(Debug, PartialEq, Eq, Drop)]
pub struct Score {
    /// The title's bytes, empty if there is none.
    pub title: Sequence<u8>,
    /// The end of the tune, and of each track.
    pub end: Grains,
    /// Tempos, meters and keys, in any order.
    pub conductor: Sequence<Change>,
    /// For each voice with a track, in the order of the tracks, its notes in any order.
    pub voices: Sequence<Sequence<Sounding>>,
    /// For each of these voices, at the same place, its changes of program in any order.
    pub programs: Sequence<Sequence<ProgramChange>>,
}

/// A change of tempo, meter or key.
#[derive(Clone, Copy, Debug, PartialEq, Eq)]
pub struct Change {
    /// In grains from the start of the tune.
    pub at: Grains,
    pub what: ChangeKind,
}

/// What a change sets.
#[derive(Clone, Copy, Debug, PartialEq, Eq)]
pub enum ChangeKind {
    /// Microseconds to a quarter note, 1 to 16,777,215.
    Tempo(u32),
    /// The numerator of a meter, and its denominator: a power of two up to 64.
    Meter { num: u8, den: u8 },
    /// The sharps of a key, -7 to 7 with flats below 0, and whether it is minor.
    Key { sharps: i8, minor: bool },
}

/// A program that a voice changes to.
#[derive(Clone, Copy, Debug, PartialEq, Eq)]
pub struct ProgramChange {
    /// In grains from the start of the tune.
    pub at: Grains,
    /// 0 to 127.
    pub number: u8,
}

/// A note that sounds from one moment to another.
#[derive(Clone, Copy, Debug, PartialEq, Eq)]
pub struct Sounding {
    /// The moment at which it begins, in grains from the start of the tune.
    pub on: Grains,
    /// The moment at which it ends, in grains from the start of the tune.
    pub off: Grains,
    /// 0 to 127, 60 the middle C.
    pub key: u8,
    /// The velocity of its first tone, 1 to 127.
    pub velocity: u8,
}
