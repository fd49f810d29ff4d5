//! The marks of the accompaniment.

use abc_marks::ChordName;
use abc_perform_item::Place;
use abc_time::Grains;

/// A voice of the accompaniment.
#[derive(Clone, Copy)]
pub enum Part {
    Chords,
    Bass,
}

/// A chord of the accompaniment.
#[derive(Clone, Copy)]
pub struct SoundingChord {
    pub name: ChordName,
    /// The semitones by which the accompanied voice is moved at the chord name.
    pub by: i64,
    /// The mark that names it.
    pub place: Place,
}

/// What a mark says of the accompaniment from its place on (ABC 2.1 section 4.18, and directives of abc2midi).
#[derive(Clone, Copy)]
pub enum HarmonyMark {
    Chord(SoundingChord),
    NoChord,
    On,
    Off,
    ChordVelocity(u8),
    BassVelocity(u8),
    ChordProgram(u8),
    BassProgram(u8),
}

/// A mark of a stretch, with the moment at which the next item begins, counted from the beginning of the stretch.
#[derive(Clone, Copy)]
pub struct TimedMark {
    pub moment: Grains,
    pub mark: HarmonyMark,
}
