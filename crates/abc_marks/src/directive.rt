//! The directives of the accompaniment and of transposition.

use abc_text::{Sequence, Shared};

/// The most steps of a pattern. Not in ABC 2.1.
pub const MOST_STEPS: usize = 64;

const _: () = prove!(MOST_STEPS == 64);

/// What a step of the accompaniment's pattern plays.
#[derive(Clone, Copy, PartialEq, Eq)]
pub enum StepSound {
    /// The bass.
    Bass,
    /// The notes of the chord.
    Chord,
    /// The chord and the bass.
    Both,
    Rest,
    /// One note of the chord: the first has index 0, the last index 3. It may be an octave lower.
    Note { index: u8, lower: bool },
}

/// A step of the accompaniment's pattern.
#[derive(Clone, Copy, PartialEq, Eq)]
pub struct Step {
    pub sound: StepSound,
    /// How long it is, beside the other steps: 1 to 99.
    pub count: u8,
}

/// A directive that is heard when a tune is performed (extensions of abc2midi).
#[derive(Clone, Drop)]
pub enum PlayingDirective {
    /// The pattern of the accompaniment (`gchord`): 1 to 64 steps.
    Pattern(Shared<Sequence<Step>>),
    /// The accompaniment is heard again (`gchordon`).
    AccompanimentOn,
    /// The accompaniment rests (`gchordoff`).
    AccompanimentOff,
    /// Half tones that the voice sounds higher, from -60 to 60 (`transpose`).
    Transpose(i8),
    /// The velocity of the chords, 1 to 127 (`chordvol`).
    ChordVelocity(u8),
    /// The velocity of the bass, 1 to 127 (`bassvol`).
    BassVelocity(u8),
    /// The program of the chords, 0 to 127 (`chordprog`).
    ChordProgram(u8),
    /// The program of the bass, 0 to 127 (`bassprog`).
    BassProgram(u8),
}
