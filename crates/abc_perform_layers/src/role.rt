//! The roles of a voice's steps.

use abc_time::Grains;

/// What a step of a voice is to its layers. The steps are what the voice has in a section, in order of text. A stretch is what
/// is between two of its bar lines or ending marks (ABC 2.1 section 7.4).
#[derive(Clone, Copy)]
pub enum Role {
    /// A note, chord, rest or bar rest of this length.
    Time(Grains),
    /// A bar line or an ending mark.
    Bound,
    /// A program of MIDI.
    Program,
    /// An overlay mark: the next layer of the stretch begins.
    Overlay,
    /// All else.
    Other,
}
