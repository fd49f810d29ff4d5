//! The arithmetic of the accompaniment: the keys of chords and basses, and when the steps of a pattern begin and end.
#![tactic(auto)]

mod keys;
mod pattern_steps;

pub use abc_marks::{ChordName, Step, StepSound};
pub use abc_text::Sequence;
pub use abc_time::Grains;
pub use keys::{bass_keys, chord_keys};
pub use pattern_steps::{MOST_COUNTS, StepSpan, bar_spans};
