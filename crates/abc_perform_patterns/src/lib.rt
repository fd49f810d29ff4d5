//! The patterns of the accompaniment: the one that a meter has, and the steps of a pattern along a stretch of a voice.
#![tactic(auto)]

pub mod laws;
mod meter_pattern;
mod stretch;

pub use abc_fields::Meter;
pub use abc_perform_chords::StepSpan;
pub use abc_text::Sequence;
pub use abc_time::Grains;
pub use meter_pattern::default_pattern;
pub use stretch::stretch_steps;
