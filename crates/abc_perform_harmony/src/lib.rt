//! The accompaniment of a stretch: the chords that hold at its moments, as items of the chords' and of the bass's voice.
#![tactic(auto)]

mod harmony;
mod harmony_mark;
pub mod laws;
mod program_items;
mod step_item;
mod stretch_items;

pub use abc_bars_items::Item;
pub use abc_perform_chords::StepSpan;
pub use abc_perform_item::{Performance, Performed, Place, Source};
pub use harmony::{Harmony, harmony_after};
pub use harmony_mark::{HarmonyMark, Part, SoundingChord, TimedMark};
pub use stretch_items::put_stretch;
