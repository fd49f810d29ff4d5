//! The accompaniment of a section: what the chords' and the bass's voice play beside the voice that they accompany.
#![tactic(auto)]

mod header;
pub mod laws;
mod section;
mod stretch;
mod stretch_items;
mod voice_setting;
mod voice_step;

pub use abc_fields::Meter;
pub use abc_marks::Mark;
pub use abc_perform_harmony::{Harmony, HarmonyMark, Part, SoundingChord, TimedMark};
pub use abc_perform_item::{Performance, Performed, Place, Source};
pub use abc_perform_layers::Role;
pub use abc_scan::BarLine;
pub use header::{HeaderSetting, opening_program};
pub use section::accompany_section;
pub use stretch::{StretchBegin, StretchState};
pub use voice_setting::{Pattern, VoiceSetting};
pub use voice_step::VoiceStep;
