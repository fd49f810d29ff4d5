//! The sections of a tune, and the steps that each voice plays of one.
#![tactic(auto)]

mod ending_fields;
mod item_runs;
pub mod laws;
mod play;
mod section;
mod stage;
mod step;
mod table;
mod turns;

pub use ending_fields::EndingRegion;
pub use play::{duration, played_steps};
pub use section::{Section, has_one_section, letters, only_section, opening_voice, sections};
pub use stage::{Stage, StageError, VoicePart};
pub use step::{AsItem, is_field, is_step, length_of, length_of_step};
pub use table::stages;
pub use turns::{Turn, length_along, turns_in_order};
