//! The voices of a tune laid out in time: their notes, the changes of tempo, meter, key and program, and the score.
#![tactic(auto)]

mod arranged;
mod fields;
pub mod laws;
mod layout;
mod notes;
mod opening;
mod programs;
mod score_changes;
mod setting;
mod stage_settings;
mod ticks;
mod tied_notes;
mod timing;
mod track;
mod tune_score;
mod uneven_stages;
mod voice;

pub use abc_bars_items::{HIGHEST_KEY, Items, MOST_CHORD_NOTES, MOST_VOICES};
pub use abc_text::Sequence;
pub use abc_time::Grains;
pub use abc_voices_score::{
    Change, ChangeKind, LONGEST_TITLE, MOST_CHANGES, MOST_NOTES, MOST_PROGRAMS, ProgramChange,
    Score, Sounding,
};
pub use arranged::{Arranged, BuildFault};
pub use layout::arrange;
pub use opening::order_of;
pub use track::{has_unnamed_track, voice_names};
