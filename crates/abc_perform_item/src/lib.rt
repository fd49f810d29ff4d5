//! How one note, chord or rest of a tune is performed: with its grace notes, its ornament, its accents and its transposition.
#![tactic(auto)]

mod decorations;
mod fermata;
mod grace_items;
mod graces;
mod item_parts;
pub mod laws;
mod ornamented;
mod performance;
mod performed;
mod setting;
mod spread_chord;
mod tone_change;

pub use abc_bars_items::Item;
pub use abc_marks::Mark;
pub use item_parts::perform_item;
pub use performance::Performance;
pub use performed::{Performed, Place, Source};
pub use setting::ItemSetting;
