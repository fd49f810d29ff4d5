//! The laws of the fold over bars, by looking back over all that is before a cell. No function has a body: its contract is
//! the law.

mod along;
mod bodies;
mod cell_faults;
mod cells;
mod faults;
mod headers;
mod heard_music;
mod items;
mod key_fields;
mod keys;
mod lengths;
mod line_lengths;
mod mentions;
mod names;
mod openings;
mod ties;
mod tuplets;
mod velocities;
mod voice_places;
mod voices;

pub use along::{alike_views, tune_places, views_along, views_decide};
pub use bodies::mentioned_voices;
pub use cell_faults::{field_faults_of_cells, length_faults_of_cells, spelling_faults_of_cells};
pub use cells::{cell_views, left_by_tokens};
pub use faults::{bad_marks_of_cells, empty_chords, faults_at_places};
pub use headers::{declared_voices, header_views, places_apart};
pub use heard_music::body_views;
pub use items::{openings_of_items, titles_of_items, voices_of_items};
pub use key_fields::{listed_accidentals, modes_of_keys};
pub use keys::{alterations_of_notes, keys_at_places};
pub use lengths::lengths_at_places;
pub use line_lengths::{length_faults_in_lines, lengths_in_lines};
pub use mentions::voices_by_mention;
pub use names::named_voices;
pub use openings::openings_of_voices;
pub use ties::{loose_ties_of_cells, ties_of_voices};
pub use tuplets::tuplets_at_places;
pub use velocities::velocities_at_places;
pub use voice_places::voices_at_places;
pub use voices::voice_views;
