//! The time and the keys of the parts of a performed note: grace notes, ornaments, spread chords, accents, fermatas and
//! transposition.
#![tactic(auto)]

mod fermata;
mod grace;
mod key;
mod mordents;
mod part;
mod rolls;
mod slides;
mod spread;
mod trills;
mod turns;

pub use abc_text::Sequence;
pub use abc_time::Grains;
pub use fermata::has_room_for_fermata;
pub use grace::{GraceShare, grace_share};
pub use key::transposed_key;
pub use mordents::mordent;
pub use part::Part;
pub use rolls::roll;
pub use slides::{key_below, slide};
pub use spread::spread_step;
pub use trills::trill;
pub use turns::turn;
