//! The marks of a tune's cells: what stands between notes and is heard when the tune is performed, as chord names, grace
//! notes, ornaments and the directives of the accompaniment.
#![tactic(auto)]

mod chord_name;
mod decoration;
mod directive;
mod grace_note;
mod mark;
mod marks;
mod performed_items;

pub use chord_name::{ChordKind, ChordName};
pub use decoration::{Accent, Ornament, Shortening};
pub use directive::{MOST_STEPS, PlayingDirective, Step, StepSound};
pub use grace_note::{GraceNote, MOST_GRACE_NOTES};
pub use mark::{Columns, Mark, MarkKind};
pub use marks::Marks;
pub use performed_items::PerformedItems;
