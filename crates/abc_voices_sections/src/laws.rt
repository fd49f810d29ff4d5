//! The law of stages. Its function has no body: its contract is the law.

ghost use Rattle.abc_voices_sections.specs.AsItems.{StagesAreOfItems};

use crate::step::AsItem;

/// The stage of a section of steps, seen as items, is the stage of the section of these items.
pub fn stages_of_items<T: AsItem>()
    ensures { StagesAreOfItems T.item_of }
{}
