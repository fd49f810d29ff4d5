//! Laws of plays with places. Each function has no body: its contract is the law.

ghost use Rattle.abc_play_sections.specs.Laws.{PlaysItems};

/// Without the bar lines that are passed, the steps that a voice plays of a section are the items that it plays there.
pub fn plays_items()
    ensures { PlaysItems }
{}
