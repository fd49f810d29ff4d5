//! Repeats and the order of sections, by `abc_repeat`.

ghost use Rattle.std.specs.Prelude.{◌≡◌, IfOk, Ok, option_copied};
ghost use Rattle.std.specs.Option.{ForSome};
ghost use Rattle.abc_repeat.specs.Order.{sections_of};
ghost use Rattle.abc_repeat.specs.Parts.{parts_of};
ghost use Rattle.abc_repeat.specs.Play.{play_of};

use abc_repeat::{Mark, OrderFault, Played, RepeatFault, expand, play_order};
use std::alloc::Global;

/// Returns the places that are played.
pub fn played_places(alloc: Global, marks: &[Mark]) -> Result<Vec<usize>, RepeatFault>
    ensures value { IfOk result (λ places. places.items ≡ play_of marks.now) }
{
    expand(alloc, marks)
}

/// Returns the sections that are played.
pub fn played_sections(
    alloc: Global,
    order: Option<&[u8]>,
    letters: &[u8],
) -> Result<Played, OrderFault>
    requires { ForSome (option_copied order) (λ text. parts_of text ≡ Ok tt) }
    ensures value { IfOk result (λ played. played.sections.items ≡ sections_of (option_copied order.entry) letters.now) }
{
    play_order(alloc, order, letters)
}

/// Whether a mark is a repeat bar: one with a colon.
pub fn is_repeat_bar(mark: Mark) -> bool {
    match mark {
        Mark::Bar {
            closes,
            opens,
            double: _,
        } => closes > 0 || opens > 0,
        Mark::Play | Mark::Ending(_) => false,
    }
}

/// Whether a play is refused because it is too long.
pub fn is_long_play(fault: RepeatFault) -> bool {
    match fault {
        RepeatFault::TooLong => true,
        RepeatFault::OutOfMemory => false,
    }
}

/// Whether an order is refused because it is too long.
pub fn is_long_order(fault: OrderFault) -> bool {
    match fault {
        OrderFault::TooLong { .. } => true,
        OrderFault::OutOfMemory => false,
    }
}

/// Whether an order names a section that the tune does not have.
pub fn names_unknown(played: &Played) -> bool {
    played.unknown
}
