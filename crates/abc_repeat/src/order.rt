//! The order in which the sections of a tune are played.

ghost use Rattle.std.specs.Prelude.{◌≡◌, ◌<◌, ◌↔◌, Bool, ◌&&◌, option_copied, IfOk};
ghost use Rattle.std.specs.List.{list_any, range_with_len};
ghost use Rattle.std.specs.Option.{is_none, ForSome};
ghost use Rattle.std.specs.Char.{is_ascii_uppercase};
ghost use Rattle.abc_fields.specs.Parts.{parts_of};
ghost use Rattle.abc_repeat.specs.Section.{section_of};
ghost use Rattle.abc_repeat.specs.Order.{sections_of, has_unknown, IsTooLong};

use crate::fault::OrderFault;
use crate::order_play::put_order;
use crate::order_size::order_size;
use crate::section::FirstSections;
use std::alloc::{AllocError, Global};

/// The greatest number of sections that are played, the opening section among them. Not in ABC 2.1.
pub const MOST_SECTIONS: u64 = 4096;

const _: () = prove!(MOST_SECTIONS == 1 << 12);

/// The sections that are played.
#[derive(Debug, Drop)]
pub struct Played {
    /// The sections in order of play: 0 is the opening section, the others count from 1 in the order of the text.
    pub sections: Vec<usize>,
    /// Whether the order has a letter without a section.
    pub unknown: bool,
}

/// Returns whether an order has a letter without a section.
fn has_unknown(order: &[u8], sections: &FirstSections) -> bool
    ensures { result ≡ list_any (λ b. is_ascii_uppercase b && is_none (section_of sections.now b)) order.now }
{
    order.iter().any(|byte| byte.is_ascii_uppercase() && sections.get(*byte).is_none())
}

/// Returns the numbers of the opening section and `count - 1` others, in the order of the text.
fn all_sections(alloc: Global, count: usize) -> Result<Vec<usize>, AllocError>
    ensures { IfOk result (λ sections. sections.items ≡ range_with_len 0 count) }
{
    (0..count).collect(alloc)
}

/// Returns all sections, in the order of the text.
#[tactic(auto, unfolding(crate::specs::Order::has_unknown))]
fn play_all(alloc: Global, letters: &[u8]) -> Result<Played, OrderFault>
    ensures sections { IfOk result (λ played. played.sections.items ≡ sections_of None letters.now) }
    ensures unknown { IfOk result (λ played. played.unknown ≡ has_unknown None letters.now) }
    ensures refused { (unknown : Bool) → (result ≡ Err (OrderFault.TooLong unknown))
        ↔ IsTooLong MOST_SECTIONS None letters.now unknown }
{
    if letters.len() as u64 >= MOST_SECTIONS {
        return Err(OrderFault::TooLong { unknown: false });
    }
    let sections = all_sections(alloc, letters.len() + 1)?;
    Ok(Played {
        sections,
        unknown: false,
    })
}

/// Returns the opening section and the sections of an order.
fn play_parts(alloc: Global, order: &[u8], letters: &[u8]) -> Result<Played, OrderFault>
    requires { parts_of order.now ≡ Ok tt }
    ensures sections { IfOk result (λ played. played.sections.items ≡ sections_of (Some order.now) letters.now) }
    ensures unknown { IfOk result (λ played. played.unknown ≡ has_unknown (Some order.now) letters.now) }
    ensures refused { (unknown : Bool) → (result ≡ Err (OrderFault.TooLong unknown))
        ↔ IsTooLong MOST_SECTIONS (Some order.now) letters.now unknown }
{
    let firsts = FirstSections::of(letters);
    let unknown = has_unknown(order, &firsts);
    let size = order_size(order, &firsts);
    if size >= MOST_SECTIONS {
        return Err(OrderFault::TooLong { unknown });
    }
    let sections = put_order(alloc, order, &firsts, size as usize)?;
    Ok(Played { sections, unknown })
}

/// Returns the sections that are played, in order (ABC 2.1 section 3.1.9). `letters` are those of the parts of the body. The
/// opening section is first; then come the sections of `order`, the order in the header, or all of them if there is none. The
/// errors are those of `OrderFault`: more than `MOST_SECTIONS` sections, or a failed allocation.
///
/// No contract bounds its time. The body goes through the order, the letters and the sections that are played.
pub fn play_order(alloc: Global, order: Option<&[u8]>, letters: &[u8]) -> Result<Played, OrderFault>
    requires { ForSome (option_copied order) (λ text. parts_of text ≡ Ok tt) }
    ensures sections { IfOk result (λ played. played.sections.items ≡ sections_of (option_copied order.entry) letters.now) }
    ensures unknown { IfOk result (λ played. played.unknown ≡ has_unknown (option_copied order.entry) letters.now) }
    ensures refused { (unknown : Bool) → (result ≡ Err (OrderFault.TooLong unknown))
        ↔ IsTooLong MOST_SECTIONS (option_copied order.entry) letters.now unknown }
{
    match order {
        None => play_all(alloc, letters),
        Some(order) => play_parts(alloc, order, letters),
    }
}
