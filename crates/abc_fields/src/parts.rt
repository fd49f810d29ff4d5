//! The order of parts: the value of P: in a header.

ghost use Rattle.std.specs.Prelude.{◌≡◌, ◌↔◌, ℕ, List};
ghost use Rattle.abc_fields.specs.Letters.{letters_of};
ghost use Rattle.abc_fields.specs.Parts.{is_ignored, ends_item, begins_item, with_digit, next, is_whole, place_following, is_order};
ghost use Rattle.abc_fields.specs.Parts.{parts_of};
ghost use Rattle.abc_fields.specs.Spelling.Parts.{IsParts};

use crate::fault_code::FaultCode;
use abc_text::is_blank;

/// The greatest number of nested groups of an order: a deeper one is `BadOrder`. Not in ABC 2.1.
pub const DEEPEST_GROUP: u8 = 32;

/// The greatest number of digits of a count.
const LONGEST_COUNT: u8 = 9;

const _: () = prove!(DEEPEST_GROUP == 32);

const _: () = prove!(LONGEST_COUNT == 9);

/// The last item before a place of an order, in the innermost group.
#[derive(Clone, Copy)]
enum LastItem {
    Nothing,
    /// An item with `digits` digits of its count. `positive` means that one of them is not 0.
    Item { digits: u8, positive: bool },
}

impl LastItem {
    /// An item whose count has not begun.
    const ITEM: LastItem = LastItem::Item {
        digits: 0,
        positive: false,
    };

    /// Returns whether an item may end here: it has no count, or a count that is not 0.
    fn ends_item(self) -> bool
        ensures { result ≡ ends_item self }
    {
        match self {
            LastItem::Nothing => false,
            LastItem::Item { digits, positive } => digits == 0 || positive,
        }
    }

    /// Returns whether an item may begin here.
    fn begins_item(self) -> bool
        ensures { result ≡ begins_item self }
    {
        match self {
            LastItem::Nothing => true,
            LastItem::Item { .. } => self.ends_item(),
        }
    }

    /// Returns the item with one more digit of its count, if it may have one.
    fn with_digit(self, digit: u8) -> Option<LastItem>
        ensures { result ≡ with_digit self digit }
    {
        match self {
            LastItem::Item { digits, positive } if digits < LONGEST_COUNT => Some(LastItem::Item {
                digits: digits + 1,
                positive: positive || digit != b'0',
            }),
            _ => None,
        }
    }
}

/// The reader of an order at a place: the number of groups around it, and the last item before it.
#[derive(Clone, Copy)]
struct OrderState {
    depth: u8,
    before: LastItem,
}

impl OrderState {
    const FIRST: OrderState = OrderState {
        depth: 0,
        before: LastItem::Nothing,
    };

    /// The place after a byte that may come here.
    #[tactic(auto, unfolding(crate::specs::Parts::next))]
    fn next(self, byte: u8) -> Option<OrderState>
        ensures { result ≡ next self byte }
    {
        let OrderState { depth, before } = self;
        match byte {
            b'A'..=b'Z' if before.begins_item() => Some(OrderState {
                depth,
                before: LastItem::ITEM,
            }),
            b'(' if before.begins_item() && depth < DEEPEST_GROUP => Some(OrderState {
                depth: depth + 1,
                before: LastItem::Nothing,
            }),
            b')' if before.ends_item() && depth > 0 => Some(OrderState {
                depth: depth - 1,
                before: LastItem::ITEM,
            }),
            b'0'..=b'9' => Some(OrderState {
                depth,
                before: before.with_digit(byte)?,
            }),
            _ => None,
        }
    }

    /// Returns whether the order may end here.
    fn is_whole(self) -> bool
        ensures { result ≡ is_whole self }
    {
        self.depth == 0 && self.before.ends_item()
    }
}

/// Returns whether a byte is ignored in an order: a dot (ABC 2.1 section 3.1.9) or a blank.
fn is_ignored(byte: u8) -> bool
    ensures { result ≡ is_ignored byte }
{
    byte == b'.' || is_blank(byte)
}

/// The place after a text that may begin an order.
#[tactic(auto, using(crate::proofs::Orders::order_step, crate::proofs::Orders::order_lost))]
fn place_following(text: &[u8]) -> Option<OrderState>
    ensures { result ≡ place_following text.now }
{
    let mut place = OrderState::FIRST;
    for byte in text {
        if !is_ignored(*byte) {
            place = place.next(*byte)?;
        }
    }
    Some(place)
}

/// Returns whether a text is an order of parts.
fn is_order(text: &[u8]) -> bool
    ensures { result ≡ is_order text.now }
{
    match place_following(text) {
        Some(place) => place.is_whole(),
        None => false,
    }
}

/// Reads the value of P: in a header (ABC 2.1 section 3.1.9): one or more items, each a letter A to Z or a group of
/// items in parentheses. A count from 1 may follow an item. Dots and blanks are ignored. Anything else is `BadOrder`,
/// also groups deeper than `DEEPEST_GROUP`. The blanks and the bounds of groups and counts are not in ABC 2.1.
#[tactic(auto, using(crate::proofs::LetterLaws::parts_letters))]
pub fn read_parts(value: &[u8]) -> Result<(), FaultCode>
    ensures value { result ≡ parts_of value.now }
    ensures ok { (result ≡ Ok tt) ↔ ((letters : List ℕ) × IsParts value.now letters) }
    ensures letters { (letters : List ℕ) → IsParts value.now letters → letters ≡ letters_of value.now }
    ensures refused { (result ≡ Err FaultCode.BadOrder) ↔ ((letters : List ℕ) → ¬ IsParts value.now letters) }
{
    if is_order(value) {
        Ok(())
    } else {
        Err(FaultCode::BadOrder)
    }
}
