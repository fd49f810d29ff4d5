//! The number of sections that an order plays, counted without an allocation.

ghost use Rattle.std.specs.Prelude.{◌≡◌, ℕ, ◌<◌, ◌^◌, true, Option};
ghost use Rattle.std.specs.Char.{is_ascii_digit};
ghost use Rattle.arrayvec.specs.ArrayVec.{array_vec_len};
ghost use Rattle.abc_text.specs.Byte.{open_parenthesis};
ghost use Rattle.abc_fields.specs.Parts.{parts_of};
ghost use Rattle.abc_fields.specs.Letters.{OrderLetters, nothing_played, letters_so_far, count_on, read_on, letters_of};
ghost use Rattle.abc_repeat.specs.Section.{section_of};
ghost use Rattle.abc_repeat.specs.OrderSize.{size_of, IsSizeOf};

use crate::count::{MOST_GROUPS, longer_count};
use crate::section::FirstSections;
use arrayvec::ArrayVec;

/// The number of sections that the front of an order plays, at most 2^64 - 1.
#[derive(Drop)]
struct OrderSize {
    /// The sections before each open group, in the group around it; the innermost last.
    around: ArrayVec<u64, MOST_GROUPS>,
    /// The sections of the innermost group before its last item.
    before: u64,
    /// The sections of that item, played once.
    item: u64,
    /// Its count so far.
    count: Option<u32>,
}

impl OrderSize {
    /// Returns the size of an empty front.
    fn new() -> OrderSize
        ensures { (sections : FirstSections) → IsSizeOf (section_of sections) nothing_played result }
    {
        OrderSize {
            around: ArrayVec::new(),
            before: 0,
            item: 0,
            count: None,
        }
    }

    /// Returns the number of sections that the innermost group plays so far.
    fn total(&self) -> u64
        ensures { (section : ℕ → Option ℕ) → (played : OrderLetters) → IsSizeOf section played self.now
            → result ≡ size_of section (letters_so_far played) }
    {
        let times = self.count.unwrap_or(1);
        self.before
            .saturating_add(self.item.saturating_mul(times as u64))
    }

    /// Reads one more byte of an order.
    fn read(&mut self, byte: u8, sections: &FirstSections)
        requires room { byte ≡ open_parenthesis → array_vec_len self.old.around < MOST_GROUPS }
        requires short { is_ascii_digit byte ≡ true → count_on self.old.count byte < 2 ^ 32 }
        ensures { (played : OrderLetters) → IsSizeOf (section_of sections.now) played self.old
            → IsSizeOf (section_of sections.now) (read_on played byte) self.new }
    {
        match byte {
            b'A'..=b'Z' => {
                self.before = self.total();
                self.item = sections.get(byte).is_some() as u64;
                self.count = None;
            }
            b'(' => {
                let total = self.total();
                self.around.push(total);
                self.before = 0;
                self.item = 0;
                self.count = None;
            }
            b')' => {
                self.item = self.total();
                self.before = self.around.pop().unwrap_or(0);
                self.count = None;
            }
            b'0'..=b'9' => self.count = Some(longer_count(self.count, byte)),
            _ => {}
        }
    }
}

/// Returns the number of sections that the letters of an order play, at most 2^64 - 1.
pub(crate) fn order_size(order: &[u8], sections: &FirstSections) -> u64
    requires { parts_of order.now ≡ Ok tt }
    ensures { result ≡ size_of (section_of sections.now) (letters_of order.now) }
{
    let mut size = OrderSize::new();
    for byte in order {
        size.read(*byte, sections);
    }
    size.total()
}
