//! The sections that an order plays, written one after another.

ghost use Rattle.std.specs.Prelude.{◌≡◌, ℕ, ◌<◌, ◌≤◌, ◌^◌, ◌++◌, [], true, false, take, drop, replicate, OnOk, IfOk, Option};
ghost use Rattle.std.specs.Prelude.{vec_len};
ghost use Rattle.std.specs.List.{concat};
ghost use Rattle.std.specs.Char.{is_ascii_digit};
ghost use Rattle.arrayvec.specs.ArrayVec.{array_vec_len};
ghost use Rattle.abc_text.specs.Byte.{open_parenthesis};
ghost use Rattle.abc_fields.specs.Parts.{parts_of};
ghost use Rattle.abc_fields.specs.Letters.{OrderLetters, nothing_played, count_or_once, letters_so_far, with_item, count_on};
ghost use Rattle.abc_fields.specs.Letters.{is_order_byte, read_on, letters_of};
ghost use Rattle.abc_repeat.specs.Section.{section_of};
ghost use Rattle.abc_repeat.specs.OrderPlay.{sections_with, IsPlayOf};

use crate::count::{MOST_GROUPS, longer_count};
use crate::section::FirstSections;
use arrayvec::ArrayVec;
use std::alloc::{AllocError, Global};

/// Repeats the sections from `begin` on, so that there are `times` copies of them. Without sections it runs no loop.
fn put_copies(sections: &mut Vec<usize>, begin: usize, times: u32) -> Result<(), AllocError>
    requires inside { begin ≤ vec_len sections.old }
    requires some { 0 < times }
    ensures { OnOk result (sections.new.items
        ≡ take begin sections.old.items ++ concat (replicate times (drop begin sections.old.items))) }
{
    let end = sections.len();
    if begin < end {
        for _ in 1..times {
            sections.extend_from_within(begin..end)?;
        }
    }
    Ok(())
}

/// The sections that the front of an order plays.
#[derive(Drop)]
struct OrderPlay {
    /// The sections played so far, with the last item once.
    sections: Vec<usize>,
    /// The beginning of each open group, the innermost last.
    groups: ArrayVec<usize, MOST_GROUPS>,
    /// The beginning of the last item.
    begin: usize,
    /// Its count so far.
    count: Option<u32>,
}

impl OrderPlay {
    /// Returns the play of the opening section, with room for `room` sections after it.
    fn new(alloc: Global, room: usize) -> Result<OrderPlay, AllocError>
        requires { room < 2 ^ 32 }
        ensures { IfOk result (λ play. (sections : FirstSections) → IsPlayOf (section_of sections) nothing_played play) }
    {
        let mut sections = Vec::with_capacity(alloc, room + 1)?;
        sections.push(0)?;
        Ok(OrderPlay {
            sections,
            groups: ArrayVec::new(),
            begin: 1,
            count: None,
        })
    }

    /// Plays the last item `count` times, or once without a count.
    fn end_item(&mut self) -> Result<(), AllocError>
        requires inside { self.old.begin ≤ vec_len self.old.sections }
        requires counted { 0 < count_or_once self.old.count }
        ensures played { OnOk result ((section : ℕ → Option ℕ) → (played : OrderLetters) → IsPlayOf section played self.old
            → IsPlayOf section (with_item played.around (letters_so_far played) []) self.new) }
        ensures groups { OnOk result (self.new.groups ≡ self.old.groups) }
    {
        let times = self.count.unwrap_or(1);
        put_copies(&mut self.sections, self.begin, times)?;
        self.begin = self.sections.len();
        self.count = None;
        Ok(())
    }

    /// Reads one more byte of an order.
    fn read(&mut self, byte: u8, sections: &FirstSections) -> Result<(), AllocError>
        requires inside { self.old.begin ≤ vec_len self.old.sections }
        requires room { byte ≡ open_parenthesis → array_vec_len self.old.groups < MOST_GROUPS }
        requires short { is_ascii_digit byte ≡ true → count_on self.old.count byte < 2 ^ 32 }
        requires counted { is_order_byte byte ≡ true → is_ascii_digit byte ≡ false → 0 < count_or_once self.old.count }
        ensures { OnOk result ((played : OrderLetters) → IsPlayOf (section_of sections.now) played self.old
            → IsPlayOf (section_of sections.now) (read_on played byte) self.new) }
    {
        match byte {
            b'A'..=b'Z' => {
                self.end_item()?;
                if let Some(section) = sections.get(byte) {
                    self.sections.push(section)?;
                }
            }
            b'(' => {
                self.end_item()?;
                self.groups.push(self.begin);
            }
            b')' => {
                self.end_item()?;
                self.begin = self.groups.pop().unwrap_or(1);
            }
            b'0'..=b'9' => self.count = Some(longer_count(self.count, byte)),
            _ => {}
        }
        Ok(())
    }
}

/// Returns the opening section and the sections that the letters of an order play, in a list with room for `room`.
pub(crate) fn put_order(
    alloc: Global,
    order: &[u8],
    sections: &FirstSections,
    room: usize,
) -> Result<Vec<usize>, AllocError>
    requires order { parts_of order.now ≡ Ok tt }
    requires few { room < 2 ^ 32 }
    ensures { IfOk result (λ played. played.items ≡ sections_with (section_of sections.now) (letters_of order.now)) }
{
    let mut play = OrderPlay::new(alloc, room)?;
    for byte in order {
        play.read(*byte, sections)?;
    }
    play.end_item()?;
    Ok(play.sections)
}
