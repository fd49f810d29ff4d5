//! Tuplet marks.

ghost use Rattle.std.specs.Prelude.{◌≡◌, ◌≤◌, length, IfSome};
ghost use Rattle.abc_scan.specs.Front.{IsFront};
ghost use Rattle.abc_scan.specs.Tuplet.{further_at, tuplet_at};

use crate::number::{number_at, optional_number_at};

/// A tuplet mark as it is written (ABC 2.1 section 4.13): the next `r` notes in the time of `q` for each `p` of them.
/// The numbers may be 0: the caller decides whether they make a tuplet.
#[derive(Clone, Copy)]
pub struct Tuplet {
    pub p: u32,
    /// None if it is empty or not written.
    pub q: Option<u32>,
    /// None if it is empty or not written.
    pub r: Option<u32>,
}

/// The number after a colon at the front of a text, and the size of both in bytes.
fn further_at(text: &[u8]) -> (Option<u32>, usize)
    ensures value { result ≡ further_at text.now }
    ensures inside { result.1 ≤ length text.now }
{
    match text {
        [b':', following @ ..] => {
            let (number, size) = optional_number_at(following);
            (number, 1 + size)
        }
        _ => (None, 0),
    }
}

/// The tuplet mark at the front of a text, and its size in bytes.
#[tactic(auto, unfolding(crate::specs::Tuplet::tuplet_at))]
pub(crate) fn tuplet_at(text: &[u8]) -> Option<(Tuplet, usize)>
    ensures value { result ≡ tuplet_at text.now }
    ensures front { IfSome result (λ r. IsFront text.now r.1) }
{
    match text {
        [b'(', rest @ ..] => {
            let (p, p_size) = number_at(rest)?;
            let following = &rest[p_size..];
            let (q, q_size) = further_at(following);
            let (r, r_size) = further_at(&following[q_size..]);
            Some((Tuplet { p, q, r }, 1 + p_size + q_size + r_size))
        }
        _ => None,
    }
}
