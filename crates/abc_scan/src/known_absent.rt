//! Closing bytes, and the memory of failed searches for them.

ghost use Rattle.std.specs.Prelude.{◌≡◌, ◌<◌, ℕ, List, IfSome, is_none, length, true};
ghost use Rattle.abc_text.specs.Cut.{HasNoByte};
ghost use Rattle.abc_scan.specs.KnownAbsent.{place_of, IsKnownAbsent};

use abc_text::find_byte;

/// The closing bytes that are known to be absent from the rest of a text. They save a second search. A `"` or `!` needs
/// no flag: if it finds no other, it is the last one.
#[derive(Clone, Copy)]
pub(crate) struct KnownAbsent {
    pub(crate) brace: bool,
    pub(crate) bracket: bool,
}

impl KnownAbsent {
    /// Nothing is known yet.
    pub(crate) fn none() -> Self
        ensures { (text : List ℕ) → IsKnownAbsent result text }
    {
        KnownAbsent {
            brace: false,
            bracket: false,
        }
    }
}

/// Returns the place of the first closing byte in a text, without a search if the byte is known to be absent. Remembers
/// a search that fails.
#[tactic(auto, using(crate::proofs::Closings::place_of_none, crate::proofs::Closings::place_lacks))]
pub(crate) fn find(absent: &mut bool, closing: u8, text: &[u8]) -> Option<usize>
    requires { absent.old ≡ true → HasNoByte closing text.now }
    ensures value { result ≡ place_of closing text.now }
    ensures inside { IfSome result (λ place. place < length text.now) }
    ensures absent { absent.new ≡ true → HasNoByte closing text.now }
    ensures remembered { absent.new ≡ is_none result }
{
    if *absent {
        return None;
    }
    let place = find_byte(text, closing);
    *absent = place.is_none();
    place
}
