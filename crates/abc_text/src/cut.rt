//! The first byte of a value in a text, and a text cut at it.

ghost use Rattle.std.specs.Prelude.{◌≡◌, ◌<◌, ◌==◌, IfSome, MatchOption, length, option_map};
ghost use Rattle.std.specs.List.{position};
ghost use Rattle.abc_text.specs.Cut.{HasNoByte, IsCut, cut_at};

use bstr::ByteSlice;

/// Returns the index of the first byte of this value in a text, or none if the text has no such byte.
#[tactic(auto, using(crate::proofs::Positions::position_of))]
pub fn find_byte(text: &[u8], byte: u8) -> Option<usize>
    ensures value { result ≡ position (λ b. b == byte) text.now }
    ensures inside { IfSome result (λ at. at < length text.now) }
{
    text.find_byte(byte)
}

/// Returns the parts of a text before and after the first byte of this value, or none if the text has no such byte.
#[tactic(auto, unfolding(crate::specs::Cut::cut_at))]
pub fn cut_at(text: &[u8], byte: u8) -> Option<(&[u8], &[u8])>
    ensures value { option_map (λ parts. (parts.0.now, parts.1.now)) result ≡ cut_at byte text.now }
    ensures cut { MatchOption result (HasNoByte byte text.now) (λ parts. IsCut byte text.now parts.0.now parts.1.now) }
{
    let at = find_byte(text, byte)?;
    Some((&text[..at], &text[at + 1..]))
}
