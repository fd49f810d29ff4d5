//! The words of a text.

ghost use Rattle.std.specs.Prelude.{◌≡◌, ◌↔◌, ◌<◌, ◌≤◌, ℕ, List, [], ◌∷◌, length, drop, slice_range, MatchOption, IfSome};
ghost use Rattle.abc_text.specs.Blank.{AreBlanks};
ghost use Rattle.abc_text.specs.Word.{leading_blanks, bytes_before_blank, first_word, words_of, AreWords, IsFirstWord};

use crate::blank::is_blank;

/// Returns the number of blanks at the front of a text.
pub fn leading_blanks(text: &[u8]) -> usize
    ensures value { result ≡ leading_blanks text.now }
    ensures inside { result ≤ length text.now }
{
    text.iter().take_while(|byte| is_blank(**byte)).count()
}

/// Returns the number of bytes before the first blank of a text.
pub fn bytes_before_blank(text: &[u8]) -> usize
    ensures value { result ≡ bytes_before_blank text.now }
    ensures inside { result ≤ length text.now }
{
    text.iter().take_while(|byte| !is_blank(**byte)).count()
}

/// Returns the beginning and the end of the first word of a text.
#[tactic(auto, unfolding(crate::specs::Word::first_word))]
pub fn first_word(text: &[u8]) -> Option<(usize, usize)>
    ensures value { result ≡ first_word text.now }
    ensures words { MatchOption result (words_of text.now ≡ [])
        (λ w. words_of text.now ≡ slice_range text.now w.0 w.1 ∷ words_of (drop w.1 text.now)) }
    ensures some { IfSome result (λ w. w.0 < w.1) }
    ensures inside { IfSome result (λ w. w.1 ≤ length text.now) }
{
    let from = leading_blanks(text);
    if from == text.len() {
        return None;
    }
    Some((from, from + bytes_before_blank(&text[from..])))
}

/// Returns the first word of a text, and the rest from the blank that ends it; none if the text has only blanks.
#[tactic(auto, using(crate::proofs::Words::all_blank, crate::proofs::Words::first_cut, crate::proofs::Words::words_exact))]
pub fn next_word(text: &[u8]) -> Option<(&[u8], &[u8])>
    ensures first { MatchOption result (AreBlanks text.now) (λ p. IsFirstWord text.now p.0.now p.1.now) }
    ensures words { MatchOption result (words_of text.now ≡ []) (λ p. words_of text.now ≡ p.0.now ∷ words_of p.1.now) }
    ensures shorter { IfSome result (λ p. length p.1.now < length text.now) }
    ensures grammar { (words : List (List ℕ)) → (words_of text.now ≡ words) ↔ AreWords text.now words }
{
    let (from, to) = first_word(text)?;
    Some((&text[from..to], &text[to..]))
}
