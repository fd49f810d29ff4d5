//! Signatures with listed accidentals.

ghost use Rattle.std.specs.Prelude.{◌≡◌};
ghost use Rattle.abc_text.specs.Word.{words_of};
ghost use Rattle.abc_fields.specs.Listed.{with_word, with_accidentals};

use crate::accidental::next_change;
use crate::signature::{Signature, altered_signature};
use abc_text::next_word;

/// Returns a signature with the changes that a word lists. Any other word changes nothing.
#[tactic(auto, using(crate::proofs::Listings::changed_all))]
fn with_word(signature: Signature, word: &[u8]) -> Signature
    ensures { result ≡ with_word signature word.now }
{
    let mut changed = signature;
    let mut rest = word;
    while let Some((change, following)) = next_change(rest) {
        changed = altered_signature(changed, change.letter, change.accidental.alteration());
        rest = following;
    }
    if rest.is_empty() { changed } else { signature }
}

/// A signature with the changes that the words of a text list, one word after another (ABC 2.1
/// section 3.1.14).
#[tactic(auto, using(crate::proofs::Listings::accidentals_step, crate::proofs::Listings::accidentals_none))]
pub(crate) fn with_accidentals(signature: Signature, text: &[u8]) -> Signature
    ensures { result ≡ with_accidentals signature (words_of text.now) }
{
    let mut changed = signature;
    let mut rest = text;
    while let Some((word, following)) = next_word(rest) {
        changed = with_word(changed, word);
        rest = following;
    }
    changed
}
