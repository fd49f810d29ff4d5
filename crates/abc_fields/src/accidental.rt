//! Accidentals of a field, as `^f_B`.

ghost use Rattle.std.specs.Prelude.{◌≡◌, ◌↔◌, ◌⊎◌, ◌<◌, ◌∷◌, [], List, length, position, MatchOption, IfSome, Some, None};
ghost use Rattle.std.specs.Option.{option_map};
ghost use Rattle.abc_fields.specs.declared.accidental.SignatureChange.{SignatureChange};
ghost use Rattle.abc_fields.specs.Accidental.{is_letter, changes_of};
ghost use Rattle.abc_fields.specs.Spelling.Accidental.{AreChanges};

use abc_text::{Accidental, Letter, accidental_of, letter_of};

/// A change of a signature: an accidental in front of a letter.
#[derive(Clone, Copy)]
pub(crate) struct SignatureChange {
    pub(crate) accidental: Accidental,
    pub(crate) letter: Letter,
}

/// Returns whether a byte is a letter of a note.
fn is_letter(byte: u8) -> bool
    ensures { result ≡ is_letter byte }
{
    letter_of(byte).is_some()
}

/// The index of the first letter of a text.
fn first_letter(text: &[u8]) -> Option<usize>
    ensures value { result ≡ position is_letter text.now }
    ensures inside { IfSome result (λ at. at < length text.now) }
{
    text.iter().position(|byte| is_letter(*byte))
}

/// Returns the first change of a text, and the rest after it.
pub(crate) fn next_change(text: &[u8]) -> Option<(SignatureChange, &[u8])>
    ensures changes { MatchOption result ((text.now ≡ []) ⊎ (changes_of text.now ≡ None))
        (λ p. changes_of text.now ≡ option_map (λ more. p.0 ∷ more) (changes_of p.1.now)) }
    ensures shorter { IfSome result (λ p. length p.1.now < length text.now) }
    ensures grammar { (changes : List SignatureChange) → (changes_of text.now ≡ Some changes) ↔ AreChanges text.now changes }
{
    let at = first_letter(text)?;
    let accidental = accidental_of(&text[..at])?;
    let letter = letter_of(text[at])?;
    Some((SignatureChange { accidental, letter }, &text[at + 1..]))
}
