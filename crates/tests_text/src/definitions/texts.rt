//! Blanks, words, numbers, letters and accidentals, by the definitions of `abc_text`. Blanks and numbers are not
//! defined in ABC 2.1.
#![tactic(auto, unfolding(crate::specs::Opened::texts))]

ghost use Rattle.std.specs.Prelude.{◌≡◌, true, false, [], ◌∷◌, codes, Some, None};
ghost use Rattle.abc_text.specs.Accidental.{accidental_of};
ghost use Rattle.abc_text.specs.Blank.{trim_blanks};
ghost use Rattle.abc_text.specs.Cut.{cut_at};
ghost use Rattle.abc_text.specs.LineEnd.{without_return};
ghost use Rattle.abc_text.specs.Letter.{letter_of};
ghost use Rattle.abc_text.specs.Number.{number_of};
ghost use Rattle.abc_text.specs.Power.{is_power_up_to};
ghost use Rattle.abc_text.specs.Word.{words_of};
ghost use Rattle.abc_text.specs.declared.accidental.Accidental.TheVariants.{DoubleFlat, Natural};
ghost use Rattle.abc_text.specs.declared.letter.Letter.TheVariants as letters;

/// Spaces and tabs are blanks, and no other byte is.
pub fn blanks()
    ensures both_ends { trim_blanks (codes " \ta b\t ") ≡ codes "a b" }
    ensures nothing_else { trim_blanks (codes " \t") ≡ [] }
    ensures other_bytes { trim_blanks (codes "\r a\n") ≡ codes "\r a\n" }
    ensures words { words_of (codes " a\tbc  d ") ≡ codes "a" ∷ codes "bc" ∷ codes "d" ∷ [] }
    ensures no_words { words_of (codes " \t ") ≡ [] }
{}

/// One to nine digits, zeros in front among them.
pub fn numbers()
    ensures zero { number_of (codes "0") ≡ Some 0 }
    ensures zeros_in_front { number_of (codes "007") ≡ Some 7 }
    ensures greatest { number_of (codes "999999999") ≡ Some 999999999 }
    ensures ten_digits { number_of (codes "0000000001") ≡ None }
    ensures empty { number_of [] ≡ None }
    ensures sign { number_of (codes "+1") ≡ None }
{}

/// A text is cut at the first byte of a value. One carriage return is dropped at an end.
pub fn cuts()
    ensures first { cut_at 43 (codes "1+2+3") ≡ Some (codes "1", codes "2+3") }
    ensures at_the_front { cut_at 43 (codes "+") ≡ Some ([], []) }
    ensures none { cut_at 43 (codes "1-2") ≡ None }
    ensures one_return { without_return (codes "a\r\r") ≡ codes "a\r" }
    ensures no_return { without_return (codes "\ra") ≡ codes "\ra" }
{}

/// The powers of two up to a power.
pub fn powers_of_two()
    ensures least { is_power_up_to 9 1 ≡ true }
    ensures most { is_power_up_to 9 512 ≡ true }
    ensures more { is_power_up_to 9 1024 ≡ false }
    ensures three { is_power_up_to 9 3 ≡ false }
    ensures zero { is_power_up_to 9 0 ≡ false }
{}

/// The letters from C to B, capital or small, and the accidentals. ABC 2.1 sections 4.1 and 4.2.
pub fn letters_and_accidentals()
    ensures capital { letter_of 71 ≡ Some letters.G }
    ensures small { letter_of 97 ≡ Some letters.A }
    ensures neither { letter_of 104 ≡ None }
    ensures double_flat { accidental_of (codes "__") ≡ Some DoubleFlat }
    ensures natural { accidental_of (codes "=") ≡ Some Natural }
    ensures mixed { accidental_of (codes "_^") ≡ None }
{}
