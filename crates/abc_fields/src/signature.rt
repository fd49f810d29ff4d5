//! Key signatures.

ghost use Rattle.std.specs.Prelude.{◌≡◌, ◌≤ℤ◌, pos};
ghost use Rattle.abc_fields.specs.Signature.{alteration, altered_signature, alteration_by_fifths, fifths, signature_of, IsSharps};

use abc_text::Letter;

/// A key signature: the alteration of each letter in semitones (ABC 2.1 section 3.1.14).
#[derive(Clone, Copy, PartialEq, Eq)]
pub struct Signature {
    pub a: i8,
    pub b: i8,
    pub c: i8,
    pub d: i8,
    pub e: i8,
    pub f: i8,
    pub g: i8,
}

/// The signature without sharps and flats.
pub const NATURAL: Signature = Signature {
    a: 0,
    b: 0,
    c: 0,
    d: 0,
    e: 0,
    f: 0,
    g: 0,
};

/// Returns the alteration of a letter in semitones (ABC 2.1 section 3.1.14).
pub fn alteration(signature: &Signature, letter: Letter) -> i8
    ensures { result ≡ alteration signature.now letter }
{
    match letter {
        Letter::A => signature.a,
        Letter::B => signature.b,
        Letter::C => signature.c,
        Letter::D => signature.d,
        Letter::E => signature.e,
        Letter::F => signature.f,
        Letter::G => signature.g,
    }
}

/// The signature with another alteration of a letter.
pub(crate) fn altered_signature(signature: Signature, letter: Letter, by: i8) -> Signature
    ensures { result ≡ altered_signature signature letter by }
{
    let mut changed = signature;
    match letter {
        Letter::A => changed.a = by,
        Letter::B => changed.b = by,
        Letter::C => changed.c = by,
        Letter::D => changed.d = by,
        Letter::E => changed.e = by,
        Letter::F => changed.f = by,
        Letter::G => changed.g = by,
    }
    changed
}

/// Returns the number of fifths from F up to a letter. Sharps come in this order, flats in the reverse order.
pub(crate) fn fifths(letter: Letter) -> i8
    ensures value { result ≡ pos (fifths letter) }
    ensures low { pos 0 ≤ℤ result }
    ensures high { result ≤ℤ pos 6 }
{
    match letter {
        Letter::F => 0,
        Letter::C => 1,
        Letter::G => 2,
        Letter::D => 3,
        Letter::A => 4,
        Letter::E => 5,
        Letter::B => 6,
    }
}

/// Returns the alteration of a letter by this number of sharps, or of flats if it is negative.
fn alteration_by_fifths(sharps: i8, letter: Letter) -> i8
    requires { IsSharps sharps }
    ensures { result ≡ alteration_by_fifths sharps letter }
{
    if sharps > fifths(letter) {
        1
    } else if -sharps > 6 - fifths(letter) {
        -1
    } else {
        0
    }
}

/// Returns the signature of this number of sharps, or of flats if it is negative.
#[tactic(auto, unfolding(crate::specs::Signature::signature_of))]
pub(crate) fn signature_of(sharps: i8) -> Signature
    requires { IsSharps sharps }
    ensures value { result ≡ signature_of sharps }
{
    Signature {
        a: alteration_by_fifths(sharps, Letter::A),
        b: alteration_by_fifths(sharps, Letter::B),
        c: alteration_by_fifths(sharps, Letter::C),
        d: alteration_by_fifths(sharps, Letter::D),
        e: alteration_by_fifths(sharps, Letter::E),
        f: alteration_by_fifths(sharps, Letter::F),
        g: alteration_by_fifths(sharps, Letter::G),
    }
}
