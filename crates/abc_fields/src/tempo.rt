//! The tempo, `Q:`.

ghost use Rattle.std.specs.Prelude.{◌≡◌, ◌≤◌, ◌*◌, ok_or, IfOk, IfSome};
ghost use Rattle.abc_text.specs.declared.digit.TheConstants.{LARGEST_NUMBER};
ghost use Rattle.abc_fields.specs.Tempo.{positive_number, part_of, fraction_of, sum_of, lowest_terms, word_in_front, after_word};
ghost use Rattle.abc_fields.specs.Tempo.{bare_tempo, tempo_around, tempo_in, tempo_of, IsInRange};
ghost use Rattle.abc_fields.specs.Reading.{IsReading};
ghost use Rattle.abc_fields.specs.Spelling.Tempo.{IsTempo};

use crate::fault_code::FaultCode;
use abc_text::{bytes_before_blank, cut_at, is_power_up_to, number_of, trim_end, trim_start};
use abc_time::Ratio;

/// The value of a tempo field (ABC 2.1 section 3.1.8).
#[derive(Clone, Copy, PartialEq, Eq)]
pub enum Tempo {
    /// Nothing: it is empty, or only a text.
    Unset,
    /// The number of unit notes per minute.
    Units(u32),
    /// The number of beats per minute. A beat is this part of a whole note, in lowest terms.
    Beat { beat: Ratio, n: u32 },
}

/// The greatest number of fractions in the sum of a beat.
const MOST_FRACTIONS: usize = 16;

/// The number of halvings of 512 down to 1.
const MOST_HALVINGS: u32 = 9;

/// The parts of a whole note in which beats are counted.
const FINEST: u32 = 512;

/// The number from 1 that a text spells.
#[tactic(auto, unfolding(crate::specs::Tempo::positive_number))]
fn positive_number(text: &[u8]) -> Option<u32>
    ensures value { result ≡ positive_number text.now }
    ensures range { IfSome result (λ n. (1 ≤ n) × (n ≤ LARGEST_NUMBER)) }
{
    let n = number_of(text)?;
    if n == 0 { None } else { Some(n) }
}

/// A fraction of a whole note in 512ths, if both its parts are accepted.
#[tactic(auto, unfolding(crate::specs::Tempo::part_of))]
fn part_of(above: u32, below: u32) -> Option<u32>
    ensures value { result ≡ part_of above below }
    ensures range { IfSome result (λ part. (1 ≤ part) × (part ≤ 262144)) }
{
    if above == 0 || above > FINEST || !is_power_up_to(MOST_HALVINGS, below) {
        return None;
    }
    Some(above * (FINEST / below))
}

/// The fraction that a word spells, in 512ths.
#[tactic(auto, unfolding(crate::specs::Tempo::fraction_of))]
fn fraction_of(word: &[u8]) -> Option<u32>
    ensures value { result ≡ fraction_of word.now }
    ensures range { IfSome result (λ part. (1 ≤ part) × (part ≤ 262144)) }
{
    let (above, below) = cut_at(word, b'/')?;
    part_of(number_of(above)?, number_of(below)?)
}

/// Returns the part before the first blank of a text, and the rest after that part and its blanks.
#[tactic(auto, unfolding(crate::specs::Tempo::word_in_front, crate::specs::Tempo::after_word))]
fn split_word(text: &[u8]) -> (&[u8], &[u8])
    ensures word { result.0.now ≡ word_in_front text.now }
    ensures following { result.1.now ≡ after_word text.now }
{
    let size = bytes_before_blank(text);
    (&text[..size], trim_start(&text[size..]))
}

/// The sum of the fractions that a text spells, in 512ths.
fn sum_of(text: &[u8]) -> Option<u32>
    ensures value { result ≡ sum_of MOST_FRACTIONS text.now }
    ensures range { IfSome result (λ sum. (1 ≤ sum) × (sum ≤ 16 * 262144)) }
{
    let mut sum = 0;
    let mut rest = text;
    for _ in 0..MOST_FRACTIONS {
        let (word, following) = split_word(rest);
        sum += fraction_of(word)?;
        if following.is_empty() {
            return Some(sum);
        }
        rest = following;
    }
    None
}

/// Returns a number of 512ths in lowest terms.
fn lowest_terms(sum: u32) -> Ratio
    ensures { result ≡ lowest_terms sum }
{
    let mut num = sum;
    let mut den = FINEST;
    for _ in 0..MOST_HALVINGS {
        if num % 2 != 0 {
            return Ratio { num, den };
        }
        num /= 2;
        den /= 2;
    }
    Ratio { num, den }
}

/// The tempo that a text without quotes spells.
#[tactic(auto, unfolding(crate::specs::Tempo::bare_tempo))]
fn bare_tempo(text: &[u8]) -> Option<Tempo>
    ensures { result ≡ bare_tempo text.now }
{
    match cut_at(text, b'=') {
        None => Some(Tempo::Units(positive_number(text)?)),
        Some((front, back)) => Some(Tempo::Beat {
            beat: lowest_terms(sum_of(front)?),
            n: positive_number(trim_start(back))?,
        }),
    }
}

/// The tempo of the part before a quoted text and after it.
#[tactic(auto, unfolding(crate::specs::Tempo::tempo_around))]
fn tempo_around(before: &[u8], following: &[u8]) -> Option<Tempo>
    ensures { result ≡ tempo_around before.now following.now }
{
    match (before.is_empty(), following.is_empty()) {
        (true, true) => Some(Tempo::Unset),
        (true, false) => bare_tempo(trim_start(following)),
        (false, true) => bare_tempo(trim_end(before)),
        (false, false) => None,
    }
}

/// The tempo that a value spells.
#[tactic(auto, unfolding(crate::specs::Tempo::tempo_in))]
fn tempo_in(value: &[u8]) -> Option<Tempo>
    ensures { result ≡ tempo_in value.now }
{
    if value.is_empty() {
        return Some(Tempo::Unset);
    }
    match cut_at(value, b'"') {
        None => bare_tempo(value),
        Some((before, quoted)) => {
            let (_, following) = cut_at(quoted, b'"')?;
            tempo_around(before, following)
        }
    }
}

/// Reads the value of Q: (ABC 2.1 section 3.1.8): `a/b=n` for a beat, a sum of up to 16 fractions, and beats per
/// minute; or `n` for unit notes per minute. A quoted text may come before or after it, or alone. The value may be
/// empty. a is 1 to 512, b a power of two up to 512, n at least 1. Anything else is `BadTempo`. The bounds, n alone and
/// the empty value are not in ABC 2.1.
pub fn read_tempo(value: &[u8]) -> Result<Tempo, FaultCode>
    ensures value { result ≡ tempo_of value.now }
    ensures exact { IsReading (IsTempo value.now) FaultCode.BadTempo result }
    ensures range { IfOk result IsInRange }
{
    tempo_in(value).ok_or(FaultCode::BadTempo)
}
