//! Lengths of notes and rests.

ghost use Rattle.std.specs.Prelude.{◌≡◌, ◌≤◌, ◌↔◌, ℕ, [], ◌∷◌, ◌++◌, false, option_to_list, IfSome};
ghost use Rattle.std.specs.Option.{ForSome};
ghost use Rattle.std.specs.Result.{result_ok};
ghost use Rattle.abc_time.specs.Grains.{grains_of_the_longest_length};
ghost use Rattle.abc_time.specs.Length.{IsLength, length_of};
ghost use Rattle.abc_time.specs.Ratio.{IsRatio};
ghost use Rattle.abc_bars_notes.specs.Lengths.{is_ratio_part, ratio_of, written_ratio, texts_of, length_by, HasLength};
ghost use Rattle.abc_bars_notes.specs.Lengths.{length_or_unit};
ghost use Rattle.abc_bars_voice.specs.Tuplet.{tuplet_factors};

use crate::broken::BrokenFactors;
use abc_bars_voice::{OpenTuplet, UnitLength};
use abc_scan::WrittenLength;
use abc_text::LARGEST_NUMBER;
use abc_time::{Grains, Ratio, length};

/// The factor that changes nothing.
const ONCE: Ratio = Ratio { num: 1, den: 1 };

/// Units of a whole note that are together no longer than a note may be.
pub(crate) const MOST_UNITS: u32 = 1_024;

/// Whether a part of a ratio is in range.
fn is_ratio_part(number: u32) -> bool
    ensures { result ≡ is_ratio_part number }
{
    (1..=LARGEST_NUMBER).contains(&number)
}

/// The ratio of two numbers, if both are in range.
pub(crate) fn ratio_of(num: u32, den: u32) -> Option<Ratio>
    ensures value { result ≡ ratio_of num den }
    ensures range { IfSome result IsRatio }
{
    if is_ratio_part(num) && is_ratio_part(den) {
        Some(Ratio { num, den })
    } else {
        None
    }
}

/// The factor of a written length, if it is accepted (ABC 2.1 section 4.3).
fn written_ratio(length: WrittenLength) -> Option<Ratio>
    ensures value { result ≡ written_ratio length }
    ensures range { IfSome result IsRatio }
{
    match length {
        WrittenLength::Factor { num, den } => ratio_of(num, den),
        WrittenLength::Refused => None,
    }
}

/// The factor of the open tuplet, if there is one.
fn tuplet_ratio(tuplet: Option<OpenTuplet>) -> Option<Ratio>
    ensures value { option_to_list result ≡ tuplet_factors tuplet }
    ensures range { IfSome result IsRatio }
{
    match tuplet {
        Some(tuplet) => Some(tuplet.ratio()),
        None => None,
    }
}

/// Several units, exactly. A unit is at most a whole note, so they are not too long.
#[inline(always)]
fn units_of(unit: UnitLength, count: u32) -> Grains
    requires { count ≤ MOST_UNITS }
    ensures exact { IsLength unit (record { num = count; den = 1 } ∷ []) result.0 }
    ensures range { result.0 ≤ grains_of_the_longest_length }
{
    // For the prover: a unit is at most a whole note.
    let _ = unit.get();
    Grains(unit.grains().0 * u64::from(count))
}

/// The unit times the factors of the note's own text, of its chord's, of its tuplet and of the marks beside it, if that
/// is a length. Few units are multiplied directly: so are most lengths.
#[inline(always)]
fn product_of(
    unit: UnitLength,
    own: Ratio,
    outer: Option<Ratio>,
    tuplet: Option<OpenTuplet>,
    broken: &BrokenFactors,
) -> Option<Grains>
    requires own { IsRatio own }
    requires outer { ForSome outer IsRatio }
    ensures value { result ≡ result_ok (length_of unit ((own ∷ option_to_list outer) ++ (tuplet_factors tuplet ++ broken.now))) }
    ensures exact { (g : ℕ) → (result ≡ Some (record { 0 = g }))
        ↔ (IsLength unit ((own ∷ option_to_list outer) ++ (tuplet_factors tuplet ++ broken.now)) g
        × (g ≤ grains_of_the_longest_length)) }
    ensures range { IfSome result (λ length. length.0 ≤ grains_of_the_longest_length) }
{
    let part = unit.get();
    if own.den == 1
        && own.num <= MOST_UNITS
        && outer.is_none()
        && tuplet.is_none()
        && broken.is_empty()
    {
        return Some(units_of(unit, own.num));
    }
    let factors = [
        own,
        outer.unwrap_or(ONCE),
        tuplet_ratio(tuplet).unwrap_or(ONCE),
        broken.preceding.unwrap_or(ONCE),
        broken.ahead.unwrap_or(ONCE),
    ];
    length(part, &factors).ok()
}

/// The unit times all factors, if no text is refused and the product is a length.
#[inline(always)]
fn length_by(
    unit: UnitLength,
    own: WrittenLength,
    outer: Option<WrittenLength>,
    tuplet: Option<OpenTuplet>,
    broken: &BrokenFactors,
) -> Option<Grains>
    ensures value { result ≡ length_by unit (texts_of own outer) (tuplet_factors tuplet ++ broken.now) }
    ensures exact { (g : ℕ) → (result ≡ Some (record { 0 = g }))
        ↔ HasLength unit (texts_of own outer) (tuplet_factors tuplet ++ broken.now) g }
    ensures range { IfSome result (λ length. length.0 ≤ grains_of_the_longest_length) }
{
    let own = written_ratio(own)?;
    match outer {
        None => product_of(unit, own, None, tuplet, broken),
        Some(outer) => {
            let outer = written_ratio(outer)?;
            product_of(unit, own, Some(outer), tuplet, broken)
        }
    }
}

/// The length of a note or rest, and whether what is written is refused: then it is one unit long. `outer` is the length
/// after the note's chord.
#[inline(always)]
pub(crate) fn length_or_unit(
    unit: UnitLength,
    own: WrittenLength,
    outer: Option<WrittenLength>,
    tuplet: Option<OpenTuplet>,
    broken: &BrokenFactors,
) -> (Grains, bool)
    ensures value { result ≡ length_or_unit unit (texts_of own outer) (tuplet_factors tuplet ++ broken.now) }
    ensures exact { (g : ℕ) → (result ≡ (record { 0 = g }, false))
        ↔ HasLength unit (texts_of own outer) (tuplet_factors tuplet ++ broken.now) g }
    ensures range { result.0.0 ≤ grains_of_the_longest_length }
{
    match length_by(unit, own, outer, tuplet, broken) {
        Some(length) => (length, false),
        None => (unit.grains(), true),
    }
}
