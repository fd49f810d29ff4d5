//! How long grace notes want to sound.

ghost use Rattle.std.specs.Prelude.{◌≡◌, ◌≤◌};
ghost use Rattle.abc_bars_items.specs.Item.{IsWithinLongest};
ghost use Rattle.abc_bars_voice.specs.UnitLength.{unit_grains};
ghost use Rattle.abc_marks_cells.specs.GraceLength.{quarter_times, quarter_unit, wanted_length, is_factor, within_longest};

use abc_bars_voice::UnitLength;
use abc_scan::WrittenLength;
use abc_text::LARGEST_NUMBER;
use abc_time::{Grains, WHOLE_NOTE};

/// The longest that a grace note may want: 1,024 whole notes.
const MOST_GRAINS: u128 = 1_024 * WHOLE_NOTE.0 as u128;

/// Returns a quarter of the unit.
fn quarter_unit(unit: UnitLength) -> Grains
    ensures value { result ≡ quarter_unit unit }
    ensures range { IsWithinLongest result }
{
    Grains(unit.grains().0 / 4)
}

/// Returns a quarter of the unit times a factor, rounded down.
fn quarter_times(unit: UnitLength, num: u32, den: u32) -> u128
    requires { 1 ≤ den }
    ensures { result ≡ quarter_times unit num den }
{
    u128::from(unit.grains().0) * u128::from(num) / (4 * u128::from(den))
}

/// Returns whether a part of a factor is in range.
fn is_factor(number: u32) -> bool
    ensures { result ≡ is_factor number }
{
    (1..=LARGEST_NUMBER).contains(&number)
}

/// Returns a length, or a quarter of the unit if it is longer than a grace note may want.
#[tactic(auto, unfolding(abc_time::specs::Grains::grains_of_the_longest_length, abc_time::specs::Grains::grains_of_a_whole_note))]
fn within_longest(unit: UnitLength, wanted: u128) -> Grains
    ensures value { result ≡ within_longest unit wanted }
    ensures range { IsWithinLongest result }
{
    if wanted <= MOST_GRAINS {
        Grains(wanted as u64)
    } else {
        quarter_unit(unit)
    }
}

/// Returns what a grace note of this written length wants: a quarter of it. A length that is refused or too long counts as one unit.
pub(crate) fn wanted_length(unit: UnitLength, written: WrittenLength) -> Grains
    ensures value { result ≡ wanted_length unit written }
    ensures range { IsWithinLongest result }
{
    match written {
        WrittenLength::Factor { num, den } => {
            if is_factor(num) && is_factor(den) {
                within_longest(unit, quarter_times(unit, num, den))
            } else {
                quarter_unit(unit)
            }
        }
        WrittenLength::Refused => quarter_unit(unit),
    }
}
