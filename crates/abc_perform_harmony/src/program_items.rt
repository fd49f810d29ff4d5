//! The programs of the accompaniment.

ghost use Rattle.std.specs.Prelude.{◌≡◌, ◌≤◌, ◌++◌, All, IfSome, OnOk};
ghost use Rattle.abc_bars_items.specs.declared.program.TheConstants.{HIGHEST_PROGRAM};
ghost use Rattle.abc_perform_harmony.specs.Harmony.{IsHarmonyMark, IsTimedMark};
ghost use Rattle.abc_perform_harmony.specs.ProgramItems.{program_in, program_item, program_items};
ghost use Rattle.abc_perform_item.specs.Performance.{IsPerformed};

use crate::harmony_mark::{HarmonyMark, Part, TimedMark};
use abc_bars_items::Item;
use abc_perform_item::{Performance, Performed, Source};
use std::alloc::AllocError;

/// Returns the program that a mark sets for a voice of the accompaniment.
fn program_in(part: Part, mark: HarmonyMark) -> Option<u8>
    requires { IsHarmonyMark mark }
    ensures value { result ≡ program_in part mark }
    ensures range { IfSome result (λ program. program ≤ HIGHEST_PROGRAM) }
{
    match (part, mark) {
        (Part::Chords, HarmonyMark::ChordProgram(program)) => Some(program),
        (Part::Bass, HarmonyMark::BassProgram(program)) => Some(program),
        _ => None,
    }
}

/// Returns a program as an item.
fn program_item(program: u8) -> Performed
    requires { program ≤ HIGHEST_PROGRAM }
    ensures value { result ≡ program_item program }
    ensures range { IsPerformed result }
{
    Performed {
        item: Item::Program {
            opening: false,
            number: Some(program),
        },
        source: Source::Nothing,
    }
}

/// Appends the programs that marks set for a voice of the accompaniment.
pub(crate) fn put_programs(
    performance: &mut Performance,
    part: Part,
    marks: &[TimedMark],
) -> Result<(), AllocError>
    requires { All IsTimedMark marks.now }
    ensures { OnOk result (performance.new ≡ performance.old ++ program_items part marks.now) }
{
    for timed in marks {
        if let Some(program) = program_in(part, timed.mark) {
            performance.push(program_item(program))?;
        }
    }
    Ok(())
}
