//! The changes and the programs of a score.

ghost use Rattle.std.specs.Prelude.{◌≡◌, ◌≤◌, ◌++◌, All, IfOk, OnOk, map, filter_map};
ghost use Rattle.abc_time.specs.Grains.{grains_of_the_latest_end};
ghost use Rattle.abc_voices.specs.ScoreChanges.{tempo_change, meter_change, key_change, program_change, changes_in_force};
ghost use Rattle.abc_voices.specs.ScoreChanges.{programs_in_force};

use crate::ticks::last_of_each_tick;
use abc_fields::Meter;
use abc_time::Grains;
use abc_voices_score::{Change, ChangeKind, ProgramChange};
use std::alloc::{AllocError, Global};

/// Appends tempos as changes.
fn put_tempo_changes(out: &mut Vec<Change>, tempos: &[(Grains, u32)]) -> Result<(), AllocError>
    ensures { OnOk result (out.new.items ≡ out.old.items ++ map tempo_change tempos.now) }
{
    for (at, micros) in tempos {
        out.push(Change {
            at: *at,
            what: ChangeKind::Tempo(*micros),
        })?;
    }
    Ok(())
}

/// Appends meters as changes, without free meter.
fn put_meter_changes(out: &mut Vec<Change>, meters: &[(Grains, Meter)]) -> Result<(), AllocError>
    ensures { OnOk result (out.new.items ≡ out.old.items ++ filter_map meter_change meters.now) }
{
    for (at, meter) in meters {
        if let Meter::Of { num, den } = *meter {
            out.push(Change {
                at: *at,
                what: ChangeKind::Meter { num, den },
            })?;
        }
    }
    Ok(())
}

/// Appends keys as changes.
fn put_key_changes(out: &mut Vec<Change>, keys: &[(Grains, (i8, bool))]) -> Result<(), AllocError>
    ensures { OnOk result (out.new.items ≡ out.old.items ++ map key_change keys.now) }
{
    for (at, key) in keys {
        out.push(Change {
            at: *at,
            what: ChangeKind::Key {
                sharps: key.0,
                minor: key.1,
            },
        })?;
    }
    Ok(())
}

/// Appends programs as changes.
fn put_program_changes(
    out: &mut Vec<ProgramChange>,
    programs: &[(Grains, u8)],
) -> Result<(), AllocError>
    ensures { OnOk result (out.new.items ≡ out.old.items ++ map program_change programs.now) }
{
    for (at, number) in programs {
        out.push(ProgramChange {
            at: *at,
            number: *number,
        })?;
    }
    Ok(())
}

/// Returns the changes of a score, from the tempos, meters and keys in order of play.
pub(crate) fn changes_in_force(
    alloc: Global,
    tempos: &[(Grains, u32)],
    meters: &[(Grains, Meter)],
    keys: &[(Grains, (i8, bool))],
) -> Result<Vec<Change>, AllocError>
    requires tempos { All (λ set. set.0.0 ≤ grains_of_the_latest_end) tempos.now }
    requires meters { All (λ set. set.0.0 ≤ grains_of_the_latest_end) meters.now }
    requires keys { All (λ set. set.0.0 ≤ grains_of_the_latest_end) keys.now }
    ensures { IfOk result (λ changes. changes.items ≡ changes_in_force tempos.now meters.now keys.now) }
{
    let mut changes = Vec::new(alloc);
    put_tempo_changes(&mut changes, &last_of_each_tick(alloc, tempos)?)?;
    put_meter_changes(&mut changes, &last_of_each_tick(alloc, meters)?)?;
    put_key_changes(&mut changes, &last_of_each_tick(alloc, keys)?)?;
    Ok(changes)
}

/// Returns the programs of a voice in its score, from those in order of play.
pub(crate) fn programs_in_force(
    alloc: Global,
    programs: &[(Grains, u8)],
) -> Result<Vec<ProgramChange>, AllocError>
    requires { All (λ set. set.0.0 ≤ grains_of_the_latest_end) programs.now }
    ensures { IfOk result (λ changes. changes.items ≡ programs_in_force programs.now) }
{
    let mut changes = Vec::new(alloc);
    put_program_changes(&mut changes, &last_of_each_tick(alloc, programs)?)?;
    Ok(changes)
}
