//! The faults of a text once a stretch of its lines has been replaced.

ghost use Rattle.std.specs.Prelude.{◌≡◌, ◌+◌, ◌-◌, ◌<◌, ◌≤◌, ◌++◌, All, IfOk, OnOk, filter, map};
ghost use Rattle.abc_lines.specs.ItemRange.{removed_count};
ghost use Rattle.abc_live_index.specs.Faults.{shifted_fault, faults_after, is_before, is_after};

use abc_lines::Replacement;
use abc_tune_compiler::{Fault, sort_dedup};
use std::alloc::{AllocError, Global};

/// Returns the faults of the first `from` lines.
fn faults_before(alloc: Global, faults: &[Fault], from: usize) -> Result<Vec<Fault>, AllocError>
    ensures { IfOk result (λ kept. kept.items ≡ filter (is_before from) faults.now) }
{
    faults
        .iter()
        .copied()
        .filter(|fault| fault.line as usize <= from)
        .collect(alloc)
}

/// Returns the faults after the first `to` lines.
fn faults_following(alloc: Global, faults: &[Fault], to: usize) -> Result<Vec<Fault>, AllocError>
    ensures { IfOk result (λ kept. kept.items ≡ filter (is_after to) faults.now) }
{
    faults
        .iter()
        .copied()
        .filter(|fault| to < fault.line as usize)
        .collect(alloc)
}

/// Appends the faults after `gone` lines that `came` others replace, with their new lines.
fn put_shifted(
    faults: &mut Vec<Fault>,
    following: &[Fault],
    gone: usize,
    came: usize,
) -> Result<(), AllocError>
    requires { All (λ fault. fault.line - gone + came ≤ u32.MAX) following.now }
    ensures { OnOk result (faults.new.items ≡ faults.old.items ++ map (shifted_fault gone came) following.now) }
{
    for fault in following {
        let line = (fault.line as usize).saturating_sub(gone) + came;
        faults.push(Fault {
            line: line as u32,
            column: fault.column,
            code: fault.code,
        })?;
    }
    Ok(())
}

/// Returns the old faults, with new ones instead of those of the lines that go.
pub(crate) fn faults_after(
    alloc: Global,
    lines: Replacement,
    old: &[Fault],
    new: &[Fault],
) -> Result<Vec<Fault>, AllocError>
    requires { All (λ fault. lines.from + removed_count lines < fault.line
        → fault.line - removed_count lines + lines.came ≤ u32.MAX) old.now }
    ensures { IfOk result (λ faults. faults.items ≡ faults_after lines old.now new.now) }
{
    let mut faults = faults_before(alloc, old, lines.from)?;
    let new = sort_dedup(alloc, new)?;
    faults.extend_from_slice(&new)?;
    let gone = lines.to.saturating_sub(lines.from);
    let following = faults_following(alloc, old, lines.from + gone)?;
    put_shifted(&mut faults, &following, gone, lines.came)?;
    Ok(faults)
}
