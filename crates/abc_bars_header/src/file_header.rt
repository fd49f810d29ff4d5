//! The file header.

ghost use Rattle.std.specs.Prelude.{◌≡◌, IfOk};
ghost use Rattle.abc_bars_header.specs.FieldFault.{faults_of};
ghost use Rattle.abc_bars_header.specs.FileHeader.{file_header_result};
ghost use Rattle.abc_bars_header.specs.HeaderLine.{DirectiveLine, FieldLine};

use crate::defaults::{Defaults, SettingResult, directive_result, setting_result};
use crate::field_fault::faults_of;
use crate::field_kind::kind_of;
use abc_bars_items::LocalFault;
use abc_scan::{Directive, Field};
use abc_text::Sequence;
use std::alloc::{AllocError, Global};

/// The result of a line of the file header, which has no items.
#[derive(Drop)]
pub struct FileHeaderResult {
    pub defaults: Defaults,
    pub faults: Sequence<LocalFault>,
}

/// The result of a line that sets these values.
fn file_header_line_result(
    alloc: Global,
    given: SettingResult,
) -> Result<FileHeaderResult, AllocError>
    ensures { IfOk result (λ line. line ≡ record { defaults = given.defaults; faults = faults_of given.fault }) }
{
    let faults = faults_of(alloc, given.fault)?;
    Ok(FileHeaderResult {
        defaults: given.defaults,
        faults,
    })
}

/// Reads a field of the file header: M:, L: and Q: set defaults for all tunes, and no other field has an effect or a fault. It
/// returns an error if an allocation fails.
pub fn file_header_result(
    alloc: Global,
    defaults: Defaults,
    field: &Field,
) -> Result<FileHeaderResult, AllocError>
    ensures { IfOk result (λ given. given ≡ file_header_result defaults (FieldLine field.now)) }
{
    let kind = kind_of(field.letter);
    file_header_line_result(
        alloc,
        setting_result(defaults, kind, field.value.as_slice()),
    )
}

/// Reads a directive of the file header, which sets a default for all tunes. It returns an error if an allocation fails.
pub fn file_header_directive_result(
    alloc: Global,
    defaults: Defaults,
    directive: Directive,
) -> Result<FileHeaderResult, AllocError>
    ensures { IfOk result (λ given. given ≡ file_header_result defaults (DirectiveLine directive)) }
{
    file_header_line_result(alloc, directive_result(defaults, directive))
}
