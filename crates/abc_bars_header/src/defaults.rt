//! The values that a file header sets for all tunes, and a tune's header for its tune.

ghost use Rattle.std.specs.Prelude.{◌≡◌};
ghost use Rattle.abc_bars_header.specs.Defaults.{set_meter, set_unit, tempo_or, set_tempo, setting_result, set_program};
ghost use Rattle.abc_bars_header.specs.Defaults.{directive_result, meter_in, unit_in};
ghost use Rattle.abc_bars_items.specs.Program.{program_of};

use crate::field_kind::FieldKind;
use crate::tune_program::TuneProgram;
use abc_bars_voice::{TuneMeter, TuneTempo, UnitLength};
use abc_fields::{FaultCode, Tempo};
use abc_scan::{Directive, Reach};

/// The last accepted values of M:, L: and Q: (ABC 2.1 section 3.1), and of directives (ABC 2.1 section 11). A Q:
/// that sets no tempo counts as none.
#[derive(Clone, Copy)]
pub struct Defaults {
    pub meter: Option<TuneMeter>,
    /// The unit note length.
    pub unit: Option<UnitLength>,
    pub tempo: Option<TuneTempo>,
    /// The program of MIDI.
    pub program: Option<TuneProgram>,
    /// How far accidentals reach: in all octaves if no directive sets it.
    pub reach: Reach,
}

/// No values, as at the beginning of a file header.
pub const NO_DEFAULTS: Defaults = Defaults {
    meter: None,
    unit: None,
    tempo: None,
    program: None,
    reach: Reach::Pitch,
};

/// The values after a field or a directive, and its fault.
#[derive(Clone, Copy)]
pub(crate) struct SettingResult {
    pub(crate) defaults: Defaults,
    pub(crate) fault: Option<FaultCode>,
}

impl SettingResult {
    /// These values, without a fault.
    fn accept(defaults: Defaults) -> SettingResult
        ensures { result ≡ record { defaults = defaults; fault = None } }
    {
        SettingResult {
            defaults,
            fault: None,
        }
    }

    /// The same values, since a field or a directive is refused.
    fn refuse(defaults: Defaults, fault: FaultCode) -> SettingResult
        ensures { result ≡ record { defaults = defaults; fault = Some fault } }
    {
        SettingResult {
            defaults,
            fault: Some(fault),
        }
    }
}

/// The values after an M:.
fn set_meter(defaults: Defaults, value: &[u8]) -> SettingResult
    ensures { result ≡ set_meter defaults value.now }
{
    match TuneMeter::read(value) {
        Ok(meter) => SettingResult::accept(Defaults {
            meter: Some(meter),
            ..defaults
        }),
        Err(fault) => SettingResult::refuse(defaults, fault),
    }
}

/// The values after an L:.
fn set_unit(defaults: Defaults, value: &[u8]) -> SettingResult
    ensures { result ≡ set_unit defaults value.now }
{
    match UnitLength::read(value) {
        Ok(unit) => SettingResult::accept(Defaults {
            unit: Some(unit),
            ..defaults
        }),
        Err(fault) => SettingResult::refuse(defaults, fault),
    }
}

/// The tempo after an accepted Q:, which leaves the one before if it sets none.
fn tempo_or(before: Option<TuneTempo>, tempo: TuneTempo) -> Option<TuneTempo>
    ensures { result ≡ tempo_or before tempo }
{
    match tempo.get() {
        Tempo::Unset => before,
        Tempo::Units(_) | Tempo::Beat { .. } => Some(tempo),
    }
}

/// The values after a Q:.
fn set_tempo(defaults: Defaults, value: &[u8]) -> SettingResult
    ensures { result ≡ set_tempo defaults value.now }
{
    match TuneTempo::read(value) {
        Ok(tempo) => SettingResult::accept(Defaults {
            tempo: tempo_or(defaults.tempo, tempo),
            ..defaults
        }),
        Err(fault) => SettingResult::refuse(defaults, fault),
    }
}

/// The values after a field, of which only M:, L: and Q: set any.
pub(crate) fn setting_result(defaults: Defaults, kind: FieldKind, value: &[u8]) -> SettingResult
    ensures { result ≡ setting_result defaults kind value.now }
{
    match kind {
        FieldKind::Meter => set_meter(defaults, value),
        FieldKind::UnitLength => set_unit(defaults, value),
        FieldKind::Tempo => set_tempo(defaults, value),
        _ => SettingResult::accept(defaults),
    }
}

/// The values after a directive of a program, by the number that is written.
fn set_program(defaults: Defaults, written: u32) -> SettingResult
    ensures { result ≡ set_program defaults (program_of written) }
{
    match TuneProgram::read(written) {
        Some(program) => SettingResult::accept(Defaults {
            program: Some(program),
            ..defaults
        }),
        None => SettingResult::refuse(defaults, FaultCode::BadProgram),
    }
}

/// The values after a directive.
pub(crate) fn directive_result(defaults: Defaults, directive: Directive) -> SettingResult
    ensures { result ≡ directive_result defaults directive }
{
    match directive {
        Directive::Program(written) => set_program(defaults, written),
        Directive::Reach(reach) => SettingResult::accept(Defaults { reach, ..defaults }),
    }
}

/// The meter after a header with these values.
pub fn meter_in(defaults: &Defaults) -> TuneMeter
    ensures { result ≡ meter_in defaults.now }
{
    defaults.meter.unwrap_or(TuneMeter::free())
}

/// The unit note length after a header with these values.
pub fn unit_in(defaults: &Defaults) -> UnitLength
    ensures { result ≡ unit_in defaults.now }
{
    match defaults.unit {
        Some(unit) => unit,
        None => UnitLength::by(meter_in(defaults)),
    }
}
