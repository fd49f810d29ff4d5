//! The values of headers, by `abc_bars`.

ghost use Rattle.std.specs.Prelude.{◌≡◌, ◌≤◌, [], IfSome};
ghost use Rattle.tests_surface.specs.Bars.{grains_of_the_longest_length, IsLength, HIGHEST_PROGRAM, MOST_VOICES};
ghost use Rattle.tests_surface.specs.Bars.{IsMeterInRange, meter_of, FitsInTempoEvent, IsRatio, tempo_of, micros_by, unit_of};
ghost use Rattle.tests_surface.specs.Bars.{IsUnitPart, unit_by};

use abc_bars::{
    FaultCode, Grains, HIGHEST_PROGRAM, MOST_VOICES, Meter, Ratio, Tempo, TuneMeter, TuneProgram,
    TuneTempo, UnitLength,
};

/// The highest program.
pub const TOP_PROGRAM: u8 = HIGHEST_PROGRAM;

/// The most voices.
pub const VOICES: usize = MOST_VOICES;

/// The limits are numbers.
pub fn limits()
    ensures voices { MOST_VOICES ≡ 15 }
    ensures program { HIGHEST_PROGRAM ≡ 127 }
{}

/// Reads a meter.
pub fn read_meter(value: &[u8]) -> Result<TuneMeter, FaultCode>
    ensures value { result ≡ meter_of value.now }
{
    TuneMeter::read(value)
}

/// Returns a meter.
pub fn meter_in(meter: TuneMeter) -> Meter
    ensures range { IsMeterInRange result }
{
    meter.get()
}

/// Reads a unit note length.
pub fn read_unit(value: &[u8]) -> Result<UnitLength, FaultCode>
    ensures value { result ≡ unit_of value.now }
{
    UnitLength::read(value)
}

/// Returns the unit note length of a meter.
pub fn unit_in(meter: TuneMeter) -> UnitLength
    ensures value { result ≡ unit_by meter }
{
    UnitLength::by(meter)
}

/// Returns the part of a whole note.
pub fn part_of(unit: UnitLength) -> Ratio
    ensures range { IsRatio result }
    ensures part { IsUnitPart result }
{
    unit.get()
}

/// Returns the length of a unit.
pub fn unit_length(unit: UnitLength) -> Grains
    ensures exact { IsLength unit [] result.0 }
    ensures range { result.0 ≤ grains_of_the_longest_length }
{
    unit.grains()
}

/// Reads a tempo.
pub fn read_tempo(value: &[u8]) -> Result<TuneTempo, FaultCode>
    ensures value { result ≡ tempo_of value.now }
{
    TuneTempo::read(value)
}

/// Returns a tempo.
pub fn tempo_in(tempo: TuneTempo) -> Tempo {
    tempo.get()
}

/// Returns the microseconds of a quarter note.
pub fn micros_of(tempo: TuneTempo, unit: UnitLength) -> Option<u32>
    ensures value { result ≡ micros_by unit tempo }
    ensures range { IfSome result FitsInTempoEvent }
{
    tempo.micros(unit)
}

/// Returns the number of a program.
pub fn number_of(program: TuneProgram) -> u8
    ensures range { result ≤ HIGHEST_PROGRAM }
{
    program.get()
}
