//! The values of fields, by `abc_fields`.

ghost use Rattle.std.specs.Prelude.{◌≡◌, ◌↔◌, ◌∷◌, IfOk, List, drop, slice_range};
ghost use Rattle.tests_surface.specs.Fields.{name_of, key_of, capital, meter_of, parts_of, IsRatio, alteration, tempo_of};
ghost use Rattle.tests_surface.specs.Fields.{words_of};

use abc_fields::{
    FaultCode, Key, Letter, Meter, Ratio, Shift, Signature, Tempo, Voice, alteration, read_key,
    read_meter, read_parts, read_tempo, read_unit, read_voice,
};

/// Reads a meter.
pub fn meter_value(value: &[u8]) -> Result<Meter, FaultCode>
    ensures value { result ≡ meter_of value.now }
{
    read_meter(value)
}

/// Reads a unit note length.
pub fn unit_value(value: &[u8]) -> Result<Ratio, FaultCode>
    ensures range { IfOk result IsRatio }
{
    read_unit(value)
}

/// Reads a tempo.
pub fn tempo_value(value: &[u8]) -> Result<Tempo, FaultCode>
    ensures value { result ≡ tempo_of value.now }
{
    read_tempo(value)
}

/// Reads a key.
pub fn key_value(value: &[u8]) -> Result<Key, FaultCode>
    ensures value { result ≡ key_of value.now }
{
    read_key(value)
}

/// Reads an order of parts.
pub fn order_value(value: &[u8]) -> Result<(), FaultCode>
    ensures value { result ≡ parts_of value.now }
{
    read_parts(value)
}

/// Reads a voice.
pub fn voice_value(value: &[u8]) -> Result<Voice, FaultCode>
    ensures name { IfOk result
        (λ voice. words_of value.now ≡ slice_range value.now voice.from voice.to ∷ words_of (drop voice.to value.now)) }
{
    read_voice(value)
}

/// Returns the shift of a voice.
pub fn shift_of(voice: Voice) -> Shift
    ensures value { result ≡ voice.shift }
{
    voice.shift
}

/// Returns how a signature alters a letter.
pub fn alteration_of(signature: &Signature, letter: Letter) -> i8
    ensures value { result ≡ alteration signature.now letter }
{
    alteration(signature, letter)
}

/// Returns the capital of a letter.
pub fn capital_of(letter: Letter) -> u8
    ensures value { result ≡ capital letter }
{
    letter.capital()
}

/// Returns the name of a fault.
pub fn fault_name(code: FaultCode) -> &'static str
    ensures value { result.now ≡ name_of code }
{
    code.name()
}
