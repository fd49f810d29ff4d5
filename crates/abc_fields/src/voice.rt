//! The field V: (ABC 2.1 section 7.1).

ghost use Rattle.std.specs.Prelude.{◌≡◌, ◌<◌, ◌≤◌, IfOk, IfSome, ◌∷◌, length, drop, slice_range};
ghost use Rattle.abc_fields.specs.declared.fault_code.FaultCode.TheVariants.{BadVoice};
ghost use Rattle.abc_fields.specs.Shift.{IsSmallShift};
ghost use Rattle.abc_text.specs.Word.{words_of};
ghost use Rattle.abc_fields.specs.Voice.{voice_in, voice_of};
ghost use Rattle.abc_fields.specs.Reading.{IsReading};
ghost use Rattle.abc_fields.specs.Spelling.Voice.{IsVoice};

use crate::fault_code::FaultCode;
use crate::shift::{Shift, shift_in};
use abc_text::first_word;

/// A voice by the value of a field V:. Its identifier is the part of the value from `from` up to, but not including,
/// `to`.
#[derive(Clone, Copy)]
pub struct Voice {
    pub from: usize,
    pub to: usize,
    pub shift: Shift,
}

/// The voice that a value spells.
#[tactic(auto, unfolding(crate::specs::Voice::voice_in))]
fn voice_in(value: &[u8]) -> Option<Voice>
    ensures value { result ≡ voice_in value.now }
    ensures some { IfSome result (λ voice. voice.from < voice.to) }
    ensures inside { IfSome result (λ voice. voice.to ≤ length value.now) }
    ensures name { IfSome result
        (λ voice. words_of value.now ≡ slice_range value.now voice.from voice.to ∷ words_of (drop voice.to value.now)) }
    ensures small { IfSome result (λ voice. IsSmallShift voice.shift) }
{
    let (from, to) = first_word(value)?;
    let shift = shift_in(&value[to..])?;
    Some(Voice { from, to, shift })
}

/// Reads the value of a field V: (ABC 2.1 section 7.1). A value without an identifier, or with a malformed number of
/// `octave` or `transpose`, is `BadVoice`.
#[tactic(auto, unfolding(crate::specs::Voice::voice_of))]
pub fn read_voice(value: &[u8]) -> Result<Voice, FaultCode>
    ensures value { result ≡ voice_of value.now }
    ensures exact { IsReading (IsVoice value.now) BadVoice result }
    ensures some { IfOk result (λ voice. voice.from < voice.to) }
    ensures inside { IfOk result (λ voice. voice.to ≤ length value.now) }
    ensures name { IfOk result
        (λ voice. words_of value.now ≡ slice_range value.now voice.from voice.to ∷ words_of (drop voice.to value.now)) }
    ensures small { IfOk result (λ voice. IsSmallShift voice.shift) }
{
    voice_in(value).ok_or(FaultCode::BadVoice)
}
