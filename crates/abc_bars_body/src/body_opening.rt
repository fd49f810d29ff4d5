//! The state at the beginning of a tune's body.

ghost use Rattle.std.specs.Prelude.{◌≡◌, IfOk};
ghost use Rattle.abc_bars_body.specs.BodyOpening.{opening_voice_state, opening_voices, body_from};

use crate::body::{Body, Current};
use abc_bars_header::{Defaults, Header, Voices, meter_in, unit_in};
use abc_bars_voice::{Accidentals, VoiceShift, VoiceState};
use abc_fields::{Key, NATURAL, Shift};
use abc_text::ShortSequence;
use std::alloc::{AllocError, Global};

/// The shift of a voice without any property.
const UNSHIFTED: VoiceShift = VoiceShift {
    clef: 0,
    octave: 0,
    transpose: 0,
};

/// A shift without any part.
const NOTHING_SAID: Shift = Shift {
    clef: None,
    octave: None,
    transpose: None,
};

/// Returns the state of a voice at the beginning of a body. The shift `said` by the V: lines of the voice overrides that of the
/// key.
fn opening_voice_state(alloc: Global, defaults: &Defaults, key: &Key, said: Shift) -> VoiceState
    ensures { result ≡ opening_voice_state defaults.now key.now said }
{
    VoiceState {
        meter: meter_in(defaults),
        unit: unit_in(defaults),
        signature: key.signature.unwrap_or(NATURAL),
        shift: UNSHIFTED.with_properties(key.shift).with_properties(said),
        accidentals: Accidentals::none(alloc, defaults.reach),
        tuplet: None,
        tied: ShortSequence::new(alloc),
        dynamic: None,
    }
}

/// The states of the declared voices at the beginning of a body.
fn opening_voices(
    alloc: Global,
    header: &Header,
    key: &Key,
) -> Result<Voices<VoiceState>, AllocError>
    ensures { IfOk result (λ voices. voices ≡ opening_voices header.now key.now) }
{
    let mut voices = Voices::new(alloc);
    for at in 0..header.voices.len() {
        if let Some((name, said)) = header.voices.entry(at) {
            let state = opening_voice_state(alloc, &header.defaults, key, *said);
            voices.push(name.clone()?, state)?;
        }
    }
    Ok(voices)
}

/// The state at the beginning of a body, by its header and the key that ended it. The first declared voice is the current one;
/// if there is none, the one without a name. It returns an error if an allocation fails.
pub fn body_from(alloc: Global, header: &Header, key: &Key) -> Result<Body, AllocError>
    ensures { IfOk result (λ body. body ≡ body_from header.now key.now) }
{
    let voices = opening_voices(alloc, header, key)?;
    let current = if header.voices.is_empty() {
        Current::Unnamed(opening_voice_state(alloc, &header.defaults, key, NOTHING_SAID))
    } else {
        Current::At(0)
    };
    let another = opening_voice_state(alloc, &header.defaults, key, NOTHING_SAID);
    Ok(Body {
        voices,
        current,
        another,
    })
}
