//! The state of a voice.

ghost use Rattle.std.specs.Prelude.{◌≡◌};
ghost use Rattle.abc_bars_voice.specs.VoiceState.{without_accidentals};

use crate::accidentals::Accidentals;
use crate::tied_note::TiedNote;
use crate::tune_meter::TuneMeter;
use crate::tuplet::OpenTuplet;
use crate::unit_length::UnitLength;
use crate::voice_shift::VoiceShift;
use abc_fields::Signature;
use abc_scan::Dynamic;
use abc_text::ShortSequence;
use std::alloc::AllocError;

/// The state of a voice at a place of a tune.
#[derive(Drop)]
pub struct VoiceState {
    pub meter: TuneMeter,
    /// The unit note length.
    pub unit: UnitLength,
    pub signature: Signature,
    pub shift: VoiceShift,
    /// The accidentals written since the last bar line, key or part, as far as they reach.
    pub accidentals: Accidentals,
    /// The tuplet that the next note, chord or rest belongs to.
    pub tuplet: Option<OpenTuplet>,
    /// The tied notes of the last note, chord or rest.
    pub tied: ShortSequence<TiedNote>,
    /// The last dynamic; None before any.
    pub dynamic: Option<Dynamic>,
}

impl VoiceState {
    /// Whether a comparison is cheap: it has accidentals of at most two groups of octaves. No result depends on it.
    pub fn is_small(&self) -> bool {
        self.accidentals.is_small()
    }

    /// Ends the accidentals, at a bar line, a key or a part.
    pub fn clear_accidentals(&mut self)
        ensures { self.new ≡ without_accidentals self.old }
    {
        self.accidentals.clear();
    }
}

impl Clone for VoiceState {
    ghost is_clone = { λ state copy. copy ≡ state };

    fn clone(&self) -> Result<VoiceState, AllocError> {
        Ok(VoiceState {
            meter: self.meter,
            unit: self.unit,
            signature: self.signature,
            shift: self.shift,
            accidentals: self.accidentals.clone()?,
            tuplet: self.tuplet,
            tied: self.tied.clone()?,
            dynamic: self.dynamic,
        })
    }
}
