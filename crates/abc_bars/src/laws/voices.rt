//! Laws of the state of a voice at the places of a tune.

ghost use Rattle.std.specs.Prelude.{◌≡◌, List, ◌∷◌};
ghost use Rattle.abc_bars_voice.specs.declared.voice_state.VoiceState.{VoiceState};
ghost use Rattle.abc_bars.specs.LookBack.After.{after};
ghost use Rattle.abc_bars.specs.LookBack.Element.{Element};
ghost use Rattle.abc_bars.specs.LookBack.Voice.{voice_state_at};

/// Looking back over the music and the fields of a voice finds its state at a place. Each element changes it as `after` says.
#[tactic(auto, using(crate::proofs::LookBack::Voice::voice_state_at_cons))]
pub fn voice_views()
    ensures state { (opening : VoiceState) (before : List Element) (element : Element) →
        voice_state_at opening (element ∷ before)
        ≡ after (voice_state_at opening before) element }
{}
