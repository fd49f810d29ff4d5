//! The law of the look back for voices, by their names.

ghost use Rattle.std.specs.Prelude.{◌≡◌, ℕ, List, Some, slice_get};
ghost use Rattle.abc_bars_body.specs.Body.{here};
ghost use Rattle.abc_bars.specs.LookBack.ByName.{naming_at, voice_state_named};
ghost use Rattle.abc_bars.specs.LookBack.BodyState.{voice_list_of};
ghost use Rattle.abc_bars.specs.LookBack.Place.{AtEachPlace};
ghost use Rattle.abc_bars_header.specs.Voices.{voice_at};

/// The current voice at a place of a body is that of the last accepted V: that is not one voice too many. Before any such V: it
/// is the first voice of the header, or the one without a name. The state of a voice is what its tokens leave of its opening
/// state. Its tokens are each accepted V: that names it, each accepted P:, and each other token while it is the current voice
/// (ABC 2.1 section 7).
pub fn named_voices()
    ensures names { AtEachPlace (λ body start before. (voice_list_of body).names ≡ (naming_at start before).names) }
    ensures voices { AtEachPlace (λ body start before. (at : ℕ) (name : List ℕ) →
        slice_get (voice_list_of body).names at ≡ Some name
        → voice_at body.voices at ≡ Some (voice_state_named start name before)) }
    ensures current { AtEachPlace (λ body start before. here body
        ≡ voice_state_named start (naming_at start before).current before) }
{}
