//! Laws of ties: which are loose, and from which notes they lead on.

ghost use Rattle.std.specs.Prelude.{◌≡◌, All, List, [], filter, false};
ghost use Rattle.abc_fields.specs.declared.key.Key.{Key};
ghost use Rattle.abc_bars_voice.specs.declared.voice_state.VoiceState.{VoiceState};
ghost use Rattle.abc_bars_notes.specs.Broken.{is_time_token};
ghost use Rattle.abc_bars_notes.specs.LooseTies.{is_loose_tie};
ghost use Rattle.abc_bars_header.specs.HeaderLine.{HeaderLine};
ghost use Rattle.abc_bars.specs.LookBack.Along.{CellTokens};
ghost use Rattle.abc_bars.specs.LookBack.Element.{Element};
ghost use Rattle.abc_bars.specs.LookBack.Place.{result_in_body};
ghost use Rattle.abc_bars.specs.LookBack.Ties.{IsTimeBefore, loose_ties, tied_after};
ghost use Rattle.abc_bars.specs.LookBack.Voice.{voice_state_at};
ghost use Rattle.abc_bars_header.specs.declared.defaults.Defaults.{Defaults};

/// In a cell of music, wherever it is, `LooseTie` is at exactly these ties (ABC 2.1 section 4.11):
///
/// - outside chords, those without a note or chord directly before them;
/// - inside a chord, those without a note directly before them.
pub fn loose_ties_of_cells()
    ensures { (opening : Defaults) (fields : List HeaderLine) (key : Key) (before : List Element) (cell : CellTokens) →
        filter is_loose_tie (result_in_body opening fields key before cell).faults ≡ loose_ties cell }
{}

/// The tied notes of a voice are those of its last note, chord or rest from which a tie leads on, each as it was altered at its
/// own place. Before the first note, chord or rest there are none (ABC 2.1 section 4.11).
#[tactic(auto, using(crate::proofs::LookBack::Ties::voice_state_at_ties, crate::proofs::LookBack::Ties::voice_state_at_no_ties))]
pub fn ties_of_voices()
    ensures last { (opening : VoiceState) (before earlier : List Element) (token : Element) → IsTimeBefore before token earlier →
        (voice_state_at opening before).tied ≡ tied_after opening earlier token }
    ensures none { (opening : VoiceState) (before : List Element) → All (λ other. is_time_token other.kind ≡ false) before →
        (voice_state_at opening before).tied ≡ [] }
{}
