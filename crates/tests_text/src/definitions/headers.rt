//! The state at the beginning of a tune's body, and the results of header lines, by the definition of the fold over
//! cells: `entry_step` of `abc_bars_body`, and the definitions that it uses in `abc_bars_header`.
#![tactic(auto, unfolding(crate::specs::Opened::headers))]

ghost use Rattle.std.specs.Prelude.{◌≡◌, pos, negsuc, true, false, [], ◌∷◌, codes, Some, None};
ghost use Rattle.abc_bars_body.specs.declared.entry.Entry.TheVariants.{FileHeader, Opening};
ghost use Rattle.abc_fields.specs.declared.fault_code.FaultCode.TheVariants.{BadKey, BadMeter, BadOrder, BadProgram, BadReference};
ghost use Rattle.abc_fields.specs.declared.fault_code.FaultCode.TheVariants.{BadTempo, BadUnit, BadVoice, TooManyVoices};
ghost use Rattle.abc_fields.specs.declared.meter.Meter.TheVariants.{Free, Of};
ghost use Rattle.abc_bars_header.specs.Defaults.{no_defaults};
ghost use Rattle.abc_bars_items.specs.declared.item.Item.TheVariants as items;
ghost use Rattle.abc_scan.specs.declared.directive.Reach.TheVariants.{Not, Octave, Pitch};
ghost use Rattle.tests_text.specs.Bars.{entry_after, after_file_header, entry_after_header, faults_by, in_body, items_by};
ghost use Rattle.tests_text.specs.Bars.{voice_state_in, voice_shift, with_unnamed_voice};
ghost use Rattle.tests_text.specs.Headers.{opening_state, defaults, fifteen_voices, in_f, in_g, state_with_key};
ghost use Rattle.tests_text.specs.Headers.{shifted_voices, two_voices};
ghost use Rattle.tests_text.specs.Values.{ratio};

/// The meter and the unit with which a body begins. ABC 2.1 sections 3.1.6 and 3.1.7.
pub fn meters_and_units()
    ensures nothing { entry_after_header (codes "X:1" ∷ codes "K:C" ∷ []) ≡ in_body (voice_state_in Free (ratio 1 8) Pitch) }
    ensures meter { entry_after_header (codes "X:1" ∷ codes "M:2/4" ∷ codes "K:" ∷ [])
        ≡ in_body (voice_state_in (Of 2 4) (ratio 1 16) Pitch) }
    ensures last_meter { entry_after_header (codes "X:1" ∷ codes "M:2/4" ∷ codes "M:3/4" ∷ codes "M:x" ∷ codes "K:" ∷ [])
        ≡ in_body (voice_state_in (Of 3 4) (ratio 1 8) Pitch) }
    ensures unit { entry_after_header (codes "X:1" ∷ codes "L:1/4" ∷ codes "M:2/4" ∷ codes "K:" ∷ [])
        ≡ in_body (voice_state_in (Of 2 4) (ratio 1 4) Pitch) }
    ensures of_a_file_header { entry_after (Opening (defaults (Some (Of 2 4)) (Some (ratio 1 2)) None None Not))
        (codes "X:1" ∷ codes "M:3/4" ∷ codes "K:" ∷ [])
        ≡ in_body (voice_state_in (Of 3 4) (ratio 1 2) Not) }
{}

/// The reach of accidentals in a body. ABC 2.1 section 11.3; the default, every octave, is not in ABC 2.1.
pub fn reaches()
    ensures not { entry_after_header (codes "X:1" ∷ codes "%%propagate-accidentals not" ∷ codes "K:C" ∷ [])
        ≡ in_body (voice_state_in Free (ratio 1 8) Not) }
    ensures last { entry_after_header (codes "X:1" ∷ codes "%%propagate-accidentals not" ∷ codes "%%propagate-accidentals octave"
        ∷ codes "K:C" ∷ [])
        ≡ in_body (voice_state_in Free (ratio 1 8) Octave) }
    ensures after_the_key { entry_after_header (codes "X:1" ∷ codes "K:C" ∷ codes "%%propagate-accidentals not" ∷ [])
        ≡ in_body (voice_state_in Free (ratio 1 8) Pitch) }
{}

/// The signature and the shift at the beginning of a body. ABC 2.1 sections 3.1.14 and 4.6. A refused key and one of
/// properties alone have no signature: not in ABC 2.1.
pub fn keys_of_headers()
    ensures sharps { entry_after_header (codes "X:1" ∷ codes "K:G" ∷ [])
        ≡ in_body (state_with_key in_g (voice_shift (pos 0) (pos 0) (pos 0))) }
    ensures flats { entry_after_header (codes "X:1" ∷ codes "K:Dm treble-8 transpose=2" ∷ [])
        ≡ in_body (state_with_key in_f (voice_shift (negsuc 11) (pos 0) (pos 2))) }
    ensures properties { entry_after_header (codes "X:1" ∷ codes "K:octave=1" ∷ [])
        ≡ in_body (opening_state (voice_shift (pos 0) (pos 1) (pos 0))) }
    ensures refused { entry_after_header (codes "X:1" ∷ codes "K:H octave=1" ∷ [])
        ≡ in_body (opening_state (voice_shift (pos 0) (pos 0) (pos 0))) }
    ensures none { entry_after_header (codes "X:1" ∷ codes "C" ∷ [])
        ≡ with_unnamed_voice (opening_state (voice_shift (pos 0) (pos 0) (pos 0))) (opening_state
        (voice_shift (pos 0) (pos 0) (pos 0))) }
{}

/// The voices that a header declares; the first is the current one. The shift of a `V:` overrides the shift of the key.
/// ABC 2.1 section 7.1; this order is not in ABC 2.1.
pub fn declared_voices()
    ensures own_parts { entry_after_header shifted_voices
        ≡ two_voices (voice_shift (negsuc 11) (pos 2) (pos 3)) (voice_shift (pos 12) (pos 1) (pos 3)) (voice_shift (pos 12) (pos 0)
        (pos 3)) }
{}

/// The results of header lines, apart from the tempo and the meter of a tune whose header ends there. ABC 2.1 section
/// 3.1; the results of refused lines are not in ABC 2.1.
pub fn items_of_headers()
    ensures reference { items_by (Opening no_defaults) (codes "X:12") ≡ items.Number 12 ∷ items.Tempo true None false
        ∷ items.Meter true (Some Free) ∷ [] }
    ensures refused_reference { items_by (Opening no_defaults) (codes "X:a") ≡ items.Number 0 ∷ items.Tempo true None false
        ∷ items.Meter true (Some Free) ∷ [] }
    ensures program { items_by (Opening (defaults None None None (Some 5) Pitch)) (codes "X:1")
        ≡ items.Number 1 ∷ items.Tempo true None false ∷ items.Meter true (Some Free) ∷ items.Program true (Some 5) ∷ [] }
    ensures title { items_by (Opening no_defaults) (codes "T: A b ") ≡ items.Title (codes "A b") ∷ items.Tempo true None false
        ∷ items.Meter true (Some Free) ∷ [] }
    ensures meter { items_by (Opening no_defaults) (codes "M:C|") ≡ items.Tempo true None false ∷ items.Meter true (Some (Of 2 2))
        ∷ [] }
    ensures order { items_by (Opening no_defaults) (codes "P:AB2") ≡ items.Order (codes "AB2") ∷ items.Tempo true None false
        ∷ items.Meter true (Some Free) ∷ [] }
    ensures refused_order { items_by (Opening no_defaults) (codes "P:a") ≡ items.Tempo true None false
        ∷ items.Meter true (Some Free) ∷ [] }
    ensures voice { items_by (Opening no_defaults) (codes "V:1 treble-8") ≡ items.Voice true (codes "1")
        ∷ items.Tempo true None false ∷ items.Meter true (Some Free) ∷ [] }
    ensures key { items_by (Opening no_defaults) (codes "K:Em") ≡ items.Key true (Some (pos 1, true)) ∷ items.Tempo true None false
        ∷ items.Meter true (Some Free) ∷ [] }
    ensures refused_key { items_by (Opening no_defaults) (codes "K:H") ≡ items.Key true (Some (pos 0, false))
        ∷ items.Tempo true None false ∷ items.Meter true (Some Free) ∷ [] }
    ensures own_program { items_by (Opening no_defaults) (codes "%%MIDI program 7")
        ≡ items.Program true (Some 7) ∷ items.Tempo true None false ∷ items.Meter true (Some Free) ∷ [] }
    ensures refused_program { items_by (Opening no_defaults) (codes "%%MIDI program 128")
        ≡ items.Program true None ∷ items.Tempo true None false ∷ items.Meter true (Some Free) ∷ [] }
{}

/// The tempo of a tune whose header ends after a line: a number alone counts the unit there. ABC 2.1 section 3.1.8; the
/// number alone is not in ABC 2.1.
pub fn tempos_of_headers()
    ensures units { items_by (Opening no_defaults) (codes "Q:120") ≡ items.Tempo true (Some 1000000) false
        ∷ items.Meter true (Some Free) ∷ [] }
    ensures later_meter { items_by (entry_after_header (codes "X:1" ∷ codes "Q:120" ∷ [])) (codes "M:2/4")
        ≡ items.Tempo true (Some 2000000) false ∷ items.Meter true (Some (Of 2 4)) ∷ [] }
    ensures text_alone { items_by (entry_after_header (codes "X:1" ∷ codes "Q:1/4=120" ∷ [])) (codes "Q:\"Allegro\"")
        ≡ items.Tempo true (Some 500000) false ∷ items.Meter true (Some Free) ∷ [] }
    ensures out { items_by (Opening no_defaults) (codes "Q:1/4=1") ≡ items.Tempo true None true ∷ items.Meter true (Some Free)
        ∷ [] }
{}

/// The columns of faults in headers: column 1. Not in ABC 2.1.
pub fn faults_of_headers()
    ensures reference { faults_by (Opening no_defaults) (codes "X:0") ≡ (1, BadReference) ∷ [] }
    ensures empty_reference { faults_by (Opening no_defaults) (codes "X:") ≡ [] }
    ensures meter { faults_by (Opening no_defaults) (codes "M:x") ≡ (1, BadMeter) ∷ [] }
    ensures unit { faults_by (Opening no_defaults) (codes "L:1/3") ≡ (1, BadUnit) ∷ [] }
    ensures tempo { faults_by (Opening no_defaults) (codes "Q:=60") ≡ (1, BadTempo) ∷ [] }
    ensures order { faults_by (Opening no_defaults) (codes "P:a") ≡ (1, BadOrder) ∷ [] }
    ensures voice { faults_by (Opening no_defaults) (codes "V:1 octave=x") ≡ (1, BadVoice) ∷ [] }
    ensures too_many { faults_by (entry_after_header (codes "X:1" ∷ fifteen_voices)) (codes "V:p") ≡ (1, TooManyVoices) ∷ [] }
    ensures named_again { faults_by (entry_after_header (codes "X:1" ∷ fifteen_voices)) (codes "V:o") ≡ [] }
    ensures key { faults_by (Opening no_defaults) (codes "K:H") ≡ (1, BadKey) ∷ [] }
    ensures program { faults_by (Opening no_defaults) (codes "%%MIDI program 128") ≡ (1, BadProgram) ∷ [] }
    ensures other { faults_by (Opening no_defaults) (codes "R:x") ≡ [] }
{}

/// File headers: their settings and their faults; they give no items. ABC 2.1 section 2.2.2; the other lines are not in
/// ABC 2.1.
pub fn file_headers()
    ensures values { after_file_header (codes "M:2/4" ∷ codes "L:1/4" ∷ codes "%%MIDI program 5"
        ∷ codes "%%propagate-accidentals not" ∷ [])
        ≡ FileHeader (defaults (Some (Of 2 4)) (Some (ratio 1 4)) None (Some 5) Not) }
    ensures refused { entry_after (FileHeader (defaults None (Some (ratio 1 4)) None (Some 5) Pitch))
        (codes "L:1/3" ∷ codes "%%MIDI program 128" ∷ [])
        ≡ FileHeader (defaults None (Some (ratio 1 4)) None (Some 5) Pitch) }
    ensures others { after_file_header (codes "K:G" ∷ codes "V:1" ∷ codes "T:a" ∷ codes "C" ∷ []) ≡ FileHeader no_defaults }
    ensures no_items { items_by (FileHeader no_defaults) (codes "M:2/4") ≡ [] }
    ensures fault { faults_by (FileHeader no_defaults) (codes "M:x") ≡ (1, BadMeter) ∷ [] }
    ensures program_fault { faults_by (FileHeader no_defaults) (codes "%%MIDI program 128") ≡ (1, BadProgram) ∷ [] }
    ensures no_fault { faults_by (FileHeader no_defaults) (codes "K:H") ≡ [] }
{}
