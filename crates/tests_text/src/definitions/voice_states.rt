//! The state of a voice, notes, and the beginning of a header, value by value, by the definitions of `abc_bars_items`,
//! `abc_bars_voice`, `abc_bars_notes`, `abc_bars_header` and `abc_bars_body`.
#![tactic(auto, unfolding(crate::specs::Opened::texts, crate::specs::Opened::times, abc_bars_notes::specs::BarRest::bar_grains))]

ghost use Rattle.std.specs.Prelude.{◌≡◌, ◌^◌, ◌-◌, pos, negsuc, true, false, [], ◌∷◌, codes, map, replicate, take};
ghost use Rattle.std.specs.Prelude.{Some, None, Ok, Err};
ghost use Rattle.abc_bars_body.specs.Body.{with_current};
ghost use Rattle.abc_bars_body.specs.BodyFields.{part_of};
ghost use Rattle.abc_bars_body.specs.BodyOpening.{zero_shift};
ghost use Rattle.abc_fields.specs.Shift.{no_shift};
ghost use Rattle.abc_fields.specs.declared.fault_code.FaultCode.TheVariants.{BadLength, BadReference, BadTuplet, FreeBarRest};
ghost use Rattle.abc_fields.specs.declared.fault_code.FaultCode.TheVariants.{NestedTuplet, TooManyVoices};
ghost use Rattle.abc_fields.specs.declared.meter.Meter.TheVariants.{Free, Of};
ghost use Rattle.abc_fields.specs.declared.tempo.Tempo.TheVariants.{Beat, Units, Unset};
ghost use Rattle.abc_bars_header.specs.FieldKind.{kind_of};
ghost use Rattle.abc_bars_header.specs.Header.{declare};
ghost use Rattle.abc_bars_header.specs.Reference.{reference_of};
ghost use Rattle.abc_bars_header.specs.declared.field_kind.FieldKind.TheVariants.{Reference, Title, Meter, UnitLength, Tempo};
ghost use Rattle.abc_bars_header.specs.declared.field_kind.FieldKind.TheVariants.{Parts, Voice, Key, Other};
ghost use Rattle.abc_bars_items.specs.Column.{column_of};
ghost use Rattle.abc_bars_items.specs.Program.{program_of};
ghost use Rattle.abc_bars_items.specs.Velocity.{velocity_of};
ghost use Rattle.abc_bars_items.specs.declared.item.Item.TheVariants as items;
ghost use Rattle.abc_bars_notes.specs.BarRest.{bar_rest_of};
ghost use Rattle.abc_bars_notes.specs.Broken.{first_factor, second_factor};
ghost use Rattle.abc_scan.specs.declared.broken.Direction.TheVariants.{Left, Right};
ghost use Rattle.abc_scan.specs.declared.dynamic.Dynamic.TheVariants.{Ppp, Pp, P, Mp, Mf, F, Ff, Fff};
ghost use Rattle.abc_bars_voice.specs.TempoItem.{tempo_item};
ghost use Rattle.abc_bars_voice.specs.Tempo.{micros_by};
ghost use Rattle.abc_bars_voice.specs.Tuplet.{count_down, default_q, tuplet_by, begin_tuplet};
ghost use Rattle.abc_bars_voice.specs.UnitLength.{unit_by};
ghost use Rattle.abc_bars_voice.specs.VoiceShift.{with_properties};
ghost use Rattle.abc_bars_voice.specs.declared.voice_state.VoiceState.{VoiceState};
ghost use Rattle.tests_text.specs.Bars.{bar_rest, voice_shift};
ghost use Rattle.tests_text.specs.VoiceStates.{body_of, broken, fifteen_voices, mark, open_tuplet, voice_a, voices_in};
ghost use Rattle.tests_text.specs.Values.{ratio, shift};

/// The number of notes whose time p notes take. ABC 2.1 section 4.13; p below 2 and above 9 are not in ABC 2.1.
pub fn times_of_tuplets()
    ensures one { default_q Free 1 ≡ 2 }
    ensures two { default_q Free 2 ≡ 3 }
    ensures three { default_q Free 3 ≡ 2 }
    ensures four { default_q Free 4 ≡ 3 }
    ensures five { default_q (Of 4 4) 5 ≡ 2 }
    ensures six { default_q Free 6 ≡ 2 }
    ensures seven { default_q Free 7 ≡ 2 }
    ensures eight { default_q Free 8 ≡ 3 }
    ensures nine { default_q (Of 6 4) 9 ≡ 2 }
    ensures ten { default_q (Of 4 4) 10 ≡ 2 }
{}

/// The same in meters whose beat has three parts: 6/8, 9/8 and 12/8. ABC 2.1 section 4.13; p below 2 and above 9 are
/// not in ABC 2.1.
pub fn times_of_tuplets_in_three_parts()
    ensures two { default_q (Of 6 8) 2 ≡ 3 }
    ensures three { default_q (Of 9 8) 3 ≡ 2 }
    ensures six { default_q (Of 12 8) 6 ≡ 2 }
    ensures five { default_q (Of 6 8) 5 ≡ 3 }
    ensures seven { default_q (Of 9 8) 7 ≡ 3 }
    ensures nine { default_q (Of 12 8) 9 ≡ 3 }
    ensures one { default_q (Of 9 8) 1 ≡ 3 }
    ensures ten { default_q (Of 6 8) 10 ≡ 3 }
    ensures three_eighths { default_q (Of 3 8) 5 ≡ 2 }
    ensures fifteen_eighths { default_q (Of 15 8) 5 ≡ 2 }
    ensures six_sixteenths { default_q (Of 6 16) 5 ≡ 2 }
{}

/// The tuplets of `(3`, `(3::2`, `(5:4`, `(3:2:6`, and of marks with numbers below 1 or above 64. ABC 2.1 section 4.13;
/// the bounds are not in ABC 2.1.
pub fn tuplet_marks()
    ensures three { tuplet_by (Of 4 4) (mark 3 None None) ≡ Some (open_tuplet 3 2 3) }
    ensures two_of_three { tuplet_by (Of 4 4) (mark 3 None (Some 2)) ≡ Some (open_tuplet 3 2 2) }
    ensures five_in_four { tuplet_by (Of 6 8) (mark 5 (Some 4) None) ≡ Some (open_tuplet 5 4 5) }
    ensures five_in_three { tuplet_by (Of 6 8) (mark 5 None None) ≡ Some (open_tuplet 5 3 5) }
    ensures six { tuplet_by Free (mark 3 (Some 2) (Some 6)) ≡ Some (open_tuplet 3 2 6) }
    ensures most { tuplet_by Free (mark 64 (Some 64) (Some 64)) ≡ Some (open_tuplet 64 64 64) }
    ensures none { map (tuplet_by Free) (mark 0 (Some 2) (Some 2) ∷ mark 3 (Some 0) None ∷ mark 3 None (Some 0) ∷ [])
        ≡ replicate 3 None }
    ensures too_many { map (tuplet_by Free) (mark 65 (Some 2) (Some 2) ∷ mark 3 (Some 65) None ∷ mark 3 None (Some 65) ∷ [])
        ≡ replicate 3 None }
{}

/// The open tuplet after a tuplet mark, and after a note, chord or rest. A refused mark leaves the old tuplet, and
/// another mark replaces it: not in ABC 2.1.
pub fn open_tuplets()
    ensures alone { begin_tuplet Free None (mark 3 None None) ≡ (Some (open_tuplet 3 2 3), None) }
    ensures refused { begin_tuplet Free None (mark 65 None None) ≡ (None, Some BadTuplet) }
    ensures refused_in_another { begin_tuplet Free (Some (open_tuplet 5 2 1)) (mark 65 None None)
        ≡ (Some (open_tuplet 5 2 1), Some BadTuplet) }
    ensures in_another { begin_tuplet Free (Some (open_tuplet 5 2 1)) (mark 3 None None)
        ≡ (Some (open_tuplet 3 2 3), Some NestedTuplet) }
    ensures two_left { count_down (Some (open_tuplet 3 2 2)) ≡ Some (open_tuplet 3 2 1) }
    ensures one_left { count_down (Some (open_tuplet 3 2 1)) ≡ None }
    ensures nothing { count_down None ≡ None }
{}

/// The unit note length of a meter. ABC 2.1 section 3.1.7.
pub fn units_by_meter()
    ensures free { unit_by Free ≡ ratio 1 8 }
    ensures common { unit_by (Of 4 4) ≡ ratio 1 8 }
    ensures cut { unit_by (Of 2 2) ≡ ratio 1 8 }
    ensures three_quarters { unit_by (Of 3 4) ≡ ratio 1 8 }
    ensures two_quarters { unit_by (Of 2 4) ≡ ratio 1 16 }
    ensures six_eighths { unit_by (Of 6 8) ≡ ratio 1 8 }
    ensures five_eighths { unit_by (Of 5 8) ≡ ratio 1 16 }
    ensures twelve_sixteenths { unit_by (Of 12 16) ≡ ratio 1 8 }
    ensures eleven_sixteenths { unit_by (Of 11 16) ≡ ratio 1 16 }
{}

/// The microseconds of a quarter note by `Q:120`, `Q:1/4=120` and others, with units of an eighth and a quarter. A
/// number alone counts units, which is not in ABC 2.1.
pub fn tempos()
    ensures eighths { micros_by (ratio 1 8) (Units 120) ≡ Some 1000000 }
    ensures quarters { micros_by (ratio 1 4) (Units 120) ≡ Some 500000 }
    ensures beat { micros_by (ratio 1 8) (Beat (ratio 1 4) 120) ≡ Some 500000 }
    ensures dotted_beat { micros_by (ratio 1 8) (Beat (ratio 3 8) 80) ≡ Some 500000 }
    ensures unset { micros_by (ratio 1 8) Unset ≡ None }
    ensures slowest { micros_by (ratio 1 8) (Beat (ratio 1 4) 4) ≡ Some 15000000 }
    ensures too_slow { micros_by (ratio 1 8) (Beat (ratio 1 4) 3) ≡ None }
    ensures too_slow_units { micros_by (ratio 1 8) (Units 7) ≡ None }
{}

/// The items of tempos. Not in ABC 2.1.
pub fn items_of_tempos()
    ensures opening { tempo_item true (ratio 1 8) (Units 120) ≡ items.Tempo true (Some 1000000) false }
    ensures unset { tempo_item false (ratio 1 8) Unset ≡ items.Tempo false None false }
    ensures out { tempo_item false (ratio 1 8) (Beat (ratio 1 4) 3) ≡ items.Tempo false None true }
    ensures out_by_its_unit { tempo_item false (ratio 1 8) (Units 7) ≡ items.Tempo false None true }
    ensures not_by_another { tempo_item false (ratio 1 4) (Units 7) ≡ items.Tempo false (Some 8571428) false }
{}

/// The number of `X:`. ABC 2.1 section 3.1.1; the number 0 of an empty value, and the refusal of 0, are not in ABC 2.1.
pub fn reference_numbers()
    ensures empty { reference_of [] ≡ Ok 0 }
    ensures one { reference_of (codes "1") ≡ Ok 1 }
    ensures leading_zeros { reference_of (codes "007") ≡ Ok 7 }
    ensures nine_digits { reference_of (codes "999999999") ≡ Ok 999999999 }
    ensures refused { map reference_of (codes "0" ∷ codes "000" ∷ codes "1234567890" ∷ codes "a" ∷ codes "1a" ∷ codes "-1" ∷ [])
        ≡ replicate 6 (Err BadReference) }
{}

/// The part of a `P:` in the body. ABC 2.1 section 3.1.9; a rest that is ignored is not in ABC 2.1.
pub fn parts()
    ensures letters { map part_of (codes "A" ∷ codes "Z" ∷ codes "B2 x" ∷ []) ≡ map (λ letter. Some letter) (codes "AZB") }
    ensures refused { map part_of ([] ∷ codes "a" ∷ codes "@" ∷ codes "[" ∷ codes "1A" ∷ codes "(A)" ∷ []) ≡ replicate 6 None }
{}

/// The letters of fields. ABC 2.1 section 3.
pub fn letters_of_fields()
    ensures known { map kind_of (codes "XTMLQPVK") ≡ Reference ∷ Title ∷ Meter ∷ UnitLength ∷ Tempo ∷ Parts ∷ Voice ∷ Key ∷ [] }
    ensures others { map kind_of (codes "xkwWI+ABZ") ≡ replicate 9 Other }
{}

/// Programs and columns: a program is 0 to 127, the first column is 1. MIDI 1.0; the first column, and the bound of 32
/// bits, are not in ABC 2.1.
pub fn programs_and_columns()
    ensures first { program_of 0 ≡ Some 0 }
    ensures last { program_of 127 ≡ Some 127 }
    ensures refused { map program_of (128 ∷ 999999999 ∷ []) ≡ None ∷ None ∷ [] }
    ensures first_column { column_of 0 ≡ 1 }
    ensures last_column { column_of 65534 ≡ 65535 }
    ensures beyond { column_of (2 ^ 32 - 1) ≡ 2 ^ 32 - 1 }
{}

/// The velocities of notes. Not in ABC 2.1.
pub fn velocities()
    ensures soft { map (λ dynamic. velocity_of (Some dynamic)) (Ppp ∷ Pp ∷ P ∷ Mp ∷ []) ≡ 30 ∷ 45 ∷ 60 ∷ 75 ∷ [] }
    ensures loud { map (λ dynamic. velocity_of (Some dynamic)) (Mf ∷ F ∷ Ff ∷ Fff ∷ []) ≡ 90 ∷ 105 ∷ 120 ∷ 127 ∷ [] }
    ensures none { velocity_of None ≡ 80 }
{}

/// The factors of `>`, `>>`, `>>>` and `<`, `<<`, `<<<` for the note before and the note after. ABC 2.1 section 4.4.
pub fn factors_of_broken_rhythm()
    ensures before_right { map first_factor (broken Right 1 ∷ broken Right 2 ∷ broken Right 3 ∷ []) ≡ ratio 3 2 ∷ ratio 7 4
        ∷ ratio 15 8 ∷ [] }
    ensures after_right { map second_factor (broken Right 1 ∷ broken Right 2 ∷ broken Right 3 ∷ []) ≡ ratio 1 2 ∷ ratio 1 4
        ∷ ratio 1 8 ∷ [] }
    ensures before_left { map first_factor (broken Left 1 ∷ broken Left 2 ∷ broken Left 3 ∷ []) ≡ ratio 1 2 ∷ ratio 1 4 ∷ ratio 1 8
        ∷ [] }
    ensures after_left { map second_factor (broken Left 1 ∷ broken Left 2 ∷ broken Left 3 ∷ []) ≡ ratio 3 2 ∷ ratio 7 4
        ∷ ratio 15 8 ∷ [] }
{}

/// Rests of bars: `Z`, `Z2`, none, 1,024 whole notes and more, and in free meter. ABC 2.1 section 4.5; bounds and
/// faults are not in ABC 2.1.
pub fn rests_of_bars()
    ensures one { bar_rest_of (Of 4 4) None ≡ (bar_rest 1920, None) }
    ensures two { bar_rest_of (Of 6 8) (Some 2) ≡ (bar_rest 2880, None) }
    ensures none { bar_rest_of (Of 3 4) (Some 0) ≡ (bar_rest 1440, Some BadLength) }
    ensures most { bar_rest_of (Of 4 4) (Some 1024) ≡ (bar_rest 1966080, None) }
    ensures too_many { bar_rest_of (Of 4 4) (Some 1025) ≡ (bar_rest 1920, Some BadLength) }
    ensures free { bar_rest_of Free None ≡ (bar_rest 0, Some FreeBarRest) }
    ensures none_in_free_meter { bar_rest_of Free (Some 0) ≡ (bar_rest 0, Some FreeBarRest) }
{}

/// The shift of a voice after properties, part by part. Not in ABC 2.1.
pub fn shifts()
    ensures clef { with_properties zero_shift (shift (Some (negsuc 11)) None None) ≡ voice_shift (negsuc 11) (pos 0) (pos 0) }
    ensures others { with_properties (voice_shift (pos 12) (pos 1) (pos 3)) (shift None (Some (negsuc 0)) (Some (pos 0)))
        ≡ voice_shift (pos 12) (negsuc 0) (pos 0) }
    ensures nothing { with_properties (voice_shift (pos 12) (pos 1) (pos 3)) no_shift ≡ voice_shift (pos 12) (pos 1) (pos 3) }
{}

/// A header declares at most fifteen voices. Each part of a voice's shift is the last one that is set. Not in ABC 2.1.
pub fn voices_of_headers()
    ensures first { declare [] (codes "A") (shift (Some (pos 12)) None None) ≡ (voice_a (shift (Some (pos 12)) None None), None) }
    ensures again { declare (voice_a (shift (Some (pos 12)) (Some (pos 1)) None)) (codes "A")
        (shift None (Some (pos 0)) (Some (pos 2)))
        ≡ (voice_a (shift (Some (pos 12)) (Some (pos 0)) (Some (pos 2))), None) }
    ensures one_of_fifteen { declare fifteen_voices (codes "o") no_shift ≡ (fifteen_voices, None) }
    ensures sixteenth { declare fifteen_voices (codes "p") no_shift ≡ (fifteen_voices, Some TooManyVoices) }
{}

/// A body has at most fifteen voices. Another one cannot become the current voice, and a known one can. Not in ABC 2.1.
pub fn voices_of_bodies()
    ensures fifteenth { (state : VoiceState)
        → voices_in (with_current (body_of state (take 14 fifteen_voices)) (codes "o") no_shift)
        ≡ Some 15 }
    ensures sixteenth { (state : VoiceState) → with_current (body_of state fifteen_voices) (codes "p") no_shift ≡ None }
    ensures again { (state : VoiceState) → voices_in (with_current (body_of state fifteen_voices) (codes "o") no_shift) ≡ Some 15 }
{}
