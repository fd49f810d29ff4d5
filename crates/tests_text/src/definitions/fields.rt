//! Values of fields, by their definitions (ABC 2.1 section 3.1; bounds and refusals are not in ABC 2.1).
#![tactic(auto, unfolding(crate::specs::Opened::fields, crate::specs::Opened::orders))]

ghost use Rattle.std.specs.Prelude.{◌≡◌, pos, negsuc, neg_ℤ, false, [], ◌∷◌, codes, map, replicate, Some, None, Ok, Err};
ghost use Rattle.abc_fields.specs.Fault.{name_of, number_of};
ghost use Rattle.abc_fields.specs.Key.{key_of};
ghost use Rattle.abc_fields.specs.Letters.{letters_of};
ghost use Rattle.abc_fields.specs.Meter.{meter_of};
ghost use Rattle.abc_fields.specs.Parts.{parts_of};
ghost use Rattle.abc_fields.specs.Tempo.{tempo_of};
ghost use Rattle.abc_fields.specs.Unit.{unit_of};
ghost use Rattle.abc_fields.specs.Voice.{voice_of};
ghost use Rattle.abc_fields.specs.declared.fault_code.FaultCode.TheVariants.{BadKey, BadMeter, BadOrder, BadTempo, BadUnit};
ghost use Rattle.abc_fields.specs.declared.fault_code.FaultCode.TheVariants.{BadVoice};
ghost use Rattle.abc_fields.specs.declared.meter.Meter.TheVariants.{Free, Of};
ghost use Rattle.abc_fields.specs.declared.tempo.Tempo.TheVariants.{Beat, Units, Unset};
ghost use Rattle.abc_time.specs.Tempo.{quarter_micros_of};
ghost use Rattle.tests_text.specs.Values.{by_fifths_in_key, fault_codes, flats, no_key, ratio, sharps, sharps_of};
ghost use Rattle.tests_text.specs.Values.{sharps_of_keys, shift, shift_in_key, voice};

/// The meter: symbols, fractions and sums.
pub fn meters()
    ensures empty { meter_of [] ≡ Ok Free }
    ensures none { meter_of (codes "none") ≡ Ok Free }
    ensures common { meter_of (codes "C") ≡ Ok (Of 4 4) }
    ensures cut { meter_of (codes "C|") ≡ Ok (Of 2 2) }
    ensures two_quarters { meter_of (codes "2/4") ≡ Ok (Of 2 4) }
    ensures sum { meter_of (codes "2+3+2/8") ≡ Ok (Of 7 8) }
    ensures in_parentheses { meter_of (codes "(2+3)/8") ≡ Ok (Of 5 8) }
    ensures summand_of_zero { meter_of (codes "0+3/4") ≡ Ok (Of 3 4) }
    ensures refused { map meter_of (codes "(4)/4" ∷ codes "2/3" ∷ codes "256/64" ∷ codes "c" ∷ []) ≡ replicate 4 (Err BadMeter) }
{}

/// The unit note length.
pub fn units()
    ensures whole { unit_of (codes "1") ≡ Ok (ratio 1 1) }
    ensures eighth { unit_of (codes "1/8") ≡ Ok (ratio 1 8) }
    ensures smallest { unit_of (codes "1/512") ≡ Ok (ratio 1 512) }
    ensures leading_zero { unit_of (codes "1/08") ≡ Ok (ratio 1 8) }
    ensures refused { map unit_of (codes "01/8" ∷ codes "1/3" ∷ [] ∷ []) ≡ replicate 3 (Err BadUnit) }
{}

/// The tempo: beats that are added, unit notes, texts.
pub fn tempos()
    ensures sum { tempo_of (codes "1/4 3/8 1/4 3/8=40") ≡ Ok (Beat (ratio 5 4) 40) }
    ensures units { tempo_of (codes "120") ≡ Ok (Units 120) }
    ensures text_before { tempo_of (codes "\"Allegro\" 1/4 = 120") ≡ Ok (Beat (ratio 1 4) 120) }
    ensures text_after { tempo_of (codes "120\"a\"") ≡ Ok (Units 120) }
    ensures text_alone { tempo_of (codes "\"Allegro\"") ≡ Ok Unset }
    ensures empty { tempo_of [] ≡ Ok Unset }
    ensures two_texts { tempo_of (codes "\"a\"120\"b\"") ≡ Err BadTempo }
    ensures no_beat { tempo_of (codes "=60") ≡ Err BadTempo }
    ensures zero { tempo_of (codes "0") ≡ Err BadTempo }
    ensures inner_blank { tempo_of (codes "1 /4=60") ≡ Err BadTempo }
{}

/// The bounds of meters, units and beats. Not in ABC 2.1.
pub fn bounds()
    ensures meters { map meter_of (codes "255/1" ∷ codes "1/64" ∷ codes "254+1/2" ∷ [])
        ≡ Ok (Of 255 1) ∷ Ok (Of 1 64) ∷ Ok (Of 255 2) ∷ [] }
    ensures other_meters { map meter_of (codes "256/1" ∷ codes "255+1/2" ∷ codes "1/128" ∷ codes "0/4" ∷ codes "4/0" ∷ [])
        ≡ replicate 5 (Err BadMeter) }
    ensures other_units { map unit_of (codes "1/1024" ∷ codes "1/0" ∷ codes "2/8" ∷ codes "1/" ∷ []) ≡ replicate 4 (Err BadUnit) }
    ensures beats { map tempo_of (codes "512/512=1" ∷ codes "1/512=999999999" ∷ [])
        ≡ Ok (Beat (ratio 1 1) 1) ∷ Ok (Beat (ratio 1 512) 999999999) ∷ [] }
    ensures other_beats { map tempo_of (codes "513/512=1" ∷ codes "1/1024=1" ∷ codes "0/4=1" ∷ codes "1/3=1" ∷ codes "1/4=0" ∷ [])
        ≡ replicate 5 (Err BadTempo) }
    ensures sixteen_fractions { tempo_of (codes "1/4 1/4 1/4 1/4 1/4 1/4 1/4 1/4 1/4 1/4 1/4 1/4 1/4 1/4 1/4 1/4=1")
        ≡ Ok (Beat (ratio 4 1) 1) }
    ensures seventeen_fractions { tempo_of (codes "1/4 1/4 1/4 1/4 1/4 1/4 1/4 1/4 1/4 1/4 1/4 1/4 1/4 1/4 1/4 1/4 1/4=1")
        ≡ Err BadTempo }
{}

/// Microseconds of a quarter note: a file can hold three bytes, and not 0.
pub fn quarter_notes()
    ensures sum { quarter_micros_of (ratio 5 4) 40 ≡ Some 300000 }
    ensures eighths { quarter_micros_of (ratio 1 8) 120 ≡ Some 1000000 }
    ensures rounded_down { quarter_micros_of (ratio 1 4) 7 ≡ Some 8571428 }
    ensures too_slow { quarter_micros_of (ratio 1 4) 1 ≡ None }
    ensures fastest { quarter_micros_of (ratio 1 4) 60000000 ≡ Some 1 }
    ensures too_fast { quarter_micros_of (ratio 1 4) 60000001 ≡ None }
{}

/// The order of parts, and its play.
pub fn orders()
    ensures nested { letters_of (codes "((AB)3.(CD)3)2") ≡ codes "ABABABCDCDCDABABABCDCDCD" }
    ensures blank_in_a_count { letters_of (codes "A1 2B") ≡ codes "AAAAAAAAAAAAB" }
    ensures good { parts_of (codes "(AB)2.C") ≡ Ok tt }
    ensures empty { parts_of [] ≡ Err BadOrder }
    ensures never { parts_of (codes "A0") ≡ Err BadOrder }
    ensures open { parts_of (codes "(A") ≡ Err BadOrder }
    ensures empty_group { parts_of (codes "()") ≡ Err BadOrder }
{}

/// Orders that are accepted: blanks and dots are left out, counts are from 1, groups are up to 32 deep.
pub fn accepted_orders()
    ensures letters { map parts_of (codes "A" ∷ codes "AB" ∷ codes "Z" ∷ codes "A.B" ∷ codes " A B " ∷ codes "A\tB" ∷ [])
        ≡ replicate 6 (Ok tt) }
    ensures counts { map parts_of (codes "A1" ∷ codes "A01" ∷ codes "A1.2" ∷ codes "A99B" ∷ codes "A999999999" ∷ [])
        ≡ replicate 5 (Ok tt) }
    ensures groups { map parts_of (codes "(A)" ∷ codes "(A)(B)" ∷ codes "A(B)C" ∷ codes "(A3)" ∷ codes "(A)2(B)3C" ∷ codes "(A99)99"
        ∷ []) ≡ replicate 6 (Ok tt) }
    ensures deepest { parts_of (codes "((((((((((((((((((((((((((((((((A))))))))))))))))))))))))))))))))") ≡ Ok tt }
{}

/// Orders that are refused: nothing to play, other bytes, counts of none or of ten digits, groups that do not close.
pub fn refused_orders()
    ensures nothing { map parts_of ([] ∷ codes "." ∷ codes "()" ∷ codes "A()B" ∷ []) ≡ replicate 4 (Err BadOrder) }
    ensures other_bytes { map parts_of (codes "a" ∷ codes
        "[" ∷ codes "@" ∷ codes "A-B" ∷ codes "A,B" ∷ (65 ∷ 0 ∷ []) ∷ (0xC3 ∷ 0x84 ∷ []) ∷ []) ≡ replicate 7 (Err BadOrder) }
    ensures counts { map parts_of (codes "A0" ∷ codes "A00" ∷ codes "(A)0" ∷ codes "A0000000001" ∷ codes "A1234567890" ∷ codes "3A"
        ∷ codes "(3A)" ∷ []) ≡ replicate 7 (Err BadOrder) }
    ensures groups { map parts_of (codes "(A" ∷ codes "A)" ∷ codes ")("
        ∷ codes "((((((((((((((((((((((((((((((((A)))))))))))))))))))))))))))))))" ∷ []) ≡ replicate 4 (Err BadOrder) }
    ensures too_deep { parts_of (codes "(((((((((((((((((((((((((((((((((A)))))))))))))))))))))))))))))))))") ≡ Err BadOrder }
{}

/// Keys: the tonic and the mode make the sharps; words after them list accidentals and properties.
pub fn keys()
    ensures phrygian { sharps_of (key_of (codes "F# Phrygian")) ≡ Some (pos 2) }
    ensures locrian { sharps_of (key_of (codes "E loc")) ≡ Some (negsuc 0) }
    ensures minor { sharps_of (key_of (codes "C m=B")) ≡ Some (negsuc 2) }
    ensures explicit { sharps_of (key_of (codes "G# exp ^f")) ≡ Some (pos 0) }
    ensures eight_sharps { key_of (codes "G# major") ≡ Err BadKey }
    ensures capital_m { key_of (codes "CM") ≡ Err BadKey }
    ensures none_and_more { key_of (codes "none clef=bass") ≡ Err BadKey }
    ensures malformed { key_of (codes "C octave=x") ≡ Err BadKey }
    ensures shifted { shift_in_key (key_of (codes "C transpose=-2 treble-8"))
        ≡ Some (shift (Some (negsuc 11)) None (Some (negsuc 1))) }
    ensures properties { key_of (codes "alto1") ≡ Ok
        (record { signature = None; sharps = pos 0; minor = false; shift = shift None None None }) }
{}

/// The tonics of the table of keys, from seven sharps to seven flats. ABC 2.1 section 3.1.14.
pub fn tonics()
    ensures with_sharps { sharps_of_keys (codes "C#" ∷ codes "F#" ∷ codes "B" ∷ codes "E" ∷ codes "A" ∷ codes "D" ∷ codes "G"
        ∷ codes "C" ∷ []) ≡ sharps (7 ∷ 6 ∷ 5 ∷ 4 ∷ 3 ∷ 2 ∷ 1 ∷ 0 ∷ []) }
    ensures with_flats { sharps_of_keys (codes "F" ∷ codes "Bb" ∷ codes "Eb" ∷ codes "Ab" ∷ codes "Db" ∷ codes "Gb" ∷ codes "Cb"
        ∷ []) ≡ flats (1 ∷ 2 ∷ 3 ∷ 4 ∷ 5 ∷ 6 ∷ 7 ∷ []) }
{}

/// Rows of the table of keys: major, minor, Mixolydian, Dorian, Phrygian, Lydian and Locrian keys of one signature. ABC
/// 2.1 section 3.1.14.
pub fn modes()
    ensures natural { sharps_of_keys (codes "C" ∷ codes "Am" ∷ codes "GMix" ∷ codes "DDor" ∷ codes "EPhr" ∷ codes "FLyd"
        ∷ codes "BLoc" ∷ []) ≡ replicate 7 (Some (pos 0)) }
    ensures sharps { sharps_of_keys (codes "A" ∷ codes "F#m" ∷ codes "EMix" ∷ codes "BDor" ∷ codes "C#Phr" ∷ codes "DLyd"
        ∷ codes "G#Loc" ∷ []) ≡ replicate 7 (Some (pos 3)) }
    ensures flats { sharps_of_keys (codes "Bb" ∷ codes "Gm" ∷ codes "FMix" ∷ codes "CDor" ∷ codes "DPhr" ∷ codes "EbLyd"
        ∷ codes "ALoc" ∷ []) ≡ replicate 7 (Some (negsuc 1)) }
    ensures names { sharps_of_keys (codes "C major" ∷ codes "C Ionian" ∷ codes "A minor" ∷ codes "A AEOLIAN" ∷ codes "G mixolydian"
        ∷ []) ≡ replicate 5 (Some (pos 0)) }
{}

/// The letters that sharps and flats alter: F C G D A E B, and backwards. The examples of listed accidentals are in ABC
/// 2.1 section 3.1.14.
pub fn signatures_of_keys()
    ensures three_sharps { by_fifths_in_key (key_of (codes "A"))
        ≡ Some (map pos (1 ∷ 1 ∷ 1 ∷ 0 ∷ 0 ∷ 0 ∷ 0 ∷ [])) }
    ensures six_sharps { by_fifths_in_key (key_of (codes "F#"))
        ≡ Some (map pos (1 ∷ 1 ∷ 1 ∷ 1 ∷ 1 ∷ 1 ∷ 0 ∷ [])) }
    ensures three_flats { by_fifths_in_key (key_of (codes "Eb"))
        ≡ Some (map (λ n. neg_ℤ (pos n)) (0 ∷ 0 ∷ 0 ∷ 0 ∷ 1 ∷ 1 ∷ 1 ∷ [])) }
    ensures six_flats { by_fifths_in_key (key_of (codes "Gb"))
        ≡ Some (map (λ n. neg_ℤ (pos n)) (0 ∷ 1 ∷ 1 ∷ 1 ∷ 1 ∷ 1 ∷ 1 ∷ [])) }
    ensures sharp { by_fifths_in_key (key_of (codes "D Phr ^f"))
        ≡ Some (pos 1 ∷ pos 0 ∷ pos 0 ∷ pos 0 ∷ pos 0 ∷ negsuc 0 ∷ negsuc 0 ∷ []) }
    ensures natural { by_fifths_in_key (key_of (codes "D =c"))
        ≡ Some (pos 1 ∷ pos 0 ∷ pos 0 ∷ pos 0 ∷ pos 0 ∷ pos 0 ∷ pos 0 ∷ []) }
    ensures explicit { by_fifths_in_key (key_of (codes "D exp _b _e ^f"))
        ≡ Some (pos 1 ∷ pos 0 ∷ pos 0 ∷ pos 0 ∷ pos 0 ∷ negsuc 0 ∷ negsuc 0 ∷ []) }
    ensures none { map (λ value. by_fifths_in_key (key_of value)) (codes "none" ∷ [] ∷ [])
        ≡ replicate 2 (Some (replicate 7 (pos 0))) }
{}

/// The names of clefs, perhaps with a line of the staff from 1 to 5. ABC 2.1 section 4.6; that the lines have no effect, and
/// the other words, are not in ABC 2.1.
pub fn clefs()
    ensures names { map key_of (codes "treble" ∷ codes "alto" ∷ codes "tenor" ∷ codes "bass" ∷ codes "perc" ∷ [])
        ≡ replicate 5 (Ok no_key) }
    ensures lines { map key_of (codes "treble1" ∷ codes "bass3" ∷ codes "alto5" ∷ []) ≡ replicate 3 (Ok no_key) }
    ensures other_lines { map key_of (codes "bass0" ∷ codes "bass6" ∷ codes "bass33" ∷ []) ≡ replicate 3 (Err BadKey) }
    ensures other_names { map key_of (codes "soprano" ∷ codes "Treble" ∷ []) ≡ replicate 2 (Err BadKey) }
{}

/// Voices: the first word is the identifier, with any bytes, and words without effect may follow.
pub fn voices()
    ensures number { voice_of (codes "1 2 3 4") ≡ Ok (voice 0 1 None None None) }
    ensures blanks { voice_of (codes "  Solo  transpose=0 ") ≡ Ok (voice 2 6 None None (Some (pos 0))) }
    ensures any_bytes { voice_of (0xC3 ∷ 0xA4 ∷ codes " clef=treble+8") ≡ Ok (voice 0 2 (Some (pos 12)) None None) }
    ensures not_a_property { voice_of (codes "octave=x octave=2") ≡ Ok (voice 0 8 None (Some (pos 2)) None) }
    ensures not_a_clef { voice_of (codes "-8") ≡ Ok (voice 0 2 None None None) }
    ensures unknown { voice_of (codes "Solo name=\"a b\"") ≡ Ok (voice 0 4 None None None) }
    ensures accidentals { voice_of (codes "Solo =e^F") ≡ Ok (voice 0 4 None None None) }
    ensures no_sign { voice_of (codes "Solo 8") ≡ Ok (voice 0 4 None None None) }
{}

/// The properties of a voice: the last of each counts, a word that ends in `-8` or `+8` is a clef, and quotes count only
/// round the whole value.
pub fn properties_of_voices()
    ensures last { voice_of (codes "Solo octave=1 octave=-1") ≡ Ok (voice 0 4 None (Some (negsuc 0)) None) }
    ensures both { voice_of (codes "Solo octave=-1 transpose=3") ≡ Ok (voice 0 4 None (Some (negsuc 0)) (Some (pos 3))) }
    ensures nine_digits { voice_of (codes "Solo transpose=-000000007") ≡ Ok (voice 0 4 None None (Some (negsuc 6))) }
    ensures plus { voice_of (codes "Solo octave=+1") ≡ Ok (voice 0 4 None (Some (pos 1)) None) }
    ensures quoted { voice_of (codes "Solo octave=\"1\"") ≡ Ok (voice 0 4 None (Some (pos 1)) None) }
    ensures clef { voice_of (codes "Solo clef=bass") ≡ Ok (voice 0 4 (Some (pos 0)) None None) }
    ensures octave_clef { voice_of (codes "Solo clef=\"+8\"") ≡ Ok (voice 0 4 (Some (pos 12)) None None) }
    ensures other_word { voice_of (codes "Solo foo=x-8") ≡ Ok (voice 0 4 (Some (negsuc 11)) None None) }
    ensures accidental { voice_of (codes "Solo ^c-8") ≡ Ok (voice 0 4 (Some (negsuc 11)) None None) }
    ensures treble { voice_of (codes "Solo treble-8 treble") ≡ Ok (voice 0 4 (Some (negsuc 11)) None None) }
    ensures taken_back { voice_of (codes "Solo treble-8 clef=bass") ≡ Ok (voice 0 4 (Some (pos 0)) None None) }
{}

/// No identifier, or a malformed number.
pub fn refused_voices()
    ensures no_identifier { map voice_of ([] ∷ codes " " ∷ []) ≡ replicate 2 (Err BadVoice) }
    ensures no_number { map voice_of (codes "Solo octave=" ∷ codes "Solo octave=x" ∷ codes "Solo octave=1.5"
        ∷ codes "Solo octave=--1" ∷ codes "Solo transpose=+" ∷ []) ≡ replicate 5 (Err BadVoice) }
    ensures one_quote { map voice_of (codes "Solo octave=\"1" ∷ codes "Solo name=\"a octave=2\"" ∷ [])
        ≡ replicate 2 (Err BadVoice) }
    ensures ten_digits { map voice_of (codes "Solo transpose=12345678901" ∷ codes "Solo transpose=-0000000007" ∷ [])
        ≡ replicate 2 (Err BadVoice) }
{}

/// The names of faults, in the order of their numbers from 1. Not in ABC 2.1.
pub fn names_of_faults()
    ensures numbers { map number_of fault_codes ≡ 1 ∷ 2 ∷ 3 ∷ 4 ∷ 5 ∷ 6 ∷ 7 ∷ 8 ∷ 9 ∷ 10 ∷ 11 ∷ 12 ∷ 13 ∷ 14 ∷ 15 ∷ 16 ∷ 17 ∷ 18
        ∷ 19 ∷ 20 ∷ 21 ∷ 22 ∷ 23 ∷ 24 ∷ 25 ∷ 26 ∷ 27 ∷ [] }
    ensures names { map name_of fault_codes ≡ codes "BadReference" ∷ codes "BadMeter" ∷ codes "BadUnit" ∷ codes "BadTempo"
        ∷ codes "BadKey" ∷ codes "BadOrder" ∷ codes "BadPart" ∷ codes "BadVoice" ∷ codes "TooManyVoices" ∷ codes "BadByte"
        ∷ codes "Unclosed" ∷ codes "BadLength" ∷ codes "BadTuplet" ∷ codes "NestedTuplet" ∷ codes "BadBroken" ∷ codes "LooseTie"
        ∷ codes "EmptyChord" ∷ codes "BigChord" ∷ codes "BadEnding" ∷ codes "FreeBarRest" ∷ codes "KeyRange" ∷ codes "MissingKey"
        ∷ codes "TempoRange" ∷ codes "UnknownPart" ∷ codes "UnevenVoices" ∷ codes "TuneTooLong" ∷ codes "BadProgram" ∷ [] }
{}
