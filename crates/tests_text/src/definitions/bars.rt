//! Lines of music, by the definition of the fold over cells: `entry_step` of `abc_bars_body`, and the definitions that it
//! uses in `abc_scan`, `abc_fields`, `abc_bars_voice` and `abc_bars_notes`. Lengths are in ticks: a whole note has 1,920, an
//! eighth 240.
#![tactic(auto, unfolding(crate::specs::Opened::bars))]

ghost use Rattle.std.specs.Prelude.{◌≡◌, pos, negsuc, true, false, [], ◌∷◌, codes, Some, None};
ghost use Rattle.abc_fields.specs.declared.fault_code.FaultCode.TheVariants.{BadBroken, BadByte, BadEnding, BadKey, BadLength};
ghost use Rattle.abc_fields.specs.declared.fault_code.FaultCode.TheVariants.{BadMeter, BadPart, BadProgram, BadTempo, BadTuplet};
ghost use Rattle.abc_fields.specs.declared.fault_code.FaultCode.TheVariants.{BadUnit, BadVoice, BigChord, EmptyChord, FreeBarRest};
ghost use Rattle.abc_fields.specs.declared.fault_code.FaultCode.TheVariants.{KeyRange, LooseTie, NestedTuplet, TempoRange};
ghost use Rattle.abc_fields.specs.declared.fault_code.FaultCode.TheVariants.{Unclosed};
ghost use Rattle.abc_fields.specs.declared.meter.Meter.TheVariants.{Of};
ghost use Rattle.abc_bars_items.specs.declared.item.Item.TheVariants as items;
ghost use Rattle.abc_scan.specs.declared.directive.Reach.TheVariants.{Not, Octave, Pitch};
ghost use Rattle.tests_text.specs.Bars.{bar_rest, entry_after_header, faults_by, in_common, in_compound, in_free, in_reach, items_by};
ghost use Rattle.tests_text.specs.Bars.{keys, keys_by};
ghost use Rattle.tests_text.specs.Bars.{lengths_by, sound, ticks, tone_lengths_by, velocities_by};

/// Keys of notes: letters, octaves, the accidentals of a bar. ABC 2.1 sections 4.1 and 4.2; the MIDI keys 0 to 127 are
/// in MIDI 1.0.
pub fn keys_of_notes()
    ensures letters { keys_by in_common (codes "CDEFGABc") ≡ keys (60 ∷ 62 ∷ 64 ∷ 65 ∷ 67 ∷ 69 ∷ 71 ∷ 72 ∷ []) }
    ensures small_letters { keys_by in_common (codes "cdefgab") ≡ keys (72 ∷ 74 ∷ 76 ∷ 77 ∷ 79 ∷ 81 ∷ 83 ∷ []) }
    ensures octaves { keys_by in_common (codes "C,c'C'") ≡ keys (48 ∷ 84 ∷ 72 ∷ []) }
    ensures accidentals { keys_by in_common (codes "^C_B=E^^F__A") ≡ keys (61 ∷ 70 ∷ 64 ∷ 67 ∷ 67 ∷ []) }
    ensures lowest { keys_by in_common (codes "C,,,,,_C,,,,,") ≡ Some 0 ∷ None ∷ [] }
    ensures highest { keys_by in_common (codes "g''''^g''''") ≡ Some 127 ∷ None ∷ [] }
{}

/// A clef and `transpose` shift by semitones, `octave` by octaves. ABC 2.1 section 4.6; the sum is not in ABC 2.1.
pub fn shifts()
    ensures clef { keys_by (entry_after_header (codes "X:1" ∷ codes "K:C treble-8" ∷ [])) (codes "Cc") ≡ keys (48 ∷ 60 ∷ []) }
    ensures transposed { keys_by (entry_after_header (codes "X:1" ∷ codes "K:C transpose=2" ∷ [])) (codes "CB,")
        ≡ keys (62 ∷ 61 ∷ []) }
    ensures all { keys_by (entry_after_header (codes "X:1" ∷ codes "K:C clef=treble+8 octave=-2 transpose=-3" ∷ [])) (codes "C^c")
        ≡ keys (45 ∷ 58 ∷ []) }
{}

/// The reach of accidentals. ABC 2.1 sections 4.2 and 11.3; the meaning of the words is not in ABC 2.1.
pub fn reaches()
    ensures pitch { keys_by (in_reach Pitch) (codes "^FfF,|F") ≡ keys (66 ∷ 78 ∷ 54 ∷ 65 ∷ []) }
    ensures octave { keys_by (in_reach Octave) (codes "^FfF|F") ≡ keys (66 ∷ 77 ∷ 66 ∷ 65 ∷ []) }
    ensures not { keys_by (in_reach Not) (codes "^FF[^FF]") ≡ keys (66 ∷ 65 ∷ 66 ∷ 65 ∷ []) }
    ensures in_a_chord { keys_by (in_reach Pitch) (codes "[^Ff]F") ≡ keys (66 ∷ 78 ∷ 66 ∷ []) }
    ensures last { keys_by (in_reach Octave) (codes "^c_c=Cc") ≡ keys (73 ∷ 71 ∷ 60 ∷ 71 ∷ []) }
{}

/// The tokens that end accidentals, and those that do not. ABC 2.1 section 4.2; keys and parts are not in ABC 2.1.
pub fn ends_of_accidentals()
    ensures key { keys_by in_common (codes "^F[K:C]F") ≡ keys (66 ∷ 65 ∷ []) }
    ensures part { keys_by in_common (codes "^F[P:A]F") ≡ keys (66 ∷ 65 ∷ []) }
    ensures refused_part { keys_by in_common (codes "^F[P:a]F") ≡ keys (66 ∷ 66 ∷ []) }
    ensures meter { keys_by in_common (codes "^F[M:3/4]F") ≡ keys (66 ∷ 66 ∷ []) }
    ensures signature { keys_by in_common (codes "[K:G]F=FF|F") ≡ keys (66 ∷ 65 ∷ 65 ∷ 66 ∷ []) }
    ensures properties { keys_by in_common (codes "[K:G]=F[K:octave=1]F") ≡ keys (65 ∷ 78 ∷ []) }
    ensures another_voice { keys_by in_common (codes "[V:1]^F[V:2]F[V:1]F") ≡ keys (66 ∷ 65 ∷ 66 ∷ []) }
{}

/// A tied note passes its alteration to the next note of its letter and octave, over bars, rests of bars and chords
/// without notes. ABC 2.1 section 4.11; the octave and the tokens between are not in ABC 2.1.
pub fn tied_notes()
    ensures over_a_bar { keys_by in_common (codes "^F-|F|F") ≡ keys (66 ∷ 66 ∷ 65 ∷ []) }
    ensures octave { keys_by in_common (codes "^F-|f") ≡ keys (66 ∷ 77 ∷ []) }
    ensures rest { keys_by in_common (codes "^F-|zF") ≡ keys (66 ∷ 65 ∷ []) }
    ensures rest_of_bars { keys_by in_common (codes "^F-|ZF") ≡ keys (66 ∷ 66 ∷ []) }
    ensures chord { keys_by in_common (codes "[^F_A]-|[FA]") ≡ keys (66 ∷ 68 ∷ 66 ∷ 68 ∷ []) }
    ensures last { keys_by in_common (codes "[^F_F]-|F") ≡ keys (66 ∷ 64 ∷ 64 ∷ []) }
    ensures chord_without_notes { keys_by in_common (codes "^F-[]|F") ≡ keys (66 ∷ 66 ∷ []) }
    ensures in_a_chord { keys_by in_common (codes "[^F-_A]|[FA]") ≡ keys (66 ∷ 68 ∷ 66 ∷ 69 ∷ []) }
{}

/// Lengths as written, and those that are refused, which are one unit. ABC 2.1 section 4.3; the bounds are not in ABC 2.1.
pub fn lengths()
    ensures written { lengths_by in_common (codes "C3/2D/E//z2x") ≡ ticks (360 ∷ 120 ∷ 60 ∷ 480 ∷ 240 ∷ []) }
    ensures unit { lengths_by in_common (codes "[L:1/4]C[L:1/16]C2") ≡ ticks (480 ∷ 240 ∷ []) }
    ensures longest { lengths_by in_common (codes "C8192") ≡ ticks (1966080 ∷ []) }
    ensures too_long { items_by in_common (codes "C8193") ≡ sound (Some 60) 240 ∷ [] }
    ensures zero { lengths_by in_common (codes "C0") ≡ ticks (240 ∷ []) }
    ensures not_whole { lengths_by in_common (codes "C/17") ≡ ticks (240 ∷ []) }
    ensures rests_of_bars { items_by in_compound (codes "ZX2") ≡ bar_rest 1440 ∷ bar_rest 2880 ∷ [] }
{}

/// Lengths in tuplets. ABC 2.1 section 4.13; the tokens that count are not in ABC 2.1.
pub fn lengths_in_tuplets()
    ensures three { lengths_by in_common (codes "(3CDEF") ≡ ticks (160 ∷ 160 ∷ 160 ∷ 240 ∷ []) }
    ensures over_a_bar { lengths_by in_common (codes "(3C[]D|zE") ≡ ticks (160 ∷ 160 ∷ 160 ∷ 240 ∷ []) }
    ensures two { lengths_by in_common (codes "(2CDE") ≡ ticks (360 ∷ 360 ∷ 240 ∷ []) }
    ensures five { lengths_by in_common (codes "(5C2DEFGA") ≡ ticks (192 ∷ 96 ∷ 96 ∷ 96 ∷ 96 ∷ 240 ∷ []) }
    ensures five_in_six_eighths { lengths_by in_compound (codes "(5CDEFGA") ≡ ticks (144 ∷ 144 ∷ 144 ∷ 144 ∷ 144 ∷ 240 ∷ []) }
    ensures two_of_three { lengths_by in_common (codes "(3::2CDE") ≡ ticks (160 ∷ 160 ∷ 240 ∷ []) }
    ensures in_another { lengths_by in_common (codes "(3C(2DEF") ≡ ticks (160 ∷ 360 ∷ 360 ∷ 240 ∷ []) }
    ensures another_voice { lengths_by in_common (codes "[V:1](3C[V:2]C[V:1]DEF") ≡ ticks (160 ∷ 240 ∷ 160 ∷ 160 ∷ 240 ∷ []) }
{}

/// Lengths in broken rhythm. ABC 2.1 section 4.4; the tokens between are not in ABC 2.1.
pub fn lengths_in_broken_rhythm()
    ensures one { lengths_by in_common (codes "C>DE") ≡ ticks (360 ∷ 120 ∷ 240 ∷ []) }
    ensures two { lengths_by in_common (codes "C>>D") ≡ ticks (420 ∷ 60 ∷ []) }
    ensures three { lengths_by in_common (codes "C>>>D") ≡ ticks (450 ∷ 30 ∷ []) }
    ensures left { lengths_by in_common (codes "C<D") ≡ ticks (120 ∷ 360 ∷ []) }
    ensures on_both_sides { lengths_by in_common (codes "C>D>E") ≡ ticks (360 ∷ 180 ∷ 120 ∷ []) }
    ensures rest { lengths_by in_common (codes "z<[CE]") ≡ ticks (120 ∷ 360 ∷ []) }
    ensures tuplet { lengths_by in_common (codes "C>(3DEF") ≡ ticks (360 ∷ 80 ∷ 160 ∷ 160 ∷ []) }
    ensures refused_length { lengths_by in_common (codes "C0>D") ≡ ticks (240 ∷ 120 ∷ []) }
    ensures silent_chord { lengths_by in_common (codes "C>[]&D") ≡ ticks (360 ∷ 120 ∷ []) }
    ensures bar { lengths_by in_common (codes "C>|D") ≡ ticks (240 ∷ 240 ∷ []) }
    ensures field { lengths_by in_common (codes "C>[L:1/8]D") ≡ ticks (240 ∷ 240 ∷ []) }
{}

/// What may be between a mark of broken rhythm and its notes: endings, ties, dynamics, blanks, tokens without effect and bytes
/// that begin no token; but no rest of bars, no field and no other mark. Not in ABC 2.1.
pub fn tokens_beside_marks()
    ensures others { lengths_by in_common (codes "C- >!f! \"G\".[1&D") ≡ ticks (360 ∷ 120 ∷ []) }
    ensures bar_rest { lengths_by in_common (codes "C>ZD") ≡ ticks (240 ∷ 1920 ∷ 240 ∷ []) }
    ensures bar_rest_before { lengths_by in_common (codes "CZ>D") ≡ ticks (240 ∷ 1920 ∷ 240 ∷ []) }
    ensures field { lengths_by in_common (codes "C[T:a]>D") ≡ ticks (240 ∷ 240 ∷ []) }
    ensures another_mark { lengths_by in_common (codes "C><D") ≡ ticks (240 ∷ 240 ∷ []) }
{}

/// The unit, the meter, the key, the accidentals and the tied notes belong to the current voice. A part ends the accidentals of
/// all voices. ABC 2.1 section 7; the details are not in ABC 2.1.
pub fn settings_of_voices()
    ensures unit { lengths_by in_common (codes "[V:1][L:1/4]C[V:2]C[V:1]C") ≡ ticks (480 ∷ 240 ∷ 480 ∷ []) }
    ensures meter { lengths_by in_common (codes "[V:1][M:3/4]Z[V:2]Z[V:1]Z") ≡ ticks (1440 ∷ 1920 ∷ 1440 ∷ []) }
    ensures meter_without_unit { lengths_by in_common (codes "[M:2/4]C") ≡ ticks (240 ∷ []) }
    ensures key { keys_by in_common (codes "[V:1][K:G]F[V:2]F[V:1]F") ≡ keys (66 ∷ 65 ∷ 66 ∷ []) }
    ensures bar_line { keys_by in_common (codes "[V:1]^F[V:2]^F|[V:1]F[V:2]F") ≡ keys (66 ∷ 66 ∷ 66 ∷ 65 ∷ []) }
    ensures part { keys_by in_common (codes "[V:1]^F[V:2]^F[P:A]F[V:1]F") ≡ keys (66 ∷ 66 ∷ 65 ∷ 65 ∷ []) }
    ensures tie { keys_by in_common (codes "[V:1]^F-[V:2]F[V:1]|F") ≡ keys (66 ∷ 65 ∷ 66 ∷ []) }
{}

/// A chord lasts as long as its first note, each note for its own length. ABC 2.1 section 4.17.
pub fn lengths_of_chords()
    ensures chord { lengths_by in_common (codes "[CE2]3z") ≡ ticks (720 ∷ 240 ∷ []) }
    ensures notes { tone_lengths_by in_common (codes "[CE2]3") ≡ ticks (720 ∷ 1440 ∷ []) }
    ensures in_a_tuplet { tone_lengths_by in_common (codes "(3[CE]DE") ≡ ticks (160 ∷ 160 ∷ 160 ∷ 160 ∷ []) }
    ensures empty { items_by in_common (codes "[]") ≡ [] }
{}

/// The velocities of notes, for each voice by its own last dynamic. ABC 2.1 section 4.14; the rule is not in ABC 2.1.
pub fn loudness()
    ensures last { velocities_by in_common (codes "C!f!D|!pp!E") ≡ 80 ∷ 105 ∷ 45 ∷ [] }
    ensures chord { velocities_by in_common (codes "!f![CE!p!]C") ≡ 105 ∷ 105 ∷ 105 ∷ [] }
    ensures voices { velocities_by in_common (codes "[V:1]!f!C[V:2]C[V:1]C") ≡ 105 ∷ 80 ∷ 105 ∷ [] }
{}

/// The items of bars, endings, parts and voices, and of fields that change the music. Not in ABC 2.1.
pub fn items_of_fields()
    ensures bars { items_by in_common (codes "|:C:|") ≡ items.Bar (record { closes = 0; opens = 1; double = false })
        ∷ sound (Some 60) 240
        ∷ items.Bar (record { closes = 1; opens = 0; double = false }) ∷ [] }
    ensures ending { items_by in_common (codes "[1,3C") ≡ items.Ending 5 ∷ sound (Some 60) 240 ∷ [] }
    ensures part { items_by in_common (codes "P:B2") ≡ items.Section 66 ∷ [] }
    ensures voice { items_by in_common (codes "V:2 octave=1") ≡ items.Voice false (codes "2") ∷ [] }
    ensures meter { items_by in_common (codes "M:3/4") ≡ items.Meter false (Some (Of 3 4)) ∷ [] }
    ensures key { items_by in_common (codes "K:Dm") ≡ items.Key false (Some (negsuc 0, true)) ∷ [] }
    ensures properties { items_by in_common (codes "K:bass") ≡ items.Key false None ∷ [] }
    ensures tempo { items_by in_common (codes "Q:120") ≡ items.Tempo false (Some 1000000) false ∷ [] }
    ensures program { items_by in_common (codes "%%MIDI program 41") ≡ items.Program false (Some 41) ∷ [] }
    ensures no_item { items_by in_common (codes "L:1/4") ≡ [] }
    ensures no_effect { items_by in_common (codes "T:a") ≡ [] }
{}

/// The results of refused fields and directives: a fault, and an item if the field is played. Not in ABC 2.1.
pub fn items_of_refused_fields()
    ensures meter { items_by in_common (codes "M:3") ≡ items.Meter false None ∷ [] }
    ensures key { items_by in_common (codes "K:H") ≡ items.Key false (Some (pos 0, false)) ∷ [] }
    ensures tempo { items_by in_common (codes "Q:x") ≡ items.Tempo false None false ∷ [] }
    ensures tempo_out { items_by in_common (codes "Q:1/4=1") ≡ items.Tempo false None true ∷ [] }
    ensures program { items_by in_common (codes "%%MIDI program 128") ≡ items.Program false None ∷ [] }
    ensures others { items_by in_common (codes "[L:3][P:a][V:]") ≡ [] }
{}

/// The columns of faults in fields: column 1, or that of the `[` of an inline field. Not in ABC 2.1.
pub fn faults_of_fields()
    ensures meter { faults_by in_common (codes "M:3") ≡ (1, BadMeter) ∷ [] }
    ensures unit { faults_by in_common (codes "C[L:3]") ≡ (2, BadUnit) ∷ [] }
    ensures tempo { faults_by in_common (codes "Q:x") ≡ (1, BadTempo) ∷ [] }
    ensures tempo_out { faults_by in_common (codes "C[Q:1/4=1]") ≡ (2, TempoRange) ∷ [] }
    ensures key { faults_by in_common (codes "[K:H]") ≡ (1, BadKey) ∷ [] }
    ensures part { faults_by in_common (codes "P:a") ≡ (1, BadPart) ∷ [] }
    ensures voice { faults_by in_common (codes "C[V:]") ≡ (2, BadVoice) ∷ [] }
    ensures program { faults_by in_common (codes "%%MIDI program 128") ≡ (1, BadProgram) ∷ [] }
    ensures open { faults_by in_common (codes "C[K:Hp") ≡ (2, Unclosed) ∷ (4, BadByte) ∷ [] }
{}

/// The columns of faults in tokens. Not in ABC 2.1.
pub fn faults_of_tokens()
    ensures bad_byte { faults_by in_common (codes "C&D") ≡ (2, BadByte) ∷ [] }
    ensures unclosed { faults_by in_common (codes "C{") ≡ (2, Unclosed) ∷ [] }
    ensures lengths { faults_by in_common (codes "C0z/17C8193") ≡ (1, BadLength) ∷ (3, BadLength) ∷ (7, BadLength) ∷ [] }
    ensures key_range { faults_by in_common (codes "CC,,,,,,") ≡ (2, KeyRange) ∷ [] }
    ensures length_and_key { faults_by in_common (codes "C,,,,,,0") ≡ (1, BadLength) ∷ (1, KeyRange) ∷ [] }
    ensures tuplet { faults_by in_common (codes "(65C(3:0C") ≡ (1, BadTuplet) ∷ (5, BadTuplet) ∷ [] }
    ensures nested { faults_by in_common (codes "(3C(2DE") ≡ (4, NestedTuplet) ∷ [] }
    ensures broken { faults_by in_common (codes ">CC>|C>>>>D") ≡ (1, BadBroken) ∷ (4, BadBroken) ∷ (7, BadBroken) ∷ (10, BadBroken)
        ∷ [] }
    ensures ties { faults_by in_common (codes "-C--z-C!f!-") ≡ (1, LooseTie) ∷ (4, LooseTie) ∷ (6, LooseTie) ∷ (11, LooseTie) ∷ [] }
    ensures ending { faults_by in_common (codes "[0C|33") ≡ (1, BadEnding) ∷ (5, BadEnding) ∷ [] }
    ensures bar_rests { faults_by in_common (codes "Z0Z1025Z") ≡ (1, BadLength) ∷ (3, BadLength) ∷ [] }
    ensures free_bar_rest { faults_by in_free (codes "CZ0") ≡ (2, FreeBarRest) ∷ [] }
{}

/// The columns of faults in chords. Not in ABC 2.1.
pub fn faults_of_chords()
    ensures empty { faults_by in_common (codes "C[]-") ≡ (2, EmptyChord) ∷ [] }
    ensures inside { faults_by in_common (codes "[-C-1]") ≡ (2, LooseTie) ∷ (5, BadByte) ∷ [] }
    ensures outer_length { faults_by in_common (codes "[CE]0") ≡ (2, BadLength) ∷ (3, BadLength) ∷ [] }
    ensures big { faults_by in_common (codes "[CCCCCCCCCCCCCCCCCC]") ≡ (18, BigChord) ∷ [] }
{}
