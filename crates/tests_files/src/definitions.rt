//! Worked examples by the definitions of `smf_bytes`: number texts, events, tracks and files. A body here does nothing;
//! its contract is the example.
#![tactic(auto, unfolding(crate::specs::Opened::files, crate::specs::Opened::numbers))]

ghost use Rattle.std.specs.Prelude.{◌≡◌, pos, negsuc, true, false, [], ◌∷◌, ◌++◌, codes, replicate};
ghost use Rattle.std.specs.List.{concat, list_all, list_any};
ghost use Rattle.hex.specs.Hex.{encode_upper};
ghost use Rattle.smf_bytes.specs.declared.number.NumberFault.TheVariants.{Padded, TooLong, Truncated};
ghost use Rattle.abc_voices_score.specs.Limits.{IsWritable};
ghost use Rattle.abc_voices_score.specs.declared.score.ChangeKind.TheVariants.{Tempo, Meter, Key};
ghost use Rattle.smf_bytes.specs.Event.{change_bytes, end_event, note_events, note_off, note_on, title_events};
ghost use Rattle.smf_bytes.specs.File.{file_bytes};
ghost use Rattle.abc_text.specs.Power.{is_power_up_to};
ghost use Rattle.smf_bytes.specs.Number.{number_text, read_result};
ghost use Rattle.smf_bytes.specs.Order.{in_order};
ghost use Rattle.smf_bytes.specs.Track.{channel_of, conductor_events, track, track_body, voice_events};
ghost use Rattle.tests_files.specs.Scores.{two_tempos, one_eighth, one_eighth_file, seven_notes, seven_notes_track};
ghost use Rattle.tests_files.specs.Scores.{opening_changes, events_in_no_order, changes_in_no_order, changes_track};
ghost use Rattle.tests_files.specs.Scores.{notes_in_no_order, fifteen_silent_voices, the_longest, the_longest_file};
ghost use Rattle.tests_files.specs.Values.{sounding};

/// Variable-length quantities, the first and the last of each count of bytes, and 240. SMF 1.0.
pub fn number_texts()
    ensures zero { number_text 0 ≡ 0 ∷ [] }
    ensures one_byte { number_text 127 ≡ 0x7F ∷ [] }
    ensures two_bytes { number_text 128 ≡ 0x81 ∷ 0 ∷ [] }
    ensures an_eighth { number_text 240 ≡ 0x81 ∷ 0x70 ∷ [] }
    ensures last_of_two_bytes { number_text 16383 ≡ 0xFF ∷ 0x7F ∷ [] }
    ensures three_bytes { number_text 16384 ≡ 0x81 ∷ 0x80 ∷ 0 ∷ [] }
    ensures last_of_three_bytes { number_text 2097151 ≡ 0xFF ∷ 0xFF ∷ 0x7F ∷ [] }
    ensures four_bytes { number_text 2097152 ≡ 0x81 ∷ 0x80 ∷ 0x80 ∷ 0 ∷ [] }
    ensures greatest { number_text 268435455 ≡ 0xFF ∷ 0xFF ∷ 0xFF ∷ 0x7F ∷ [] }
{}

/// The number at the front of bytes and its count of bytes (SMF 1.0), or the fault. The faults are not in ABC 2.1.
pub fn readings()
    ensures padded { read_result (0x80 ∷ 1 ∷ []) ≡ Err Padded }
    ensures padded_alone { read_result (0x80 ∷ []) ≡ Err Padded }
    ensures truncated { read_result (0x81 ∷ []) ≡ Err Truncated }
    ensures empty { read_result [] ≡ Err Truncated }
    ensures too_long { read_result (0xFF ∷ 0xFF ∷ 0xFF ∷ 0xFF ∷ []) ≡ Err TooLong }
    ensures one_byte { read_result (0x7F ∷ 0x81 ∷ []) ≡ Ok (127, 1) }
    ensures greatest { read_result (0xFF ∷ 0xFF ∷ 0xFF ∷ 0x7F ∷ []) ≡ Ok (268435455, 4) }
{}

/// What comes first of two refusals: padded before too long, too long before truncated. Not in ABC 2.1.
pub fn refusals_of_numbers()
    ensures padded { read_result (0x80 ∷ 0x80 ∷ 0x80 ∷ 0x80 ∷ []) ≡ Err Padded }
    ensures too_long { read_result (0x81 ∷ 0x80 ∷ 0x80 ∷ 0x80 ∷ 0 ∷ []) ≡ Err TooLong }
    ensures truncated { read_result (0x81 ∷ 0x80 ∷ 0x80 ∷ []) ≡ Err Truncated }
{}

/// The bytes of tempos, meters and keys: 500,000, 300,000 and 1,000,000 microseconds to a quarter; 2/4 and 3/4; no
/// sharps, two sharps, and one flat and seven as bytes in two's complement. SMF 1.0.
pub fn changes()
    ensures tempo { encode_upper (change_bytes (Tempo 500000)) ≡ codes "FF510307A120" }
    ensures faster { encode_upper (change_bytes (Tempo 300000)) ≡ codes "FF51030493E0" }
    ensures slower { encode_upper (change_bytes (Tempo 1000000)) ≡ codes "FF51030F4240" }
    ensures two_quarters { encode_upper (change_bytes (Meter 2 4)) ≡ codes "FF580402021808" }
    ensures three_quarters { encode_upper (change_bytes (Meter 3 4)) ≡ codes "FF580403021808" }
    ensures no_sharps { encode_upper (change_bytes (Key (pos 0) false)) ≡ codes "FF59020000" }
    ensures two_sharps { encode_upper (change_bytes (Key (pos 2) false)) ≡ codes "FF59020200" }
    ensures one_flat { encode_upper (change_bytes (Key (negsuc 0) false)) ≡ codes "FF5902FF00" }
    ensures seven_flats { encode_upper (change_bytes (Key (negsuc 6) false)) ≡ codes "FF5902F900" }
{}

/// The denominators of meters: powers of two, from 1 to 64. SMF 1.0; the bound is not in ABC 2.1.
pub fn denominators()
    ensures accepted { list_all (is_power_up_to 6) (1 ∷ 2 ∷ 4 ∷ 8 ∷ 16 ∷ 32 ∷ 64 ∷ []) ≡ true }
    ensures refused { list_any (is_power_up_to 6) (0 ∷ 3 ∷ 6 ∷ 12 ∷ 63 ∷ 65 ∷ 128 ∷ []) ≡ false }
{}

/// Tempos of three bytes that are not 0, meters over powers of two up to 64, up to seven sharps or flats. SMF 1.0.
pub fn changes_that_a_file_can_hold()
    ensures tempo { IsWritable (Tempo 16777215) }
    ensures meter { IsWritable (Meter 0 64) }
    ensures key { IsWritable (Key (negsuc 6) true) }
    ensures no_tempo { ¬ (IsWritable (Tempo 0)) }
    ensures long_tempo { ¬ (IsWritable (Tempo 16777216)) }
    ensures other_meter { ¬ (IsWritable (Meter 3 6)) }
    ensures eight_sharps { ¬ (IsWritable (Key (pos 8) false)) }
{}

/// At one tick offs come before ons, and each by key; the end comes last. Not in ABC 2.1.
pub fn the_order_at_a_tick()
    ensures { in_order events_in_no_order
        ≡ note_on 0 64 80 0 ∷ note_off 0 60 240 ∷ note_off 0 64 240 ∷ note_on 0 60 80 240 ∷ note_on 0 62 80 240
        ∷ end_event 240 ∷ [] }
{}

/// At tick 0 the title comes before the tempo, and the tempo before the meter and the key, in whatever order they
/// come. Not in ABC 2.1.
pub fn the_order_of_an_opening()
    ensures { encode_upper (track_body 0 (conductor_events (codes "A") opening_changes))
        ≡ codes "00FF03014100FF510307A12000FF58040302180800FF5902000000FF2F00" }
{}

/// Two notes of 240 ticks, one after the other: the first ends before the second begins. SMF 1.0; the order is
/// not in ABC 2.1.
pub fn notes_in_turn()
    ensures { encode_upper (track_body 480 (voice_events 0 [] (sounding 60 0 240 ∷ sounding 62 240 480 ∷ [])))
        ≡ codes "00903C508170803C4000903E508170803E4000FF2F00" }
{}

/// A note whose on and off fall on one tick is not written, also if its moments differ. Not in ABC 2.1.
pub fn a_note_within_a_tick()
    ensures same_moment { note_events 0 (sounding 60 240 240) ≡ [] }
    ensures later_grain { note_events 0 (record {
      key = 60;
      on = record { 0 = 484323840 };
      off = record { 0 = 968647679 };
      velocity = 80;
    }) ≡ [] }
{}

/// The ninth voice has channel 8 and the tenth channel 10, since the tenth channel is for percussion. General MIDI.
pub fn channels()
    ensures first { channel_of 0 ≡ 0 }
    ensures ninth { channel_of 8 ≡ 8 }
    ensures tenth { channel_of 9 ≡ 10 }
    ensures fifteenth { channel_of 14 ≡ 15 }
    ensures ninth_on { (note_on (channel_of 8) 60 80 0).bytes ≡ 0x98 ∷ 0x3C ∷ 0x50 ∷ [] }
    ensures tenth_on { (note_on (channel_of 9) 60 80 0).bytes ≡ 0x9A ∷ 0x3C ∷ 0x50 ∷ [] }
{}

/// No title, no event. Not in ABC 2.1.
pub fn an_empty_title()
    ensures { title_events [] ≡ [] }
{}

/// The track of a tempo that changes at tick 240 of 480. SMF 1.0.
pub fn a_conductor_track()
    ensures { encode_upper (track 480 (conductor_events [] two_tempos))
        ≡ codes "4D54726B0000001A00FF510307A12000FF590200008170FF51030F42408170FF2F00" }
{}

/// The whole file of a tune with the title `A`, in C, of the one note C, an eighth. SMF 1.0.
pub fn the_first_file()
    ensures { encode_upper (file_bytes one_eighth) ≡ one_eighth_file }
{}

/// Seven notes in the time of four: each moment is rounded down by itself, so that they last 137 ticks, and the last one
/// 138. The bytes are those of a second compiler.
pub fn moments_rounded_down()
    ensures { encode_upper (track 960 (voice_events 0 [] seven_notes)) ≡ seven_notes_track }
{}

/// Changes in no order, several at one tick: the greater tempo of two comes later. The bytes are those of a second
/// compiler.
pub fn changes_at_one_tick()
    ensures { encode_upper (track 960 (conductor_events [] changes_in_no_order)) ≡ changes_track }
{}

/// Notes in no order, several at one tick, and two that begin and end within one tick. The bytes are those of a second
/// compiler.
pub fn notes_at_one_tick()
    ensures { encode_upper (track 960 (voice_events 0 [] notes_in_no_order))
        ≡ codes "4D54726B0000002E0090005000903C50009040508360803C400080404000903C500090435001803C40835F8000400080434000FF2F00" }
{}

/// The latest end, 131,072 whole notes, with a delta time of four bytes. The bytes are those of a second compiler.
pub fn the_latest_end()
    ensures { encode_upper (file_bytes the_longest) ≡ the_longest_file }
{}

/// The header of fifteen voices, the most, counts sixteen tracks; a voice without notes has a track of its end alone.
/// SMF 1.0.
pub fn fifteen_voices()
    ensures { encode_upper (file_bytes fifteen_silent_voices)
        ≡ codes "4D546864000000060001001001E0" ++ concat (replicate 16 (codes "4D54726B0000000400FF2F00")) }
{}
