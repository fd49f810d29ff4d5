//! Worked examples of the tracks of voices by the definitions of `smf_bytes`: velocities and programs. A body here does
//! nothing; its contract is the example.
#![tactic(auto, unfolding(crate::specs::Opened::files))]

ghost use Rattle.std.specs.Prelude.{◌≡◌, [], ◌∷◌, codes};
ghost use Rattle.hex.specs.Hex.{encode_upper};
ghost use Rattle.smf_bytes.specs.Event.{end_event, note_off, note_on, program_change};
ghost use Rattle.smf_bytes.specs.File.{file_bytes};
ghost use Rattle.smf_bytes.specs.Order.{in_order};
ghost use Rattle.smf_bytes.specs.Track.{channel_of, track, track_body, voice_events};
ghost use Rattle.tests_files.specs.Scores.{two_loud_notes, two_voices, two_voices_file};
ghost use Rattle.tests_files.specs.Values.{program_at, sounding};

/// The track of a voice with the program 41, and of a note C of 240 ticks. SMF 1.0.
pub fn a_program()
    ensures { encode_upper (track 240 (voice_events 0 (program_at 0 41 ∷ []) (sounding 60 0 240 ∷ [])))
        ≡ codes "4D54726B0000001000C02900903C508170803C4000FF2F00" }
{}

/// A note without a dynamic before it, and two after a forte. SMF 1.0; the velocities are not in ABC 2.1.
pub fn velocities()
    ensures { encode_upper (track_body 720 (voice_events 0 [] two_loud_notes))
        ≡ codes "00903C508170803C4000903E698170803E4000904069817080404000FF2F00" }
{}

/// The softest and the loudest note, and the last of the programs. MIDI 1.0.
pub fn bounds()
    ensures softest { (note_on 0 60 1 0).bytes ≡ 0x90 ∷ 0x3C ∷ 1 ∷ [] }
    ensures loudest { (note_on 0 60 127 0).bytes ≡ 0x90 ∷ 0x3C ∷ 0x7F ∷ [] }
    ensures last_program { (program_change 0 127 0).bytes ≡ 0xC0 ∷ 0x7F ∷ [] }
{}

/// At one tick a program comes after the note that ends and before the one that begins, whatever their keys. Not in ABC 2.1.
pub fn a_program_between_notes()
    ensures events { in_order (note_on 0 0 1 240 ∷ program_change 0 41 240 ∷ end_event 240 ∷ note_off 0 127 240 ∷ [])
        ≡ note_off 0 127 240 ∷ program_change 0 41 240 ∷ note_on 0 0 1 240 ∷ end_event 240 ∷ [] }
    ensures bytes { encode_upper (track_body 480 (voice_events 0 (program_at 240 41 ∷ [])
        (sounding 60 240 480 ∷ sounding 62 0 240 ∷ [])))
        ≡ codes "00903E508170803E4000C02900903C508170803C4000FF2F00" }
{}

/// Programs in no order, and one at the end of the track. SMF 1.0.
pub fn programs_in_no_order()
    ensures { encode_upper (track_body 240 (voice_events 0
        (program_at 240 7 ∷ program_at 120 6 ∷ program_at 0 5 ∷ []) (sounding 60 0 240 ∷ [])))
        ≡ codes "00C00500903C5078C00678803C4000C00700FF2F00" }
{}

/// Two notes of one key that begin at one tick: the softer one comes first. Not in ABC 2.1.
pub fn the_softer_note_first()
    ensures { in_order (note_on 0 60 80 0 ∷ note_on 0 60 30 0 ∷ []) ≡ note_on 0 60 30 0 ∷ note_on 0 60 80 0 ∷ [] }
{}

/// A program is sent on the channel of its voice, without the tenth. General MIDI.
pub fn channels_of_programs()
    ensures first { (program_change (channel_of 0) 41 0).bytes ≡ 0xC0 ∷ 0x29 ∷ [] }
    ensures tenth { (program_change (channel_of 9) 41 0).bytes ≡ 0xCA ∷ 0x29 ∷ [] }
    ensures fifteenth { (program_change (channel_of 14) 41 0).bytes ≡ 0xCF ∷ 0x29 ∷ [] }
{}

/// The file of two voices, of which the second alone has a program, on its own channel. SMF 1.0.
pub fn the_second_voice_alone_has_a_program()
    ensures { encode_upper (file_bytes two_voices) ≡ two_voices_file }
{}
