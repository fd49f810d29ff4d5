//! Worked examples by the definitions of `abc_voices`: sections, plays, notes and changes of tunes. A body here does
//! nothing; its contract is the example. Notes last one grain.
#![tactic(auto, unfolding(crate::specs::Opened::plays))]

ghost use Rattle.std.specs.Prelude.{◌≡◌, true, false, [], ◌∷◌, Some, None};
ghost use Rattle.std.specs.List.{list_any};
ghost use Rattle.abc_bars_items.specs.declared.item.Item.TheVariants as items;
ghost use Rattle.abc_repeat.specs.Strain.{strains_of};
ghost use Rattle.abc_voices.specs.Layout.{changes_of, end_of, is_uneven, places_played, played_sections, programs_of, set_in};
ghost use Rattle.abc_voices.specs.Layout.{voices_notes};
ghost use Rattle.abc_voices.specs.Change.{program_of, tempo_of};
ghost use Rattle.abc_voices.specs.Endings.{between_endings_in, without_fields};
ghost use Rattle.abc_voices_sections.specs.EndingFields.{with_fields_in_endings};
ghost use Rattle.abc_voices_sections.specs.Play.{marks_of, played_items};
ghost use Rattle.abc_voices_sections.specs.Section.{part, sections};
ghost use Rattle.abc_voices.specs.Ties.{heard_notes, tokens_from};
ghost use Rattle.abc_voices.specs.Track.{tracks};
ghost use Rattle.tests_files.specs.Tunes.{tone, chord, note, tied, rest, bar_rest, single, opening, closing, between, double};
ghost use Rattle.tests_files.specs.Tunes.{first, second, part_a, part_b, voice_1, voice_2, declared_1, opening_tempo, tempo};
ghost use Rattle.tests_files.specs.Tunes.{opening_meter, refused_meter, opening_key, properties, sounding, tempo_change};
ghost use Rattle.tests_files.specs.Tunes.{key_change, note_with, tied_with, held, opening_program, program, refused_opening};
ghost use Rattle.tests_files.specs.Tunes.{refused, sounding_with, program_change, ordered_parts, tempo_between_endings};
ghost use Rattle.tests_files.specs.Tunes.{tempo_in_a_strain, twice_closing, twice_opening};

/// A section begins at each part, and goes on in the voice that is the current one there. ABC 2.1 sections 3.1.9 and 7.
pub fn sections_of_a_tune()
    ensures none { sections (note 60 ∷ []) ≡ ([], note 60 ∷ []) ∷ [] }
    ensures voices { sections (note 60 ∷ part_a ∷ voice_2 ∷ note 62 ∷ part_b ∷ note 64 ∷ [])
        ≡ ([], note 60 ∷ []) ∷ ([], voice_2 ∷ note 62 ∷ []) ∷ (50 ∷ [], note 64 ∷ []) ∷ [] }
    ensures declared { sections (declared_1 ∷ note 60 ∷ []) ≡ (49 ∷ [], declared_1 ∷ note 60 ∷ []) ∷ [] }
    ensures ordered { played_sections ordered_parts
        ≡ ([], items.Order (66 ∷ 65 ∷ 66 ∷ []) ∷ []) ∷ ([], note 62 ∷ []) ∷ ([], note 60 ∷ []) ∷ ([], note 62 ∷ []) ∷ [] }
{}

/// A voice has the items of a section at which it is the current voice. ABC 2.1 section 7.
pub fn parts_of_voices()
    ensures other { part (50 ∷ []) (49 ∷ [], note 60 ∷ voice_2 ∷ note 62 ∷ voice_1 ∷ note 64 ∷ []) ≡ note 62 ∷ [] }
    ensures own { part (49 ∷ []) (49 ∷ [], note 60 ∷ voice_2 ∷ note 62 ∷ voice_1 ∷ note 64 ∷ []) ≡ note 60 ∷ note 64 ∷ [] }
    ensures no_track { tracks (voice_1 ∷ note 60 ∷ voice_2 ∷ note 62 ∷ []) ≡ (49 ∷ []) ∷ (50 ∷ []) ∷ [] }
    ensures nameless { tracks (note 60 ∷ voice_1 ∷ note 62 ∷ []) ≡ [] ∷ (49 ∷ []) ∷ [] }
{}

/// What is played of a voice's items. ABC 2.1 sections 4.8 and 4.9.
pub fn plays()
    ensures straight { played_items (note 60 ∷ single ∷ note 62 ∷ []) ≡ note 60 ∷ note 62 ∷ [] }
    ensures repeated { played_items (opening ∷ note 60 ∷ closing ∷ note 62 ∷ []) ≡ note 60 ∷ note 60 ∷ note 62 ∷ [] }
    ensures twice_repeated { played_items (twice_opening ∷ note 60 ∷ twice_closing ∷ note 62 ∷ [])
        ≡ note 60 ∷ note 60 ∷ note 60 ∷ note 62 ∷ [] }
    ensures endings { played_items (opening ∷ note 60 ∷ single ∷ first ∷ note 62 ∷ closing ∷ second ∷ note 64 ∷ double ∷ [])
        ≡ note 60 ∷ note 62 ∷ note 60 ∷ note 64 ∷ [] }
{}

/// A field between the endings is played with the one after it: `|:A|1B:|[Q:]|2^F||`. Not in ABC 2.1.
pub fn fields_before_an_ending()
    ensures played { played_items tempo_between_endings
        ≡ note 69 ∷ note 71 ∷ note 69 ∷ tempo 1000000 ∷ note 66 ∷ [] }
    ensures waiting { between_endings_in (strains_of (marks_of (without_fields tempo_between_endings)))
        ≡ false ∷ false ∷ false ∷ false ∷ false ∷ true ∷ true ∷ false ∷ false ∷ false ∷ [] }
{}

/// No field is moved after a bar that opens a strain of its own, `|:A|1B::[Q:]|2^F||`, nor after the common part's own
/// bar, `A:|[Q:]|1B||`. Not in ABC 2.1.
pub fn fields_that_stay()
    ensures opened { with_fields_in_endings tempo_in_a_strain ≡ tempo_in_a_strain }
    ensures common { with_fields_in_endings (note 69 ∷ closing ∷ tempo 1000000 ∷ single ∷ first ∷ note 71 ∷ double ∷ [])
        ≡ note 69 ∷ closing ∷ tempo 1000000 ∷ single ∷ first ∷ note 71 ∷ double ∷ [] }
{}

/// Ties go on in play: over a repeat, `|:C-|1C:|2C-||C`, and over sections, while another voice plays on, `P:A`, `V:1`
/// with `C-`, `V:2` with `EE`, `P:B`, `V:1` with `C`. ABC 2.1 section 4.11; that they do is not in ABC 2.1.
pub fn ties_over_repeats_and_sections()
    ensures repeated { voices_notes
        (opening ∷ tied 60 ∷ single ∷ first ∷ note 60 ∷ closing ∷ second ∷ tied 60 ∷ double ∷ note 60 ∷ [])
        ≡ (sounding 60 2 5 ∷ sounding 60 0 2 ∷ []) ∷ [] }
    ensures sections { voices_notes (part_a ∷ voice_1 ∷ tied 60 ∷ voice_2 ∷ note 64 ∷ note 64 ∷ part_b ∷ voice_1 ∷ note 60 ∷ [])
        ≡ (sounding 60 0 3 ∷ []) ∷ (sounding 64 1 2 ∷ sounding 64 0 1 ∷ []) ∷ [] }
{}

/// A rest ends a tie, a rest of bars does not; a tied tone is joined with one of its key alone; and of two tied tones of
/// a key each is joined with its own. Not in ABC 2.1.
pub fn ties_of_tones()
    ensures rest { heard_notes (tokens_from 0 (tied 60 ∷ rest ∷ note 60 ∷ []) []) ≡ sounding 60 2 3 ∷ sounding 60 0 1 ∷ [] }
    ensures bar_rest { heard_notes (tokens_from 0 (tied 60 ∷ bar_rest ∷ note 60 ∷ []) []) ≡ sounding 60 0 3 ∷ [] }
    ensures other_key { heard_notes (tokens_from 0 (tied 60 ∷ note 62 ∷ []) []) ≡ sounding 62 1 2 ∷ sounding 60 0 1 ∷ [] }
    ensures not_tied { heard_notes (tokens_from 0 (note 60 ∷ note 60 ∷ []) []) ≡ sounding 60 1 2 ∷ sounding 60 0 1 ∷ [] }
    ensures in_turn { heard_notes (tokens_from 0 (chord (tone (Some 60) 1 true ∷ tone (Some 60) 2 true ∷ [])
        ∷ chord (tone (Some 60) 1 false ∷ tone (Some 60) 4 false ∷ []) ∷ []) [])
        ≡ sounding 60 0 2 ∷ sounding 60 0 5 ∷ [] }
{}

/// Rests and rests of bars take their time in the play, fields and directives of the body their turn, also if they set
/// nothing, and those of the header neither. Not in ABC 2.1.
pub fn what_is_played()
    ensures moments { voices_notes (opening_key ∷ note 60 ∷ rest ∷ bar_rest ∷ note 62 ∷ [])
        ≡ (sounding 62 3 4 ∷ sounding 60 0 1 ∷ []) ∷ [] }
    ensures places { places_played (opening_tempo 400000 ∷ opening_meter ∷ opening_program 5 ∷ opening_key
        ∷ rest ∷ bar_rest ∷ refused_meter ∷ properties ∷ tempo 300000 ∷ program 41 ∷ note 60 ∷ []) ≡ 7 }
    ensures end { end_of (opening_tempo 400000 ∷ opening_key ∷ rest ∷ bar_rest ∷ refused_meter ∷ properties ∷ note 60 ∷ []) ≡ 3 }
{}

/// A tune ends with its sections, of which a rest is a part. A tone that lasts longer than its chord ends the tune, but a
/// silent one does not. Not in ABC 2.1.
pub fn the_end_of_a_tune()
    ensures rest { end_of (note 60 ∷ rest ∷ []) ≡ 2 }
    ensures heard { end_of (chord (tone (Some 60) 1 false ∷ tone (Some 62) 5 false ∷ []) ∷ []) ≡ 5 }
    ensures silent { end_of (chord (tone (Some 60) 1 false ∷ tone None 5 false ∷ []) ∷ []) ≡ 1 }
{}

/// Voices are uneven if they differ in length in a section in which both have notes or rests, bar rests included. Not in ABC
/// 2.1.
pub fn uneven_voices()
    ensures uneven { list_any (is_uneven ([] ∷ (49 ∷ []) ∷ (50 ∷ []) ∷ []))
        (played_sections (voice_1 ∷ note 60 ∷ voice_2 ∷ note 64 ∷ note 64 ∷ [])) ≡ true }
    ensures even { list_any (is_uneven ([] ∷ (49 ∷ []) ∷ (50 ∷ []) ∷ []))
        (played_sections (voice_1 ∷ note 60 ∷ voice_2 ∷ note 64 ∷ [])) ≡ false }
    ensures alone { list_any (is_uneven ([] ∷ (49 ∷ []) ∷ (50 ∷ []) ∷ []))
        (played_sections (voice_1 ∷ note 60 ∷ voice_2 ∷ [])) ≡ false }
    ensures bar_rest { list_any (is_uneven ([] ∷ (49 ∷ []) ∷ (50 ∷ []) ∷ []))
        (played_sections (voice_1 ∷ note 60 ∷ note 62 ∷ voice_2 ∷ bar_rest ∷ [])) ≡ true }
    ensures even_bar_rest { list_any (is_uneven ([] ∷ (49 ∷ []) ∷ (50 ∷ []) ∷ []))
        (played_sections (voice_1 ∷ note 60 ∷ voice_2 ∷ bar_rest ∷ [])) ≡ false }
{}

/// The last tempo at a tick in order of play counts, here that of the second voice. A field between two endings is played
/// with the second. Not in ABC 2.1.
pub fn tempos_at_a_tick()
    ensures last { changes_of (voice_1 ∷ tempo 400000 ∷ note 60 ∷ voice_2 ∷ tempo 300000 ∷ note 60 ∷ [])
        ≡ tempo_change 0 300000 ∷ key_change 0 ∷ [] }
    ensures following { set_in tempo_of ([] ∷ []) ([] ∷ []) 0
        (([], tempo_between_endings) ∷ [])
        ≡ (record { 0 = 3 }, 1000000) ∷ [] }
{}

/// A note is as loud as its first tone, `!f!C-!pp!C` and over a repeat `|:!pp!C!f!C-:|`; notes that are not joined are each
/// as loud as their own, `!f!C!pp!C`. Not in ABC 2.1.
pub fn velocities_of_notes()
    ensures joined { heard_notes (tokens_from 0 (tied_with 105 60 ∷ note_with 45 60 ∷ []) []) ≡ sounding_with 105 60 0 2 ∷ [] }
    ensures repeated { voices_notes (opening ∷ note_with 45 60 ∷ tied_with 105 60 ∷ closing ∷ [])
        ≡ (sounding_with 105 60 3 4 ∷ sounding_with 105 60 1 3 ∷ sounding_with 45 60 0 1 ∷ []) ∷ [] }
    ensures apart { heard_notes (tokens_from 0 (note_with 105 60 ∷ note_with 45 60 ∷ []) [])
        ≡ sounding_with 45 60 1 2 ∷ sounding_with 105 60 0 1 ∷ [] }
{}

/// A voice has the last program of its header, or the last one that it plays on the first tick instead; one that is
/// refused sets none. Not in ABC 2.1.
pub fn programs_at_the_beginning()
    ensures none { programs_of (note 60 ∷ []) ≡ [] ∷ [] }
    ensures played { programs_of (program 41 ∷ note 60 ∷ []) ≡ (program_change 0 41 ∷ []) ∷ [] }
    ensures opening { programs_of (opening_program 5 ∷ opening_program 7 ∷ refused_opening ∷ note 60 ∷ [])
        ≡ (program_change 0 7 ∷ []) ∷ [] }
    ensures replaced { programs_of (opening_program 5 ∷ program 3 ∷ program 41 ∷ note 60 ∷ []) ≡ (program_change 0 41 ∷ []) ∷ [] }
    ensures on_the_tick { programs_of (opening_program 5 ∷ note 60 ∷ program 41 ∷ note 62 ∷ []) ≡ (program_change 1 41 ∷ []) ∷ [] }
    ensures refused { programs_of (opening_program 5 ∷ refused ∷ note 60 ∷ []) ≡ (program_change 0 5 ∷ []) ∷ [] }
{}

/// Each voice has the programs that it plays, and none is restored at a repeat: `|:C`, program 41, `D:|E` after program 5.
/// Not in ABC 2.1.
pub fn programs_in_play()
    ensures own { programs_of (opening_program 5 ∷ voice_1 ∷ note 60 ∷ voice_2 ∷ program 6 ∷ note 62 ∷ [])
        ≡ (program_change 0 5 ∷ []) ∷ (program_change 0 6 ∷ []) ∷ [] }
    ensures repeated { programs_of (opening_program 5 ∷ opening ∷ held 60 ∷ program 41 ∷ held 62 ∷ closing ∷ held 64 ∷ [])
        ≡ (program_change 1452971520 41 ∷ program_change 484323840 41 ∷ program_change 0 5 ∷ []) ∷ [] }
    ensures following { set_in program_of ([] ∷ []) ([] ∷ []) 0
        (([], opening ∷ note 69 ∷ single ∷ first ∷ note 71 ∷ closing ∷ program 41 ∷ single ∷ second ∷ note 66 ∷ double ∷ []) ∷ [])
        ≡ (record { 0 = 3 }, 41) ∷ [] }
{}

/// A program takes its turn in the play, also one that is refused, but no time: ties go on over it, and a voice that plays
/// nothing else is not uneven. Not in ABC 2.1.
pub fn programs_take_no_time()
    ensures places { places_played (note 60 ∷ refused ∷ program 41 ∷ []) ≡ 3 }
    ensures tied { heard_notes (tokens_from 0 (tied 60 ∷ program 41 ∷ note 60 ∷ []) []) ≡ sounding 60 0 2 ∷ [] }
    ensures even { list_any (is_uneven ([] ∷ (49 ∷ []) ∷ (50 ∷ []) ∷ []))
        (played_sections (voice_1 ∷ note 60 ∷ voice_2 ∷ program 41 ∷ [])) ≡ false }
{}
