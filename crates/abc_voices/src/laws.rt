//! Laws of the layout and the scores of tunes. Each function has no body: its contract is the law.

ghost use Rattle.abc_voices.specs.Chains.{HearsChains, HearsNoOthers};
ghost use Rattle.abc_voices.specs.Conductor.{IsConductedOnTicks};
ghost use Rattle.abc_voices.specs.Endings.{MovesByStrains};
ghost use Rattle.abc_voices.specs.Ends.{EndsOnce};
ghost use Rattle.abc_voices.specs.OnTicks.{HaveProgramsOnTicks};
ghost use Rattle.abc_voices.specs.Orders.{AreInLastOrder};
ghost use Rattle.abc_voices.specs.Ties.{PlaysChains, VoicesPlayChains};
ghost use Rattle.abc_voices.specs.TooLong.{EachShortTuneFits, IsTooLongByALimit};
ghost use Rattle.abc_voices.specs.Tracks.{HaveTracksByMention};
ghost use Rattle.abc_voices.specs.Uneven.{UnevenByLengths};
ghost use Rattle.abc_voices.specs.Voices.{AreOfVoices};

/// The voice that plays an item is that of the last V: of the body before it. If there is none, it is the first declared voice,
/// else the voice without a name (ABC 2.1 section 7).
#[tactic(auto, using(crate::proofs::Voices::are_of_voices))]
pub fn voices_by_looking_back()
    ensures { AreOfVoices }
{}

/// The tracks of a tune are those of the voices that it mentions, each once, in the order of their first mention in the header
/// or in the body. The voice without a name has a track before them if it has a note, chord or rest before the first V: of the
/// body (ABC 2.1 section 7.1).
#[tactic(auto, using(crate::proofs::Tracks::have_tracks))]
pub fn tracks_by_mention()
    ensures { HaveTracksByMention }
{}

/// The notes of a voice are the longest chains of tied tones. A tied tone is joined with one of its key in the next time token
/// that is played. Of a key, the first tied tone is joined with the first tone, and so on (ABC 2.1 section 4.11).
pub fn ties_in_play()
    ensures chains { HearsChains }
    ensures once { HearsNoOthers }
    ensures play { PlaysChains }
    ensures voices { VoicesPlayChains }
{}

/// A tempo, meter, key or program between a bar that ended an ending and the sign of the strain's next ending is played
/// with that ending. Nothing else is moved. Not in ABC 2.1.
#[tactic(auto, using(crate::proofs::Endings::moves_by_strains))]
pub fn fields_before_endings()
    ensures { MovesByStrains }
{}

/// On each tick a voice has the last program that it plays there, in order of play, and no other. If it plays none on the
/// first tick, it has the last one that the header sets. A repeat restores none. Not in ABC 2.1.
#[tactic(auto, using(crate::proofs::OnTicks::programs_on_ticks))]
pub fn programs_on_ticks()
    ensures { HaveProgramsOnTicks }
{}

/// On each tick the conductor's track has the tempo, the meter and the key that are set there last, and no others. If none
/// is set on the first tick, it has those with which the tune opens. All voices set the tempo, the first one with a track
/// the meter and the key. The last value counts: by section in order of play, then by voice, then by item. Not in ABC 2.1.
pub fn conductor_on_ticks()
    ensures { IsConductedOnTicks }
{}

/// The sections of a tune are played in the last order of its header, or all in the order of the text if it has none. As
/// many are counted, and a letter without a section counts in that order alone. Not in ABC 2.1.
pub fn sections_in_last_order()
    ensures { AreInLastOrder }
{}

/// The voices of a tune are uneven exactly if, in a section that is played, two of them differ in length and both play a
/// note, chord, rest or bar rest. Not in ABC 2.1.
#[tactic(auto, using(crate::proofs::Uneven::uneven_by_lengths))]
pub fn uneven_voices()
    ensures { UnevenByLengths }
{}

/// A tune ends when its sections, one after another, and all of its notes are over, and no sooner. Not in ABC 2.1.
pub fn ends_of_tunes()
    ensures { EndsOnce }
{}

/// A file can hold the score of each tune within the limits of places, of time, of voices with a track and of the title. So
/// a tune is too long for nothing else.
#[tactic(auto, using(crate::proofs::Fitting::Whole::fits_a_file))]
pub fn scores_fit()
    ensures { EachShortTuneFits }
{}

/// A tune is too long exactly if it passes a limit: of sections, of places, of time, of voices, or of a title.
#[tactic(auto, using(crate::proofs::TooLong::by_a_limit))]
pub fn too_long_by_a_limit()
    ensures { IsTooLongByALimit }
{}
