//! Laws of what the cells of a tune give to the score.

ghost use Rattle.abc_bars_body.specs.Mentioned.{MentionsFew, NamesVoices};
ghost use Rattle.abc_bars.specs.LookBack.Flags.{BodiesSaySo, HeadersSaySo};
ghost use Rattle.abc_bars.specs.Titles.{SaysTitlesOfHeader};

/// The items of a tune mention at most fifteen voices. The voice without a name is one of them if a note, chord or rest comes
/// before the first V:. Each V: item has a name (ABC 2.1 section 7.1).
#[tactic(auto, using(abc_bars_body::proofs::Mentions::mentions_few, abc_bars_body::proofs::Mentions::names_voices))]
pub fn voices_of_items()
    ensures few { MentionsFew }
    ensures names { NamesVoices }
{}

/// The titles of a tune are the values of the T: lines of its header, in order. Music ends a header without a K: (ABC 2.1
/// section 3.1.2).
#[tactic(auto, using(crate::proofs::Titles::says_titles_of_header))]
pub fn titles_of_items()
    ensures { SaysTitlesOfHeader }
{}

/// A tempo, meter, key, voice or program has `opening` exactly if a line of a header gives it. So a V: that declares a voice
/// differs from one that makes it the current one (ABC 2.1 section 2.2.2).
pub fn openings_of_items()
    ensures body { BodiesSaySo }
    ensures header { HeadersSaySo }
{}
