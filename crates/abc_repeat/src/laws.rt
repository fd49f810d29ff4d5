//! Laws of strains and plays. Each function has no body: its contract is the law.

ghost use Rattle.abc_repeat.specs.PlayLaws.{HasNoOtherPlay, IsByTheRules};
ghost use Rattle.abc_repeat.specs.Runs.{AreJoined, PassesSingleBars};
ghost use Rattle.abc_repeat.specs.Strain.{HasOneReading, HasStrains};

/// The marks of a voice in a section are a list of strains in exactly one way (ABC 2.1 section 4.9).
pub fn one_reading()
    ensures exists { HasStrains }
    ensures once { HasOneReading }
{}

/// The number of passes of a strain is the greatest that its marks ask for. A pass plays the common part and then the
/// first ending with its number. The rules assign marks to strains and endings (ABC 2.1 sections 4.8 to 4.10; the rest
/// is not in ABC 2.1).
pub fn plays_by_the_rules()
    ensures exists { IsByTheRules }
    ensures once { HasNoOtherPlay }
{}

/// The items between two marks are always played as a whole. A bar line that neither repeats nor is double changes
/// nothing.
pub fn runs_are_whole<A>()
    ensures joined { AreJoined A }
    ensures single { PassesSingleBars A }
{}
