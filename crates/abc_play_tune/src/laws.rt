//! Laws of the play of a tune. Each function has no body: its contract is the law.

ghost use Rattle.abc_play_tune.specs.Laws.{BeginsNotes, GroupsEntries, PlaysSections, PlaysRestsAndBars, PlaysTokens, PlaysTones, PlaysScore, SoundsScore};

/// Without places and bar lines that are passed, the sections that are played are those of the tune's score.
pub fn sections_of_plays()
    ensures { PlaysSections }
{}

/// The time tokens of each voice are those of the score, at the same moments. The notes of a track in the score are the chains
/// of tied tones that these make.
pub fn plays_are_scores()
    ensures tokens { PlaysTokens }
    ensures score { PlaysScore }
{}

/// The entries that are tones with a key and not joined begin the notes of the score: the same moments, keys and velocities. A
/// score has the notes of later time tokens first; the entries are the same in both orders, step by step.
pub fn entries_begin_notes()
    ensures notes { BeginsNotes }
    ensures order { GroupsEntries }
{}

/// The entries that are tones are all tones of the time tokens of `plays_are_scores`, in order, each with its own end. They are tied
/// if a tie follows the tone and it has a key. A note of the score ends with the last tone of its chain.
pub fn entries_are_tones()
    ensures { PlaysTones }
{}

/// The sounds of the entries of each track are the notes of the track in the score: beginnings, keys, velocities, and the ends of the
/// last joined tones. It holds in grains and in any other moments, as ticks.
pub fn entries_are_sounds()
    ensures { SoundsScore }
{}

/// The entries of each track that are rests and bar lines are those that are passed, in order: a rest begins at its moment and lasts its
/// own length, a bar line ends where it begins.
pub fn entries_are_rests_and_bars()
    ensures { PlaysRestsAndBars }
{}
