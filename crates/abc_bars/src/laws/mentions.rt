//! The law of the order in which the voices of a body are mentioned.

ghost use Rattle.abc_bars.specs.LookBack.Mentions.{TokensMention};

/// Each token of a body mentions at most one voice, after those that are mentioned before it. An accepted V: mentions the voice
/// that it names, if there is room. A note, chord, rest or rest of bars mentions the voice without a name, if no voice is
/// mentioned before it. So that voice comes first, or is not mentioned (ABC 2.1 section 7.1).
pub fn voices_by_mention()
    ensures { TokensMention }
{}
