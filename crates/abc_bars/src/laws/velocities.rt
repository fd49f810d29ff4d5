//! The law of the velocities of notes and chords at the places of a tune.

ghost use Rattle.abc_bars.specs.LookBack.Velocities.{ChordsHaveVelocities, NotesHaveVelocities};

/// Each note, and each chord with a note, gives one item, after those of the tokens before it in its cell. Its tones have the
/// velocity of the last dynamic before it in its voice, or 80 if there is none. Dynamics of other voices and inside chords do
/// not count (ABC 2.1 section 4.14).
pub fn velocities_at_places()
    ensures notes { NotesHaveVelocities }
    ensures chords { ChordsHaveVelocities }
{}
