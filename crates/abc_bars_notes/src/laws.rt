//! Laws of the music of every voice. Each function has no body: its contract is the law.

ghost use Rattle.abc_bars_notes.specs.Acting.{ActsAsRead, GivesFactorsAsRead};
ghost use Rattle.abc_bars_notes.specs.ChordFaults.{BadLengthsAtNotes};
ghost use Rattle.abc_bars_notes.specs.ChordKeys.{ChordsSoundTheirKeys, NotesAreAsLoud, ChordsAreAsLoud};
ghost use Rattle.abc_bars_notes.specs.ChordNotes.{ChordsSound, BigAtTheSeventeenth};
ghost use Rattle.abc_bars_notes.specs.Lasting.{NotesLast, RestsLast, BarRestsLast, FreeBarRests};
ghost use Rattle.abc_bars_notes.specs.LooseTies.{TiesAfterNotes};
ghost use Rattle.abc_bars_notes.specs.NoteKeys.{NotesSoundTheirKeys};

/// A note or a rest lasts exactly the unit times its written factor, the factor of its tuplet and those of the marks of broken
/// rhythm that act on it. If that is no length it lasts one unit, and that is a fault (ABC 2.1 sections 4.3, 4.4 and 4.13).
pub fn lengths_of_notes()
    ensures notes { NotesLast }
    ensures rests { RestsLast }
{}

/// A rest of `n` bars lasts `n` bars; in free meter, and if that is no length, it is a fault (ABC 2.1 section 4.5).
pub fn lengths_of_bar_rests()
    ensures bars { BarRestsLast }
    ensures free { FreeBarRests }
{}

/// The first sixteen notes of a chord sound, each for its own length. The chord lasts as long as its first note. `BigChord` is
/// at its seventeenth note, and nowhere else (ABC 2.1 section 4.17).
pub fn notes_of_chords()
    ensures sound { ChordsSound }
    ensures big { BigAtTheSeventeenth }
{}

/// A tie inside a chord is loose exactly if no note is directly before it (ABC 2.1 section 4.11).
pub fn loose_ties_of_chords()
    ensures { TiesAfterNotes }
{}

/// A note sounds the key of its pitch. It is altered by the first of these that there is (ABC 2.1 sections 4.1 and 4.2):
///
/// - its own accidental;
/// - the last one that reaches it, those of the notes before it in its chord among them;
/// - that of the last tied note of its letter and octave before it;
/// - the signature.
pub fn keys_of_notes()
    ensures alone { NotesSoundTheirKeys }
    ensures chords { ChordsSoundTheirKeys }
{}

/// The notes of a voice, alone and in chords, are as loud as its last dynamic says (ABC 2.1 section 4.14).
pub fn velocities_of_notes()
    ensures alone { NotesAreAsLoud }
    ensures chords { ChordsAreAsLoud }
{}

/// `BadLength` is once at each of the first sixteen notes of a chord that has no length, and nowhere else.
pub fn bad_lengths_of_chords()
    ensures { BadLengthsAtNotes }
{}

/// Reading token by token finds the marks of broken rhythm that act. A mark is bad exactly if it acts on nothing. A note, chord
/// or rest has exactly the factors of the marks that act on it (ABC 2.1 section 4.4).
pub fn acting_marks()
    ensures marks { ActsAsRead }
    ensures factors { GivesFactorsAsRead }
{}
