//! Chord names.

ghost use Rattle.std.specs.Prelude.{◌≡◌, ◌≤◌, All, length};
ghost use Rattle.abc_marks.specs.ChordName.{half_tones};

/// The kind of a chord, by the notes above its root. ABC 2.1 section 4.18 names some of them, and abc2midi the others.
#[derive(Clone, Copy, PartialEq, Eq)]
pub enum ChordKind {
    Major,
    Minor,
    Seventh,
    MinorSeventh,
    MajorSeventh,
    MinorMajorSeventh,
    Sixth,
    MinorSixth,
    Augmented,
    AugmentedSeventh,
    Diminished,
    DiminishedSeventh,
    HalfDiminished,
    Ninth,
    MinorNinth,
    MajorNinth,
    Eleventh,
    SuspendedFourth,
    SuspendedSecond,
    SeventhSuspendedFourth,
    SeventhSuspendedSecond,
    Fifth,
    AddedNinth,
    AddedSecond,
    MinorAddedNinth,
    SixthNinth,
    SeventhFlatNinth,
    SeventhSharpNinth,
    SeventhFlatFifth,
    MinorEleventh,
    Thirteenth,
}

impl ChordKind {
    /// Returns the notes of the chord in rising order, two to six, each in half tones above the root. The first is the root.
    pub fn half_tones(self) -> &'static [u8]
        ensures value { result.now ≡ half_tones self }
        ensures some { 2 ≤ length result.now }
        ensures few { length result.now ≤ 6 }
        ensures high { All (λ n. n ≤ 21) result.now }
    {
        match self {
            ChordKind::Major => &[0, 4, 7],
            ChordKind::Minor => &[0, 3, 7],
            ChordKind::Seventh => &[0, 4, 7, 10],
            ChordKind::MinorSeventh => &[0, 3, 7, 10],
            ChordKind::MajorSeventh => &[0, 4, 7, 11],
            ChordKind::MinorMajorSeventh => &[0, 3, 7, 11],
            ChordKind::Sixth => &[0, 4, 7, 9],
            ChordKind::MinorSixth => &[0, 3, 7, 9],
            ChordKind::Augmented => &[0, 4, 8],
            ChordKind::AugmentedSeventh => &[0, 4, 8, 10],
            ChordKind::Diminished => &[0, 3, 6],
            ChordKind::DiminishedSeventh => &[0, 3, 6, 9],
            ChordKind::HalfDiminished => &[0, 3, 6, 10],
            ChordKind::Ninth => &[0, 4, 7, 10, 14],
            ChordKind::MinorNinth => &[0, 3, 7, 10, 14],
            ChordKind::MajorNinth => &[0, 4, 7, 11, 14],
            ChordKind::Eleventh => &[0, 4, 7, 10, 14, 17],
            ChordKind::SuspendedFourth => &[0, 5, 7],
            ChordKind::SuspendedSecond => &[0, 2, 7],
            ChordKind::SeventhSuspendedFourth => &[0, 5, 7, 10],
            ChordKind::SeventhSuspendedSecond => &[0, 2, 7, 10],
            ChordKind::Fifth => &[0, 7],
            ChordKind::AddedNinth => &[0, 4, 7, 14],
            ChordKind::AddedSecond => &[0, 2, 4, 7],
            ChordKind::MinorAddedNinth => &[0, 3, 7, 14],
            ChordKind::SixthNinth => &[0, 4, 7, 9, 14],
            ChordKind::SeventhFlatNinth => &[0, 4, 7, 10, 13],
            ChordKind::SeventhSharpNinth => &[0, 4, 7, 10, 15],
            ChordKind::SeventhFlatFifth => &[0, 4, 6, 10],
            ChordKind::MinorEleventh => &[0, 3, 7, 10, 14, 17],
            ChordKind::Thirteenth => &[0, 4, 7, 10, 14, 21],
        }
    }
}

/// A chord name (ABC 2.1 section 4.18): its root and its bass are half tones above C, from 0 to 11.
#[derive(Clone, Copy, PartialEq, Eq)]
pub struct ChordName {
    pub root: u8,
    pub kind: ChordKind,
    /// The root, unless the name has another bass.
    pub bass: u8,
}
