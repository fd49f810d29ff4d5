//! The names of the kinds of chords.

ghost use Rattle.std.specs.Prelude.{◌≡◌};
ghost use Rattle.abc_marks_readers.specs.ChordKind.{kind_named, triad_named, seventh_named, rare_seventh_named, sixth_named, extended_named, suspended_named, added_named};

use abc_marks::ChordKind;

/// The names of triads.
#[tactic(auto, unfolding(crate::specs::ChordKind::triad_named))]
fn triad_named(text: &[u8]) -> Option<ChordKind>
    ensures { result ≡ triad_named text.now }
{
    match text {
        b"" | b"maj" => Some(ChordKind::Major),
        b"m" | b"min" | b"-" => Some(ChordKind::Minor),
        b"aug" | b"+" => Some(ChordKind::Augmented),
        b"dim" | b"o" => Some(ChordKind::Diminished),
        _ => None,
    }
}

/// The names of usual sevenths.
#[tactic(auto, unfolding(crate::specs::ChordKind::seventh_named))]
fn seventh_named(text: &[u8]) -> Option<ChordKind>
    ensures { result ≡ seventh_named text.now }
{
    match text {
        b"7" => Some(ChordKind::Seventh),
        b"m7" | b"min7" | b"-7" => Some(ChordKind::MinorSeventh),
        b"maj7" | b"Maj7" | b"M7" => Some(ChordKind::MajorSeventh),
        _ => None,
    }
}

/// The names of other sevenths.
#[tactic(auto, unfolding(crate::specs::ChordKind::rare_seventh_named))]
fn rare_seventh_named(text: &[u8]) -> Option<ChordKind>
    ensures { result ≡ rare_seventh_named text.now }
{
    match text {
        b"mM7" | b"mmaj7" => Some(ChordKind::MinorMajorSeventh),
        b"aug7" | b"7#5" => Some(ChordKind::AugmentedSeventh),
        b"dim7" | b"o7" => Some(ChordKind::DiminishedSeventh),
        b"m7b5" => Some(ChordKind::HalfDiminished),
        _ => None,
    }
}

/// The names of sixths and of altered sevenths.
#[tactic(auto, unfolding(crate::specs::ChordKind::sixth_named))]
fn sixth_named(text: &[u8]) -> Option<ChordKind>
    ensures { result ≡ sixth_named text.now }
{
    match text {
        b"6" => Some(ChordKind::Sixth),
        b"m6" => Some(ChordKind::MinorSixth),
        b"69" | b"6/9" => Some(ChordKind::SixthNinth),
        b"7b9" => Some(ChordKind::SeventhFlatNinth),
        b"7#9" => Some(ChordKind::SeventhSharpNinth),
        b"7b5" => Some(ChordKind::SeventhFlatFifth),
        _ => None,
    }
}

/// The names of chords from the ninth on.
#[tactic(auto, unfolding(crate::specs::ChordKind::extended_named))]
fn extended_named(text: &[u8]) -> Option<ChordKind>
    ensures { result ≡ extended_named text.now }
{
    match text {
        b"9" => Some(ChordKind::Ninth),
        b"m9" => Some(ChordKind::MinorNinth),
        b"maj9" | b"M9" => Some(ChordKind::MajorNinth),
        b"11" => Some(ChordKind::Eleventh),
        b"m11" => Some(ChordKind::MinorEleventh),
        b"13" => Some(ChordKind::Thirteenth),
        _ => None,
    }
}

/// The names of suspended chords.
#[tactic(auto, unfolding(crate::specs::ChordKind::suspended_named))]
fn suspended_named(text: &[u8]) -> Option<ChordKind>
    ensures { result ≡ suspended_named text.now }
{
    match text {
        b"sus" | b"sus4" => Some(ChordKind::SuspendedFourth),
        b"sus2" | b"sus9" => Some(ChordKind::SuspendedSecond),
        b"7sus4" | b"7sus" => Some(ChordKind::SeventhSuspendedFourth),
        b"7sus2" | b"7sus9" => Some(ChordKind::SeventhSuspendedSecond),
        _ => None,
    }
}

/// The names of chords with an added note, and of the fifth alone.
#[tactic(auto, unfolding(crate::specs::ChordKind::added_named))]
fn added_named(text: &[u8]) -> Option<ChordKind>
    ensures { result ≡ added_named text.now }
{
    match text {
        b"5" => Some(ChordKind::Fifth),
        b"add9" => Some(ChordKind::AddedNinth),
        b"add2" => Some(ChordKind::AddedSecond),
        b"madd9" => Some(ChordKind::MinorAddedNinth),
        _ => None,
    }
}

/// Returns the kind of chord that a text names (ABC 2.1 section 4.18; the names of abc2midi).
pub fn kind_named(text: &[u8]) -> Option<ChordKind>
    ensures value { result ≡ kind_named text.now }
{
    if let Some(found) = triad_named(text) {
        return Some(found);
    }
    if let Some(found) = seventh_named(text) {
        return Some(found);
    }
    if let Some(found) = rare_seventh_named(text) {
        return Some(found);
    }
    if let Some(found) = sixth_named(text) {
        return Some(found);
    }
    if let Some(found) = extended_named(text) {
        return Some(found);
    }
    if let Some(found) = suspended_named(text) {
        return Some(found);
    }
    added_named(text)
}
