//! A tune as a score, by `abc_voices`.

ghost use Rattle.std.specs.Prelude.{◌≡◌, ◌^◌, ◌-◌, IfOk};
ghost use Rattle.abc_voices.specs.Layout.{arranged_of, items_in};
ghost use Rattle.abc_voices.specs.Limits.{HIGHEST_KEY, IsWithinLimits, LONGEST_TITLE, MOST_CHANGES, MOST_CHORD_NOTES};
ghost use Rattle.abc_voices.specs.Limits.{MOST_NOTES, MOST_PROGRAMS, MOST_VOICES};

use abc_voices::{
    Arranged, BuildFault, Change, ChangeKind, Grains, HIGHEST_KEY, Items, LONGEST_TITLE,
    MOST_CHANGES, MOST_CHORD_NOTES, MOST_NOTES, MOST_PROGRAMS, MOST_VOICES, ProgramChange, Score,
    Sequence, Sounding, arrange,
};
use std::alloc::Global;

/// The limits that are counts.
pub const MOST: [usize; 6] = [
    LONGEST_TITLE,
    MOST_CHANGES,
    MOST_CHORD_NOTES,
    MOST_NOTES,
    MOST_PROGRAMS,
    MOST_VOICES,
];

/// The highest key.
pub const TOP_KEY: u8 = HIGHEST_KEY;

/// Lays out a tune.
pub fn lay_out(alloc: Global, items: &[Items]) -> Result<Arranged, BuildFault>
    ensures value { IfOk result (λ laid. laid ≡ arranged_of (items_in items.now)) }
    ensures limits { IfOk result (λ laid. IsWithinLimits laid.score) }
{
    arrange(alloc, items)
}

/// The limits have these values.
pub fn limits()
    ensures title { LONGEST_TITLE ≡ 2 ^ 16 - 1 }
    ensures changes { MOST_CHANGES ≡ 1000003 }
    ensures voices { MOST_VOICES ≡ 15 }
    ensures notes { MOST_NOTES ≡ 16000000 }
    ensures programs { MOST_PROGRAMS ≡ 1000001 }
    ensures tones { MOST_CHORD_NOTES ≡ 16 }
    ensures key { HIGHEST_KEY ≡ 127 }
{}

/// Returns when a score ends.
pub fn end_of(score: &Score) -> Grains {
    score.end
}

/// Returns the title of a score.
pub fn title_of(score: &Score) -> &Sequence<u8> {
    &score.title
}

/// Returns the changes of a score.
pub fn changes_of(score: &Score) -> &[Change] {
    score.conductor.as_slice()
}

/// Returns the notes of each voice.
pub fn notes_of(score: &Score) -> &[Sequence<Sounding>] {
    score.voices.as_slice()
}

/// Returns the changes of program of each voice.
pub fn programs_of(score: &Score) -> &[Sequence<ProgramChange>] {
    score.programs.as_slice()
}

/// Returns the microseconds that a change of tempo sets.
pub fn tempo_of(change: Change) -> Option<u32> {
    match change.what {
        ChangeKind::Tempo(micros) => Some(micros),
        ChangeKind::Meter { .. } | ChangeKind::Key { .. } => None,
    }
}

/// Whether a part is unknown, also if the tune is too long.
pub fn names_unknown(fault: BuildFault) -> bool {
    match fault {
        BuildFault::TooLong { unknown } => unknown,
        BuildFault::OutOfMemory => false,
    }
}

/// Whether voices are uneven.
pub fn is_uneven(arranged: &Arranged) -> bool {
    arranged.uneven
}
