//! Groups of notes, each of which ends before the next one begins: most groups are one note, others a chord.
ghost use Rattle.std.specs.Prelude.{◌≡◌, ◌≤◌, ◌<◌, IsTrue, All, length, drop, take};
ghost use Rattle.smf_bytes.specs.Groups.{AreInTurn, are_in_turn};

use abc_time::Grains;
use abc_voices_score::Sounding;

/// Whether the notes begin one after another, from the last to the first.
pub(crate) fn are_in_turn(notes: &[Sounding]) -> bool
    ensures turn { IsTrue result → AreInTurn notes.now }
    ensures exact { result ≡ are_in_turn notes.now }
{
    let mut left = notes;
    while let [note, others @ ..] = left {
        match others {
            [earlier, ..] if note.on.0 < earlier.on.0 => return false,
            _ => left = others,
        }
    }
    true
}

/// Returns where the first group begins, from the last to the first note, and when it ends.
#[inline(always)]
pub(crate) fn first_group(notes: &[Sounding]) -> (usize, Grains)
    requires some { 0 < length notes.now }
    requires turn { AreInTurn notes.now }
    ensures inside { result.0 < length notes.now }
    ensures ends { All (λ note. note.off.0 ≤ result.1.0) (drop result.0 notes.now) }
    ensures begins { All (λ note. result.1.0 ≤ note.on.0) (take result.0 notes.now) }
{
    let mut start = notes.len() - 1;
    let mut end = notes[start].off.0;
    while start > 0 && notes[start - 1].on.0 < end {
        start -= 1;
        end = end.max(notes[start].off.0);
    }
    (start, Grains(end))
}
