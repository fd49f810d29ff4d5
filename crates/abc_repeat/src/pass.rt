//! The passes of a strain.

ghost use Rattle.std.specs.Prelude.{◌≡◌, ◌-◌, ◌^◌, ◌<◌, ◌≤◌, length, min, count_by};
ghost use Rattle.abc_repeat.specs.Mark.{is_play};
ghost use Rattle.abc_repeat.specs.Play.{most_passes, run_start};

use crate::mark::Mark;

/// Returns the number of passes through marks, at most 2^64 - 1.
pub(crate) fn most_passes(text: &[Mark]) -> u64
    ensures { result ≡ min (most_passes text.now) (2 ^ 64 - 1) }
{
    let mut most = 1;
    for mark in text {
        most = mark.passes().max(most);
    }
    most
}

/// Returns the place at which the first ending for a pass begins; the end of the text if there is none. Passes are
/// counted from 1.
pub(crate) fn run_start(text: &[Mark], pass: u64) -> usize
    requires { 0 < pass }
    ensures value { result ≡ run_start pass text.now }
    ensures bounded { result ≤ length text.now }
{
    for (at, mark) in text.iter().enumerate() {
        if mark.is_for(pass) {
            return at + 1;
        }
    }
    text.len()
}

/// Returns the number of played items among marks.
pub(crate) fn count_played(marks: &[Mark]) -> u64
    ensures { result ≡ count_by is_play marks.now }
{
    marks.iter().filter(|mark| mark.is_play()).count() as u64
}
