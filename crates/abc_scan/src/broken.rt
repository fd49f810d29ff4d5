//! Broken rhythm: one note longer, its neighbour shorter by as much.

ghost use Rattle.std.specs.Prelude.{◌≡◌, ◌≤◌, length, IfSome};
ghost use Rattle.abc_scan.specs.Front.{IsFront};
ghost use Rattle.abc_scan.specs.Broken.{direction_of, marks_at, broken_at};

use crate::run::run_of;

/// The direction of marks, away from the longer note.
#[derive(Clone, Copy, PartialEq, Eq)]
pub enum Direction {
    /// `>`: the note before it is longer.
    Right,
    /// `<`: the note after it is longer.
    Left,
}

/// A mark between two notes (ABC 2.1 section 4.4).
#[derive(Clone, Copy, PartialEq, Eq)]
pub struct BrokenRhythm {
    pub direction: Direction,
    /// The number of marks, 1 to 3.
    pub marks: u8,
}

/// The direction of a mark.
fn direction_of(byte: u8) -> Option<Direction>
    ensures { result ≡ direction_of byte }
{
    match byte {
        b'>' => Some(Direction::Right),
        b'<' => Some(Direction::Left),
        _ => None,
    }
}

/// Returns the number of equal marks at the front of a text, counted up to three.
fn marks_at(mark: u8, text: &[u8]) -> usize
    ensures value { result ≡ marks_at mark text.now }
    ensures few { result ≤ 3 }
    ensures inside { result ≤ length text.now }
{
    run_of(mark, &text[..text.len().min(3)])
}

/// The marks at the front of a text, and their size in bytes.
#[tactic(auto, unfolding(crate::specs::Broken::broken_at))]
pub(crate) fn broken_at(text: &[u8]) -> Option<(BrokenRhythm, usize)>
    ensures value { result ≡ broken_at text.now }
    ensures front { IfSome result (λ r. IsFront text.now r.1) }
{
    let [first, ..] = text else {
        return None;
    };
    let direction = direction_of(*first)?;
    let marks = marks_at(*first, text);
    let broken = BrokenRhythm {
        direction,
        marks: marks as u8,
    };
    Some((broken, marks))
}
