//! The stretch of a text that an edit may change.

ghost use Rattle.std.specs.Prelude.{◌≡◌, ◌+◌, ◌-◌, ◌<◌, ◌≤◌, IfSome, None, drop, length};
ghost use Rattle.abc_live_text.specs.NewParts.{IsLead, IsSpan, span_stretch, span_to, start_of};

use abc_book::Block;
use abc_lines::{ItemRange, Replacement};

/// The part of a text that an edit may change: its old tunes, and its lines, which others replace.
#[derive(Clone, Copy)]
pub struct Stretch {
    pub tunes: ItemRange,
    pub lines: Replacement,
}

/// The old tunes and the old lines of a stretch.
#[derive(Clone, Copy)]
pub(crate) struct Span {
    pub(crate) tunes: ItemRange,
    pub(crate) lines: ItemRange,
}

impl Span {
    /// Returns the stretch, which has `came` lines after the edit.
    pub(crate) fn stretch(self, came: usize) -> Stretch
        ensures { result ≡ span_stretch self came }
    {
        Stretch {
            tunes: self.tunes,
            lines: Replacement {
                from: self.lines.from,
                to: self.lines.to,
                came,
            },
        }
    }
}

/// Returns the span of the first tunes and the first lines of a text.
pub(crate) fn span_to(tunes: usize, lines: usize) -> Span
    ensures { result ≡ span_to tunes lines }
{
    Span {
        tunes: ItemRange { from: 0, to: tunes },
        lines: ItemRange { from: 0, to: lines },
    }
}

/// Returns how many tunes begin before a line; at least `first` do.
fn begun_before(tunes: &[Block], first: usize, line: usize) -> usize
    requires { first ≤ length tunes.now }
    ensures least { first ≤ result }
    ensures most { result ≤ length tunes.now }
    ensures next { line ≤ start_of (drop result tunes.now) line }
    ensures last { first < result → start_of (drop (result - 1) tunes.now) 0 < line }
{
    let mut count = first;
    let mut end = tunes.len();
    while count < end {
        let middle = count + (end - count) / 2;
        if tunes[middle].from < line {
            count = middle + 1;
        } else {
            end = middle;
        }
    }
    count
}

/// Returns the line at which the tune at index `i` begins; without such a tune, the end.
fn start_at(tunes: &[Block], i: usize, end: usize) -> usize
    ensures { result ≡ start_of (drop i tunes.now) end }
{
    if i < tunes.len() { tunes[i].from } else { end }
}

/// Returns the span of an edit of a text with `count` lines: from the last tune that begins before the edit to the
/// first that begins after it. None if no tune begins before the edit.
#[tactic(auto, using(crate::proofs::Spans::starts_late))]
pub(crate) fn span_of(tunes: &[Block], count: usize, at: usize, removed: usize) -> Option<Span>
    requires { at + removed ≤ count }
    ensures span { IfSome result (λ span. IsSpan tunes.now count at removed span) }
    ensures none { result ≡ None → at ≤ start_of tunes.now at }
{
    let begun = begun_before(tunes, 0, at);
    if begun == 0 {
        return None;
    }
    let following = begun_before(tunes, begun, at + removed);
    Some(Span {
        tunes: ItemRange {
            from: begun - 1,
            to: following,
        },
        lines: ItemRange {
            from: tunes[begun - 1].from,
            to: start_at(tunes, following, count),
        },
    })
}

/// Returns the prefix that an edit ending at `end` can affect: up to the first tune that begins at `end` or later.
#[tactic(auto, using(crate::proofs::Spans::starts_late))]
pub(crate) fn lead_of(tunes: &[Block], count: usize, end: usize) -> Span
    requires { end ≤ count }
    ensures { IsLead tunes.now count end result }
{
    let following = begun_before(tunes, 0, end);
    span_to(following, start_at(tunes, following, count))
}
