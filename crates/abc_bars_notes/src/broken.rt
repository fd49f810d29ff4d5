//! Broken rhythm: which marks act, and what they multiply the lengths beside them by.

ghost use Rattle.std.specs.Prelude.{◌≡◌, ◌==◌, ◌≤◌, ◌^◌, length, option_map, IfSome};
ghost use Rattle.abc_bars_notes.specs.Broken.{role_of, preceding_after, time_follows, mark_ahead, mark_before, parts_of};
ghost use Rattle.abc_bars_notes.specs.Broken.{shorter_ratio, longer_ratio, first_factor, second_factor, factors_of, is_bad_mark};
ghost use Rattle.abc_time.specs.Ratio.{IsRatio};

use crate::role::{TokenRole, token_role};
use abc_scan::{BrokenRhythm, Direction, Token, TokenKind};
use abc_time::Ratio;
use std::marker::Model;

/// The most marks of broken rhythm together (ABC 2.1 section 4.4).
pub(crate) const MOST_MARKS: u8 = 3;

/// What precedes a place of a cell, as far as it matters to broken rhythm.
#[derive(Clone, Copy, PartialEq, Eq)]
pub enum Preceding {
    /// Nothing that a mark or a time token could act with.
    Nothing,
    /// A note, chord or rest.
    TimeToken,
    /// A mark after a note, chord or rest.
    Mark(BrokenRhythm),
}

/// The role of a token in broken rhythm.
#[derive(Clone, Copy)]
pub(crate) enum BrokenRole {
    /// A note, a rest, or a chord with a note.
    Time,
    Mark(BrokenRhythm),
    /// A token that no mark reaches over.
    Hindrance,
    /// Anything else.
    Silent,
}

/// The factors of a note, chord or rest by the marks around it, at most two. Contracts see their list.
#[derive(Drop)]
pub struct BrokenFactors {
    /// From the mark before it.
    pub(crate) preceding: Option<Ratio>,
    /// From the mark that comes next.
    pub(crate) ahead: Option<Ratio>,
}

impl Model for BrokenFactors {
    ghost use Rattle.std.specs.Prelude.{List, ◌++◌, option_to_list, IfSome};
    ghost use Rattle.abc_time.specs.declared.ratio.Ratio.{Ratio};
    ghost use Rattle.abc_time.specs.Ratio.{IsRatio};

    ghost Value = { List Ratio };

    ghost view = { λ f. option_to_list f.preceding ++ option_to_list f.ahead };

    ghost invariant = { λ f. IfSome f.preceding IsRatio × IfSome f.ahead IsRatio };
}

impl BrokenFactors {
    /// The factors of a note, chord or rest, by what precedes it and by the tokens after it in its cell.
    #[inline(always)]
    pub fn of(preceding: Preceding, ahead: &[Token]) -> BrokenFactors
        ensures { result ≡ factors_of preceding ahead.now }
    {
        BrokenFactors {
            preceding: factor_before(preceding),
            ahead: factor_after(ahead),
        }
    }

    /// Whether there are none.
    pub(crate) fn is_empty(&self) -> bool
        ensures { result ≡ (length self.now == 0) }
    {
        self.preceding.is_none() && self.ahead.is_none()
    }
}

/// The role of a token in broken rhythm.
fn role_of(kind: &TokenKind) -> BrokenRole
    ensures { result ≡ role_of kind.now }
{
    match token_role(kind) {
        TokenRole::Sound { noted: true } | TokenRole::Rest => BrokenRole::Time,
        TokenRole::Mark(mark) => BrokenRole::Mark(mark),
        TokenRole::Barrier => BrokenRole::Hindrance,
        TokenRole::Sound { noted: false } | TokenRole::Tie | TokenRole::Other => BrokenRole::Silent,
    }
}

/// What precedes the next place, as far as it matters.
pub fn preceding_after(preceding: Preceding, kind: &TokenKind) -> Preceding
    ensures { result ≡ preceding_after preceding kind.now }
{
    match (role_of(kind), preceding) {
        (BrokenRole::Time, _) => Preceding::TimeToken,
        (BrokenRole::Mark(mark), Preceding::TimeToken) => Preceding::Mark(mark),
        (BrokenRole::Mark(_) | BrokenRole::Hindrance, _) => Preceding::Nothing,
        (BrokenRole::Silent, _) => preceding,
    }
}

/// Whether a time token comes first of what matters.
fn time_follows(tokens: &[Token]) -> bool
    ensures { result ≡ time_follows tokens.now }
{
    for token in tokens {
        match role_of(&token.kind) {
            BrokenRole::Time => return true,
            BrokenRole::Mark(_) | BrokenRole::Hindrance => return false,
            BrokenRole::Silent => {}
        }
    }
    false
}

/// The mark that comes first of what matters, if a time token follows it.
fn mark_ahead(tokens: &[Token]) -> Option<BrokenRhythm>
    ensures { result ≡ mark_ahead tokens.now }
{
    for (i, token) in tokens.iter().enumerate() {
        match role_of(&token.kind) {
            BrokenRole::Mark(mark) if time_follows(&tokens[i + 1..]) => return Some(mark),
            BrokenRole::Silent => {}
            BrokenRole::Time | BrokenRole::Mark(_) | BrokenRole::Hindrance => return None,
        }
    }
    None
}

/// The number of parts into which marks cut a note: two to the number of marks.
fn parts_of(mark: BrokenRhythm) -> u32
    ensures value { result ≡ parts_of mark }
    ensures range { (1 ≤ result) × (result ≤ 2 ^ MOST_MARKS) }
{
    1 << mark.marks.min(MOST_MARKS)
}

/// The factor of the shorter note by k marks: 1/2^k.
fn shorter_ratio(mark: BrokenRhythm) -> Ratio
    ensures value { result ≡ shorter_ratio mark }
    ensures range { IsRatio result }
{
    Ratio {
        num: 1,
        den: parts_of(mark),
    }
}

/// The factor of the longer note by k marks: 2 - 1/2^k.
fn longer_ratio(mark: BrokenRhythm) -> Ratio
    ensures value { result ≡ longer_ratio mark }
    ensures range { IsRatio result }
{
    let den = parts_of(mark);
    Ratio {
        num: 2 * den - 1,
        den,
    }
}

/// The factor of a mark for the note, chord or rest before it (ABC 2.1 section 4.4).
fn first_factor(mark: BrokenRhythm) -> Ratio
    ensures value { result ≡ first_factor mark }
    ensures range { IsRatio result }
{
    match mark.direction {
        Direction::Right => longer_ratio(mark),
        Direction::Left => shorter_ratio(mark),
    }
}

/// The factor of a mark for the note, chord or rest after it.
fn second_factor(mark: BrokenRhythm) -> Ratio
    ensures value { result ≡ second_factor mark }
    ensures range { IsRatio result }
{
    match mark.direction {
        Direction::Right => shorter_ratio(mark),
        Direction::Left => longer_ratio(mark),
    }
}

/// The factor of the preceding mark, if a note, chord or rest was before the mark.
fn factor_before(preceding: Preceding) -> Option<Ratio>
    ensures value { result ≡ option_map second_factor (mark_before preceding) }
    ensures range { IfSome result IsRatio }
{
    match preceding {
        Preceding::Mark(mark) => Some(second_factor(mark)),
        Preceding::Nothing | Preceding::TimeToken => None,
    }
}

/// The factor of the mark that comes next. Most notes have a note directly after them, which is looked at first.
#[inline(always)]
fn factor_after(ahead: &[Token]) -> Option<Ratio>
    ensures value { result ≡ option_map first_factor (mark_ahead ahead.now) }
    ensures range { IfSome result IsRatio }
{
    match ahead {
        [token, ..] if matches!(token.kind, TokenKind::Note(_)) => None,
        _ => mark_ahead(ahead).map(first_factor),
    }
}

/// Whether a mark has no two notes, chords or rests to act on.
pub fn is_bad_mark(preceding: Preceding, ahead: &[Token]) -> bool
    ensures { result ≡ is_bad_mark preceding ahead.now }
{
    !(preceding == Preceding::TimeToken && time_follows(ahead))
}
