//! The kinds of the tokens of a line.

ghost use Rattle.std.specs.Prelude.{◌≡◌, is_some};
ghost use Rattle.abc_scan.specs.Dynamic.{dynamic_of};
ghost use Rattle.abc_tokens.specs.LineTokens.{field_kind, no_effect_kind, part_kind, token_kind};

use crate::line_token::LineTokenKind;
use abc_scan::{ChordPartKind, TokenKind};

/// Returns the kind of a part without effect, by its first byte.
fn no_effect_kind(text: &[u8]) -> LineTokenKind
    ensures { result ≡ no_effect_kind text.now }
{
    match text {
        [] => LineTokenKind::NoEffect,
        [b' ' | b'\t', ..] => LineTokenKind::Blank,
        [b'"', ..] => LineTokenKind::Quoted,
        [b'!', ..] => LineTokenKind::Decoration,
        [b'{', ..] => LineTokenKind::Grace,
        [b'y', ..] => LineTokenKind::Space,
        [_, ..] => LineTokenKind::NoEffect,
    }
}

/// Returns the kind of a field, by its letter.
fn field_kind(letter: u8) -> LineTokenKind
    ensures { result ≡ field_kind letter }
{
    match letter {
        b'X' => LineTokenKind::NumberField,
        b'T' => LineTokenKind::TitleField,
        b'K' => LineTokenKind::KeyField,
        _ => LineTokenKind::OtherField,
    }
}

/// Returns whether a text is a dynamic.
#[tactic(auto, unfolding(abc_scan::specs::Dynamic::dynamic_of))]
fn is_dynamic(text: &[u8]) -> bool
    ensures { result ≡ is_some (dynamic_of text.now) }
{
    matches!(
        text,
        b"!ppp!" | b"!pp!" | b"!p!" | b"!mp!" | b"!mf!" | b"!f!" | b"!ff!" | b"!fff!"
    )
}

/// Returns the kind of a part of a chord with these bytes. The scanner does not read dynamics there: they have no effect.
pub(crate) fn part_kind(text: &[u8], kind: ChordPartKind) -> LineTokenKind
    ensures { result ≡ part_kind text.now kind }
{
    match kind {
        ChordPartKind::Note(_) => LineTokenKind::Note,
        ChordPartKind::Tie => LineTokenKind::Tie,
        ChordPartKind::NoEffect if is_dynamic(text) => LineTokenKind::Dynamic,
        ChordPartKind::NoEffect => no_effect_kind(text),
        ChordPartKind::BadByte => LineTokenKind::BadByte,
    }
}

/// Returns the kind of a token with these bytes.
pub(crate) fn token_kind(text: &[u8], kind: &TokenKind) -> LineTokenKind
    ensures { result ≡ token_kind text.now kind.now }
{
    match kind {
        TokenKind::Note(_) => LineTokenKind::Note,
        TokenKind::Rest(_) => LineTokenKind::Rest,
        TokenKind::BarRest(_) => LineTokenKind::BarRest,
        TokenKind::Chord(_) => LineTokenKind::Chord,
        TokenKind::InlineField(_) => LineTokenKind::InlineField,
        TokenKind::Bar(_) => LineTokenKind::BarLine,
        TokenKind::Ending(_) => LineTokenKind::Ending,
        TokenKind::Tuplet(_) => LineTokenKind::Tuplet,
        TokenKind::Broken(_) => LineTokenKind::BrokenRhythm,
        TokenKind::Tie => LineTokenKind::Tie,
        TokenKind::Blank => LineTokenKind::Blank,
        TokenKind::Dynamic(_) => LineTokenKind::Dynamic,
        TokenKind::NoEffect => no_effect_kind(text),
        TokenKind::Field(field) => field_kind(field.get().letter),
        TokenKind::Directive(_) => LineTokenKind::Directive,
        TokenKind::Unclosed => LineTokenKind::Unclosed,
        TokenKind::BadByte => LineTokenKind::BadByte,
    }
}
