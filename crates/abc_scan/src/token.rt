//! The tokens of a music line.

ghost use Rattle.std.specs.Prelude.{◌≡◌, ◌<◌, ◌^◌, drop, length, false, IfOk, IfSome};
ghost use Rattle.abc_scan.specs.Front.{IsFront};
ghost use Rattle.abc_scan.specs.KnownAbsent.{IsKnownAbsent};
ghost use Rattle.abc_scan.specs.Dynamic.{dynamic_of};
ghost use Rattle.abc_scan.specs.Token.{is_bar, mark_by, reading_by, unmatched_byte, dynamic_or_ignored, next_token, ComesFirst};

use crate::bar_line::{BarLine, bar_at};
use crate::bar_rest::bar_rest_at;
use crate::broken::{BrokenRhythm, broken_at};
use crate::chord::{Chord, chord_at};
use crate::delimited::delimited_at;
use crate::directive::Directive;
use crate::dynamic::{Dynamic, dynamic_of};
use crate::ending::ending_at;
use crate::field::Field;
use crate::inline_field::inline_field_at;
use crate::known_absent::KnownAbsent;
use crate::length::WrittenLength;
use crate::no_effect::extra_space_at;
use crate::note::{Note, note_at, rest_at, short_note_at};
use crate::spanned::Spanned;
use crate::start::{Start, start_of};
use crate::tuplet::{Tuplet, tuplet_at};
use abc_text::Shared;
use std::alloc::{AllocError, Global};

/// A part of a line, with its value read.
pub type Token = Spanned<TokenKind>;

/// The kind of a token.
#[derive(Clone, Drop)]
pub enum TokenKind {
    Note(Note),
    /// A rest, with its length (ABC 2.1 section 4.5).
    Rest(WrittenLength),
    /// A rest of whole bars, with their number if it is written (ABC 2.1 section 4.5).
    BarRest(Option<u32>),
    Chord(Shared<Chord>),
    /// A field in a music line, as `[K:G]`.
    InlineField(Shared<Field>),
    Bar(BarLine),
    /// The passes that an ending is for: bit i - 1 is set for pass i (ABC 2.1 sections 4.9 and 4.10). None if a number is refused.
    Ending(Option<u32>),
    Tuplet(Tuplet),
    Broken(BrokenRhythm),
    /// A tie (ABC 2.1 section 4.11).
    Tie,
    /// One space or tab.
    Blank,
    Dynamic(Dynamic),
    /// Quoted text, another decoration, a grace group, an extra space or a byte without effect.
    NoEffect,
    /// A whole field line, without its comment.
    Field(Shared<Field>),
    /// A whole directive line, with its comment.
    Directive(Directive),
    /// An opening byte without its closing byte.
    Unclosed,
    /// Another byte of a music line that begins no token.
    BadByte,
}

/// A text has a token for nearly each of its letters: each takes 32 bytes.
const _: () = prove!(size_of::<Token>() == 32);

/// Returns whether a token is a bar line.
pub(crate) fn is_bar(kind: &TokenKind) -> bool
    ensures { result ≡ is_bar kind.now }
{
    matches!(kind, TokenKind::Bar(_))
}

/// A byte of a line that begins no token: whether it opens something that another byte closes.
fn unmatched_byte(byte: u8) -> TokenKind
    ensures { result ≡ unmatched_byte byte }
{
    match byte {
        b'[' | b'"' | b'!' | b'{' => TokenKind::Unclosed,
        _ => TokenKind::BadByte,
    }
}

/// The ending at the front of a text, and its size in bytes.
fn ending_mark_at(after_bar: bool, text: &[u8]) -> Option<(TokenKind, usize)>
    ensures value { result ≡ mark_by Start.Digit after_bar text.now }
    ensures front { IfSome result (λ r. IsFront text.now r.1) }
{
    let (passes, size) = ending_at(after_bar, text)?;
    Some((TokenKind::Ending(passes), size))
}

/// The chord at the front of a text, or the ending, and its size in bytes.
fn bracket_at(
    alloc: Global,
    after_bar: bool,
    text: &[u8],
) -> Result<Option<(TokenKind, usize)>, AllocError>
    requires { length text.now < 2 ^ 31 }
    ensures value { IfOk result (λ token. token ≡ reading_by Start.Bracket after_bar text.now) }
    ensures front { IfOk result (λ token. IfSome token (λ r. IsFront text.now r.1)) }
{
    if let Some((chord, size)) = chord_at(alloc, text)? {
        let chord = Shared::new(alloc, chord)?;
        return Ok(Some((TokenKind::Chord(chord), size)));
    }
    Ok(ending_mark_at(after_bar, text))
}

/// The inline field at the front of a text, and its size in bytes.
fn field_at(
    alloc: Global,
    text: &[u8],
    absent: &mut KnownAbsent,
) -> Result<Option<(TokenKind, usize)>, AllocError>
    requires { IsKnownAbsent absent.old (drop 1 text.now) }
    ensures value { IfOk result (λ token. token ≡ reading_by Start.InlineField false text.now) }
    ensures front { IfOk result (λ token. IfSome token (λ r. IsFront text.now r.1)) }
    ensures absent { IsKnownAbsent absent.new (drop 1 text.now) }
{
    match inline_field_at(alloc, text, absent)? {
        Some((field, size)) => {
            let field = Shared::new(alloc, field)?;
            Ok(Some((TokenKind::InlineField(field), size)))
        }
        None => Ok(None),
    }
}

/// Returns the kind of a text between delimiters: a dynamic, or a token without effect.
fn dynamic_or_ignored(text: &[u8]) -> TokenKind
    ensures { result ≡ dynamic_or_ignored (dynamic_of text.now) }
{
    match dynamic_of(text) {
        Some(dynamic) => TokenKind::Dynamic(dynamic),
        None => TokenKind::NoEffect,
    }
}

/// The token between delimiters at the front of a text, and its size in bytes.
fn enclosed_at(text: &[u8], absent: &mut KnownAbsent) -> Option<(TokenKind, usize)>
    requires { IsKnownAbsent absent.old (drop 1 text.now) }
    ensures value { result ≡ reading_by Start.Delimited false text.now }
    ensures front { IfSome result (λ r. IsFront text.now r.1) }
    ensures absent { IsKnownAbsent absent.new (drop 1 text.now) }
{
    let size = delimited_at(text, absent)?;
    Some((dynamic_or_ignored(&text[..size]), size))
}

/// The tuplet at the front of a text, or its `(` alone, and its size in bytes.
fn parenthesis_at(text: &[u8]) -> Option<(TokenKind, usize)>
    requires { 0 < length text.now }
    ensures value { result ≡ mark_by Start.Parenthesis false text.now }
    ensures front { IfSome result (λ r. IsFront text.now r.1) }
{
    match tuplet_at(text) {
        Some((tuplet, size)) => Some((TokenKind::Tuplet(tuplet), size)),
        None => Some((TokenKind::NoEffect, 1)),
    }
}

/// The token of this kind at the front of a text, and its size in bytes. None if it needs memory or a search for its
/// end.
fn mark_at(start: Start, after_bar: bool, text: &[u8]) -> Option<(TokenKind, usize)>
    requires some { 0 < length text.now }
    requires short { length text.now < 2 ^ 31 }
    ensures value { result ≡ mark_by start after_bar text.now }
    ensures front { IfSome result (λ r. IsFront text.now r.1) }
{
    match start {
        Start::Note => {
            let (note, size) = note_at(text)?;
            Some((TokenKind::Note(note), size))
        }
        Start::Rest => {
            let (length, size) = rest_at(text)?;
            Some((TokenKind::Rest(length), size))
        }
        Start::BarRest => {
            let (bars, size) = bar_rest_at(text)?;
            Some((TokenKind::BarRest(bars), size))
        }
        Start::BarLine => {
            let (bar, size) = bar_at(text)?;
            Some((TokenKind::Bar(bar), size))
        }
        Start::Digit => ending_mark_at(after_bar, text),
        Start::Parenthesis => parenthesis_at(text),
        Start::Broken => {
            let (broken, size) = broken_at(text)?;
            Some((TokenKind::Broken(broken), size))
        }
        Start::Tie => Some((TokenKind::Tie, 1)),
        Start::Blank => Some((TokenKind::Blank, 1)),
        Start::Space => {
            let size = extra_space_at(text)?;
            Some((TokenKind::NoEffect, size))
        }
        Start::Single => Some((TokenKind::NoEffect, 1)),
        Start::InlineField | Start::Bracket | Start::Delimited | Start::Nothing => None,
    }
}

/// The token at the front of a text, if it is a blank or a short note, and its size in bytes: most tokens are such.
#[inline(always)]
#[tactic(auto, using(crate::proofs::Starts::blank_first, crate::proofs::Starts::note_first))]
pub(crate) fn short_token_at(text: &[u8]) -> Option<(TokenKind, usize)>
    ensures value { IfSome result (λ r. ComesFirst r text.now) }
    ensures plain { IfSome result (λ r. is_bar r.0 ≡ false) }
    ensures front { IfSome result (λ r. IsFront text.now r.1) }
{
    match text {
        [b' ', ..] => Some((TokenKind::Blank, 1)),
        _ => {
            let (note, size) = short_note_at(text)?;
            Some((TokenKind::Note(note), size))
        }
    }
}

/// The first token of a text, and its size in bytes: a token, else one byte that begins none.
#[tactic(auto, using(crate::proofs::Starts::mark_reading), unfolding(crate::specs::Token::reading_at))]
pub(crate) fn next_token(
    alloc: Global,
    after_bar: bool,
    text: &[u8],
    absent: &mut KnownAbsent,
) -> Result<(TokenKind, usize), AllocError>
    requires some { 0 < length text.now }
    requires known { IsKnownAbsent absent.old (drop 1 text.now) }
    requires short { length text.now < 2 ^ 31 }
    ensures value { IfOk result (λ r. r ≡ next_token after_bar text.now) }
    ensures front { IfOk result (λ r. IsFront text.now r.1) }
    ensures absent { IsKnownAbsent absent.new (drop 1 text.now) }
{
    let found = match start_of(text) {
        Start::InlineField => field_at(alloc, text, absent)?,
        Start::Bracket => bracket_at(alloc, after_bar, text)?,
        Start::Delimited => enclosed_at(text, absent),
        start => mark_at(start, after_bar, text),
    };
    match found {
        Some(token) => Ok(token),
        None => Ok((unmatched_byte(text[0]), 1)),
    }
}
