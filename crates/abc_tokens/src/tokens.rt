//! The tokens of a line, with the parts of its chords and its comment.

ghost use Rattle.std.specs.Prelude.{◌≡◌, ◌+◌, ◌<◌, ◌≤◌, ◌^◌, ◌++◌, All, IfOk, IsOk, None, OnOk, Some, flat_map, if◌then◌else◌, length, map};
ghost use Rattle.abc_fold.specs.Work.{raised};
ghost use Rattle.abc_scan.specs.Class.{class_of};
ghost use Rattle.abc_scan.specs.Cutting.{IsSpan};
ghost use Rattle.abc_text.specs.LineEnd.{without_return};
ghost use Rattle.abc_tokens.specs.Columns.{HoldsParts, IsPartWithin, JoinColumns, PartsFill, PartsLieWithin, outer_tokens};
ghost use Rattle.abc_tokens.specs.Kinds.{HasKind};
ghost use Rattle.abc_tokens.specs.LineTokens.{comment_between, cut_tokens, end_after, line_token, line_tokens, outer_token};
ghost use Rattle.abc_tokens.specs.LineTokens.{part_token, tokens_by, tokens_with_parts, whole_kind, whole_line, with_parts};
ghost use Rattle.abc_tokens.specs.Scanned.{work_after};

use crate::line_kinds::{part_kind, token_kind};
use crate::line_token::{LineToken, LineTokenKind};
use abc_fold::Work;
use abc_scan::{Chord, ChordPart, LineClass, Token, TokenKind, class_of, scan};
use abc_text::without_return;
use std::alloc::{AllocError, Global};

/// The longest line that has tokens here. The columns in it fit small numbers.
const LONGEST_LINE: usize = (1 << 31) - 1;

/// Returns a line, if it is not too long.
fn check_length(line: &[u8]) -> Result<&[u8], AllocError>
    ensures same { IfOk result (λ short. short.now ≡ line.now) }
    ensures short { IfOk result (λ short. length short.now < 2 ^ 31) }
    ensures accepted { length line.now < 2 ^ 31 → IsOk result }
{
    if line.len() > LONGEST_LINE {
        Err(AllocError)
    } else {
        Ok(line)
    }
}

/// Returns a token from one place of a line to another.
fn line_token(kind: LineTokenKind, depth: u8, from: u32, to: u32) -> LineToken
    requires { (from < 2 ^ 31) × (to < 2 ^ 31) }
    ensures { result ≡ line_token kind depth from to }
{
    LineToken {
        from: from + 1,
        to: to + 1,
        kind,
        depth,
    }
}

/// Returns a part of a chord that begins at this place.
fn part_token(line: &[u8], at: u32, part: &ChordPart) -> LineToken
    requires inside { at + part.now.to ≤ length line.now }
    requires some { part.now.from < part.now.to }
    requires short { length line.now < 2 ^ 31 }
    ensures { result ≡ part_token line.now at part.now }
{
    let from = at + part.from;
    let to = at + part.to;
    let kind = part_kind(&line[from as usize..to as usize], part.kind);
    line_token(kind, 1, from, to)
}

/// Returns a token without its parts.
fn outer_token(line: &[u8], token: &Token) -> LineToken
    requires inside { IsSpan (length line.now) token.now }
    requires short { length line.now < 2 ^ 31 }
    ensures { result ≡ outer_token line.now token.now }
{
    let kind = token_kind(&line[token.from as usize..token.to as usize], &token.kind);
    line_token(kind, 0, token.from, token.to)
}

/// Appends the parts of a chord that ends before `to`.
fn put_parts(
    tokens: &mut Vec<LineToken>,
    line: &[u8],
    at: u32,
    to: u32,
    chord: &Chord,
) -> Result<(), AllocError>
    requires parts { All (IsPartWithin at to) chord.now.parts }
    requires inside { to ≤ length line.now }
    requires short { length line.now < 2 ^ 31 }
    ensures { OnOk result (tokens.new.items ≡ tokens.old.items ++ map (part_token line.now at) chord.now.parts) }
{
    for part in chord.parts.as_slice() {
        tokens.push(part_token(line, at, part))?;
    }
    Ok(())
}

/// Appends a token and its parts.
fn put_token(tokens: &mut Vec<LineToken>, line: &[u8], token: &Token) -> Result<(), AllocError>
    requires inside { IsSpan (length line.now) token.now }
    requires parts { HoldsParts token.now }
    requires short { length line.now < 2 ^ 31 }
    ensures { OnOk result (tokens.new.items ≡ tokens.old.items ++ with_parts line.now token.now) }
{
    tokens.push(outer_token(line, token))?;
    match &token.kind {
        TokenKind::Chord(chord) => put_parts(tokens, line, token.from, token.to, chord.get()),
        _ => Ok(()),
    }
}

/// Appends the comment between two places of a line, if there is one.
fn put_comment(tokens: &mut Vec<LineToken>, from: u32, to: u32) -> Result<(), AllocError>
    requires short { to < 2 ^ 31 }
    ensures { OnOk result (tokens.new.items ≡ tokens.old.items ++ comment_between from to) }
{
    if from < to {
        tokens.push(line_token(LineTokenKind::Comment, 0, from, to))?;
    }
    Ok(())
}

/// Appends tokens and their parts, and returns the place after the last token.
fn put_tokens(tokens: &mut Vec<LineToken>, line: &[u8], found: &[Token]) -> Result<u32, AllocError>
    requires spans { All (IsSpan (length line.now)) found.now }
    requires parts { All HoldsParts found.now }
    requires short { length line.now < 2 ^ 31 }
    ensures value { OnOk result (tokens.new.items ≡ tokens.old.items ++ flat_map (with_parts line.now) found.now) }
    ensures end { IfOk result (λ end. end ≡ end_after 0 found.now) }
{
    let mut end = 0;
    for token in found {
        put_token(tokens, line, token)?;
        end = token.to;
    }
    Ok(end)
}

/// Returns the tokens of a line that is cut into these, and its comment.
fn tokens_with_parts(
    alloc: Global,
    line: &[u8],
    found: &[Token],
) -> Result<Vec<LineToken>, AllocError>
    requires spans { All (IsSpan (length line.now)) found.now }
    requires parts { All HoldsParts found.now }
    requires short { length line.now < 2 ^ 31 }
    ensures { IfOk result (λ tokens. tokens.items ≡ tokens_with_parts line.now found.now) }
{
    let mut tokens = Vec::with_capacity(alloc, found.len())?;
    let end = put_tokens(&mut tokens, line, found)?;
    put_comment(&mut tokens, end, without_return(line).len() as u32)?;
    Ok(tokens)
}

/// Returns the tokens into which a line is cut, and its comment.
fn cut_tokens(alloc: Global, line: &[u8], work: &mut Work) -> Result<Vec<LineToken>, AllocError>
    ensures value { IfOk result (λ tokens. tokens.items ≡ cut_tokens line.now) }
    ensures counted { work.new ≡ record work.old { scanned = raised work.old.scanned 1 } }
{
    let found = scan(alloc, line, work)?;
    let short = check_length(line)?;
    tokens_with_parts(alloc, short, found.as_slice())
}

/// Returns one token for a whole line.
fn whole_line(alloc: Global, kind: LineTokenKind, line: &[u8]) -> Result<Vec<LineToken>, AllocError>
    ensures { IfOk result (λ tokens. tokens.items ≡ whole_line kind line.now) }
{
    let short = check_length(line)?;
    let mut tokens = Vec::with_capacity(alloc, 1)?;
    tokens.push(line_token(kind, 0, 0, without_return(short).len() as u32))?;
    Ok(tokens)
}

/// Returns the kind of a whole line that is neither blank nor a comment, or none if it is cut.
fn free_text_kind(is_compiled: bool) -> Option<LineTokenKind>
    ensures { result ≡ (if is_compiled then None else Some LineTokenKind.FreeText) }
{
    if is_compiled {
        None
    } else {
        Some(LineTokenKind::FreeText)
    }
}

/// Returns the kind of the one token of a whole line, or none if the line is cut.
fn whole_kind(is_compiled: bool, class: LineClass) -> Option<LineTokenKind>
    ensures { result ≡ whole_kind is_compiled class }
{
    match class {
        LineClass::Blank => Some(LineTokenKind::Blank),
        LineClass::Comment => Some(LineTokenKind::Comment),
        LineClass::Field(_) => free_text_kind(is_compiled),
        LineClass::Directive => free_text_kind(is_compiled),
        LineClass::Music => free_text_kind(is_compiled),
    }
}

/// Returns the tokens of a line that is one token of this kind, or is cut.
fn tokens_by(
    alloc: Global,
    kind: Option<LineTokenKind>,
    line: &[u8],
    work: &mut Work,
) -> Result<Vec<LineToken>, AllocError>
    ensures value { IfOk result (λ tokens. tokens.items ≡ tokens_by kind line.now) }
    ensures counted { work.new ≡ work_after kind work.old }
{
    match kind {
        Some(kind) => whole_line(alloc, kind, line),
        None => cut_tokens(alloc, line, work),
    }
}

/// Returns the tokens of a line in order. After a chord come its parts. `is_compiled` says whether the line is one of the file
/// header or of a tune: another one is free text, which is one token. Counts one line scanned if the line is cut into
/// tokens. The only error is a failed allocation; a line of 2^31 bytes or more counts as one.
pub fn line_tokens(
    alloc: Global,
    is_compiled: bool,
    line: &[u8],
    work: &mut Work,
) -> Result<Vec<LineToken>, AllocError>
    ensures value { IfOk result (λ tokens. tokens.items ≡ line_tokens is_compiled line.now) }
    ensures covers { IfOk result (λ tokens. JoinColumns 1 (outer_tokens tokens.items) (length (without_return line.now) + 1)) }
    ensures inside { IfOk result (λ tokens. PartsLieWithin 0 0 tokens.items) }
    ensures parts { IfOk result (λ tokens. PartsFill line.now None tokens.items) }
    ensures kinds { IfOk result (λ tokens. All (HasKind is_compiled line.now) tokens.items) }
    ensures counted { work.new ≡ work_after (whole_kind is_compiled (class_of line.now)) work.old }
{
    tokens_by(alloc, whole_kind(is_compiled, class_of(line)), line, work)
}
