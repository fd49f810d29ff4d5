//! The tokens from which the items of a performed cell come.

ghost use Rattle.std.specs.Prelude.{◌≡◌, map, IfOk};
ghost use Rattle.std.specs.List.{list_any};
ghost use Rattle.abc_marks_cells.specs.Hearing.{heard_field, heard_kind, heard_token, heard_tokens, is_heard_otherwise, is_overlay, is_pipe_key_field};

use crate::token_text::{begins_with_byte, text_of};
use abc_marks_readers::is_pipe_key;
use abc_scan::{Cell, Field, Token, TokenKind};
use abc_text::{Sequence, Shared};
use std::alloc::{AllocError, Global};

/// Returns whether a token of a line begins an overlay.
fn is_overlay(line: &[u8], token: &Token) -> bool
    ensures { result ≡ is_overlay line.now token.now }
{
    begins_with_byte(b'&', text_of(line, token))
}

/// Returns whether a field is a key of bagpipe music.
fn is_pipe_key_field(field: &Field) -> bool
    ensures { result ≡ is_pipe_key_field field.now }
{
    field.letter == b'K' && is_pipe_key(field.value.as_slice())
}

/// Returns the field that is read instead of a field.
fn heard_field(alloc: Global, field: &Shared<Field>) -> Result<Shared<Field>, AllocError>
    ensures { IfOk result (λ heard. heard ≡ heard_field field.now) }
{
    if is_pipe_key_field(field.get()) {
        let value = Sequence::from_slice(alloc, b"D")?;
        return Shared::new(
            alloc,
            Field {
                letter: b'K',
                value,
            },
        );
    }
    field.share()
}

/// Returns whether a token of a line is read as another one.
fn is_heard_otherwise(line: &[u8], token: &Token) -> bool
    ensures { result ≡ is_heard_otherwise line.now token.now }
{
    match &token.kind {
        TokenKind::BadByte => is_overlay(line, token),
        TokenKind::Field(field) | TokenKind::InlineField(field) => is_pipe_key_field(field.get()),
        _ => false,
    }
}

/// Returns the kind of the token that is read instead of a token of a line.
fn heard_kind(alloc: Global, line: &[u8], token: &Token) -> Result<TokenKind, AllocError>
    ensures { IfOk result (λ kind. kind ≡ heard_kind line.now token.now token.now.kind) }
{
    match &token.kind {
        TokenKind::BadByte => {
            if is_overlay(line, token) {
                Ok(TokenKind::NoEffect)
            } else {
                Ok(TokenKind::BadByte)
            }
        }
        TokenKind::Field(field) => {
            let field = heard_field(alloc, field)?;
            Ok(TokenKind::Field(field))
        }
        TokenKind::InlineField(field) => {
            let field = heard_field(alloc, field)?;
            Ok(TokenKind::InlineField(field))
        }
        other => other.clone(),
    }
}

/// Returns the token that is read instead of a token of a line.
fn heard_token(alloc: Global, line: &[u8], token: &Token) -> Result<Token, AllocError>
    ensures { IfOk result (λ heard. heard ≡ heard_token line.now token.now) }
{
    Ok(Token {
        kind: heard_kind(alloc, line, token)?,
        from: token.from,
        to: token.to,
    })
}

/// Returns the tokens that are read instead of those of a cell of a line.
fn heard_tokens(alloc: Global, line: &[u8], tokens: &[Token]) -> Result<Vec<Token>, AllocError>
    ensures { IfOk result (λ heard. heard.items ≡ heard_tokens line.now tokens.now) }
{
    let mut heard = Vec::with_capacity(alloc, tokens.len())?;
    for token in tokens {
        heard.push(heard_token(alloc, line, token)?)?;
    }
    Ok(heard)
}

/// Returns whether one of some tokens of a line is read as another one.
fn any_heard_otherwise(line: &[u8], tokens: &[Token]) -> bool
    ensures { result ≡ list_any (is_heard_otherwise line.now) tokens.now }
{
    tokens.iter().any(|token| is_heard_otherwise(line, token))
}

/// Returns the cell from which the items come, of a cell of a line: an overlay has no fault, and a key of bagpipe music is read
/// as `D`. Most cells are shared. It returns an error if an allocation fails.
#[tactic(auto, using(crate::proofs::HeardCells::none_otherwise))]
pub fn heard_cell(alloc: Global, line: &[u8], cell: &Cell) -> Result<Cell, AllocError>
    ensures { IfOk result (λ heard. heard ≡ heard_tokens line.now cell.now) }
{
    if any_heard_otherwise(line, cell.tokens()) {
        return Cell::new(alloc, heard_tokens(alloc, line, cell.tokens())?);
    }
    cell.share()
}
