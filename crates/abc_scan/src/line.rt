//! The tokens of a line.

ghost use Rattle.std.specs.Prelude.{◌≡◌, ◌+◌, ◌<◌, ◌^◌, IfOk, IsOk, All, length, false};
ghost use Rattle.abc_fold.specs.Work.{raised};
ghost use Rattle.abc_scan.specs.Cutting.{IsSpan, JoinFromTo, part_at};
ghost use Rattle.abc_scan.specs.Class.{class_of};
ghost use Rattle.abc_scan.specs.Directive.{directive_of};
ghost use Rattle.abc_scan.specs.Line.{cutting_of, directive_token, field_token, whole_token};
ghost use Rattle.abc_scan.specs.Line.{has_tokens, tokens_in, tokens_of, covered_of};
ghost use Rattle.abc_scan.specs.Line.{HasLength};

use crate::directive::directive_of;
use crate::field::field_of;
use crate::known_absent::KnownAbsent;
use crate::line_class::{LineClass, class_of};
use crate::spanned::Spanned;
use crate::text::without_comment;
use crate::token::{Token, TokenKind, is_bar, next_token, short_token_at};
use abc_fold::Work;
use abc_text::{Shared, without_return};
use std::alloc::{AllocError, Global};

/// The longest text that `scan` cuts. The places in it, and the octaves of its notes, fit small numbers.
const LONGEST_CUT: usize = (1 << 31) - 1;

/// Returns a text, if it is not too long for `scan`.
fn check_length(text: &[u8]) -> Result<&[u8], AllocError>
    ensures same { IfOk result (λ short. short.now ≡ text.now) }
    ensures short { IfOk result (λ short. length short.now < 2 ^ 31) }
    ensures accepted { length text.now < 2 ^ 31 → IsOk result }
{
    if text.len() > LONGEST_CUT {
        Err(AllocError)
    } else {
        Ok(text)
    }
}

/// The token of `size` bytes at index `at` of a line.
fn token_at(at: usize, kind: TokenKind, size: usize) -> Token
    requires { at + size < 2 ^ 31 }
    ensures { result ≡ part_at at (kind, size) }
{
    Spanned {
        kind,
        from: at as u32,
        to: (at + size) as u32,
    }
}

/// A text cut from left to right. Most tokens are short: these are read by a quick way.
#[tactic(auto, using(crate::proofs::Closings::absent_next))]
fn cut(alloc: Global, text: &[u8]) -> Result<Vec<Token>, AllocError>
    requires { length text.now < 2 ^ 31 }
    ensures { IfOk result (λ tokens. tokens.items ≡ cutting_of text.now) }
{
    let mut tokens = Vec::with_capacity(alloc, text.len())?;
    let mut absent = KnownAbsent::none();
    let mut after_bar = false;
    let mut at = 0;
    while at < text.len() {
        match short_token_at(&text[at..]) {
            Some((kind, size)) => {
                tokens.push(token_at(at, kind, size))?;
                after_bar = false;
                at += size;
            }
            None => {
                let (kind, size) = next_token(alloc, after_bar, &text[at..], &mut absent)?;
                after_bar = is_bar(&kind);
                tokens.push(token_at(at, kind, size))?;
                at += size;
            }
        }
    }
    Ok(tokens)
}

/// Returns one token of this kind for a whole text.
fn whole_token(alloc: Global, kind: TokenKind, text: &[u8]) -> Result<Vec<Token>, AllocError>
    requires { length text.now < 2 ^ 31 }
    ensures { IfOk result (λ tokens. tokens.items ≡ whole_token kind (length text.now)) }
{
    let mut tokens = Vec::with_capacity(alloc, 1)?;
    tokens.push(Spanned {
        kind,
        from: 0,
        to: text.len() as u32,
    })?;
    Ok(tokens)
}

/// One token for the whole text of a field.
fn field_token(alloc: Global, text: &[u8]) -> Result<Vec<Token>, AllocError>
    requires { length text.now < 2 ^ 31 }
    ensures { IfOk result (λ tokens. tokens.items ≡ field_token text.now) }
{
    let field = Shared::new(alloc, field_of(alloc, text)?)?;
    whole_token(alloc, TokenKind::Field(field), text)
}

/// One token for the whole text of a directive, with its comment.
fn directive_token(alloc: Global, text: &[u8]) -> Result<Vec<Token>, AllocError>
    requires { length text.now < 2 ^ 31 }
    ensures { IfOk result (λ tokens. tokens.items ≡ directive_token (directive_of text.now) (length text.now)) }
{
    let Some(directive) = directive_of(text) else {
        return Ok(Vec::new(alloc));
    };
    whole_token(alloc, TokenKind::Directive(directive), text)
}

/// The tokens of a text of this class, which has no carriage return at its end.
pub(crate) fn tokens_in(
    alloc: Global,
    class: LineClass,
    text: &[u8],
) -> Result<Vec<Token>, AllocError>
    ensures value { IfOk result (λ tokens. tokens.items ≡ tokens_in class text.now) }
    ensures silent { has_tokens class ≡ false → IsOk result }
{
    match class {
        LineClass::Blank | LineClass::Comment => Ok(Vec::new(alloc)),
        LineClass::Field(_) => field_token(alloc, check_length(without_comment(text))?),
        LineClass::Directive => directive_token(alloc, check_length(text)?),
        LineClass::Music => cut(alloc, check_length(without_comment(text))?),
    }
}

/// The tokens of a line, without its carriage return and, but for a directive, its comment. Counts one line scanned, also
/// if an allocation fails; a blank line and a comment allocate nothing. A line of 2^31 bytes or more that has
/// tokens is refused as out of memory.
#[tactic(auto, unfolding(crate::specs::Line::tokens_of, crate::specs::Line::covered_of))]
pub fn scan(alloc: Global, line: &[u8], work: &mut Work) -> Result<Vec<Token>, AllocError>
    ensures value { IfOk result (λ tokens. tokens.items ≡ tokens_of line.now) }
    ensures spans { IfOk result (λ tokens. All (IsSpan (length line.now)) tokens.items) }
    ensures joined { IfOk result (λ tokens. JoinFromTo 0 tokens.items (covered_of line.now)) }
    ensures lengths { IfOk result (λ tokens. All (λ t. HasLength t.kind) tokens.items) }
    ensures silent { has_tokens (class_of line.now) ≡ false → IsOk result }

    ensures counted { work.new ≡ record work.old { scanned = raised work.old.scanned 1 } }
{
    work.count_scanned();
    tokens_in(alloc, class_of(line), without_return(line))
}
