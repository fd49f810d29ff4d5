//! Lines, tokens and cells, by `abc_scan`.

ghost use Rattle.std.specs.Prelude.{◌≡◌, ◌↔◌, IfOk, Some};
ghost use Rattle.tests_surface.specs.Tokens.{alteration, AreBlanks, cells_of, capital, tokens_of, DropsOneReturn, without_return};
ghost use Rattle.tests_surface.specs.Tokens.{raised};

use abc_scan::{
    Accidental, Cell, Field, Letter, LineClass, Sequence, Shared, Token, TokenKind, Work, cells,
    class_of, scan,
};
use std::alloc::{AllocError, Global};

/// Returns the class of a line.
pub fn line_class(line: &[u8]) -> LineClass
    ensures blank { (result ≡ LineClass.Blank) ↔ AreBlanks (without_return line.now) }
{
    class_of(line)
}

/// Returns the letter of a field line.
pub fn letter_of_class(class: LineClass) -> Option<u8> {
    match class {
        LineClass::Field(letter) => Some(letter),
        LineClass::Blank | LineClass::Comment | LineClass::Directive | LineClass::Music => None,
    }
}

/// Returns the tokens of a line.
pub fn line_tokens(alloc: Global, line: &[u8], work: &mut Work) -> Result<Vec<Token>, AllocError>
    ensures value { IfOk result (λ tokens. tokens.items ≡ tokens_of line.now) }
    ensures counted { work.new ≡ record work.old { scanned = raised work.old.scanned 1 } }
{
    scan(alloc, line, work)
}

/// Returns the cells of tokens.
pub fn token_cells(alloc: Global, tokens: &[Token]) -> Result<Vec<Cell>, AllocError>
    ensures value { IfOk result (λ cells. cells.items ≡ cells_of tokens.now) }
{
    cells(alloc, tokens)
}

/// Returns the place of a token in its line.
pub fn token_place(token: &Token) -> (u32, u32) {
    (token.from, token.to)
}

/// Returns the first byte of the field that a token is.
pub fn first_of_field(token: &Token) -> Option<u8> {
    match &token.kind {
        TokenKind::Field(field) => first_of_value(field),
        _ => None,
    }
}

fn first_of_value(field: &Shared<Field>) -> Option<u8> {
    first_of(&field.get().value)
}

fn first_of(bytes: &Sequence<u8>) -> Option<u8> {
    bytes.as_slice().first().copied()
}

/// Returns the capital of a letter.
pub fn capital_of(letter: Letter) -> u8
    ensures value { result ≡ capital letter }
{
    letter.capital()
}

/// Returns the semitones of an accidental.
pub fn semitones_of(accidental: Accidental) -> i8
    ensures value { result ≡ alteration accidental }
{
    accidental.alteration()
}

/// A line is read without its carriage return.
pub fn return_dropped()
    ensures value { DropsOneReturn }
{
    abc_scan::laws::part_read();
}
