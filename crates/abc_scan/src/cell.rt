//! The cells of a line.

ghost use Rattle.std.specs.Prelude.{◌≡◌, ◌≤◌, ◌<◌, ◌^◌, [], IfOk, IsOk, length};
ghost use Rattle.abc_scan.specs.Cell.{AreCells, cells_of, first_size};

use crate::token::{Token, is_bar};
use abc_text::{Sequence, Shared};
use std::alloc::{AllocError, Global};
use std::marker::Model;

/// A field line, or the tokens of a music line up to and with a bar line or the line's end. It holds its tokens with
/// their values, so no caller reads the line again. The cells of a line share its tokens, and so does a copy. Contracts
/// see the tokens of the cell.
#[derive(Drop)]
pub struct Cell {
    line: Shared<Sequence<Token>>,
    from: u32,
    to: u32,
}

impl Model for Cell {
    ghost use Rattle.std.specs.Prelude.{◌≤◌, List, length, slice_range};
    ghost use Rattle.abc_scan.specs.declared.spanned.Spanned.{Spanned};
    ghost use Rattle.abc_scan.specs.declared.token.TokenKind.{TokenKind};

    ghost Value = { List (Spanned TokenKind) };

    ghost view = { λ cell. slice_range cell.line cell.from cell.to };

    ghost invariant = { λ cell. (cell.from ≤ cell.to) × (cell.to ≤ length cell.line) };
}

impl Cell {
    /// The cell of these tokens. It returns an error if an allocation fails.
    #[tactic(auto, using(crate::proofs::CellLaws::whole_range))]
    pub fn new(alloc: Global, tokens: Vec<Token>) -> Result<Cell, AllocError>
        ensures { IfOk result (λ cell. cell ≡ tokens.items) }
    {
        let to = count_of(&tokens)?;
        let line = Shared::new(alloc, Sequence::from(tokens))?;
        Ok(Cell { line, from: 0, to })
    }

    /// The tokens in order.
    pub fn tokens(&self) -> &[Token]
        ensures { result.now ≡ self.now }
    {
        &self.line.get().as_slice()[self.from as usize..self.to as usize]
    }

    /// A copy, which shares the tokens. It returns an error if an allocation fails.
    pub fn share(&self) -> Result<Cell, AllocError>
        ensures { IfOk result (λ copy. copy ≡ self.now) }
    {
        let line = self.line.share()?;
        Ok(Cell {
            line,
            from: self.from,
            to: self.to,
        })
    }
}

/// Returns the number of these tokens. A line with more than a `u32` can count is refused as out of memory.
fn count_of(tokens: &[Token]) -> Result<u32, AllocError>
    ensures value { IfOk result (λ count. count ≡ length tokens.now) }
    ensures accepted { length tokens.now < 2 ^ 32 → IsOk result }
{
    if tokens.len() > u32::MAX as usize {
        return Err(AllocError);
    }
    Ok(tokens.len() as u32)
}

/// Returns the number of these tokens that are in the first cell.
fn first_size(tokens: &[Token]) -> usize
    ensures value { result ≡ first_size tokens.now }
    ensures inside { result ≤ length tokens.now }
{
    for (at, token) in tokens.iter().enumerate() {
        if is_bar(&token.kind) {
            return at + 1;
        }
    }
    tokens.len()
}

/// A copy of a token.
fn copy_of(token: &Token) -> Result<Token, AllocError>
    ensures { IfOk result (λ copy. copy ≡ token.now) }
{
    token.clone()
}

/// Copies of these tokens.
fn copies_of(alloc: Global, tokens: &[Token]) -> Result<Vec<Token>, AllocError>
    ensures { IfOk result (λ copies. copies.items ≡ tokens.now) }
{
    let mut copies = Vec::with_capacity(alloc, tokens.len())?;
    for token in tokens {
        copies.push(copy_of(token)?)?;
    }
    Ok(copies)
}

/// The cells of a line of some tokens, which they share, in a list with room for `room` cells at first.
fn share_cells(
    alloc: Global,
    line: &Shared<Sequence<Token>>,
    count: u32,
    room: usize,
) -> Result<Vec<Cell>, AllocError>
    requires { count ≡ length line.now }
    ensures { IfOk result (λ cells. cells.items ≡ cells_of line.now) }
{
    let mut cells = Vec::with_capacity(alloc, room)?;
    let mut from = 0;
    while from < count {
        let to = from + first_size(&line.get().as_slice()[from as usize..]) as u32;
        let line = line.share()?;
        cells.push(Cell { line, from, to })?;
        from = to;
    }
    Ok(cells)
}

/// The cells of a line of these tokens, in a list with room for `room` cells at first. A line without tokens has none.
pub(crate) fn cells_with_capacity(
    alloc: Global,
    tokens: Vec<Token>,
    room: usize,
) -> Result<Vec<Cell>, AllocError>
    ensures value { IfOk result (λ cells. cells.items ≡ cells_of tokens.items) }
    ensures silent { tokens.items ≡ [] → IsOk result }
{
    if tokens.is_empty() {
        return Ok(Vec::new(alloc));
    }
    let count = count_of(&tokens)?;
    let line = Shared::new(alloc, Sequence::from(tokens))?;
    share_cells(alloc, &line, count, room)
}

/// Returns the cells of a line, by its tokens as `scan` returns them (ABC 2.1 section 4.8). Each cell but the last ends with a
/// bar line; a line without tokens has none. It returns an error if an allocation fails; the cells have copies of the tokens.
pub fn cells(alloc: Global, tokens: &[Token]) -> Result<Vec<Cell>, AllocError>
    ensures value { IfOk result (λ cells. cells.items ≡ cells_of tokens.now) }
    ensures cells { IfOk result (λ cells. AreCells tokens.now cells.items) }
{
    let copies = copies_of(alloc, tokens)?;
    let cells = cells_with_capacity(alloc, copies, 1)?;
    Ok(cells)
}
