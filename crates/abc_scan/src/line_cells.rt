//! The cells of a line.

ghost use Rattle.std.specs.Prelude.{◌≡◌, IfOk, IsOk, false};
ghost use Rattle.abc_fold.specs.Work.{raised};
ghost use Rattle.abc_scan.specs.Cell.{cells_of};
ghost use Rattle.abc_scan.specs.Class.{class_of};
ghost use Rattle.abc_scan.specs.Line.{has_tokens, tokens_in, tokens_of};

use crate::cell::{Cell, cells_with_capacity};
use crate::line::tokens_in;
use crate::line_class::{LineClass, class_of};
use crate::token::{Token, is_bar};
use abc_fold::Work;
use abc_text::without_return;
use std::alloc::{AllocError, Global};

/// The number of the cells of these tokens. No result depends on it.
fn count_cells(tokens: &[Token]) -> usize {
    let bars = tokens.iter().filter(|token| is_bar(&token.kind)).count();
    match tokens {
        [.., last] if is_bar(&last.kind) => bars,
        _ => bars.saturating_add(1),
    }
}

/// The cells of a music line of these tokens. Both lists have exactly the room that they need.
fn cells_of_music(alloc: Global, mut tokens: Vec<Token>) -> Result<Vec<Cell>, AllocError>
    ensures { IfOk result (λ cells. cells.items ≡ cells_of tokens.items) }
{
    let own = tokens.split_off(0)?;
    let room = count_cells(own.as_slice());
    cells_with_capacity(alloc, own, room)
}

/// The cells of a text of this class, which has no carriage return at its end.
#[tactic(auto, using(crate::proofs::CellLaws::none_in))]
fn cells_in(alloc: Global, class: LineClass, text: &[u8]) -> Result<Vec<Cell>, AllocError>
    ensures value { IfOk result (λ cells. cells.items ≡ cells_of (tokens_in class text.now)) }
    ensures silent { has_tokens class ≡ false → IsOk result }
{
    let tokens = tokens_in(alloc, class, text)?;
    match class {
        LineClass::Music => cells_of_music(alloc, tokens),
        LineClass::Blank | LineClass::Comment | LineClass::Field(_) | LineClass::Directive => {
            cells_with_capacity(alloc, tokens, 1)
        }
    }
}

/// The cells of a line, by its tokens. Counts one line scanned, also if an allocation fails; a blank line and a comment
/// allocate nothing.
#[tactic(auto, unfolding(crate::specs::Line::tokens_of))]
pub fn cells_of_line(alloc: Global, line: &[u8], work: &mut Work) -> Result<Vec<Cell>, AllocError>
    ensures value { IfOk result (λ cells. cells.items ≡ cells_of (tokens_of line.now)) }
    ensures silent { has_tokens (class_of line.now) ≡ false → IsOk result }
    ensures counted { work.new ≡ record work.old { scanned = raised work.old.scanned 1 } }
{
    work.count_scanned();
    cells_in(alloc, class_of(line), without_return(line))
}
