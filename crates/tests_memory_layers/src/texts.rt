//! Lines that are cut into tokens and cells, copies of what tokens hold, and the blocks of a text.

use crate::notes::chord_of;
use crate::report::{call, done};
use abc_book::blocks;
use abc_fold::Work;
use abc_scan::{ChordPartKind, Field, LineClass, Token, cells, cells_of_line, class_of, scan};
use abc_text::Sequence;
use std::alloc::{AllocError, Global};
use std::rt::Runtime;

/// A line of all sorts of tokens, 28 in three cells.
const LINE: &[u8] = b"|:C ^D,/2 [CEG]2 z\"Am\"(3def !f![K:G] A>B-|[1,3 c C:|";

/// The tokens of the line.
fn tokens<R: Runtime>(rt: &R, alloc: Global) -> Result<Vec<Token>, AllocError> {
    scan(alloc, LINE, &mut Work::mint(rt))
}

/// The line, cut.
pub fn cut_line<R: Runtime>(rt: &R, alloc: Global) -> Result<bool, AllocError> {
    call(rt, "scan");
    let tokens = tokens(rt, alloc)?;
    done(rt);
    Ok(tokens.len() == 28)
}

/// Its tokens as cells.
pub fn cells_of_tokens<R: Runtime>(rt: &R, alloc: Global) -> Result<bool, AllocError> {
    let tokens = tokens(rt, alloc)?;
    call(rt, "cells");
    let cells = cells(alloc, &tokens)?;
    done(rt);
    Ok(cells.len() == 3)
}

/// The line, cut into cells.
pub fn line_into_cells<R: Runtime>(rt: &R, alloc: Global) -> Result<bool, AllocError> {
    call(rt, "cells_of_line");
    let cells = cells_of_line(alloc, LINE, &mut Work::mint(rt))?;
    done(rt);
    Ok(cells.len() == 3)
}

/// A chord again.
pub fn copy_chord(rt: &impl Runtime, alloc: Global) -> Result<bool, AllocError> {
    let chord = chord_of(alloc, &[ChordPartKind::Tie])?;
    call(rt, "Chord::clone");
    let copy = chord.clone()?;
    done(rt);
    Ok(copy.parts.len() == 1)
}

/// A title again.
pub fn copy_field(rt: &impl Runtime, alloc: Global) -> Result<bool, AllocError> {
    let field = Field {
        letter: b'T',
        value: Sequence::from_slice(alloc, b"A")?,
    };
    call(rt, "Field::clone");
    let copy = field.clone()?;
    done(rt);
    Ok(copy.letter == b'T' && copy.value.as_slice() == b"A".as_slice())
}

/// The classes of a file header and two tunes.
fn classes() -> [LineClass; 7] {
    [
        class_of(b"M:3/4"),
        class_of(b""),
        class_of(b"X:1"),
        class_of(b"K:C"),
        class_of(b"C"),
        class_of(b"X:2"),
        class_of(b"K:C"),
    ]
}

/// Their blocks.
pub fn blocks_of_text(rt: &impl Runtime, alloc: Global) -> Result<bool, AllocError> {
    let classes = classes();
    call(rt, "blocks");
    let blocks = blocks(alloc, &classes)?;
    done(rt);
    Ok(blocks.len() == 3)
}
