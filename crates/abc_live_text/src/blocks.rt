//! Where the file header and the tunes of a text lie.

ghost use Rattle.std.specs.Prelude.{◌≡◌, ◌∷◌, IfOk, map};
ghost use Rattle.abc_book.specs.Block.{blocks_of};
ghost use Rattle.abc_live_text.specs.Pieces.{class_in};
ghost use Rattle.abc_live_text.specs.Chains.{header_place};
ghost use Rattle.abc_tune_compiler.specs.Book.{header_in, is_file_header, is_tune, tunes_in};

use crate::origin::CarriedRow;
use abc_book::{Block, BlockKind, blocks};
use abc_scan::LineClass;
use std::alloc::{AllocError, Global};

/// Whether a block is a file header.
fn is_file_header(kind: BlockKind) -> bool
    ensures { result ≡ is_file_header kind }
{
    match kind {
        BlockKind::FileHeader => true,
        BlockKind::Tune | BlockKind::Free => false,
    }
}

/// Whether a block is a tune.
fn is_tune(kind: BlockKind) -> bool
    ensures { result ≡ is_tune kind }
{
    match kind {
        BlockKind::Tune => true,
        BlockKind::FileHeader | BlockKind::Free => false,
    }
}

/// Returns the file header, if there is one: no other block comes before it.
pub(crate) fn header_in(blocks: &[Block]) -> Option<Block>
    ensures { result ≡ header_in blocks.now }
{
    match blocks {
        [] => None,
        [block, ..] => {
            if is_file_header(block.kind) {
                Some(*block)
            } else {
                None
            }
        }
    }
}

/// Returns the tunes of a text in order.
pub(crate) fn tunes_in(alloc: Global, blocks: &[Block]) -> Result<Vec<Block>, AllocError>
    ensures { IfOk result (λ tunes. tunes.items ≡ tunes_in blocks.now) }
{
    blocks
        .iter()
        .copied()
        .filter(|block| is_tune(block.kind))
        .collect(alloc)
}

/// Returns the blocks of a text with these rows.
pub(crate) fn blocks_of<K: Drop>(
    alloc: Global,
    rows: &[CarriedRow<K>],
) -> Result<Vec<Block>, AllocError>
    ensures { IfOk result (λ blocks. blocks.items ≡ blocks_of (map class_in rows.now)) }
{
    let mut classes: Vec<LineClass> = Vec::with_capacity(alloc, rows.len())?;
    for row in rows {
        classes.push(row.class())?;
    }
    blocks(alloc, &classes)
}

/// Returns the place of the file header; without one, an empty place.
fn header_place(header: Option<Block>) -> Block
    ensures { result ≡ header_place header }
{
    match header {
        None => Block {
            kind: BlockKind::Free,
            from: 0,
            to: 0,
        },
        Some(block) => block,
    }
}

/// Returns the places of the chains of a text, in order.
pub(crate) fn places_of(
    alloc: Global,
    header: Option<Block>,
    tunes: &[Block],
) -> Result<Vec<Block>, AllocError>
    ensures { IfOk result (λ places. places.items ≡ header_place header ∷ tunes.now) }
{
    let mut places = Vec::new(alloc);
    places.push(header_place(header))?;
    places.extend_from_slice(tunes)?;
    Ok(places)
}
