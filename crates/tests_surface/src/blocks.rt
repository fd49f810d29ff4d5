//! The blocks of a text, by `abc_book`.

ghost use Rattle.std.specs.Prelude.{◌≡◌, IfOk};
ghost use Rattle.abc_book.specs.Block.{blocks_of};

use abc_book::{Block, BlockKind, LineClass, blocks};
use std::alloc::{AllocError, Global};

/// Returns the blocks of a text.
pub fn text_blocks(alloc: Global, classes: &[LineClass]) -> Result<Vec<Block>, AllocError>
    ensures value { IfOk result (λ blocks. blocks.items ≡ blocks_of classes.now) }
{
    blocks(alloc, classes)
}

/// Returns where a tune begins and ends.
pub fn tune_range(block: Block) -> Option<(usize, usize)> {
    match block.kind {
        BlockKind::Tune => Some((block.from, block.to)),
        BlockKind::FileHeader | BlockKind::Free => None,
    }
}
