//! The blocks of a text, in one pass over the classes of its lines.

ghost use Rattle.std.specs.Prelude.{◌≡◌, ◌<◌, ◌++◌, IfOk, OnOk};
ghost use Rattle.std.specs.Option.{option_to_list};
ghost use Rattle.abc_book.specs.Block.{blocks_of};
ghost use Rattle.abc_book.specs.Pass.{one_line, with_line, after_line, block_ended_by, last_block};

use crate::block::{Block, BlockKind};
use abc_scan::LineClass;
use std::alloc::{AllocError, Global};

/// The block that is open before a line.
#[derive(Clone, Copy)]
pub(crate) enum OpenBlock {
    /// Only comments and blank lines so far.
    Nothing,
    /// A block that may go on.
    Inside(Block),
    /// A block and a blank line after it.
    Ended,
}

/// A block of one line.
fn one_line(kind: BlockKind, at: usize) -> Block
    requires { at < usize.MAX }
    ensures { result ≡ one_line kind at }
{
    Block {
        kind,
        from: at,
        to: at + 1,
    }
}

/// Returns the block of a line without X:. `opening` is the kind of a block that begins at the line.
fn with_line(opening: BlockKind, before: OpenBlock, at: usize) -> Block
    requires { at < usize.MAX }
    ensures { result ≡ with_line opening before at }
{
    match before {
        OpenBlock::Nothing => one_line(opening, at),
        OpenBlock::Inside(block) => Block {
            to: at + 1,
            ..block
        },
        OpenBlock::Ended => one_line(BlockKind::Free, at),
    }
}

/// The block that is open before the next line.
fn after_line(before: OpenBlock, at: usize, class: LineClass) -> OpenBlock
    requires { at < usize.MAX }
    ensures { result ≡ after_line before at class }
{
    match class {
        LineClass::Comment => before,
        LineClass::Blank => match before {
            OpenBlock::Nothing => OpenBlock::Nothing,
            OpenBlock::Inside(_) | OpenBlock::Ended => OpenBlock::Ended,
        },
        LineClass::Field(b'X') => OpenBlock::Inside(one_line(BlockKind::Tune, at)),
        LineClass::Field(_) | LineClass::Directive => OpenBlock::Inside(with_line(
            BlockKind::FileHeader,
            before,
            at,
        )),
        LineClass::Music => OpenBlock::Inside(with_line(BlockKind::Free, before, at)),
    }
}

/// The block that is open at the end of a text.
fn last_block(before: OpenBlock) -> Option<Block>
    ensures { option_to_list result ≡ last_block before }
{
    match before {
        OpenBlock::Inside(block) => Some(block),
        OpenBlock::Nothing | OpenBlock::Ended => None,
    }
}

/// The block before a line that the line ends.
fn block_ended_by(before: OpenBlock, class: LineClass) -> Option<Block>
    ensures { option_to_list result ≡ block_ended_by before class }
{
    match class {
        LineClass::Blank | LineClass::Field(b'X') => last_block(before),
        LineClass::Comment | LineClass::Field(_) | LineClass::Directive | LineClass::Music => None,
    }
}

/// Appends a block that ends here, if there is one.
fn append(blocks: &mut Vec<Block>, block: Option<Block>) -> Result<(), AllocError>
    ensures { OnOk result (blocks.new.items ≡ blocks.old.items ++ option_to_list block) }
{
    match block {
        Some(block) => Ok(blocks.push(block)?),
        None => Ok(()),
    }
}

/// Returns the blocks of a text, in order, by the classes of its lines (ABC 2.1 section 2.2), or an error if an
/// allocation fails.
pub fn blocks(alloc: Global, classes: &[LineClass]) -> Result<Vec<Block>, AllocError>
    ensures value { IfOk result (λ blocks. blocks.items ≡ blocks_of classes.now) }
{
    let mut blocks = Vec::new(alloc);
    let mut before = OpenBlock::Nothing;
    for (at, class) in classes.iter().enumerate() {
        append(&mut blocks, block_ended_by(before, *class))?;
        before = after_line(before, at, *class);
    }
    append(&mut blocks, last_block(before))?;
    Ok(blocks)
}
