//! Pieces, and chains of the fold over lines of the toy language.

ghost use Rattle.std.specs.Prelude.{◌≡◌, ◌<◌, [], ◌∷◌, All, IfOk, length};
ghost use Rattle.abc_fold.specs.Chain.{Folds};
ghost use Rattle.abc_fold.specs.Piece.{IsKept};
ghost use Rattle.abc_fold.specs.declared.piece.Piece.TheVariants.{New};
ghost use Rattle.tests_live.specs.Toy.{toy_steps};

use abc_fold::{Chain, Piece, Pieces, Work};
use abc_text::Sequence;
use std::alloc::{AllocError, Global};
use std::rt::Runtime;
use tests_live::toy::Toy;
use tests_memory_layers::report::{call, done, silent};
use tests_memory_layers::retry;

/// A line, to be folded.
fn new_piece(alloc: Global, line: &[u8]) -> Result<Piece<Toy>, AllocError>
    ensures { IfOk result (λ piece. piece ≡ New line.now) }
{
    Ok(Piece::New(Sequence::from_slice(alloc, line)?))
}

/// The chain of two lines after the byte `0`.
pub fn chain_of(
    alloc: Global,
    first: &[u8],
    second: &[u8],
    work: &mut Work,
) -> Result<Chain<Toy>, AllocError>
    ensures cells { IfOk result (λ chain. chain.cells ≡ first.now ∷ second.now ∷ []) }
    ensures folds { IfOk result (λ chain. Folds toy_steps 48 chain) }
{
    let mut pieces = Vec::new(alloc);
    pieces.push(new_piece(alloc, first)?)?;
    pieces.push(new_piece(alloc, second)?)?;
    let mut chain = Chain::new(alloc)?;
    let patch = chain.prepare(&Toy, &b'0', &pieces, work)?;
    chain.commit(patch);
    Ok(chain)
}

/// A chain whose first line sets the byte before the second.
fn chain(alloc: Global, work: &mut Work) -> Result<Chain<Toy>, AllocError>
    ensures cells { IfOk result (λ chain. length chain.cells ≡ 2) }
    ensures folds { IfOk result (λ chain. Folds toy_steps 48 chain) }
{
    chain_of(alloc, b"D:5", b"c", work)
}

/// Room for two pieces, and one of them.
pub fn room_for_pieces(rt: &impl Runtime, alloc: Global) -> Result<bool, AllocError> {
    call(rt, "Pieces::with_capacity");
    let mut pieces: Pieces<Toy> = Pieces::with_capacity(alloc, 2)?;
    done(rt);
    pieces.push(Piece::New(Sequence::new(alloc)))?;
    Ok(pieces.as_slice().len() == 1)
}

/// An empty cell, which allocates nothing itself.
pub fn piece(rt: &impl Runtime, alloc: Global) -> Result<bool, AllocError> {
    let mut pieces: Pieces<Toy> = Pieces::new(alloc);
    call(rt, "Pieces::push");
    retry!(
        rt,
        pieces.push(Piece::New(Sequence::new(alloc))),
        pieces.as_slice().is_empty(),
        pieces.as_slice().len() == 1
    )
}

/// The same of a piece of a chain, whose copy allocates nothing.
pub fn following_piece<R: Runtime>(rt: &R, alloc: Global) -> Result<bool, AllocError> {
    let chain = chain_of(alloc, b"", b"", &mut Work::mint(rt))?;
    let mut pieces = Pieces::new(alloc);
    call(rt, "Pieces::push_following");
    retry!(
        rt,
        pieces.push_following(chain.kept(0)?),
        pieces.as_slice().is_empty(),
        pieces.as_slice().len() == 1
    )
}

/// Whether a piece is the second line of the chain.
fn is_second_line(piece: &Piece<Toy>) -> bool {
    match piece {
        Piece::New(_) => false,
        Piece::Kept {
            cell,
            entered,
            left,
            ..
        } => { cell.as_slice() == b"c".as_slice() && *entered == b'5' && *left == b'5' }
    }
}

/// Returns the second line of a chain.
pub fn kept_piece<R: Runtime>(rt: &R, alloc: Global) -> Result<bool, AllocError> {
    let chain = chain(alloc, &mut Work::mint(rt))?;
    call(rt, "Chain::kept");
    let piece = chain.kept(1)?;
    done(rt);
    Ok(is_second_line(&piece))
}

/// Returns the first line of a chain.
fn first_kept_piece(chain: &Chain<Toy>) -> Result<Piece<Toy>, AllocError>
    requires some { 0 < length chain.now.cells }
    requires folds { Folds toy_steps 48 chain.now }
    ensures { IfOk result (λ piece. IsKept toy_steps piece) }
{
    chain.kept(0)
}

/// Returns the first line of a chain, and another line after it.
fn pieces_of(alloc: Global, chain: &Chain<Toy>) -> Result<Pieces<Toy>, AllocError>
    requires some { 0 < length chain.now.cells }
    requires folds { Folds toy_steps 48 chain.now }
    ensures { IfOk result (λ pieces. All (IsKept toy_steps) pieces) }
{
    let mut pieces = Pieces::new(alloc);
    pieces.push_following(first_kept_piece(chain)?)?;
    pieces.push(new_piece(alloc, b"d")?)?;
    Ok(pieces)
}

/// The chain of these pieces.
pub fn prepared_chain<R: Runtime>(rt: &R, alloc: Global) -> Result<bool, AllocError> {
    let mut work = Work::mint(rt);
    let chain = chain(alloc, &mut work)?;
    let pieces = pieces_of(alloc, &chain)?;
    call(rt, "Chain::prepare");
    let patch = chain.prepare(&Toy, &b'0', pieces.as_slice(), &mut work)?;
    done(rt);
    let count = patch.len();
    silent(rt, "ChainPatch::drop_patch");
    patch.drop_patch();
    done(rt);
    Ok(count == 2)
}

/// The same of pieces that are known to follow each other.
pub fn prepared_pieces<R: Runtime>(rt: &R, alloc: Global) -> Result<bool, AllocError> {
    let mut work = Work::mint(rt);
    let mut chain = chain(alloc, &mut work)?;
    let pieces = pieces_of(alloc, &chain)?;
    call(rt, "Chain::prepare_pieces");
    let patch = chain.prepare_pieces(&Toy, &b'0', &pieces, &mut work)?;
    done(rt);
    silent(rt, "Chain::commit");
    chain.commit(patch);
    done(rt);
    Ok(chain.len() == 2)
}
