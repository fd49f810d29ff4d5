//! The pieces of a chain from one place to another, to be reused.

ghost use Rattle.std.specs.Prelude.{◌≤◌, All, length};
ghost use Rattle.abc_fold.specs.Chain.{Folds};
ghost use Rattle.abc_fold.specs.Piece.{IsKept};
ghost use Rattle.abc_fold.specs.Steps.{Steps, IsResumable};

use abc_fold::{Chain, Fold, Piece};
use std::alloc::AllocError;

/// Appends the cells from one place to another, with their states and results.
pub(crate) fn append_kept<F: Fold>(
    chain: &Chain<F>,
    pieces: &mut Vec<Piece<F>>,
    from: usize,
    to: usize,
) -> Result<(), AllocError>
    requires { to ≤ length chain.now.cells }
    ensures { (steps : Steps F.State F.Cell F.Items) (opening : F.State) → IsResumable steps → Folds steps opening chain.now →
        All (IsKept steps) pieces.old.items → All (IsKept steps) pieces.new.items }
{
    for i in from..to {
        let piece = chain.kept(i)?;
        pieces.push(piece)?;
    }
    Ok(())
}
