//! The pieces that the chain of a block is made from.

ghost use Rattle.std.specs.Prelude.{◌≡◌, ◌<◌, [], ◌∷◌, ◌++◌, All, IfOk, IfSome, OnErr, OnOk, Some, length, slice_get, true};
ghost use Rattle.std.specs.Option.{IsSomeAnd};
ghost use Rattle.abc_live_text.specs.PieceEnd.{EndsAt, LiesAt};
ghost use Rattle.abc_live_text.specs.Pieces.{IsCarried, address_from, cells_over, entries_at};
ghost use Rattle.abc_live_text.specs.Pieces.{kept_state_in, kept_states_in, kept_states_of, kept_states_over};
ghost use Rattle.abc_live_text.specs.Refold.{IsRefold, LiesInRefold};
ghost use Rattle.abc_fold.specs.Chain.{Folds, IsKeptAt};
ghost use Rattle.abc_fold.specs.Following.{FollowsLast};
ghost use Rattle.abc_fold.specs.Piece.{IsKept, cell_of, cells_of};
ghost use Rattle.abc_fold.specs.Steps.{IsResumable, Steps};
ghost use Rattle.abc_live_cost.specs.KeptState.{kept_state_at};

use crate::origin::{CarriedRow, Origin, item_at};
use crate::refold::Refold;
use abc_book::Block;
use abc_fold::{Chain, Fold, Piece, Pieces, Shared};
use std::alloc::AllocError;

/// Returns how many cells a chain has.
fn count_of<F: Fold>(chain: &Shared<Chain<F>>) -> usize
    ensures { result ≡ length chain.now.cells }
{
    chain.get().len()
}

/// Returns the kept piece of a chain's cell at index `i`.
fn kept_piece<F: Fold>(chain: &Shared<Chain<F>>, i: usize) -> Result<Piece<F>, AllocError>
    requires { i < length chain.now.cells }
    ensures place { IfOk result (λ piece. IsKeptAt chain.now i piece) }
    ensures resumable { (steps : Steps F.State F.Cell F.Items) (opening : F.State) → IsResumable steps
        → Folds steps opening chain.now →
        IfOk result (λ piece. IsKept steps piece) }
{
    chain.get().kept(i)
}

/// Appends a piece. `known`: it follows the last one.
#[inline(always)]
fn append<F: Fold>(pieces: &mut Pieces<F>, piece: Piece<F>, known: bool) -> Result<(), AllocError>
    requires { known ≡ true → FollowsLast pieces.old piece }
    ensures ok { OnOk result (pieces.new ≡ pieces.old ++ piece ∷ []) }
    ensures unchanged { OnErr result (pieces.new ≡ pieces.old) }
{
    if known {
        return pieces.push_following(piece);
    }
    pieces.push(piece)
}

/// Returns the number of cells of some rows. No result depends on it.
fn room_for<C: Drop>(rows: &[CarriedRow<C>]) -> usize {
    let mut room: usize = 0;
    for row in rows {
        room = room.saturating_add(row.cells().len());
    }
    room
}

impl<F: Fold> Refold<'_, F> {
    /// Returns the piece of a line's cell at index `k`: a kept one if an old chain holds the cell, or a new one.
    fn piece_at(&self, row: &CarriedRow<F::Cell>, k: usize) -> Result<Piece<F>, AllocError>
        requires inside { k < length row.now.cells }
        requires carried { IsCarried self.now.chains.now.items row.now }
        requires refold { IsRefold (F.steps self.now.fold.now) self.now }
        ensures cell { IfOk result (λ piece. slice_get row.now.cells k ≡ Some (cell_of piece)) }
        ensures state { IfOk result (λ piece. kept_state_in piece
            ≡ kept_state_at (entries_at self.now.chains.now.items) (address_from k row.now.origin)) }
        ensures sound { IfOk result (λ piece. IsKept (F.steps self.now.fold.now) piece) }
        ensures place { IfOk result (λ piece. LiesAt self.now.chains.now.items (address_from k row.now.origin) piece) }
    {
        match &row.origin {
            None => {
                let cell = F::copy_cell(self.chains.allocator(), &row.cells.get().as_slice()[k])?;
                Ok(Piece::New(cell))
            }
            Some(origin) => {
                let chain = item_at(self.chains, origin.source);
                // For the prover: the count of a chain's cells fits.
                let _ = count_of(chain);
                kept_piece(chain, origin.first + k)
            }
        }
    }

    /// Appends the pieces of a line. `known`: the first follows the last piece in an old chain.
    fn append_cells(
        &self,
        row: &CarriedRow<F::Cell>,
        known: bool,
        pieces: &mut Pieces<F>,
    ) -> Result<(), AllocError>
        requires carried { IsCarried self.now.chains.now.items row.now }
        requires refold { IsRefold (F.steps self.now.fold.now) self.now }
        requires sound { All (IsKept (F.steps self.now.fold.now)) pieces.old }
        requires known { known ≡ true
            → IsSomeAnd (address_from 0 row.now.origin) (λ at. EndsAt self.now.chains.now.items pieces.old at.0 at.1) }
        ensures cells { OnOk result (cells_of pieces.new ≡ cells_of pieces.old ++ row.now.cells) }
        ensures kept_states { OnOk result (kept_states_in pieces.new ≡ kept_states_in pieces.old
            ++ kept_states_of self.now.chains.now.items row.now) }
        ensures sound { All (IsKept (F.steps self.now.fold.now)) pieces.new }
        ensures ends { 0 < length row.now.cells → OnOk result (IfSome (address_from (length row.now.cells) row.now.origin)
            (λ at. EndsAt self.now.chains.now.items pieces.new at.0 at.1)) }
    {
        let count = row.cells().len();
        let mut known = known;
        for k in 0..count {
            let piece = self.piece_at(row, k)?;
            append(pieces, piece, known)?;
            known = row.has_origin();
        }
        Ok(())
    }

    /// Appends the pieces of a line. It takes and returns the place in an old chain at which the last piece ends, if known.
    fn append_row(
        &self,
        row: &CarriedRow<F::Cell>,
        end: Option<Origin>,
        pieces: &mut Pieces<F>,
    ) -> Result<Option<Origin>, AllocError>
        requires carried { IsCarried self.now.chains.now.items row.now }
        requires refold { IsRefold (F.steps self.now.fold.now) self.now }
        requires sound { All (IsKept (F.steps self.now.fold.now)) pieces.old }
        requires ends { IfSome end (λ end. EndsAt self.now.chains.now.items pieces.old end.source end.first) }
        ensures cells { OnOk result (cells_of pieces.new ≡ cells_of pieces.old ++ row.now.cells) }
        ensures kept_states { OnOk result (kept_states_in pieces.new ≡ kept_states_in pieces.old
            ++ kept_states_of self.now.chains.now.items row.now) }
        ensures sound { All (IsKept (F.steps self.now.fold.now)) pieces.new }
        ensures ends { IfOk result (λ end. IfSome end (λ end. EndsAt self.now.chains.now.items pieces.new end.source end.first)) }
    {
        if row.cells().len() == 0 {
            return Ok(end);
        }
        self.append_cells(row, row.goes_on(&end), pieces)?;
        Ok(row.end())
    }

    /// Returns the pieces of the cells of a block.
    pub(crate) fn pieces_of(&self, block: &Block) -> Result<Pieces<F>, AllocError>
        requires refold { IsRefold (F.steps self.now.fold.now) self.now }
        requires within { LiesInRefold self.now block.now }
        ensures cells { IfOk result (λ pieces. cells_of pieces ≡ cells_over self.now.rows.now block.now) }
        ensures kept_states { IfOk result (λ pieces. kept_states_in pieces
            ≡ kept_states_over self.now.chains.now.items self.now.rows.now block.now) }
        ensures sound { IfOk result (λ pieces. All (IsKept (F.steps self.now.fold.now)) pieces) }
    {
        let rows = self.rows;
        let room = room_for(&rows[block.from..block.to]);
        let mut pieces = Pieces::with_capacity(self.chains.allocator(), room)?;
        let mut end = None;
        for i in block.from..block.to {
            end = self.append_row(&rows[i], end, &mut pieces)?;
        }
        Ok(pieces)
    }
}
