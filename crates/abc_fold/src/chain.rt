//! Chains of cells with their states and items, and prepared chains.

ghost use Rattle.std.specs.Prelude.{◌≡◌, ◌<◌, All, IfOk, IsOk, Some, length, option_copied, slice_get, true};
ghost use Rattle.abc_fold.specs.Chain.{ChainView, Folds, IsKeptAt, no_cells};
ghost use Rattle.abc_fold.specs.Following.{AreMarked};
ghost use Rattle.abc_fold.specs.Piece.{IsKept, cells_of, steps_needed};
ghost use Rattle.abc_fold.specs.Steps.{Steps, IsResumable};
ghost use Rattle.abc_fold.specs.Work.{IsRaisedUpTo};

use crate::piece::{cell_in, is_taken, pass_piece};
use crate::{Counts, Fold, Piece, Pieces};
use abc_lines::GapList;
use abc_text::Snapshot;
use std::alloc::{AllocError, Global};
use std::marker::Model;

/// Cells, the items of each, and the states in which each is entered and the last is left. Contracts see the three lists.
#[derive(Drop)]
pub struct Chain<F: Fold> {
    states: GapList<F::State>,
    cells: GapList<F::Cell>,
    items: GapList<F::Items>,
}

impl<F: Fold> Model for Chain<F> {
    ghost use Rattle.abc_fold.specs.Chain.{ChainView, HasShape};

    ghost Value = { ChainView F.State F.Cell F.Items };

    ghost view = { λ c. record { entries = c.states.items; cells = c.cells.items; items = c.items.items } };

    ghost invariant = { λ c. HasShape c.states.items c.cells.items c.items.items };
}

/// A prepared chain that may replace another, with all the memory that it needs. `prepare` and `prepare_pieces` of the other
/// chain return it. `commit` of that chain or `drop_patch` must spend it. Contracts see both chains.
pub struct ChainPatch<F: Fold> {
    on: Snapshot<Chain<F>>,
    next: Chain<F>,
}

impl<F: Fold> Model for ChainPatch<F> {
    ghost use Rattle.abc_fold.specs.Chain.{ChainView, ChainPatchView};

    ghost Value = { ChainPatchView F.State F.Cell F.Items };

    ghost view = { λ p. record { on = p.on.value; after = p.next } };
}

impl<F: Fold> Chain<F> {
    /// Returns a chain with no cells and no state. It allocates nothing and returns no error.
    pub fn new(alloc: Global) -> Result<Chain<F>, AllocError>
        ensures no_cells { IfOk result (λ chain. chain ≡ no_cells) }
        ensures succeeds { IsOk result }
    {
        Ok(Chain {
            states: GapList::with_room(alloc, 0)?,
            cells: GapList::with_room(alloc, 0)?,
            items: GapList::with_room(alloc, 0)?,
        })
    }

    /// The allocator that the chain is from.
    fn allocator(&self) -> Global {
        self.states.allocator()
    }

    /// Returns the number of cells.
    pub fn len(&self) -> usize
        ensures { result ≡ length self.now.cells }
    {
        self.cells.len()
    }

    /// Returns the state in which the cell at index `i` is entered; at index `len`, the state in which the last cell is left.
    /// Returns none for a greater index, and for every index of a chain that was never committed to.
    pub fn entry(&self, i: usize) -> Option<&F::State>
        ensures { option_copied result ≡ slice_get self.now.entries i }
    {
        self.states.get(i)
    }

    /// Returns the items of the cell at index `i`, or none if the chain has no such cell.
    pub fn items(&self, i: usize) -> Option<&F::Items>
        ensures { option_copied result ≡ slice_get self.now.items i }
    {
        self.items.get(i)
    }

    /// Returns a copy of the cell at index `i` with its states and items, which a chain of the same fold may reuse. It returns an
    /// error if an allocation for the copy fails.
    pub fn kept(&self, i: usize) -> Result<Piece<F>, AllocError>
        requires { i < length self.now.cells }
        ensures place { IfOk result (λ piece. IsKeptAt self.now i piece) }
        ensures resumable { (steps : Steps F.State F.Cell F.Items) (opening : F.State) → IsResumable steps
            → Folds steps opening self.now → IfOk result (λ piece. IsKept steps piece) }
    {
        self.copy_piece(i)
    }

    /// A copy of the cell at index `i` with its states and items.
    fn copy_piece(&self, i: usize) -> Result<Piece<F>, AllocError>
        requires { i < length self.now.cells }
        ensures { IfOk result (λ piece. IsKeptAt self.now i piece) }
    {
        let alloc = self.allocator();
        // For the prover: the number of cells fits a `usize`.
        let _ = self.len();
        Ok(Piece::Kept {
            cell: F::copy_cell(alloc, self.cells.get(i).unwrap())?,
            entered: F::copy_state(alloc, self.states.get(i).unwrap())?,
            left: F::copy_state(alloc, self.states.get(i + 1).unwrap())?,
            items: F::copy_items(alloc, self.items.get(i).unwrap())?,
        })
    }

    /// Prepares the chain of a fold over pieces from an opening state: kept pieces come from `kept` of any chain of this fold. The
    /// chain itself does not change. It returns an error if an allocation fails, its own or one of a step of the fold; only the
    /// counters may have risen then.
    pub fn prepare(
        &self,
        fold: &F,
        opening: &F::State,
        pieces: &[Piece<F>],
        work: &mut F::Work,
    ) -> Result<ChainPatch<F>, AllocError>
        requires { All (IsKept (F.steps fold.now)) pieces.now }
        ensures on { IfOk result (λ patch. patch.on ≡ self.now) }
        ensures cells { IfOk result (λ patch. patch.after.cells ≡ cells_of pieces.now) }
        ensures folds { IfOk result (λ patch. Folds (F.steps fold.now) opening.now patch.after) }
        ensures counted { IsRaisedUpTo (steps_needed (F.steps fold.now) opening.now pieces.now)
            (F.Work.counts work.old) (F.Work.counts work.new) }
    {
        let next = fold_pieces(self.allocator(), fold, opening, pieces, &[], work)?;
        Ok(ChainPatch {
            on: Snapshot::of(self),
            next,
        })
    }

    /// Prepares the chain of a fold over marked pieces, as `prepare` does, with the same errors. After a reused piece it compares
    /// no states at the piece that is marked as following it.
    pub fn prepare_pieces(
        &self,
        fold: &F,
        opening: &F::State,
        pieces: &Pieces<F>,
        work: &mut F::Work,
    ) -> Result<ChainPatch<F>, AllocError>
        requires { All (IsKept (F.steps fold.now)) pieces.now }
        ensures on { IfOk result (λ patch. patch.on ≡ self.now) }
        ensures cells { IfOk result (λ patch. patch.after.cells ≡ cells_of pieces.now) }
        ensures folds { IfOk result (λ patch. Folds (F.steps fold.now) opening.now patch.after) }
        ensures counted { IsRaisedUpTo (steps_needed (F.steps fold.now) opening.now pieces.now)
            (F.Work.counts work.old) (F.Work.counts work.new) }
    {
        let (listed, marks) = (pieces.as_slice(), pieces.marks());
        let next = fold_pieces(self.allocator(), fold, opening, listed, marks, work)?;
        Ok(ChainPatch {
            on: Snapshot::of(self),
            next,
        })
    }

    /// Replaces the chain by a prepared one. It allocates nothing. The patch must be of the chain as it is now.
    pub fn commit(&mut self, patch: ChainPatch<F>)
        requires { patch.on ≡ self.old }
        ensures { self.new ≡ patch.after }
    {
        let ChainPatch { on: _, next } = patch;
        let Chain {
            states,
            cells,
            items,
        } = next;
        self.states.take_over(states);
        self.cells.take_over(cells);
        self.items.take_over(items);
    }
}

impl<F: Fold> ChainPatch<F> {
    /// Returns the number of cells of the prepared chain.
    pub fn len(&self) -> usize
        ensures { result ≡ length self.now.after.cells }
    {
        self.next.len()
    }

    /// Returns the state in which the cell at index `i` of the prepared chain is entered; at index `len`, the state in which the
    /// last cell is left. Returns none for a greater index.
    pub fn entry(&self, i: usize) -> Option<&F::State>
        ensures { option_copied result ≡ slice_get self.now.after.entries i }
    {
        self.next.entry(i)
    }

    /// Returns the items of the cell at index `i` of the prepared chain, or none if it has no such cell.
    pub fn items(&self, i: usize) -> Option<&F::Items>
        ensures { option_copied result ≡ slice_get self.now.after.items i }
    {
        self.next.items(i)
    }

    /// Drops the patch. The chain that it was prepared on does not change. It returns an error if an allocation fails.
    pub fn drop_patch(self) {
        let ChainPatch { on: _, next: _ } = self;
    }
}

/// The chain of a fold over pieces, some of which are marked as following the one before them.
fn fold_pieces<F: Fold>(
    alloc: Global,
    fold: &F,
    opening: &F::State,
    pieces: &[Piece<F>],
    marks: &[bool],
    work: &mut F::Work,
) -> Result<Chain<F>, AllocError>
    requires sound { All (IsKept (F.steps fold.now)) pieces.now }
    requires marked { AreMarked pieces.now marks.now }
    ensures cells { IfOk result (λ chain. chain.cells ≡ cells_of pieces.now) }
    ensures folds { IfOk result (λ chain. Folds (F.steps fold.now) opening.now chain) }
    ensures counted { IsRaisedUpTo (steps_needed (F.steps fold.now) opening.now pieces.now)
        (F.Work.counts work.old) (F.Work.counts work.new) }
{
    let mut state = F::copy_state(alloc, opening)?;
    let count = pieces.len();
    let Some(places) = count.checked_add(1) else {
        return Err(AllocError);
    };
    let mut states = GapList::with_room(alloc, places)?;
    let mut cells = GapList::with_room(alloc, count)?;
    let mut items = GapList::with_room(alloc, count)?;
    let mut is_reused = false;
    for i in 0..count {
        let piece = &pieces[i];
        let cell = cell_in(alloc, piece)?;
        let known = is_known(is_reused, marks, i);
        is_reused = is_taken(fold, &state, piece, known);
        let (left, given) = pass_piece(alloc, fold, &state, piece, is_reused, work)?;
        states.push(state);
        cells.push(cell);
        items.push(given);
        state = left;
    }
    states.push(state);
    Ok(Chain {
        states,
        cells,
        items,
    })
}

/// Whether a piece surely holds as it was kept: the piece before it does, and this one is marked as following it.
fn is_known(is_reused: bool, marks: &[bool], i: usize) -> bool
    ensures before { result ≡ true → is_reused ≡ true }
    ensures marked { result ≡ true → slice_get marks.now i ≡ Some true }
{
    if !is_reused {
        return false;
    }
    match marks.get(i) {
        None => false,
        Some(mark) => *mark,
    }
}
