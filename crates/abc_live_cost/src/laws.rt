//! Laws on the cost of an edit. The rows that code walks along have the fresh cells and the touched tunes of the
//! definitions. An edit may reuse the items of an old chain. Each function has no body: its contract is the law.

ghost use Rattle.abc_live_cost.specs.EditLaws.{CarriedCells, CellsAreThings, KeptStatesMatch, StepsAreFresh, UntouchedItems};
ghost use Rattle.abc_live_cost.specs.Laws.{ChainsLieInOrder, EditsCount, EnteredAreItems, LinesSuffice, NthOfLine, OriginsAgree};
ghost use Rattle.abc_live_cost.specs.Laws.{PastsHaveStates, PastsNameCells, PiecesDecide, RowsAgree, RowsCountFreshCells};
ghost use Rattle.abc_live_cost.specs.WorkedEdits.{WorkedEdits};

/// The file header and the tunes of a text follow one another within it.
pub fn chains_lie_in_order<State, Cell, Items, Defaults>()
    ensures { ChainsLieInOrder State Cell Items Defaults }
{}

/// The states in which cells are entered are those of the book's fold, and a cell is found at its line
/// and its place in it.
pub fn entered_states<State, Cell, Items>()
    ensures items { EnteredAreItems State Cell Items }
    ensures nth { NthOfLine State Cell Items }
{}

/// The past of a cell by the rows is its entry in the old text.
pub fn rows_agree<State, Cell, Items>()
    ensures { RowsAgree State Cell Items }
{}

/// Counted along the rows, the fresh cells are those of the definition.
pub fn rows_count_fresh_cells<State, Cell, Items, Defaults>()
    ensures count { RowsCountFreshCells State Cell Items }
    ensures edits { EditsCount State Cell Items Defaults }
{}

/// A tune is untouched by its pieces exactly if it is by its lines.
pub fn pieces_decide<State, Cell, Items>()
    ensures { PiecesDecide State Cell Items }
{}

/// Whether a tune has all cells of an old one follows from the lines of the cells alone.
pub fn lines_suffice<State, Cell, Items>()
    ensures { LinesSuffice State Cell Items }
{}

/// The origins of lines agree with the rows, and the old chains have the states of the pasts.
pub fn origins_agree<State, Cell, Items>()
    ensures origins { OriginsAgree State Cell Items }
    ensures pasts { PastsHaveStates State Cell Items }
{}

/// A past is the cell of the chain and place that it names.
pub fn pasts_name_cells<State, Cell, Items>()
    ensures { PastsNameCells State Cell Items }
{}

/// The cells of a chain are those that its lines have in the book. If all cells of an old chain are carried to a new one, in
/// order, both have the same cells.
pub fn carried_cells<State, Cell, Items>()
    ensures things { CellsAreThings State Cell }
    ensures carried { CarriedCells State Cell Items }
{}

/// The cells of an untouched tune give the items of an old one.
pub fn untouched_items<State, Cell, Items>()
    ensures { UntouchedItems State Cell Items }
{}

/// If the kept states match the pasts of a chain's cells, the steps along it are its fresh cells.
pub fn steps_are_fresh<State, Cell, Items>()
    ensures { StepsAreFresh State Cell Items }
{}

/// If the old chains keep states equivalent to those from scratch, the kept states of a new chain match its cells' pasts.
pub fn kept_states_match<State, Cell, Items>()
    ensures { KeptStatesMatch State Cell Items }
{}

/// The counts of edits of small texts, worked by hand.
pub fn worked_edits()
    ensures { WorkedEdits }
{}
