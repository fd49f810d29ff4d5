//! Laws of a kept book: chains give what the definitions of their compiler give, and what is changed by differences is
//! what the whole text gives. Each function has no body: its contract is the law.

ghost use Rattle.abc_live_index.specs.Laws.{FaultsMeet, FilesFollow, TitlesFollow};
ghost use Rattle.abc_live_index.specs.ReusedOutputs.{ItemsSuffice, TouchedSuffice};
ghost use Rattle.abc_live_index.specs.Tunes.{CellsFollow, FaultsFollow, HeaderFollows, OutputFollows};

/// A chain that is the fold over the lines of a place has the cells of these lines.
pub fn cells_follow<State, Cell, Items>()
    ensures { CellsFollow State Cell Items }
{}

/// The chains of places give the number, the title and the bytes of their tunes, the faults of these, and those of the
/// file header.
pub fn tunes_follow<State, Cell, Items, Defaults>()
    ensures output { OutputFollows State Cell Items Defaults }
    ensures faults { FaultsFollow State Cell Items Defaults }
    ensures header { HeaderFollows State Cell Items Defaults }
{}

/// Chains with equal items give the same, and if each untouched tune reuses the output of an old one, only touched ones
/// are built.
pub fn reused_outputs_suffice<State, Cell, Items, Defaults>()
    ensures items { ItemsSuffice State Cell Items Defaults }
    ensures touched { TouchedSuffice State Cell Items Defaults }
{}

/// Tunes and outputs that give the same give the same files and titles.
pub fn outputs_follow()
    ensures files { FilesFollow }
    ensures titles { TitlesFollow }
{}

/// Replacing the faults of a stretch of lines gives the faults of the text in which the stretch is replaced.
pub fn faults_meet()
    ensures { FaultsMeet }
{}
