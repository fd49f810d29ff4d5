//! Laws of every book. Each function has no body: its contract is the law.

ghost use Rattle.abc_tune_compiler.specs.Embedding.{HasSameBook, HasSameTune};
ghost use Rattle.abc_tune_compiler.specs.Laws.{FirstOwner, NoFaultLost, FaultsRise, CellsMove, ItemsMove, FaultsMove};
ghost use Rattle.abc_tune_compiler.specs.Laws.{TunesMove, FaultsInLines, NoLinesNoBook};

/// The first tune of a number that has a file gives the number's file.
pub fn first_owner()
    ensures { FirstOwner }
{}

/// The faults of a book are those of its text, each once, in order.
pub fn each_fault_once()
    ensures members { NoFaultLost }
    ensures rise { FaultsRise }
{}

/// What a tune gives does not depend on its place in the text, except for the lines of its faults.
pub fn tunes_move<State, Cell, Items, Defaults>()
    ensures cells { CellsMove Cell }
    ensures items { ItemsMove State Cell Items }
    ensures faults { FaultsMove Items }
    ensures tunes { TunesMove State Cell Items Defaults }
{}

/// Each fault of a tune is in one of its lines.
pub fn faults_are_in_tunes<State, Cell, Items, Defaults>()
    ensures { FaultsInLines State Cell Items Defaults }
{}

/// The book of a text without lines is empty.
pub fn no_lines_no_book<State, Cell, Items, Defaults>()
    ensures { NoLinesNoBook State Cell Items Defaults }
{}

/// A compiler inside another one makes the same as that one of lines that both read alike: the same tunes, and of a text of such
/// lines the same book.
pub fn compilers_in_others<
    State,
    Cell,
    Items,
    Defaults,
    OuterState,
    OuterCell,
    OuterItems,
    OuterDefaults,
>()
    ensures tunes { HasSameTune State Cell Items Defaults OuterState OuterCell OuterItems OuterDefaults }
    ensures book { HasSameBook State Cell Items Defaults OuterState OuterCell OuterItems OuterDefaults }
{}
