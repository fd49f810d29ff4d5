//! Tunes, compilers and the memo, by `abc_tune`.

ghost use Rattle.std.specs.Prelude.{◌≡◌, ◌++◌, IfOk, OnErr, OnOk, option_copied};
ghost use Rattle.tests_surface.specs.Tunes.{build_faults_of, bytes_of, line_bytes, AreLawful, promoted, AreItemsOf, Remembers};
ghost use Rattle.tests_surface.specs.Tunes.{Rules, raised};

use abc_tune::{
    Abc, BarFold, Built, Cell, Compiler, Defaults, Entry, FaultCode, Fold, Items, LineClass,
    Sequence, Shared, TuneKey, TuneMemo, Work, build, put_line,
};
use std::alloc::{AllocError, Global};

/// Builds a tune of ABC.
pub fn build_tune(alloc: Global, items: &[Items], work: &mut Work) -> Result<Built, AllocError>
    ensures bytes { IfOk result (λ built. built.bytes ≡ bytes_of items.now) }
    ensures faults { IfOk result (λ built. built.faults ≡ build_faults_of items.now) }
    ensures counted { work.new ≡ record work.old { built = raised work.old.built 1 } }
{
    build(alloc, items, work)
}

/// Returns the file of a tune.
pub fn file_of(built: &Built) -> Option<&[u8]> {
    match &built.bytes {
        Some(bytes) => Some(bytes_in(bytes)),
        None => None,
    }
}

fn bytes_in(bytes: &Shared<Sequence<u8>>) -> &[u8] {
    bytes.get().as_slice()
}

/// Returns the faults of a tune as a whole.
pub fn faults_of(built: &Built) -> &[FaultCode] {
    built.faults.get().as_slice()
}

/// Returns the cells of a line of ABC.
pub fn cells_of_abc(alloc: Global, line: &[u8], work: &mut Work) -> Result<Vec<Cell>, AllocError> {
    Abc.cells(alloc, line, work)
}

/// Returns the class of a line of ABC.
pub fn abc_class(line: &[u8]) -> LineClass {
    Abc.class(line)
}

/// Returns what a file header of ABC sets.
pub fn abc_defaults(after: &Entry) -> Defaults {
    Abc.defaults(after)
}

/// Takes a step over a bar.
pub fn bar_step(
    alloc: Global,
    state: &Entry,
    cell: &Cell,
    work: &mut Work,
) -> Result<(Entry, Items), AllocError> {
    BarFold.step(alloc, state, cell, work)
}

/// Returns the cells of a line.
pub fn line_cells<C: Compiler>(
    alloc: Global,
    compiler: &C,
    line: &[u8],
    work: &mut C::Work,
) -> Result<Vec<C::Cell>, AllocError>
    ensures value { IfOk result (λ cells. cells.items ≡ (C.rules compiler.now).cells line.now) }
    ensures counted { C.Work.counts work.new
        ≡ record (C.Work.counts work.old) { scanned = raised (C.Work.counts work.old).scanned 1 } }
{
    compiler.cells(alloc, line, work)
}

/// Returns the class of a line.
pub fn line_class<C: Compiler>(compiler: &C, line: &[u8]) -> LineClass
    ensures value { result ≡ (C.rules compiler.now).class line.now }
{
    compiler.class(line)
}

/// Builds a tune.
pub fn compile_tune<C: Compiler>(
    alloc: Global,
    compiler: &C,
    items: &[C::Items],
    work: &mut C::Work,
) -> Result<Built, AllocError>
    ensures bytes { IfOk result (λ built. built.bytes ≡ (C.rules compiler.now).bytes items.now) }
{
    compiler.build(alloc, items, work)
}

/// Returns what a file header sets.
pub fn header_values<C: Compiler>(compiler: &C, after: &C::State) -> C::Defaults
    ensures value { result ≡ (C.rules compiler.now).defaults after.now }
{
    compiler.defaults(after)
}

/// Returns the state in which a file header begins.
pub fn header_opening<C: Compiler>(alloc: Global, compiler: &C) -> C::State
    ensures value { result ≡ (C.rules compiler.now).header }
{
    compiler.header(alloc)
}

/// Returns the state in which a tune begins.
pub fn tune_opening<C: Compiler>(alloc: Global, compiler: &C, after: Option<&C::State>) -> C::State
    ensures value { result ≡ (C.rules compiler.now).tune (option_copied after.entry) }
{
    compiler.tune(alloc, after)
}

/// Returns what a cell adds to the book: its number, its title and its faults.
pub fn parts_for_book<'a, C: Compiler>(
    compiler: &C,
    items: &'a C::Items,
) -> (Option<u32>, Option<&'a [u8]>, &'a [(u32, FaultCode)])
    ensures number { result.0 ≡ (C.rules compiler.now).number items.now }
    ensures title { option_copied result.1 ≡ (C.rules compiler.now).title items.now }
    ensures faults { result.2.now ≡ (C.rules compiler.now).faults items.now }
{
    (
        compiler.number(items),
        compiler.title(items),
        compiler.faults(items),
    )
}

/// A compiler is lawful.
pub fn is_lawful<C: Compiler>(_compiler: &C)
    ensures value { AreLawful (C.steps _compiler.now) (C.rules _compiler.now) }
    ensures rules { let rules : Rules C.State C.Cell C.Items C.Defaults = C.rules _compiler.now in rules ≡ C.rules _compiler.now }
{}

/// Returns a memo of no tune.
pub fn empty_memo<C: Compiler>(alloc: Global) -> Result<TuneMemo<C>, AllocError> {
    TuneMemo::new(alloc)
}

/// Builds a tune, or recalls it.
pub fn recall_or_build<C: Compiler>(
    memo: &mut TuneMemo<C>,
    compiler: &C,
    key: TuneKey<C::Defaults>,
    items: &[C::Items],
    work: &mut C::Work,
) -> Result<Built, AllocError>
    requires of_key { AreItemsOf (C.steps compiler.now) (C.rules compiler.now) key items.now }
    requires remembers { Remembers (C.steps compiler.now) (C.rules compiler.now) memo.old }
    ensures bytes { IfOk result (λ built. built.bytes ≡ (C.rules compiler.now).bytes items.now) }
    ensures remembers { Remembers (C.steps compiler.now) (C.rules compiler.now) memo.new }
    ensures unchanged { OnErr result (memo.new ≡ promoted (⟦<TuneKey<C::Defaults> as PartialEq>⟧.eq key) memo.old) }
{
    memo.built(compiler, key, items, work)
}

/// Appends a line to the bytes of a key.
pub fn put_key_line(bytes: &mut Vec<u8>, class: LineClass, line: &[u8]) -> Result<(), AllocError>
    ensures ok { OnOk result (bytes.new.items ≡ bytes.old.items ++ line_bytes class line.now) }
{
    put_line(bytes, class, line)
}
