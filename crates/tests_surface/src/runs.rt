//! Runs of commands, by `abc2midi_live`.

ghost use Rattle.std.specs.Prelude.{◌≡◌, [], option_copied};
ghost use Rattle.std.specs.Result.{result_err};
ghost use Rattle.tests_surface.specs.Runs.{edited, insertion, new_pipe, faults, book_lines, raised};

use abc2midi_live::{
    EditError, Piped, RunFault, Sink, Source, Store, StoreFault, StreamFault, Work, fault_of_book,
    run, run_before_exit,
};
use std::alloc::Global;
use std::io::{Read, Write};

/// Runs commands over std's streams.
pub fn run_piped<R: Read, W: Write, S: Store>(
    alloc: Global,
    reader: R,
    writer: W,
    store: &mut S,
    work: &mut Work,
) -> Result<(), RunFault>
where
    R: Drop,
    W: Drop,
{
    let mut reader = Piped::new(reader);
    let mut writer = Piped::new(writer);
    run(alloc, None, &mut reader, &mut writer, store, work)
}

/// Runs commands without a tune book, for a program that ends after them: the memory of the session is not freed.
pub fn run_at_last<R: Source, W: Sink, S: Store>(
    alloc: Global,
    reader: &mut R,
    writer: &mut W,
    store: &mut S,
    work: &mut Work,
) -> Result<(), RunFault> {
    run_before_exit(alloc, None, reader, writer, store, work)
}

/// Returns a stream over a stream of std.
pub fn piped_stream<T>(inner: T) -> Piped<T>
    ensures value { result ≡ new_pipe inner }
{
    Piped::new(inner)
}

/// Reads bytes.
pub fn read_some<R: Source>(reader: &mut R, buf: &mut [u8]) -> Result<usize, StreamFault>
    ensures counts { R.calls reader.new ≡ raised (R.calls reader.old) 1 }
{
    reader.read(buf)
}

/// Writes bytes.
pub fn write_some<W: Sink>(writer: &mut W, bytes: &[u8]) -> Result<(), StreamFault>
    ensures fails { W.failures writer.new ≡ raised (W.failures writer.old) (faults result) }
{
    writer.write_all(bytes)
}

/// Puts a file, or removes it.
pub fn store_one<S: Store>(
    store: &mut S,
    name: &str,
    bytes: Option<&[u8]>,
) -> Result<(), StoreFault>
    ensures counts { (S.seen store.new).calls ≡ raised (S.seen store.old).calls 1 }
{
    match bytes {
        Some(bytes) => store.put(name, bytes),
        None => store.remove(name),
    }
}

/// Returns why a book is refused.
pub fn book_error(book: &[u8]) -> Option<EditError>
    ensures value { result ≡ result_err (edited [] (insertion 1 (book_lines book.now))) }
{
    fault_of_book(book)
}

/// Whether a run ended because an allocation failed.
pub fn is_of_memory(fault: RunFault) -> bool {
    match fault {
        RunFault::Read | RunFault::Write => false,
        RunFault::Memory => true,
    }
}
