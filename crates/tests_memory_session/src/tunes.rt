//! A tune, from its lines to its file, and tunes that are remembered.

use abc_bars_body::Entry;
use abc_bars_items::Items;
use abc_fold::{Fold, Work};
use abc_scan::{Cell, LineClass};
use abc_tune::{Abc, Built, Compiler, build, put_line};
use abc_voices::{BuildFault, arrange};
use smf_bytes::file_of;
use std::alloc::{AllocError, Global};
use std::rt::Runtime;
use tests_live::memo::ToyMemo;
use tests_memory_layers::report::{again, call, done};
use tests_memory_layers::{FILE_OF_C, cell, retry};

/// Two cells of a line.
pub fn abc_cells<R: Runtime>(rt: &R, alloc: Global) -> Result<bool, AllocError> {
    let mut work = Work::mint(rt);
    call(rt, "Abc::cells");
    let cells = Abc.cells(alloc, b"CDEF|[CEG]2", &mut work)?;
    done(rt);
    Ok(cells.len() == 2)
}

/// Returns the items of a cell, and the state after it.
fn step(
    alloc: Global,
    entry: &Entry,
    cell: &Cell,
    work: &mut Work,
) -> Result<(Entry, Items), AllocError> {
    Abc.step(alloc, entry, cell, work)
}

/// A reference number.
pub fn numbered_cell<R: Runtime>(rt: &R, alloc: Global) -> Result<bool, AllocError> {
    let mut work = Work::mint(rt);
    let entry = Entry::tune(alloc, None);
    let cell = cell(alloc, b"X:1", &mut work)?;
    call(rt, "Abc::step");
    let (_, items) = step(alloc, &entry, &cell, &mut work)?;
    done(rt);
    Ok(Abc.number(&items) == Some(1))
}

/// Returns the items of the cells of a tune of one note.
fn items(alloc: Global, work: &mut Work) -> Result<Vec<Items>, AllocError> {
    let mut entry = Entry::tune(alloc, None);
    let mut given = Vec::new(alloc);
    let lines: [&[u8]; 4] = [b"X:1", b"T:A", b"K:C", b"C"];
    for line in lines {
        let cell = cell(alloc, line, work)?;
        let (next, items) = step(alloc, &entry, &cell, work)?;
        entry = next;
        given.push(items)?;
    }
    Ok(given)
}

/// The tune, laid out for one voice.
pub fn score<R: Runtime>(rt: &R, alloc: Global) -> Result<bool, AllocError> {
    let items = items(alloc, &mut Work::mint(rt))?;
    call(rt, "arrange");
    match arrange(alloc, &items) {
        Ok(arranged) => {
            done(rt);
            Ok(arranged.score.voices.len() == 1)
        }
        Err(BuildFault::TooLong { .. }) => Ok(false),
        Err(BuildFault::OutOfMemory) => Err(AllocError),
    }
}

/// The file of the tune laid out.
pub fn file<R: Runtime>(rt: &R, alloc: Global) -> Result<bool, AllocError> {
    let items = items(alloc, &mut Work::mint(rt))?;
    let Ok(arranged) = arrange(alloc, &items) else {
        return Err(AllocError);
    };
    call(rt, "file_of");
    let file = file_of(alloc, &arranged.score)?;
    done(rt);
    Ok(file.as_slice() == FILE_OF_C)
}

/// Whether a built tune has the file of that tune.
fn has_file(built: &Built) -> bool {
    match &built.bytes {
        Some(bytes) => bytes.get().as_slice() == FILE_OF_C,
        None => false,
    }
}

/// Builds the tune.
pub fn tune<R: Runtime>(rt: &R, alloc: Global) -> Result<bool, AllocError> {
    let mut work = Work::mint(rt);
    let items = items(alloc, &mut work)?;
    call(rt, "build");
    let built = build(alloc, &items, &mut work)?;
    done(rt);
    Ok(has_file(&built))
}

/// The same, by the compiler of ABC.
pub fn compiled_tune<R: Runtime>(rt: &R, alloc: Global) -> Result<bool, AllocError> {
    let mut work = Work::mint(rt);
    let items = items(alloc, &mut work)?;
    call(rt, "Abc::build");
    let built = Abc.build(alloc, &items, &mut work)?;
    done(rt);
    Ok(has_file(&built))
}

/// A line by which a tune is known.
pub fn key_line(rt: &impl Runtime, alloc: Global) -> Result<bool, AllocError> {
    let mut bytes = Vec::new(alloc);
    call(rt, "put_line");
    retry!(
        rt,
        put_line(&mut bytes, LineClass::Music, b"C"),
        bytes.is_empty(),
        bytes.as_slice() == b"C\n".as_slice()
    )
}

/// A memo of no tunes.
pub fn empty_memo(rt: &impl Runtime, alloc: Global) -> Result<bool, AllocError> {
    call(rt, "TuneMemo::new");
    let _memo = ToyMemo::new(alloc)?;
    done(rt);
    Ok(true)
}

/// Whether a built tune has the file of the line `c` after the byte 0.
fn is_toy_file(built: &Built) -> bool {
    match &built.bytes {
        Some(bytes) => bytes.get().as_slice() == b"0c".as_slice(),
        None => false,
    }
}

/// A tune of the toy language, called again after a refused request.
pub fn remembered_tune<R: Runtime>(rt: &R, alloc: Global) -> Result<bool, AllocError> {
    let mut work = Work::mint(rt);
    let mut memo = ToyMemo::new(alloc)?;
    call(rt, "TuneMemo::built, with its key");
    let Ok(built) = memo.ask(alloc, b'0', b"c", &mut work) else {
        again(rt);
        let built = memo.ask(alloc, b'0', b"c", &mut work)?;
        done(rt);
        return Ok(is_toy_file(&built));
    };
    done(rt);
    Ok(is_toy_file(&built))
}
