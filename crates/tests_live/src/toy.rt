//! A compiler of a toy language.

ghost use Rattle.std.specs.Prelude.{◌≡◌, ◌++◌, ◌==◌, IfOk, OnOk, option_copied};
ghost use Rattle.std.specs.List.{flat_map};
ghost use Rattle.abc_live.specs.Class.{class_of};
ghost use Rattle.abc_live.specs.Files.{file_at};
ghost use Rattle.tests_live.specs.Toy.{begins_with, bytes_of_class, cells_of, first_of_value, is_long, next_byte, played_line};
ghost use Rattle.tests_live.specs.Toy.{toy_book, toy_rules, toy_steps, value_of};
ghost use Rattle.tests_live.specs.ToyLaws.{toy_lawful, toy_resumable, toy_eq_is_sound};

use abc_live::{
    Built, Compiler, FaultCode, Fold, LineClass, LiveSession, Sequence, Shared, Work, class_of,
};
use std::alloc::{AllocError, Global};

/// The compiler of the toy language.
#[derive(Drop)]
pub struct Toy;

/// A line, and the byte that is put before music lines at its place.
#[derive(Drop)]
pub struct Played {
    byte: u8,
    line: Sequence<u8>,
}

/// Whether a line begins with this byte.
fn begins_with(byte: u8, line: &[u8]) -> bool
    ensures { result ≡ begins_with byte line.now }
{
    match line {
        [] => false,
        [first, ..] => *first == byte,
    }
}

/// What a line has after its first two bytes.
fn value_of(line: &[u8]) -> &[u8]
    ensures { result.now ≡ value_of line.now }
{
    match line {
        [] => &[],
        [_] => &[],
        [_, _, value @ ..] => value,
    }
}

/// The first byte of that, 0 if there is none.
fn first_of_value(line: &[u8]) -> u8
    ensures { result ≡ first_of_value line.now }
{
    match line.get(2) {
        Some(byte) => *byte,
        None => 0,
    }
}

/// The byte that is put before music lines, after a line.
fn next_byte(byte: u8, line: &[u8]) -> u8
    ensures { result ≡ next_byte byte line.now }
{
    if begins_with(b'D', line) {
        first_of_value(line)
    } else {
        byte
    }
}

impl Fold for Toy {
    type State = u8;

    type Cell = Sequence<u8>;

    type Items = Played;

    type Work = Work;

    ghost steps = { λ _. toy_steps };

    ghost resumable = { λ _. toy_resumable };

    fn step(
        &self,
        alloc: Global,
        byte: &u8,
        line: &Sequence<u8>,
        work: &mut Work,
    ) -> Result<(u8, Played), AllocError> {
        work.count_folded();
        let copy = Sequence::from_slice(alloc, line.as_slice())?;
        let after = next_byte(*byte, line.as_slice());
        Ok((
            after,
            Played {
                byte: *byte,
                line: copy,
            },
        ))
    }

    fn same(a: &u8, b: &u8) -> bool {
        *a == *b
    }

    fn copy_state(_alloc: Global, byte: &u8) -> Result<u8, AllocError> {
        Ok(*byte)
    }

    fn copy_cell(alloc: Global, line: &Sequence<u8>) -> Result<Sequence<u8>, AllocError> {
        Sequence::from_slice(alloc, line.as_slice())
    }

    fn copy_items(alloc: Global, one: &Played) -> Result<Played, AllocError> {
        let line = Sequence::from_slice(alloc, one.line.as_slice())?;
        Ok(Played {
            byte: one.byte,
            line,
        })
    }
}

/// The cells of a line.
fn cells_of(alloc: Global, line: &[u8]) -> Result<Vec<Sequence<u8>>, AllocError>
    ensures { IfOk result (λ cells. cells.items ≡ cells_of line.now) }
{
    let mut cells = Vec::new(alloc);
    match class_of(line) {
        LineClass::Blank | LineClass::Comment => Ok(cells),
        LineClass::Field(_) | LineClass::Directive | LineClass::Music => {
            cells.push(Sequence::from_slice(alloc, line)?)?;
            Ok(cells)
        }
    }
}

/// Whether a tune has too many lines for a file.
fn is_long(all: &[Played]) -> bool
    ensures { result ≡ is_long all.now }
{
    all.len() >= 5
}

/// Appends the bytes of a line to a file.
fn put_line(file: &mut Sequence<u8>, one: &Played) -> Result<(), AllocError>
    ensures { OnOk result (file.new ≡ file.old ++ bytes_of_class (class_of one.now.line) one.now) }
{
    match class_of(one.line.as_slice()) {
        LineClass::Blank | LineClass::Comment | LineClass::Field(_) | LineClass::Directive => Ok(
            (),
        ),
        LineClass::Music => {
            file.push(one.byte)?;
            put_bytes(file, one.line.as_slice())
        }
    }
}

/// Appends bytes to others.
fn put_bytes(file: &mut Sequence<u8>, bytes: &[u8]) -> Result<(), AllocError>
    ensures { OnOk result (file.new ≡ file.old ++ bytes.now) }
{
    for byte in bytes {
        file.push(*byte)?;
    }
    Ok(())
}

/// The file of a tune that is not too long.
fn whole_file(alloc: Global, all: &[Played]) -> Result<Sequence<u8>, AllocError>
    ensures { IfOk result (λ file. file ≡ flat_map (λ one. bytes_of_class (class_of one.line) one) all.now) }
{
    let mut file = Sequence::new(alloc);
    for one in all {
        put_line(&mut file, one)?;
    }
    Ok(file)
}

impl Compiler for Toy {
    type Defaults = u8;

    ghost rules = { λ _. toy_rules };

    ghost lawful = { λ _. toy_lawful };

    ghost eq_is_sound = { toy_eq_is_sound };

    fn class(&self, line: &[u8]) -> LineClass {
        class_of(line)
    }

    fn cells(
        &self,
        alloc: Global,
        line: &[u8],
        work: &mut Work,
    ) -> Result<Vec<Sequence<u8>>, AllocError> {
        work.count_scanned();
        cells_of(alloc, line)
    }

    fn header(&self, _alloc: Global) -> u8 {
        b'0'
    }

    fn tune(&self, _alloc: Global, after: Option<&u8>) -> u8 {
        match after {
            Some(byte) => *byte,
            None => b'0',
        }
    }

    fn defaults(&self, after: &u8) -> u8 {
        *after
    }

    fn number(&self, one: &Played) -> Option<u32> {
        if begins_with(b'X', one.line.as_slice()) {
            Some(first_of_value(one.line.as_slice()).saturating_sub(48) as u32)
        } else {
            None
        }
    }

    fn title<'a>(&self, one: &'a Played) -> Option<&'a [u8]> {
        if begins_with(b'T', one.line.as_slice()) {
            Some(value_of(one.line.as_slice()))
        } else {
            None
        }
    }

    fn faults<'a>(&self, one: &'a Played) -> &'a [(u32, FaultCode)] {
        if begins_with(b'!', one.line.as_slice()) {
            &[(1, FaultCode::BadByte)]
        } else {
            &[]
        }
    }

    fn build(&self, alloc: Global, all: &[Played], work: &mut Work) -> Result<Built, AllocError> {
        work.count_built();
        if is_long(all) {
            let faults = Sequence::from_slice(alloc, &[FaultCode::TuneTooLong])?;
            return Ok(Built {
                bytes: None,
                faults: Shared::new(alloc, faults)?,
            });
        }
        Ok(Built {
            bytes: Some(Shared::new(alloc, whole_file(alloc, all)?)?),
            faults: Shared::new(alloc, Sequence::new(alloc))?,
        })
    }
}

/// The file of a number in a session over the toy: that of the book of its text by the toy's definitions.
pub fn file_of_number(session: &LiveSession<Toy>, number: u32) -> Option<&[u8]>
    ensures { option_copied result ≡ file_at (toy_book session.now.text).files number }
{
    session.output(number)
}
