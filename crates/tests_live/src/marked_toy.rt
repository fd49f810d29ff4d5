//! A compiler of the toy language that counts in its states; nothing reads the count. So states are never equal and often
//! the same.

ghost use Rattle.tests_live.specs.MarkedToy.{marked_steps, marked_rules, marked_resumable, marked_lawful};
ghost use Rattle.tests_live.specs.ToyLaws.{toy_eq_is_sound};

use crate::toy::{Played, Toy};
use abc_live::{Built, Compiler, FaultCode, Fold, LineClass, Sequence, Work};
use std::alloc::{AllocError, Global};

/// A compiler of the toy language.
#[derive(Drop)]
pub struct MarkedToy;

/// The byte that is put before music lines, and how many cells came before.
#[derive(Drop)]
pub struct Marked {
    byte: u8,
    mark: u64,
}

impl Fold for MarkedToy {
    type State = Marked;

    type Cell = Sequence<u8>;

    type Items = Played;

    type Work = Work;

    ghost steps = { λ _. marked_steps };

    ghost resumable = { λ _. marked_resumable };

    fn step(
        &self,
        alloc: Global,
        state: &Marked,
        line: &Sequence<u8>,
        work: &mut Work,
    ) -> Result<(Marked, Played), AllocError> {
        let (byte, played_line) = Toy.step(alloc, &state.byte, line, work)?;
        let mark = state.mark.saturating_add(1);
        Ok((Marked { byte, mark }, played_line))
    }

    fn same(a: &Marked, b: &Marked) -> bool {
        a.byte == b.byte
    }

    fn copy_state(_alloc: Global, state: &Marked) -> Result<Marked, AllocError> {
        Ok(Marked {
            byte: state.byte,
            mark: state.mark,
        })
    }

    fn copy_cell(alloc: Global, line: &Sequence<u8>) -> Result<Sequence<u8>, AllocError> {
        Toy::copy_cell(alloc, line)
    }

    fn copy_items(alloc: Global, one: &Played) -> Result<Played, AllocError> {
        Toy::copy_items(alloc, one)
    }
}

impl Compiler for MarkedToy {
    type Defaults = u8;

    ghost rules = { λ _. marked_rules };

    ghost lawful = { λ _. marked_lawful };

    ghost eq_is_sound = { toy_eq_is_sound };

    fn class(&self, line: &[u8]) -> LineClass {
        Toy.class(line)
    }

    fn cells(
        &self,
        alloc: Global,
        line: &[u8],
        work: &mut Work,
    ) -> Result<Vec<Sequence<u8>>, AllocError> {
        Toy.cells(alloc, line, work)
    }

    fn header(&self, alloc: Global) -> Marked {
        Marked {
            byte: Toy.header(alloc),
            mark: 0,
        }
    }

    fn tune(&self, _alloc: Global, after: Option<&Marked>) -> Marked {
        match after {
            Some(state) => Marked {
                byte: state.byte,
                mark: state.mark,
            },
            None => Marked {
                byte: b'0',
                mark: 0,
            },
        }
    }

    fn defaults(&self, after: &Marked) -> u8 {
        after.byte
    }

    fn number(&self, one: &Played) -> Option<u32> {
        Toy.number(one)
    }

    fn title<'a>(&self, one: &'a Played) -> Option<&'a [u8]> {
        Toy.title(one)
    }

    fn faults<'a>(&self, one: &'a Played) -> &'a [(u32, FaultCode)] {
        Toy.faults(one)
    }

    fn build(&self, alloc: Global, all: &[Played], work: &mut Work) -> Result<Built, AllocError> {
        Toy.build(alloc, all, work)
    }
}
