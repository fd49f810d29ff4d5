//! A memo of tunes in the toy language, each of one line.

ghost use Rattle.std.specs.Prelude.{◌≡◌, true, IfOk};
ghost use Rattle.abc_fold.specs.Steps.{items_from};
ghost use Rattle.abc_lines.specs.Text.{is_line};
ghost use Rattle.tests_live.specs.Toy.{cells_of, toy_rules, toy_steps};

use crate::toy::{Played, Toy};
use abc_live::{Fold, LineClass, Sequence, Work, class_of};
use abc_tune::{Built, TuneKey, TuneMemo, put_line};
use std::alloc::{AllocError, Global};
use std::marker::Model;

/// The tunes of one line each that the toy built.
#[derive(Drop)]
pub struct ToyMemo {
    memo: TuneMemo<Toy>,
}

impl Model for ToyMemo {
    ghost use Rattle.std.specs.Prelude.{ℕ, List};
    ghost use Rattle.abc_tune_compiler.specs.declared.built.Built.{Built};
    ghost use Rattle.abc_tune_memo.specs.declared.key.TuneKey.{TuneKey};
    ghost use Rattle.abc_tune_memo.specs.Memo.{Remembers};
    ghost use Rattle.tests_live.specs.Toy.{toy_rules, toy_steps};

    ghost Value = { List (TuneKey ℕ × Built) };

    ghost view = { λ own. own.memo };

    ghost invariant = { λ own. Remembers toy_steps toy_rules own.memo };
}

/// Returns the results of the cells of a line after a byte.
fn items_of(
    alloc: Global,
    byte: u8,
    line: &[u8],
    work: &mut Work,
) -> Result<Vec<Played>, AllocError>
    ensures { IfOk result (λ items. items.items ≡ items_from toy_steps byte (cells_of line.now)) }
{
    let mut items = Vec::new(alloc);
    match class_of(line) {
        LineClass::Blank | LineClass::Comment => Ok(items),
        LineClass::Field(_) | LineClass::Directive | LineClass::Music => {
            let cell = Sequence::from_slice(alloc, line)?;
            let (_, played_line) = Toy.step(alloc, &byte, &cell, work)?;
            items.push(played_line)?;
            Ok(items)
        }
    }
}

impl ToyMemo {
    /// Nothing remembered yet.
    pub fn new(alloc: Global) -> Result<ToyMemo, AllocError> {
        let memo = TuneMemo::new(alloc)?;
        Ok(ToyMemo { memo })
    }

    /// Returns the built tune of one line after a file header that sets this byte.
    pub fn ask(
        &mut self,
        alloc: Global,
        byte: u8,
        line: &[u8],
        work: &mut Work,
    ) -> Result<Built, AllocError>
        requires { is_line line.now ≡ true }
        ensures { IfOk result (λ built. built.bytes ≡ toy_rules.bytes (items_from toy_steps byte (cells_of line.now))) }
    {
        let items = items_of(alloc, byte, line, work)?;
        let mut bytes = Vec::new(alloc);
        put_line(&mut bytes, class_of(line), line)?;
        let key = TuneKey {
            defaults: byte,
            bytes: Sequence::from(bytes),
        };
        self.memo.built(&Toy, key, items.as_slice(), work)
    }
}
