//! The program of a tune.

ghost use Rattle.std.specs.Prelude.{◌≡◌, ◌≤◌};
ghost use Rattle.abc_bars_items.specs.Program.{program_of};
ghost use Rattle.abc_bars_items.specs.declared.program.TheConstants.{HIGHEST_PROGRAM};

use abc_bars_items::program_of;
use abc_bars_voice::Same;
use std::marker::Model;

/// A program (MIDI 1.0). Contracts see its number.
#[derive(Clone, Copy)]
pub struct TuneProgram {
    number: u8,
}

impl Model for TuneProgram {
    ghost use Rattle.std.specs.Prelude.{ℕ, ◌≤◌};
    ghost use Rattle.abc_bars_items.specs.declared.program.TheConstants.{HIGHEST_PROGRAM};

    ghost Value = { ℕ };

    ghost view = { λ p. p.number };

    ghost invariant = { λ p. p.number ≤ HIGHEST_PROGRAM };

    ghost inverse = { λ number. record { number = number } };
}

impl TuneProgram {
    /// The program of a directive's number, if MIDI has it.
    pub(crate) fn read(written: u32) -> Option<TuneProgram>
        ensures { result ≡ program_of written }
    {
        let number = program_of(written)?;
        Some(TuneProgram { number })
    }

    /// Its number, counted from 0.
    pub fn get(self) -> u8
        ensures value { result ≡ self }
        ensures range { result ≤ HIGHEST_PROGRAM }
    {
        self.number
    }
}

impl Same for TuneProgram {
    fn same(&self, other: &TuneProgram) -> bool {
        self.get() == other.get()
    }
}
