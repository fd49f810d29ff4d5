//! Counters of an edit's work.

ghost use Rattle.std.specs.Prelude.{◌≡◌};
ghost use Rattle.abc_fold.specs.Work.{Counters, raised};

use std::marker::Model;
use std::rt::Runtime;

/// The numbers of scanned lines, folded steps and built tunes. Only `mint` makes one, from the runtime, and none can be
/// copied. So code that borrows one and has no runtime cannot count elsewhere. A counter stops at the greatest `u64`.
/// Contracts see the three numbers, as `Counters`. In C it is three `uint64_t` in this order.
#[derive(Drop)]
#[repr(C)]
pub struct Work {
    scanned: u64,
    folded: u64,
    built: u64,
}

impl Model for Work {
    ghost Value = { Counters };

    ghost view = { λ w. record { scanned = w.scanned; folded = w.folded; built = w.built } };

    ghost inverse = { λ c. record { scanned = c.scanned; folded = c.folded; built = c.built } };
}

impl Work {
    /// Counters at 0.
    pub fn mint(_rt: &impl Runtime) -> Work
        ensures { result ≡ record { scanned = 0; folded = 0; built = 0 } }
    {
        Work {
            scanned: 0,
            folded: 0,
            built: 0,
        }
    }

    /// The number of scanned lines.
    pub fn scanned(&self) -> u64
        ensures { result ≡ self.now.scanned }
    {
        self.scanned
    }

    /// The number of folded steps.
    pub fn folded(&self) -> u64
        ensures { result ≡ self.now.folded }
    {
        self.folded
    }

    /// The number of built tunes.
    pub fn built(&self) -> u64
        ensures { result ≡ self.now.built }
    {
        self.built
    }

    /// Counts one scanned line.
    pub fn count_scanned(&mut self)
        ensures { self.new ≡ record self.old { scanned = raised self.old.scanned 1 } }
    {
        raise(&mut self.scanned);
    }

    /// Counts one folded step.
    pub fn count_folded(&mut self)
        ensures { self.new ≡ record self.old { folded = raised self.old.folded 1 } }
    {
        raise(&mut self.folded);
    }

    /// Counts one built tune.
    pub fn count_built(&mut self)
        ensures { self.new ≡ record self.old { built = raised self.old.built 1 } }
    {
        raise(&mut self.built);
    }
}

fn raise(counter: &mut u64)
    ensures { counter.new ≡ raised counter.old 1 }
{
    *counter = counter.saturating_add(1);
}
