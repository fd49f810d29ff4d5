//! Counters that can be read.

ghost use Rattle.std.specs.Prelude.{◌≡◌};
ghost use Rattle.abc_fold.specs.Work.{Counters};

use crate::Work;

/// Counters that can be read. Code that is generic over a fold passes them to each step and reads them. It cannot raise
/// them itself.
pub trait Counts {
    // The three numbers.
    ghost counts: { Self → Counters };

    /// The number of scanned lines, at most the greatest `u64`.
    fn scanned(&self) -> u64
        ensures { result ≡ (counts self.now).scanned };

    /// The number of folded steps, at most the greatest `u64`.
    fn folded(&self) -> u64
        ensures { result ≡ (counts self.now).folded };

    /// The number of built tunes, at most the greatest `u64`.
    fn built(&self) -> u64
        ensures { result ≡ (counts self.now).built };
}

impl Counts for Work {
    ghost counts = { λ work. work };

    fn scanned(&self) -> u64 {
        Work::scanned(self)
    }

    fn folded(&self) -> u64 {
        Work::folded(self)
    }

    fn built(&self) -> u64 {
        Work::built(self)
    }
}
