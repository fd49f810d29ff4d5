//! The calls that a session makes to the compiler of its tunes.

ghost use Rattle.std.specs.Prelude.{◌≡◌, IfOk, IsTrue, option_copied};
ghost use Rattle.abc_tune_compiler.specs.Lawful.{AreLawful};
ghost use Rattle.abc_fold.specs.Work.{raised};
ghost use Rattle.abc_tune_compiler.specs.Rules.{Rules};

use crate::built::Built;
use abc_fields::FaultCode;
use abc_fold::Fold;
use abc_scan::LineClass;
use std::alloc::{AllocError, Global};

/// A compiler of tunes: the classes of lines, the cells of a line, the fold over them, and the file of a tune. Each call
/// returns the value of one of the compiler's own definitions.
pub trait Compiler: Fold + Drop {
    /// What a file header sets for all tunes.
    type Defaults: Drop + Eq;

    // The compiler's definitions.
    ghost rules: { Self → Rules Self.State Self.Cell Self.Items Self.Defaults };

    /// Returns the class of a line, by its own bytes. Allocates nothing.
    fn class(&self, line: &[u8]) -> LineClass
        ensures { result ≡ (rules self.now).class line.now };

    /// Returns the cells of a line. A call that runs out of memory is counted too.
    fn cells(
        &self,
        alloc: Global,
        line: &[u8],
        work: &mut Self::Work,
    ) -> Result<Vec<Self::Cell>, AllocError>
        ensures cells { IfOk result (λ cells. cells.items ≡ (rules self.now).cells line.now) }
        ensures counted { Self.Work.counts work.new
            ≡ record (Self.Work.counts work.old) { scanned = raised (Self.Work.counts work.old).scanned 1 } };

    /// Returns the state in which a file header begins. Allocates nothing: `alloc` is for lists that the state may hold
    /// later.
    fn header(&self, alloc: Global) -> Self::State
        ensures { result ≡ (rules self.now).header };

    /// Returns the state in which a tune begins, by the state after the file header, if there is one. Allocates nothing:
    /// `alloc` is for lists that the state may hold later.
    fn tune(&self, alloc: Global, after: Option<&Self::State>) -> Self::State
        ensures { result ≡ (rules self.now).tune (option_copied after.entry) };

    /// Returns what a file header sets for all tunes, from the state after it. Allocates nothing.
    fn defaults(&self, after: &Self::State) -> Self::Defaults
        ensures { result ≡ (rules self.now).defaults after.now };

    /// Returns the reference number that a cell gives, if any. Allocates nothing.
    fn number(&self, items: &Self::Items) -> Option<u32>
        ensures { result ≡ (rules self.now).number items.now };

    /// Returns the title that a cell gives, if any. Allocates nothing.
    fn title<'a>(&self, items: &'a Self::Items) -> Option<&'a [u8]>
        ensures { option_copied result ≡ (rules self.now).title items.now };

    /// Returns the faults of a cell: their columns, counted from 1, and their codes. Allocates nothing.
    fn faults<'a>(&self, items: &'a Self::Items) -> &'a [(u32, FaultCode)]
        ensures { result.now ≡ (rules self.now).faults items.now };

    /// Returns the file of a tune and its faults as a whole, from what its cells give in order. A call that runs out of
    /// memory is counted too.
    fn build(
        &self,
        alloc: Global,
        items: &[Self::Items],
        work: &mut Self::Work,
    ) -> Result<Built, AllocError>
        ensures bytes { IfOk result (λ built. built.bytes ≡ (rules self.now).bytes items.now) }
        ensures faults { IfOk result (λ built. built.faults ≡ (rules self.now).build_faults items.now) }
        ensures counted { Self.Work.counts work.new
            ≡ record (Self.Work.counts work.old) { built = raised (Self.Work.counts work.old).built 1 } };

    // A session relies on these laws of the definitions.
    ghost lawful: { (compiler : Self) → AreLawful (Self.steps compiler) (rules compiler) };

    // Two values that file headers set compare equal only if they are equal for contracts.
    ghost eq_is_sound: { (a b : Self.Defaults) → IsTrue (Self.Defaults.eq a b) → a ≡ b };
}
