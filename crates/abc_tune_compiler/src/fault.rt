//! A fault of a text.

ghost use Rattle.std.proofs.Common.{rules};
ghost use Rattle.std.specs.Cmp.{both_tied, partial_order_from_own_ties, unsigned_ties};
ghost use Rattle.std.specs.Cmp.Rules.{comparing};
ghost use Rattle.std.specs.Ordering.{as_partial_cmp};
ghost use Rattle.abc_fields.specs.Fault.{number_of};
ghost use Rattle.abc_tune_compiler.specs.Fault.{fault_cmp};

use abc_fields::FaultCode;
use std::cmp::Ordering;

/// A fault at a place of a text.
#[derive(Clone, Copy, Debug, PartialEq, Eq)]
pub struct Fault {
    /// The number of the line, from 1.
    pub line: u32,
    /// The number of the byte in the line, from 1.
    pub column: u32,
    pub code: FaultCode,
}

// Faults are ordered by their places, at one place by their codes.

impl PartialOrd for Fault {
    ghost partial_cmp = { as_partial_cmp fault_cmp };

    ghost laws = { partial_order_from_own_ties (Prim.search (comparing, rules))
        (λ a b. both_tied _ _ _ _ (unsigned_ties a.line b.line)
        (both_tied _ _ _ _ (unsigned_ties a.column b.column) (unsigned_ties (number_of a.code) (number_of b.code)))) };

    fn partial_cmp(&self, other: &Fault) -> Option<Ordering> {
        Some(self.cmp(other))
    }
}

impl Ord for Fault {
    ghost cmp = { fault_cmp };

    ghost total = { Prim.search (comparing, rules) };

    ghost matches_partial_cmp = { Prim.search (comparing, rules) };

    ghost matches_eq = { λ a b. both_tied _ _ _ _ (unsigned_ties a.line b.line)
        (both_tied _ _ _ _ (unsigned_ties a.column b.column) (unsigned_ties (number_of a.code) (number_of b.code))) };

    fn cmp(&self, other: &Fault) -> Ordering {
        self.line
            .cmp(&other.line)
            .then(self.column.cmp(&other.column))
            .then(self.code.cmp(&other.code))
    }
}
