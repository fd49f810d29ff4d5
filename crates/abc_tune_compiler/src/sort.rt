//! Sorting without repeated elements.

ghost use Rattle.std.specs.Prelude.{◌≡◌, IfOk};
ghost use Rattle.std.specs.List.Sorted.{IsStrictlySortedBy};
ghost use Rattle.abc_tune_compiler.specs.Sort.{sort_dedup};

use std::alloc::{AllocError, Global};
use std::collections::BTreeSet;

/// Returns the elements as a set.
fn set_of<T: Ord + Copy + Drop>(alloc: Global, elements: &[T]) -> Result<BTreeSet<T>, AllocError>
    ensures { IfOk result (λ set. set.keys ≡ sort_dedup T.cmp elements.now) }
{
    let mut set = BTreeSet::new(alloc);
    for element in elements {
        set.insert(*element)?;
    }
    Ok(set)
}

/// Returns the elements in order, each once. It returns an error if an allocation fails.
pub fn sort_dedup<T: Ord + Copy + Drop>(alloc: Global, elements: &[T]) -> Result<Vec<T>, AllocError>
    ensures value { IfOk result (λ sorted. sorted.items ≡ sort_dedup T.cmp elements.now) }
    ensures rises { IfOk result (λ sorted. IsStrictlySortedBy T.cmp sorted.items) }
{
    let set = set_of(alloc, elements)?;
    set.iter().copied().collect(alloc)
}
