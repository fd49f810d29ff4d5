//! A short list. Contracts see only its elements.

ghost use Rattle.std.specs.Prelude.{◌≡◌, [], ◌∷◌, ◌++◌, OnOk, OnErr};
ghost use Rattle.std.specs.Cmp.{on_per, on_equiv};
ghost use Rattle.std.specs.Cmp.Lexicographic.{pointwise, lists_per, lists_equiv};
ghost use Rattle.std.specs.List.{AllZip};

use smallvec::SmallVec;
use std::alloc::{AllocError, Global};
use std::marker::Model;

/// The number of elements that need no allocation. Most lists have at most one element, and each list takes this room.
const ROOM_IN_PLACE: usize = 1;

/// A list of elements. Up to `ROOM_IN_PLACE` of them need no allocation.
#[derive(Drop)]
pub struct ShortSequence<T: Default + Drop> {
    elements: SmallVec<T, ROOM_IN_PLACE>,
}

impl<T: Default + Drop> Model for ShortSequence<T> {
    ghost use Rattle.std.specs.Prelude.{List};
    ghost use Rattle.std.specs.Coded.{coded_list};

    ghost Value = { List T };

    ghost coded = { coded_list T.code };

    ghost view = { λ s. s.elements.items };
}

impl<T: Default + Drop> ShortSequence<T> {
    /// No elements yet.
    pub fn new(alloc: Global) -> Self
        ensures { result ≡ [] }
    {
        ShortSequence {
            elements: SmallVec::new(alloc),
        }
    }

    /// Appends an element. It returns an error if an allocation fails.
    pub fn push(&mut self, element: T) -> Result<(), AllocError>
        ensures ok { OnOk result (self.new ≡ self.old ++ element ∷ []) }
        ensures unchanged { OnErr result (self.new ≡ self.old) }
    {
        self.elements.push(element)?;
        Ok(())
    }

    /// The elements in order.
    pub fn as_slice(&self) -> &[T]
        ensures { result.now ≡ self.now }
    {
        self.elements.as_slice()
    }
}

impl<T: Clone + Default + Drop> Clone for ShortSequence<T> {
    ghost is_clone = { λ v w. AllZip T.is_clone v w };

    fn clone(&self) -> Result<Self, AllocError> {
        let elements = self.elements.clone()?;
        Ok(ShortSequence { elements })
    }
}

impl<T: Default + Drop + PartialEq> PartialEq for ShortSequence<T> {
    ghost eq = { λ v w. pointwise T.eq v w };

    ghost laws = { on_per (λ v. v) (lists_per T.laws) };

    fn eq(&self, other: &Self) -> bool {
        self.elements == other.elements
    }
}

impl<T: Default + Drop + Eq> Eq for ShortSequence<T> {
    ghost laws = { on_equiv (λ v. v) (lists_equiv T.Eq.laws) };
}
