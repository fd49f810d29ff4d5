//! A list. Contracts see only its elements.
ghost use Rattle.std.specs.Prelude.{◌≡◌, ◌==◌, [], ◌∷◌, ◌++◌, length, IfOk, OnOk, OnErr};
ghost use Rattle.std.specs.List.{AllZip};
ghost use Rattle.std.specs.Cmp.{on_per, on_equiv};
ghost use Rattle.std.specs.Cmp.Lexicographic.{pointwise, lists_per, lists_equiv};

use std::alloc::{AllocError, Global};
use std::fmt;
use std::marker::Model;

/// A list of elements. Contracts see neither its capacity nor its address.
#[derive(Drop)]
pub struct Sequence<T> {
    elements: Vec<T>,
}

impl<T> Model for Sequence<T> {
    ghost use Rattle.std.specs.Prelude.{List};
    ghost use Rattle.std.specs.Coded.{coded_list};

    ghost Value = { List T };

    ghost coded = { coded_list T.code };

    ghost view = { λ s. s.elements.items };
}

impl<T> Sequence<T> {
    /// Returns an empty list.
    pub fn new(alloc: Global) -> Self
        ensures { result ≡ [] }
    {
        Sequence {
            elements: Vec::new(alloc),
        }
    }

    /// A copy of these elements. It returns an error if an allocation fails.
    pub fn from_slice(alloc: Global, elements: &[T]) -> Result<Self, AllocError>
    where
        T: Copy,
        ensures { IfOk result (λ sequence. sequence ≡ elements.now) }
    {
        Ok(Sequence {
            elements: Vec::from_slice(alloc, elements)?,
        })
    }

    /// Appends an element. It returns an error if an allocation fails.
    pub fn push(&mut self, element: T) -> Result<(), AllocError>
    where
        T: Drop,
        ensures ok { OnOk result (self.new ≡ self.old ++ element ∷ []) }
        ensures unchanged { OnErr result (self.new ≡ self.old) }
    {
        self.elements.push(element)?;
        Ok(())
    }

    /// Returns the number of elements.
    pub fn len(&self) -> usize
        ensures { result ≡ length self.now }
    {
        self.elements.len()
    }

    /// Returns whether there are no elements.
    pub fn is_empty(&self) -> bool
        ensures { result ≡ (length self.now == 0) }
    {
        self.elements.is_empty()
    }

    /// The elements in order.
    pub fn as_slice(&self) -> &[T]
        ensures { result.now ≡ self.now }
    {
        self.elements.as_slice()
    }

    /// The elements as a vector.
    pub fn into_vec(self) -> Vec<T>
        ensures { result.items ≡ self }
    {
        self.elements
    }
}

impl<T> From<Vec<T>> for Sequence<T> {
    ghost from_gives = { λ elements sequence. sequence ≡ elements.items };

    fn from(elements: Vec<T>) -> Self {
        Sequence { elements }
    }
}

impl<T: Clone> Clone for Sequence<T> {
    ghost is_clone = { λ v w. AllZip T.is_clone v w };

    fn clone(&self) -> Result<Self, AllocError> {
        let elements = self.elements.clone()?;
        Ok(Sequence { elements })
    }
}

impl<T: PartialEq> PartialEq for Sequence<T> {
    ghost eq = { λ v w. pointwise T.eq v w };

    ghost laws = { on_per (λ v. v) (lists_per T.laws) };

    fn eq(&self, other: &Self) -> bool {
        self.elements == other.elements
    }
}

impl<T: Eq> Eq for Sequence<T> {
    ghost laws = { on_equiv (λ v. v) (lists_equiv T.Eq.laws) };
}

impl<T: fmt::Debug> fmt::Debug for Sequence<T> {
    fn fmt<W: fmt::Write>(&self, f: &mut fmt::Formatter<W>) -> fmt::Result {
        self.elements.fmt(f)
    }
}
