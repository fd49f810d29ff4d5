//! Values that several owners share.

ghost use Rattle.std.specs.Prelude.{◌≡◌, IfOk};

use std::alloc::{AllocError, Global};
use std::marker::Model;
use std::rc::Rc;

/// A value that several owners share. Contracts see only the value.
#[derive(Drop)]
pub struct Shared<T: Drop> {
    value: Rc<T>,
}

impl<T: Drop> Model for Shared<T> {
    ghost Value = { T };

    ghost view = { λ shared. shared.value.value };
}

impl<T: Drop> Clone for Shared<T> {
    ghost is_clone = { λ shared copy. copy ≡ shared };

    fn clone(&self) -> Result<Shared<T>, AllocError> {
        self.share()
    }
}

impl<T: Drop> Shared<T> {
    /// The value, with one owner. It returns an error if an allocation fails.
    pub fn new(alloc: Global, value: T) -> Result<Shared<T>, AllocError>
        ensures { IfOk result (λ shared. shared ≡ value) }
    {
        let value = Rc::new(alloc, value)?;
        Ok(Shared { value })
    }

    /// The same value, with one more owner. It allocates nothing.
    pub fn share(&self) -> Result<Shared<T>, AllocError>
        ensures { IfOk result (λ shared. shared ≡ self.now) }
    {
        let value = self.value.clone()?;
        Ok(Shared { value })
    }

    /// The value.
    pub fn get(&self) -> &T
        ensures { result.now ≡ self.now }
    {
        &self.value
    }
}
