//! A value with several owners, which contracts see as the value, so that a tree of them is plain data.
#![tactic(auto)]

ghost use Rattle.std.specs.Prelude.{◌≡◌, IfErr, IfOk};

use std::alloc::{AllocError, Global};
use std::marker::Model;
use std::rc::Rc;

/// An `Rc` that contracts see as its value.
#[derive(Drop)]
pub struct Shared<T> {
    inner: Rc<T>,
}

impl<T> Model for Shared<T> {
    ghost Value = { T };

    ghost coded = { T.code };

    ghost view = { λ s. s.inner.value };
}

impl<T> Shared<T> {
    /// The value.
    pub fn get(&self) -> &T
        ensures { result.now ≡ self.now }
    {
        self.inner.as_ref()
    }
}

impl<T: Drop> Shared<T> {
    /// The value itself, where this is its only owner.
    pub fn own(self) -> Result<T, Shared<T>>
        ensures value { IfOk result (λ x. x ≡ self) }
        ensures shared { IfErr result (λ s. s ≡ self) }
    {
        match Rc::try_unwrap(self.inner) {
            Ok(value) => Ok(value),
            Err(inner) => Err(Shared { inner }),
        }
    }

    /// The value with one owner. It takes one block.
    pub fn new(alloc: Global, value: T) -> Result<Shared<T>, AllocError>
        ensures { IfOk result (λ s. s ≡ value) }
    {
        Ok(Shared {
            inner: Rc::new(alloc, value)?,
        })
    }

    /// One owner more. It copies nothing.
    pub fn share(&self) -> Result<Shared<T>, AllocError>
        ensures { IfOk result (λ s. s ≡ self.now) }
    {
        let inner = self.inner.clone()?;
        Ok(Shared { inner })
    }
}
