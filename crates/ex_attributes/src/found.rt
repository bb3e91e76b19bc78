//! An attribute by its name.

ghost use Rattle.std.specs.Prelude.{◌≡◌, IfOk, IsTrue};
ghost use Rattle.ex_attributes.specs.Attributes as spec;

use ex_kinds::{Kinds, TypeFaultKind, Typed, are_same};
use std::alloc::{AllocError, Global};

/// What was found of an attribute's name among several entities.
#[derive(Drop)]
pub struct Found {
    /// Whether one of them has an attribute of the name.
    pub is_there: bool,
    /// Whether one of them has two.
    pub is_ambiguous: bool,
    pub kinds: Kinds,
}

impl Found {
    pub(crate) fn nothing(alloc: Global) -> Found
        ensures { result ≡ spec.found_nothing }
    {
        Found {
            is_there: false,
            is_ambiguous: false,
            kinds: Kinds::new(alloc),
        }
    }

    /// The same once more.
    pub fn copied(&self) -> Result<Found, AllocError>
        ensures { IfOk result (λ found. found ≡ self.now) }
    {
        Ok(Found {
            is_there: self.is_there,
            is_ambiguous: self.is_ambiguous,
            kinds: self.kinds.copied()?,
        })
    }

    /// The same, of whose kinds copies are written once.
    pub(crate) fn into_shared(self) -> Result<Found, AllocError>
        ensures { IfOk result (λ found. found ≡ self) }
    {
        let Found {
            is_there,
            is_ambiguous,
            kinds,
        } = self;
        Ok(Found {
            is_there,
            is_ambiguous,
            kinds: kinds.into_shared()?,
        })
    }

    /// Whether both are the same.
    pub(crate) fn is_same(&self, other: &Found) -> bool
        ensures { IsTrue result → self.now ≡ other.now }
    {
        self.is_there == other.is_there
            && self.is_ambiguous == other.is_ambiguous
            && are_same(self.kinds.as_slice(), other.kinds.as_slice())
    }

    /// Whether nothing was found.
    pub(crate) fn is_nothing(&self) -> bool
        ensures { IsTrue result → self.now ≡ spec.found_nothing }
    {
        !self.is_there && !self.is_ambiguous && self.kinds.len() == 0
    }

    /// What is said of it: `dot` is the first byte of the point, `at` that of the name.
    pub fn told(self, alloc: Global, dot: usize, at: usize) -> Typed
        ensures { result ≡ spec.told self dot at }
    {
        if self.is_ambiguous {
            Typed::refused(alloc, TypeFaultKind::Ambiguous, at)
        } else if self.is_there {
            Typed::fine(self.kinds)
        } else {
            Typed::refused(alloc, TypeFaultKind::Qualifier, dot)
        }
    }
}
