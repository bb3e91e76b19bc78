//! Where pages are written.
ghost use Rattle.std.specs.Prelude.{ℕ, List, IfErr, ⊤};
ghost use Rattle.std.specs.declared.io.Error.{Error};

use std::{fmt, io};

/// Where the page of a delivery is written. Nothing of what is answered rests on it.
pub trait Pages {
    /// A write into the file of this path may fail with this error, and leave it so. Contracts alone know this, so nobody can make a
    /// failure up.
    ghost may_fail: { Self → List ℕ → Error → Self → Type 0 } = { λ _ _ _ _. ⊤ };

    /// Makes the file of this path hold the page, and nothing else.
    fn write<T: fmt::Display + Drop>(&mut self, path: &str, page: T) -> io::Result<()>
        ensures { IfErr result (λ error. may_fail self.old path.now error self.new) };
}
