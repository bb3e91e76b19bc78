//! Why nothing was made: memory ran out, or there is a fault in what it was to be made of.

ghost use Rattle.std.specs.Prelude.{◌≡◌};
ghost use Rattle.plain_data.specs.Failures.{MatchFailure, ForFault, IsFaultAnd};
ghost use Rattle.plain_data.specs.declared.failure.Failure.TheVariants.{NoMemory};

use std::alloc::{AllocError, AllocFailed};

/// Why nothing was made.
#[derive(Clone, Copy, PartialEq, Eq)]
pub enum Failure<F> {
    NoMemory,
    Fault(F),
}

impl<F> Failure<F> {
    /// The same, with what is made of its fault.
    pub fn map<G, M: FnOnce(F) -> G>(self, made: M) -> Failure<G>
        requires { ForFault self (M.pre made) }
        ensures { MatchFailure self (result ≡ NoMemory) (λ fault. IsFaultAnd result (M.post made fault)) }
    {
        match self {
            Failure::NoMemory => Failure::NoMemory,
            Failure::Fault(fault) => Failure::Fault(made(fault)),
        }
    }
}

impl<F> From<AllocError> for Failure<F> {
    ghost from_gives = { λ _ e. e ≡ NoMemory };

    fn from(_e: AllocError) -> Failure<F> {
        Failure::NoMemory
    }
}

impl<F, T: Drop> From<AllocFailed<T>> for Failure<F> {
    ghost from_gives = { λ _ e. e ≡ NoMemory };

    fn from(_e: AllocFailed<T>) -> Failure<F> {
        Failure::NoMemory
    }
}
