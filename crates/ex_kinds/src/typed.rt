//! What is said of an expression.

ghost use Rattle.std.specs.Prelude.{◌≡◌, Result, IfOk};
ghost use Rattle.plain_data.specs.Gives.{Gives};
ghost use Rattle.ex_kinds.specs.Faults as spec;
ghost use Rattle.ex_kinds.specs.Kinds.{Kinds};
ghost use Rattle.ex_kinds.specs.declared.fault.TypeFaultKind.{TypeFaultKind};

use crate::fault::{TypeFault, TypeFaultKind, either, fault_at};
use crate::kinds::Kinds;
use plain_data::Failure;
use std::alloc::{AllocError, Global};

/// What the value of an expression may be, and the fault that is told of it.
#[derive(Drop)]
pub struct Typed {
    pub kinds: Kinds,
    pub fault: Option<TypeFault>,
}

impl Typed {
    /// What may be so, without a fault.
    pub fn fine(kinds: Kinds) -> Typed
        ensures { result ≡ spec.fine kinds }
    {
        Typed { kinds, fault: None }
    }

    /// What is refused. It has no kinds, so that it brings no further fault.
    pub fn refused(alloc: Global, kind: TypeFaultKind, at: usize) -> Typed
        ensures { result ≡ spec.refused kind at }
    {
        Typed {
            kinds: Kinds::new(alloc),
            fault: fault_at(kind, at),
        }
    }

    /// The same, behind the fault of a part.
    pub fn behind(self, fault: Option<TypeFault>) -> Typed
        ensures { result ≡ spec.behind fault self }
    {
        Typed {
            kinds: self.kinds,
            fault: either(fault, self.fault),
        }
    }
}

/// What a rule says of an operator, a call or a qualifier that stands there.
pub fn ruled(
    alloc: Global,
    at: usize,
    said: Result<Kinds, Failure<TypeFaultKind>>,
) -> Result<Typed, AllocError>
    ensures { (o : Result Kinds TypeFaultKind) → Gives (λ kinds. kinds) said o → IfOk result (λ typed. typed ≡ spec.ruled at o) }
{
    match said {
        Ok(kinds) => Ok(Typed::fine(kinds)),
        Err(Failure::Fault(kind)) => Ok(Typed::refused(alloc, kind, at)),
        Err(Failure::NoMemory) => Err(AllocError),
    }
}
