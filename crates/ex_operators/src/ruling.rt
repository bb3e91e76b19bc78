//! Rulings, and the kinds that they are made of.

ghost use Rattle.std.specs.Prelude.{◌≡◌, ◌++◌, IfOk};
ghost use Rattle.plain_data.specs.Gives.{Gives};
ghost use Rattle.ex_operators.specs.Operators as spec;

use ex_kinds::{Kinds, Sort, TypeFaultKind, ValueKind, aggregate_of, kinds_of_one};
use plain_data::Failure;
use std::alloc::{AllocError, Global};

/// What a rule says: the kinds of the result, or what is wrong.
pub type Ruling = Result<Kinds, Failure<TypeFaultKind>>;

/// These kinds, where all is fine.
pub(crate) fn or_else_fault(fine: bool, fault: TypeFaultKind, kinds: Kinds) -> Ruling
    ensures { Gives (λ kinds. kinds) result (spec.or_else_fault fine fault kinds) }
{
    if fine {
        Ok(kinds)
    } else {
        Err(Failure::Fault(fault))
    }
}

pub(crate) fn logical(alloc: Global) -> Result<Kinds, AllocError>
    ensures { IfOk result (λ kinds. kinds ≡ spec.logical) }
{
    kinds_of_one(alloc, Sort::Logical)
}

/// The one kind, or none.
pub(crate) fn kinds_if(alloc: Global, possible: bool, sort: Sort) -> Result<Kinds, AllocError>
    ensures { IfOk result (λ kinds. kinds ≡ spec.kinds_if possible sort) }
{
    if possible {
        kinds_of_one(alloc, sort)
    } else {
        Ok(Kinds::new(alloc))
    }
}

/// An aggregate of these elements, where there is one.
pub(crate) fn aggregate_if(
    alloc: Global,
    possible: bool,
    elements: &[ValueKind],
) -> Result<Kinds, AllocError>
    ensures { IfOk result (λ kinds. kinds ≡ spec.aggregate_if possible elements.now) }
{
    if possible {
        aggregate_of(alloc, elements)
    } else {
        Ok(Kinds::new(alloc))
    }
}

/// The kinds, and more behind them.
pub(crate) fn with_more(kinds: Kinds, more: &[ValueKind]) -> Result<Kinds, AllocError>
    ensures { IfOk result (λ all. all ≡ kinds ++ more.now) }
{
    let mut all = kinds;
    for kind in more {
        all.push(*kind)?;
    }
    Ok(all)
}
