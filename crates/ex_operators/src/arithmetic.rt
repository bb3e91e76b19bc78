//! Arithmetic, and the sums, differences and products of aggregates. None is on what may be REAL.

ghost use Rattle.std.specs.Prelude.{◌≡◌, IfOk};
ghost use Rattle.plain_data.specs.Gives.{Gives};
ghost use Rattle.ex_kinds.specs.Kinds.{elements};
ghost use Rattle.ex_operators.specs.Operators as spec;

use crate::operand::Operand;
use crate::possibilities::{
    are_aggregates, are_binaries, are_integers, are_strings, can_be_aggregate, can_be_integer,
    is_open,
};
use crate::ruling::{Ruling, kinds_if, or_else_fault, with_more};
use ex_kinds::{Kinds, PlainSort, Sort, TypeFaultKind, aggregate_of, join};
use plain_data::Failure;
use std::alloc::{AllocError, Global};

fn may_be_real(operand: &Operand<'_>) -> bool
    ensures { result ≡ spec.may_be_real operand.now.possible }
{
    operand.can_be(PlainSort::Real) || operand.can_be(PlainSort::Generic)
}

/// These kinds, where all is fine and nothing may be REAL.
fn arithmetic(first: &Operand<'_>, second: &Operand<'_>, fine: bool, kinds: Kinds) -> Ruling
    ensures { Gives (λ kinds. kinds) result (spec.arithmetic first.now.possible second.now.possible fine kinds) }
{
    if may_be_real(first) || may_be_real(second) {
        return Err(Failure::Fault(TypeFaultKind::RealArithmetic));
    }
    or_else_fault(fine, TypeFaultKind::Operand, kinds)
}

/// INTEGER, where both may be.
fn integers(alloc: Global, first: &Operand<'_>, second: &Operand<'_>) -> Result<Kinds, AllocError>
    ensures { IfOk result (λ kinds. kinds ≡ spec.integers first.now.possible second.now.possible) }
{
    kinds_if(
        alloc,
        first.can_be(PlainSort::Integer) && second.can_be(PlainSort::Integer),
        Sort::Integer,
    )
}

/// The elements of a sum: those of both aggregates, or of one and the element.
fn summed(alloc: Global, left: &Operand<'_>, right: &Operand<'_>) -> Result<Kinds, AllocError>
    ensures { IfOk result (λ kinds. kinds ≡ spec.summed left.now.plain right.now.plain left.now.possible right.now.possible) }
{
    let mut kinds = left.elements(alloc)?;
    let others = right.elements(alloc)?;
    join(&mut kinds, others.as_slice())?;
    if left.can_be(PlainSort::Aggregate) {
        let element = right.apart(alloc)?;
        join(&mut kinds, element.as_slice())?;
    }
    if right.can_be(PlainSort::Aggregate) {
        let element = left.apart(alloc)?;
        join(&mut kinds, element.as_slice())?;
    }
    Ok(kinds)
}

/// Whether one is an aggregate, and the other is not `?`.
fn sums_elements(first: &Operand<'_>, second: &Operand<'_>) -> bool
    ensures { result ≡ spec.sums_elements first.now.possible second.now.possible }
{
    (first.can_be(PlainSort::Aggregate) && !is_open(second))
        || (!is_open(first) && second.can_be(PlainSort::Aggregate))
}

fn sum_aggregate(
    alloc: Global,
    left: &Operand<'_>,
    right: &Operand<'_>,
) -> Result<Kinds, AllocError>
    ensures { IfOk result (λ kinds. kinds ≡ spec.sum_aggregate left.now.plain right.now.plain left.now.possible right.now.possible) }
{
    if sums_elements(left, right) {
        let elements = summed(alloc, left, right)?;
        aggregate_of(alloc, elements.as_slice())
    } else {
        Ok(Kinds::new(alloc))
    }
}

/// Strings and binaries are put together.
fn sum_texts(alloc: Global, first: &Operand<'_>, second: &Operand<'_>) -> Result<Kinds, AllocError>
    ensures { IfOk result (λ kinds. kinds ≡ spec.sum_texts first.now.possible second.now.possible) }
{
    let strings = kinds_if(
        alloc,
        first.can_be(PlainSort::String) && second.can_be(PlainSort::String),
        Sort::String,
    )?;
    let binaries = kinds_if(
        alloc,
        first.can_be(PlainSort::Binary) && second.can_be(PlainSort::Binary),
        Sort::Binary,
    )?;
    with_more(strings, binaries.as_slice())
}

/// What a sum may be.
fn sum_kinds(alloc: Global, left: &Operand<'_>, right: &Operand<'_>) -> Result<Kinds, AllocError>
    ensures { IfOk result (λ kinds. kinds ≡ spec.sum_kinds left.now.plain right.now.plain left.now.possible right.now.possible) }
{
    let texts = sum_texts(alloc, left, right)?;
    let aggregate = sum_aggregate(alloc, left, right)?;
    let others = with_more(texts, aggregate.as_slice())?;
    with_more(integers(alloc, left, right)?, others.as_slice())
}

pub(crate) fn sum(alloc: Global, left: &Operand<'_>, right: &Operand<'_>) -> Ruling
    ensures { Gives (λ kinds. kinds) result (spec.sum left.now.plain right.now.plain left.now.possible right.now.possible) }
{
    let fine = are_integers(left, right)
        || are_strings(left, right)
        || are_binaries(left, right)
        || can_be_aggregate(left)
        || can_be_aggregate(right);
    arithmetic(left, right, fine, sum_kinds(alloc, left, right)?)
}

/// An aggregate of the operand's elements, where there is one.
fn aggregate_if(alloc: Global, possible: bool, operand: &Operand<'_>) -> Result<Kinds, AllocError>
    ensures { IfOk result (λ kinds. kinds ≡ spec.aggregate_if possible (elements operand.now.plain)) }
{
    if possible {
        let elements = operand.elements(alloc)?;
        aggregate_of(alloc, elements.as_slice())
    } else {
        Ok(Kinds::new(alloc))
    }
}

/// A difference has elements of the left alone.
pub(crate) fn difference(alloc: Global, left: &Operand<'_>, second: &Operand<'_>) -> Ruling
    ensures { Gives (λ kinds. kinds) result (spec.difference left.now.plain left.now.possible second.now.possible) }
{
    let is_aggregate = left.can_be(PlainSort::Aggregate) && !is_open(second);
    let aggregate = aggregate_if(alloc, is_aggregate, left)?;
    let kinds = with_more(integers(alloc, left, second)?, aggregate.as_slice())?;
    let fine = are_integers(left, second) || can_be_aggregate(left);
    arithmetic(left, second, fine, kinds)
}

/// A product has elements of both.
pub(crate) fn product(alloc: Global, left: &Operand<'_>, second: &Operand<'_>) -> Ruling
    ensures { Gives (λ kinds. kinds) result (spec.product left.now.plain left.now.possible second.now.possible) }
{
    let is_aggregate = left.can_be(PlainSort::Aggregate) && second.can_be(PlainSort::Aggregate);
    let aggregate = aggregate_if(alloc, is_aggregate, left)?;
    let kinds = with_more(integers(alloc, left, second)?, aggregate.as_slice())?;
    let fine = are_integers(left, second) || are_aggregates(left, second);
    arithmetic(left, second, fine, kinds)
}

/// Of INTEGER alone.
pub(crate) fn whole(alloc: Global, first: &Operand<'_>, second: &Operand<'_>) -> Ruling
    ensures { Gives (λ kinds. kinds) result (spec.whole first.now.possible second.now.possible) }
{
    let kinds = integers(alloc, first, second)?;
    arithmetic(first, second, are_integers(first, second), kinds)
}

pub(crate) fn signed(alloc: Global, operand: &Operand<'_>) -> Ruling
    ensures { Gives (λ kinds. kinds) result (spec.signed operand.now.possible) }
{
    if may_be_real(operand) {
        return Err(Failure::Fault(TypeFaultKind::RealArithmetic));
    }
    let kinds = kinds_if(alloc, operand.can_be(PlainSort::Integer), Sort::Integer)?;
    or_else_fault(can_be_integer(operand), TypeFaultKind::Operand, kinds)
}
