//! What may stand where, and beside what.

ghost use Rattle.std.specs.Prelude.{◌≡◌, ℕ, IfOk};
ghost use Rattle.std.specs.List.{list_any};
ghost use Rattle.plain_data.specs.Numbers.{is_among};
ghost use Rattle.ex_operators.specs.Fitting as spec;

use crate::operand::Operand;
use ex_kinds::PlainSort;
use std::alloc::{AllocError, Global};
use std::collections::BTreeSet;

fn is_enumeration(operand: &Operand<'_>) -> bool
    ensures { result ≡ spec.is_enumeration operand.now.possible }
{
    operand.can_be(PlainSort::Enumeration)
}

/// Whether nothing is known to be possible, as of `?`.
pub(crate) fn is_nothing(operand: &Operand<'_>) -> bool
    ensures { result ≡ spec.is_nothing operand.now.possible }
{
    !operand.is_plain() && can_be_nothing(operand)
}

/// The same by a look at each sort.
fn can_be_nothing(operand: &Operand<'_>) -> bool
    ensures { result ≡ spec.is_nothing operand.now.possible }
{
    !(operand.can_be(PlainSort::Integer)
        || operand.can_be(PlainSort::Real)
        || operand.can_be(PlainSort::String)
        || operand.can_be(PlainSort::Binary)
        || operand.can_be(PlainSort::Logical)
        || operand.can_be(PlainSort::Instance)
        || operand.can_be(PlainSort::Aggregate)
        || operand.can_be(PlainSort::Generic)
        || is_enumeration(operand))
}

/// Whether it fits everywhere.
pub(crate) fn is_open(operand: &Operand<'_>) -> bool
    ensures { result ≡ spec.is_open operand.now.possible }
{
    operand.can_be(PlainSort::Generic) || is_nothing(operand)
}

pub(crate) fn can_be_integer(operand: &Operand<'_>) -> bool
    ensures { result ≡ spec.can_be_integer operand.now.possible }
{
    is_open(operand) || operand.can_be(PlainSort::Integer)
}

fn can_be_number(operand: &Operand<'_>) -> bool
    ensures { result ≡ spec.can_be_number operand.now.possible }
{
    is_open(operand) || operand.can_be(PlainSort::Integer) || operand.can_be(PlainSort::Real)
}

pub(crate) fn can_be_string(operand: &Operand<'_>) -> bool
    ensures { result ≡ spec.can_be_string operand.now.possible }
{
    is_open(operand) || operand.can_be(PlainSort::String)
}

pub(crate) fn can_be_binary(operand: &Operand<'_>) -> bool
    ensures { result ≡ spec.can_be_binary operand.now.possible }
{
    is_open(operand) || operand.can_be(PlainSort::Binary)
}

pub(crate) fn can_be_logical(operand: &Operand<'_>) -> bool
    ensures { result ≡ spec.can_be_logical operand.now.possible }
{
    is_open(operand) || operand.can_be(PlainSort::Logical)
}

pub(crate) fn can_be_instance(operand: &Operand<'_>) -> bool
    ensures { result ≡ spec.can_be_instance operand.now.possible }
{
    is_open(operand) || operand.can_be(PlainSort::Instance)
}

pub(crate) fn can_be_aggregate(operand: &Operand<'_>) -> bool
    ensures { result ≡ spec.can_be_aggregate operand.now.possible }
{
    is_open(operand) || operand.can_be(PlainSort::Aggregate)
}

fn can_be_enumeration(operand: &Operand<'_>) -> bool
    ensures { result ≡ spec.can_be_enumeration operand.now.possible }
{
    is_open(operand) || is_enumeration(operand)
}

pub(crate) fn are_integers(first: &Operand<'_>, second: &Operand<'_>) -> bool
    ensures { result ≡ spec.are_integers first.now.possible second.now.possible }
{
    can_be_integer(first) && can_be_integer(second)
}

pub(crate) fn are_strings(first: &Operand<'_>, second: &Operand<'_>) -> bool
    ensures { result ≡ spec.are_strings first.now.possible second.now.possible }
{
    can_be_string(first) && can_be_string(second)
}

pub(crate) fn are_binaries(first: &Operand<'_>, second: &Operand<'_>) -> bool
    ensures { result ≡ spec.are_binaries first.now.possible second.now.possible }
{
    can_be_binary(first) && can_be_binary(second)
}

pub(crate) fn are_logicals(first: &Operand<'_>, second: &Operand<'_>) -> bool
    ensures { result ≡ spec.are_logicals first.now.possible second.now.possible }
{
    can_be_logical(first) && can_be_logical(second)
}

pub(crate) fn are_aggregates(first: &Operand<'_>, second: &Operand<'_>) -> bool
    ensures { result ≡ spec.are_aggregates first.now.possible second.now.possible }
{
    can_be_aggregate(first) && can_be_aggregate(second)
}

/// These numbers as a set.
fn set_of(alloc: Global, numbers: &[usize]) -> Result<BTreeSet<usize>, AllocError>
    ensures { IfOk result (λ set. (k : ℕ) → is_among set.keys k ≡ is_among numbers.now k) }
{
    let mut set = BTreeSet::new(alloc);
    for number in numbers {
        set.insert(*number)?;
    }
    Ok(set)
}

fn contains(set: &BTreeSet<usize>, number: usize) -> bool
    ensures { result ≡ is_among set.now.keys number }
{
    set.contains(&number)
}

/// Whether one of the numbers is in the set.
fn any_in(set: &BTreeSet<usize>, numbers: &[usize]) -> bool
    ensures { result ≡ list_any (λ n. is_among set.now.keys n) numbers.now }
{
    numbers.iter().any(|number| contains(set, *number))
}

/// Whether a number is among both.
fn share(alloc: Global, first: &[usize], second: &[usize]) -> Result<bool, AllocError>
    ensures { IfOk result (λ b. b ≡ list_any (λ n. is_among second.now n) first.now) }
{
    let set = set_of(alloc, second)?;
    Ok(any_in(&set, first))
}

/// Whether both may be of one enumeration.
fn share_enumeration(
    alloc: Global,
    first: &Operand<'_>,
    second: &Operand<'_>,
) -> Result<bool, AllocError>
    ensures { IfOk result (λ b. b ≡ spec.share_enumeration first.now.possible second.now.possible) }
{
    if is_enumeration(first) && is_enumeration(second) {
        let numbers = first.enumerations(alloc)?;
        let others = second.enumerations(alloc)?;
        share(alloc, &numbers, &others)
    } else {
        Ok(false)
    }
}

/// Whether one of them is open, and the other may be of an enumeration.
fn is_open_beside_enumeration(first: &Operand<'_>, second: &Operand<'_>) -> bool
    ensures { result ≡ spec.is_open_beside_enumeration first.now.possible second.now.possible }
{
    (is_open(first) && can_be_enumeration(second)) || (can_be_enumeration(first) && is_open(second))
}

/// Whether `<` compares them, enumerations aside.
fn are_simply_ordered(first: &Operand<'_>, second: &Operand<'_>) -> bool
    ensures { result ≡ spec.are_simply_ordered first.now.possible second.now.possible }
{
    (can_be_number(first) && can_be_number(second))
        || are_strings(first, second)
        || are_binaries(first, second)
        || are_logicals(first, second)
}

/// Whether `<` compares them.
pub(crate) fn are_ordered(
    alloc: Global,
    first: &Operand<'_>,
    second: &Operand<'_>,
) -> Result<bool, AllocError>
    ensures { IfOk result (λ b. b ≡ spec.are_ordered first.now.possible second.now.possible) }
{
    if are_simply_ordered(first, second) || is_open_beside_enumeration(first, second) {
        return Ok(true);
    }
    share_enumeration(alloc, first, second)
}

/// Whether `=` compares them, instances of entities aside.
pub(crate) fn are_comparable(
    alloc: Global,
    first: &Operand<'_>,
    second: &Operand<'_>,
) -> Result<bool, AllocError>
    ensures { IfOk result (λ b. b ≡ spec.are_comparable first.now.possible second.now.possible) }
{
    if are_aggregates(first, second) {
        return Ok(true);
    }
    are_ordered(alloc, first, second)
}

/// INTEGER fits REAL.
fn fits_number(value: &Operand<'_>, place: &Operand<'_>) -> bool
    ensures { result ≡ spec.fits_number value.now.possible place.now.possible }
{
    (value.can_be(PlainSort::Integer)
        && (place.can_be(PlainSort::Integer) || place.can_be(PlainSort::Real)))
        || (value.can_be(PlainSort::Real) && place.can_be(PlainSort::Real))
}

fn share_simple(first: &Operand<'_>, second: &Operand<'_>) -> bool
    ensures { result ≡ spec.share_simple first.now.possible second.now.possible }
{
    (first.can_be(PlainSort::String) && second.can_be(PlainSort::String))
        || (first.can_be(PlainSort::Binary) && second.can_be(PlainSort::Binary))
        || (first.can_be(PlainSort::Logical) && second.can_be(PlainSort::Logical))
}

/// Whether a value of the first fits a place of the second, enumerations aside.
fn fits_simply(value: &Operand<'_>, place: &Operand<'_>) -> bool
    ensures { result ≡ spec.fits_simply value.now.possible place.now.possible }
{
    is_open(value)
        || place.can_be(PlainSort::Generic)
        || fits_number(value, place)
        || share_simple(value, place)
        || (value.can_be(PlainSort::Instance) && place.can_be(PlainSort::Instance))
        || (value.can_be(PlainSort::Aggregate) && place.can_be(PlainSort::Aggregate))
}

/// Whether a value of the first fits a place of the second.
pub(crate) fn fits_place(
    alloc: Global,
    value: &Operand<'_>,
    place: &Operand<'_>,
) -> Result<bool, AllocError>
    ensures { IfOk result (λ b. b ≡ spec.fits_place value.now.possible place.now.possible) }
{
    if fits_simply(value, place) {
        return Ok(true);
    }
    share_enumeration(alloc, value, place)
}
