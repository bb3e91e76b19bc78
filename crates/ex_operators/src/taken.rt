//! Elements, qualifiers and QUERY.

ghost use Rattle.std.specs.Prelude.{◌≡◌, IfOk};
ghost use Rattle.plain_data.specs.Gives.{Gives};
ghost use Rattle.ex_operators.specs.Taken as spec;

use crate::fitting::is_integer;
use crate::operand::Operand;
use crate::possibilities::{can_be_aggregate, can_be_instance, can_be_string, is_nothing};
use crate::ruling::{Ruling, aggregate_if, kinds_if, or_else_fault, with_more};
use ex_kinds::{Kinds, PlainSort, Sort, TypeFaultKind, Types, ValueKind, kinds_of_one};
use std::alloc::{AllocError, Global};

/// What the elements of these may be.
#[tactic(auto, unfolding(crate::specs::Taken::elements_of))]
pub fn elements_of(alloc: Global, types: &Types, kinds: &[ValueKind]) -> Result<Kinds, AllocError>
    ensures { IfOk result (λ found. found ≡ spec.elements_of types.now kinds.now) }
{
    Operand::of(types, kinds).elements(alloc)
}

/// What `base[index]` gives.
#[tactic(auto, unfolding(crate::specs::Taken::indexed))]
pub fn indexed(alloc: Global, types: &Types, base: &[ValueKind], index: &[ValueKind]) -> Ruling
    ensures { Gives (λ kinds. kinds) result (spec.indexed types.now base.now index.now) }
{
    let base = Operand::of(types, base);
    let fine = is_integer(types, index);
    indexed_by(alloc, &base, fine)
}

/// What `base[low:high]` gives.
#[tactic(auto, unfolding(crate::specs::Taken::ranged))]
pub fn ranged(
    alloc: Global,
    types: &Types,
    base: &[ValueKind],
    low: &[ValueKind],
    high: &[ValueKind],
) -> Ruling
    ensures { Gives (λ kinds. kinds) result (spec.ranged types.now base.now low.now high.now) }
{
    let possible = Operand::of(types, base);
    let fine = is_integer(types, low) && is_integer(types, high);
    ranged_by(alloc, &possible, fine)
}

/// What `base\entity` gives.
#[tactic(auto, unfolding(crate::specs::Taken::grouped))]
pub fn grouped(alloc: Global, types: &Types, base: &[ValueKind], entity: usize) -> Ruling
    ensures { Gives (λ kinds. kinds) result (spec.grouped types.now base.now entity) }
{
    let possible = Operand::of(types, base);
    let kinds = kinds_of_one(alloc, Sort::Entity(entity))?;
    or_else_fault(can_be_instance(&possible), TypeFaultKind::Qualifier, kinds)
}

/// What a QUERY over this source gives.
#[tactic(auto, unfolding(crate::specs::Taken::queried))]
pub fn queried(alloc: Global, types: &Types, source: &[ValueKind]) -> Ruling
    ensures { Gives (λ kinds. kinds) result (spec.queried types.now source.now) }
{
    let possible = Operand::of(types, source);
    let elements = elements_of(alloc, types, source)?;
    let kinds = aggregate_if(alloc, !is_nothing(&possible), elements.as_slice())?;
    or_else_fault(can_be_aggregate(&possible), TypeFaultKind::Operand, kinds)
}

fn indexed_kinds(alloc: Global, base: &Operand<'_>) -> Result<Kinds, AllocError>
    ensures { IfOk result (λ kinds. kinds ≡ spec.indexed_kinds base.now.plain base.now.possible) }
{
    let strings = kinds_if(alloc, base.can_be(PlainSort::String), Sort::String)?;
    let binaries = kinds_if(alloc, base.can_be(PlainSort::Binary), Sort::Binary)?;
    let texts = with_more(strings, binaries.as_slice())?;
    with_more(base.elements(alloc)?, texts.as_slice())
}

fn indexed_by(alloc: Global, base: &Operand<'_>, fine: bool) -> Ruling
    ensures { Gives (λ kinds. kinds) result (spec.indexed_by base.now.plain base.now.possible fine) }
{
    let has_places = can_be_aggregate(base)
        || base.can_be(PlainSort::String)
        || base.can_be(PlainSort::Binary);
    let kinds = indexed_kinds(alloc, base)?;
    or_else_fault(has_places && fine, TypeFaultKind::Qualifier, kinds)
}

fn ranged_by(alloc: Global, operand: &Operand<'_>, fine: bool) -> Ruling
    ensures { Gives (λ kinds. kinds) result (spec.ranged_by operand.now.possible fine) }
{
    let strings = kinds_if(
        alloc,
        operand.can_be(PlainSort::String) || operand.can_be(PlainSort::Generic),
        Sort::String,
    )?;
    let binaries = kinds_if(
        alloc,
        operand.can_be(PlainSort::Binary) || operand.can_be(PlainSort::Generic),
        Sort::Binary,
    )?;
    let kinds = with_more(strings, binaries.as_slice())?;
    let has_ranges = can_be_string(operand) || operand.can_be(PlainSort::Binary);
    or_else_fault(has_ranges && fine, TypeFaultKind::Qualifier, kinds)
}
