//! What a value of a declared type may be.

ghost use Rattle.std.specs.Prelude.{◌≡◌, ◌∷◌, [], IfOk};
ghost use Rattle.ex_kinds.specs.Kinds as spec;

use crate::kind::{Sort, ValueKind};
use crate::kinds::Kinds;
use ex_named::{NamedDataType, TypeName};
use ex_tree::SimpleType;
use std::alloc::{AllocError, Global};

/// What the value itself may be.
fn itself(sort: Sort) -> ValueKind
    ensures { result ≡ spec.itself sort }
{
    ValueKind { depth: 0, sort }
}

/// What a value may be that is of one kind.
pub fn kinds_of_one(alloc: Global, sort: Sort) -> Result<Kinds, AllocError>
    ensures { IfOk result (λ kinds. kinds ≡ spec.itself sort ∷ []) }
{
    Ok(Kinds::one(alloc, itself(sort)))
}

/// What the elements of an aggregate may be, or their elements.
fn deeper(kind: ValueKind) -> Result<ValueKind, AllocError>
    ensures { IfOk result (λ found. found ≡ spec.deeper kind) }
{
    match kind.depth.checked_add(1) {
        Some(depth) => Ok(ValueKind {
            depth,
            sort: kind.sort,
        }),
        // A type that nests so deep has no room in memory.
        None => Err(AllocError),
    }
}

/// What an aggregate may be, of what its elements may be.
pub fn aggregate_of(alloc: Global, elements: &[ValueKind]) -> Result<Kinds, AllocError>
    ensures { IfOk result (λ kinds. kinds ≡ spec.aggregate_of elements.now) }
{
    let mut kinds = kinds_of_one(alloc, Sort::Aggregate)?;
    for element in elements {
        kinds.push(deeper(*element)?)?;
    }
    Ok(kinds)
}

/// NUMBER is either of two, and BOOLEAN is LOGICAL without UNKNOWN.
fn kinds_of_simple(alloc: Global, simple: SimpleType) -> Result<Kinds, AllocError>
    ensures { IfOk result (λ kinds. kinds ≡ spec.of_simple simple) }
{
    let sort = match simple {
        SimpleType::Binary(_) => Sort::Binary,
        SimpleType::Boolean | SimpleType::Logical => Sort::Logical,
        SimpleType::Integer | SimpleType::Number => Sort::Integer,
        SimpleType::Real => Sort::Real,
        SimpleType::String(_) => Sort::String,
    };
    let mut kinds = kinds_of_one(alloc, sort)?;
    if let SimpleType::Number = simple {
        kinds.push(itself(Sort::Real))?;
    }
    Ok(kinds)
}

/// What a value of the type of this name may be.
pub(crate) fn kind_of_name(name: TypeName) -> ValueKind
    ensures { result ≡ spec.of_name name }
{
    match name {
        TypeName::Entity(number) => itself(Sort::Entity(number)),
        TypeName::Defined(number) => itself(Sort::Defined(number)),
    }
}

/// What a value of a declared type may be.
#[tactic(auto, unfolding(crate::specs::Kinds::of_type))]
pub fn kinds_of(alloc: Global, tree: &NamedDataType) -> Result<Kinds, AllocError>
    ensures { IfOk result (λ kinds. kinds ≡ spec.of_type tree.now) }
{
    match tree {
        NamedDataType::Simple(simple) => kinds_of_simple(alloc, *simple),
        NamedDataType::Named(name) => Ok(Kinds::one(alloc, kind_of_name(*name))),
        NamedDataType::Array { element, .. }
        | NamedDataType::List { element, .. }
        | NamedDataType::Bag { element, .. }
        | NamedDataType::Set { element, .. }
        | NamedDataType::Aggregate(element) => {
            let elements = kinds_of(alloc, element.get())?;
            aggregate_of(alloc, elements.as_slice())
        }
        NamedDataType::Generic => kinds_of_one(alloc, Sort::Generic),
    }
}
