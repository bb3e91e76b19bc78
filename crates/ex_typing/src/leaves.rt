//! What stands at the ends of expressions, and the rules that combine what is said of their parts.

ghost use Rattle.std.specs.Prelude.{◌≡◌, [], ◌∷◌, true, IfOk, is_some};
ghost use Rattle.ex_kinds.specs.Faults.{fine, refused};
ghost use Rattle.ex_kinds.specs.declared.fault.TypeFaultKind.TheVariants.{Ambiguous};
ghost use Rattle.ex_kinds.specs.Kinds.{itself, aggregate_of as aggregate_by};
ghost use Rattle.ex_typing.specs.Expressions as spec;

use crate::known::Known;
use crate::scope::TypingScope;
use ex_kinds::{
    Kinds, Sort, TypeFault, TypeFaultKind, Typed, ValueKind, aggregate_of, copied, join,
    kinds_of_one, ruled,
};
use ex_named::AttributeUse;
use ex_operators::{
    binary, binary_anyway, built_in, built_in_anyway, grouped, unary, unary_anyway,
};
use ex_tree::{BinaryOperator, BuiltInFunction, Literal, UnaryOperator};
use std::alloc::{AllocError, Global};

fn literal(alloc: Global, value: &Literal) -> Result<Kinds, AllocError>
    ensures { IfOk result (λ kinds. kinds ≡ spec.literal value.now) }
{
    kinds_of_one(
        alloc,
        match value {
            Literal::Integer(_) => Sort::Integer,
            Literal::Real(_) => Sort::Real,
            Literal::String(_, _) => Sort::String,
            Literal::Binary(_) => Sort::Binary,
            Literal::Logical(_) => Sort::Logical,
        },
    )
}

/// A value of this literal, without a fault.
pub(crate) fn literal_value(alloc: Global, value: &Literal) -> Result<Typed, AllocError>
    ensures { IfOk result (λ typed. typed ≡ fine (spec.literal value.now)) }
{
    Ok(Typed::fine(literal(alloc, value)?))
}

/// A value of one sort, without a fault.
pub(crate) fn value_of_one(alloc: Global, sort: Sort) -> Result<Typed, AllocError>
    ensures { IfOk result (λ typed. typed ≡ fine (itself sort ∷ [])) }
{
    Ok(Typed::fine(kinds_of_one(alloc, sort)?))
}

/// The name of an item of two enumerations, which stands there.
pub(crate) fn ambiguous(alloc: Global, at: usize) -> Typed
    ensures { result ≡ refused Ambiguous at }
{
    Typed::refused(alloc, TypeFaultKind::Ambiguous, at)
}

/// A value of these kinds, without a fault.
pub(crate) fn known_kinds(alloc: Global, kinds: &[ValueKind]) -> Result<Typed, AllocError>
    ensures { IfOk result (λ typed. typed ≡ fine kinds.now) }
{
    Ok(Typed::fine(copied(alloc, kinds)?))
}

/// An aggregate of what is of one sort.
pub(crate) fn aggregate_of_one(alloc: Global, sort: Sort) -> Result<Typed, AllocError>
    ensures { IfOk result (λ typed. typed ≡ fine (aggregate_by (itself sort ∷ []))) }
{
    let element = kinds_of_one(alloc, sort)?;
    Ok(Typed::fine(aggregate_of(alloc, element.as_slice())?))
}

/// An attribute of SELF, by its name alone.
pub(crate) fn attribute(
    alloc: Global,
    schema: &Known,
    scope: &TypingScope<'_>,
    name: &AttributeUse,
) -> Result<Typed, AllocError>
    ensures { IfOk result (λ typed. typed ≡ spec.used_by schema.now.attributes scope.now.entity name.now) }
{
    match scope.entity() {
        Some(entity) => schema.attributes().used(alloc, entity, name),
        None => Ok(Typed::fine(Kinds::new(alloc))),
    }
}

/// A function of the schema with arguments of these kinds.
pub(crate) fn called(
    alloc: Global,
    schema: &Known,
    function: usize,
    at: usize,
    arguments: &[Kinds],
) -> Result<Typed, AllocError>
    ensures { IfOk result (λ typed. typed ≡ spec.called_by schema.now function at arguments.now) }
{
    let Some(signature) = schema.function(function) else {
        return Ok(Typed::fine(Kinds::new(alloc)));
    };
    let rule = ex_operators::called(
        alloc,
        schema.types(),
        signature.parameters.as_slice(),
        signature.result.as_slice(),
        arguments,
    );
    let typed = ruled(alloc, at, rule)?;
    if typed.fault.is_none() {
        return Ok(typed);
    }
    let kinds = copied(alloc, signature.result.as_slice())?;
    Ok(anyway(typed, kinds))
}

/// What is refused, with what it gives anyway.
fn anyway(typed: Typed, kinds: Kinds) -> Typed
    requires { is_some typed.fault ≡ true }
    ensures { result ≡ spec.anyway kinds typed }
{
    let fault = typed.fault;
    Typed { kinds, fault }
}

/// A built-in function with arguments of these kinds.
pub(crate) fn built_in_at(
    alloc: Global,
    schema: &Known,
    function: BuiltInFunction,
    at: usize,
    arguments: &[Kinds],
) -> Result<Typed, AllocError>
    ensures { IfOk result (λ typed. typed ≡ spec.built_in_at schema.now function at arguments.now) }
{
    let has_entities = schema.attributes().has_entities();
    let typed = ruled(
        alloc,
        at,
        built_in(alloc, schema.types(), has_entities, function, arguments),
    )?;
    if typed.fault.is_none() {
        return Ok(typed);
    }
    Ok(anyway(typed, built_in_anyway(alloc, has_entities, function)?))
}

/// An operator on an operand of these kinds.
pub(crate) fn unary_at(
    alloc: Global,
    schema: &Known,
    operator: UnaryOperator,
    at: usize,
    operand: &[ValueKind],
) -> Result<Typed, AllocError>
    ensures { IfOk result (λ typed. typed ≡ spec.unary_at schema.now operator at operand.now) }
{
    let typed = ruled(alloc, at, unary(alloc, schema.types(), operator, operand))?;
    if typed.fault.is_none() {
        return Ok(typed);
    }
    Ok(anyway(typed, unary_anyway(alloc, operator)?))
}

/// An operator between operands of these kinds.
pub(crate) fn binary_at(
    alloc: Global,
    schema: &Known,
    operator: BinaryOperator,
    at: usize,
    left: &[ValueKind],
    right: &[ValueKind],
) -> Result<Typed, AllocError>
    ensures { IfOk result (λ typed. typed ≡ spec.binary_at schema.now operator at left.now right.now) }
{
    let typed = ruled(
        alloc,
        at,
        binary(alloc, schema.types(), operator, left, right),
    )?;
    if typed.fault.is_none() {
        return Ok(typed);
    }
    Ok(anyway(typed, binary_anyway(alloc, operator)?))
}

/// The value as an instance of an entity.
pub(crate) fn grouped_at(
    alloc: Global,
    schema: &Known,
    at: usize,
    base: &[ValueKind],
    entity: usize,
) -> Result<Typed, AllocError>
    ensures { IfOk result (λ typed. typed ≡ spec.grouped_at schema.now at base.now entity) }
{
    let typed = ruled(alloc, at, grouped(alloc, schema.types(), base, entity))?;
    if typed.fault.is_none() {
        return Ok(typed);
    }
    Ok(anyway(typed, kinds_of_one(alloc, Sort::Entity(entity))?))
}

/// An aggregate of elements of these kinds.
pub(crate) fn initializer(
    alloc: Global,
    elements: &[Kinds],
    fault: Option<TypeFault>,
) -> Result<Typed, AllocError>
    ensures { IfOk result (λ typed. typed ≡ spec.initializer (elements.now, fault)) }
{
    let joined = all_joined(alloc, elements)?;
    let kinds = aggregate_of(alloc, joined.as_slice())?;
    Ok(Typed { kinds, fault })
}

fn all_joined(alloc: Global, list: &[Kinds]) -> Result<Kinds, AllocError>
    ensures { IfOk result (λ kinds. kinds ≡ spec.joined_after [] list.now) }
{
    let mut found = Kinds::new(alloc);
    for kinds in list {
        join(&mut found, kinds.as_slice())?;
    }
    Ok(found)
}

/// An interval, by the fault that is told of it.
pub(crate) fn compared(alloc: Global, fault: Option<TypeFault>) -> Result<Typed, AllocError>
    ensures { IfOk result (λ typed. typed ≡ spec.compared fault) }
{
    let kinds = kinds_of_one(alloc, Sort::Logical)?;
    Ok(Typed { kinds, fault })
}
