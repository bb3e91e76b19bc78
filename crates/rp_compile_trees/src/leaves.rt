//! Literals, names of attributes, and roles that literals name.

ghost use Rattle.std.specs.Prelude.{◌≡◌, ◌++◌, map, not, filter, IfOk, OnOk};
ghost use Rattle.std.specs.Option.{option_map};
ghost use Rattle.std.specs.List.{list_any};
ghost use Rattle.plain_data.specs.Numbers.{is_among};
ghost use Rattle.ex_tree.specs.declared.expression.Literal.TheVariants as literals;
ghost use Rattle.rp_meaning.specs.CompiledExpressions as spec;
ghost use Rattle.rp_code.specs.declared.tree.Expression.TheVariants as tree;
ghost use Rattle.rp_value.specs.declared.value.Value.{out-Value};
ghost use Rattle.rp_value.specs.declared.value.Value.TheVariants as value;

use crate::declared::Declared;
use ex_kinds::{Sort, ValueKind};
use ex_named::{AttributeMeaning, AttributePlace, EnumerationItem};
use ex_tree::{BuiltInFunction, Literal};
use plain_data::{Boxed, Items};
use rp_code::{Expression, NamedRole, Role, copied_role};
use rp_value::Value;
use std::alloc::{AllocError, Global};

/// The bits that are spelled by `0` and `1`.
fn bits(alloc: Global, digits: &[u8]) -> Result<Items<bool>, AllocError>
    ensures { IfOk result (λ bits. bits ≡ map spec.bit digits.now) }
{
    let mut bits = Items::new(alloc);
    for digit in digits {
        bits.push(*digit == b'1')?;
    }
    Ok(bits)
}

/// The value of an INTEGER literal: `?` past 64 bits.
fn integer(number: u64) -> Value
    ensures { result ≡ spec.literal (literals.Integer number) }
{
    match i64::try_from(number) {
        Ok(number) => Value::Int(number),
        Err(_) => Value::Indet,
    }
}

fn literal_value(alloc: Global, literal: &Literal) -> Result<Value, AllocError>
    ensures { IfOk result (λ value. value ≡ spec.literal literal.now) }
{
    match literal {
        Literal::Integer(number) => Ok(integer(*number)),
        Literal::Real(decimal) => Value::decimal(alloc, *decimal),
        Literal::String(text, _) => Value::text(alloc, text.copy(alloc)?),
        Literal::Binary(digits) => Value::binary(alloc, bits(alloc, digits.as_bytes())?),
        Literal::Logical(logical) => Ok(Value::Log(*logical)),
    }
}

/// A literal.
pub(crate) fn literal(alloc: Global, literal: &Literal) -> Result<Expression, AllocError>
    ensures { IfOk result (λ found. found ≡ tree.Literal (spec.literal literal.now)) }
{
    Ok(Expression::Literal(literal_value(alloc, literal)?))
}

/// An attribute of SELF, by its name alone.
pub(crate) fn own_attribute(meaning: AttributeMeaning) -> Expression
    ensures { result ≡ spec.own_attribute meaning }
{
    match meaning {
        AttributeMeaning::One(place) => Expression::Attribute(place),
        AttributeMeaning::Several => Expression::Literal(Value::Indet),
    }
}

/// The item of an enumeration.
pub(crate) fn item(item: EnumerationItem) -> Expression
    ensures { result ≡ tree.Literal (value.Item item.type_number item.place) }
{
    Expression::Literal(Value::Item {
        enumeration: item.type_number,
        place: item.place,
    })
}

/// `?`
pub(crate) fn indeterminate() -> Expression
    ensures { result ≡ tree.Literal value.Indet }
{
    Expression::Literal(Value::Indet)
}

fn is_any(kind: ValueKind) -> bool
    ensures { result ≡ spec.is_any_at kind.depth kind.sort }
{
    kind.depth == 0 && matches!(kind.sort, Sort::Instance | Sort::Generic)
}

/// Whether a value of one of these kinds may be an instance of any entity.
fn may_be_any(kinds: &[ValueKind]) -> bool
    ensures { result ≡ spec.may_be_any kinds.now }
{
    kinds.iter().any(|kind| is_any(*kind))
}

/// Whether an entity is one of this kind, or above one.
fn is_in_kind(
    alloc: Global,
    schema: &Declared<'_>,
    kind: ValueKind,
    entity: usize,
) -> Result<bool, AllocError>
    ensures { IfOk result (λ told. told ≡ is_among (spec.family_at schema.now.known.attributes.supertypes kind.depth kind.sort) entity) }
{
    if kind.depth > 0 {
        return Ok(false);
    }
    match kind.sort {
        Sort::Entity(member) => schema.family(member).has(alloc, entity),
        _ => Ok(false),
    }
}

/// Whether an entity is near a value of these kinds, which are plain.
fn is_near(
    alloc: Global,
    schema: &Declared<'_>,
    kinds: &[ValueKind],
    entity: usize,
) -> Result<bool, AllocError>
    ensures { IfOk result (λ told. told ≡ is_among (spec.near schema.now.known.attributes.supertypes kinds.now) entity) }
{
    if may_be_any(kinds) {
        return Ok(false);
    }
    for kind in kinds {
        if is_in_kind(alloc, schema, *kind, entity)? {
            return Ok(true);
        }
    }
    Ok(false)
}

/// Those whose entity is near a value of these kinds, which are plain, and then the others.
fn nearest_first(
    alloc: Global,
    schema: &Declared<'_>,
    kinds: &[ValueKind],
    places: &[AttributePlace],
) -> Result<Items<AttributePlace>, AllocError>
    ensures { IfOk result (λ found. found ≡ spec.nearest_first (spec.near schema.now.known.attributes.supertypes kinds.now) places.now) }
{
    let mut nearest = Items::new(alloc);
    let mut others = Items::new(alloc);
    for place in places {
        if is_near(alloc, schema, kinds, place.entity)? {
            nearest.push(*place)?;
        } else {
            others.push(*place)?;
        }
    }
    nearest.append(others)?;
    Ok(nearest)
}

/// The attributes that a name may mean behind a value of these kinds.
pub(crate) fn meant(
    alloc: Global,
    schema: &Declared<'_>,
    name: &str,
    kinds: &[ValueKind],
) -> Result<Items<AttributePlace>, AllocError>
    ensures { IfOk result (λ found. found ≡ spec.meant schema.now name.now kinds.now) }
{
    let plain = schema.known().types().plain(alloc, kinds)?;
    nearest_first(
        alloc,
        schema,
        plain.as_slice(),
        schema.attributes_named(name),
    )
}

/// The role of this name; no name stands for every role.
fn role_named(alloc: Global, roles: &[NamedRole], name: &str) -> Result<Option<Role>, AllocError>
    ensures { IfOk result (λ found. found ≡ spec.role_named roles.now name.now) }
{
    if name.is_empty() {
        return Ok(Some(Role::Every));
    }
    for role in roles {
        if role.name.as_str() == name {
            return Ok(Some(copied_role(alloc, &role.role)?));
        }
    }
    Ok(None)
}

/// The text that a value is.
fn text_in(value: &Value) -> Option<&str>
    ensures { option_map (λ t. t.now) result ≡ spec.text_in (out-Value value.now) }
{
    match value {
        Value::Str(text) => Some(text.as_str()),
        _ => None,
    }
}

/// The text that an expression is, where it is a literal.
fn text_of(tree: &Expression) -> Option<&str>
    ensures { option_map (λ t. t.now) result ≡ spec.text_of tree.now }
{
    match tree {
        Expression::Literal(value) => text_in(value),
        _ => None,
    }
}

/// USEDIN with these arguments.
fn used_in(
    alloc: Global,
    schema: &Declared<'_>,
    instance: Expression,
    role: Expression,
) -> Result<Expression, AllocError>
    ensures { IfOk result (λ found. found ≡ spec.used_in schema.now instance role (spec.text_of role)) }
{
    match text_of(&role) {
        Some(name) => {
            let role = role_named(alloc, schema.roles(), name)?;
            Ok(Expression::UsedIn(Boxed::new(alloc, instance)?, role))
        }
        None => {
            let mut arguments = Items::new(alloc);
            arguments.push(instance)?;
            arguments.push(role)?;
            Ok(Expression::BuiltIn(BuiltInFunction::UsedIn, arguments))
        }
    }
}

/// A built-in function with these arguments.
pub(crate) fn built_in(
    alloc: Global,
    schema: &Declared<'_>,
    function: BuiltInFunction,
    arguments: Items<Expression>,
) -> Result<Expression, AllocError>
    ensures { IfOk result (λ found. found ≡ spec.built_in schema.now function arguments) }
{
    let mut arguments = arguments;
    if function == BuiltInFunction::UsedIn && arguments.len() == 2 {
        let role = arguments.remove(1);
        let instance = arguments.remove(0);
        return used_in(alloc, schema, instance, role);
    }
    Ok(Expression::BuiltIn(function, arguments))
}
