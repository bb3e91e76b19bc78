//! Operators.

ghost use Rattle.std.specs.Prelude.{◌≡◌, ◌++◌, IfOk, int_div, int_rem};
ghost use Rattle.ex_tree.specs.declared.expression.UnaryOperator.TheVariants as n;
ghost use Rattle.rp_meaning.specs.Operators as spec;
ghost use Rattle.rp_numbers.specs.Logical as logical;
ghost use Rattle.rp_operators.specs.Sights.{seen_by};
ghost use Rattle.rp_value.specs.declared.value.Value.TheVariants as v;

use crate::bare::{Bare, beneath, beneath_names, integer_of, truth_of};
use crate::decimals::{compare_decimals, compare_whole, compare_with_whole};
use crate::numbers::{minus, negated, plain, plus, power, quotient, rest, times};
use crate::relations::{at_least, at_most, equal, greater, less, unequal};
use crate::scalars::{by_order, found_among, joined_texts, of_integers, of_texts, of_truths};
use ex_tree::{BinaryOperator, IntervalOperator, UnaryOperator};
use plain_data::Items;
use rp_operations::{
    aggregate_union, intersect, is_in, minus as less_elements, same, union_in_place,
};
use rp_value::{Bits, Logical, Value};
use std::alloc::{AllocError, Global};

/// The bits of the one behind those of the other.
fn joined_bits(alloc: Global, s: &Bits, t: &Bits) -> Result<Value, AllocError>
    ensures { IfOk result (λ a. a ≡ v.Bin (s.now ++ t.now)) }
{
    let mut bits = Vec::from_slice(alloc, s.as_slice())?;
    bits.extend_from_slice(t.as_slice())?;
    Value::binary(alloc, Items::from_vec(bits))
}

/// `+`
fn sum(alloc: Global, x: &Value, y: &Value) -> Result<Value, AllocError>
    ensures { IfOk result (λ a. a ≡ spec.sum x.now y.now) }
{
    match (beneath_names(x), beneath_names(y)) {
        (Bare::Text(s), Bare::Text(t)) => joined_texts(alloc, s, t),
        (Bare::Bits(s), Bare::Bits(t)) => joined_bits(alloc, s, t),
        (Bare::Aggregate(_, _), _) | (_, Bare::Aggregate(_, _)) => aggregate_union(alloc, x, y),
        (Bare::Integer(m), Bare::Integer(n)) => Ok(plus(m, n)),
        _ => Ok(Value::Indet),
    }
}

/// `*`
fn product(alloc: Global, x: &Value, y: &Value) -> Result<Value, AllocError>
    ensures { IfOk result (λ a. a ≡ spec.product x.now y.now) }
{
    match (beneath_names(x), beneath_names(y)) {
        (Bare::Aggregate(_, _), Bare::Aggregate(_, _)) => intersect(alloc, x, y),
        (Bare::Integer(m), Bare::Integer(n)) => Ok(times(m, n)),
        _ => Ok(Value::Indet),
    }
}

/// `-`
fn remainder(alloc: Global, x: &Value, y: &Value) -> Result<Value, AllocError>
    ensures { IfOk result (λ a. a ≡ spec.remainder x.now y.now) }
{
    match (beneath_names(x), beneath_names(y)) {
        (Bare::Aggregate(_, _), _) => less_elements(alloc, x, y),
        (Bare::Integer(m), Bare::Integer(n)) => Ok(minus(m, n)),
        _ => Ok(Value::Indet),
    }
}

/// `**`
fn power_of(x: &Value, y: &Value) -> Value
    ensures { result ≡ spec.on_integers spec.power x.now y.now }
{
    match (integer_of(x), integer_of(y)) {
        (Some(m), Some(n)) => power(m, n),
        _ => Value::Indet,
    }
}

/// `DIV`
fn quotient_of(x: &Value, y: &Value) -> Value
    ensures { result ≡ spec.on_integers (spec.of_natural int_div) x.now y.now }
{
    match (integer_of(x), integer_of(y)) {
        (Some(m), Some(n)) => quotient(m, n),
        _ => Value::Indet,
    }
}

/// `MOD`
fn rest_of(x: &Value, y: &Value) -> Value
    ensures { result ≡ spec.on_integers (spec.of_natural int_rem) x.now y.now }
{
    match (integer_of(x), integer_of(y)) {
        (Some(m), Some(n)) => rest(m, n),
        _ => Value::Indet,
    }
}

fn conjunction(x: &Value, y: &Value) -> Value
    ensures { result ≡ spec.on_truths logical.conjunction x.now y.now }
{
    match (truth_of(x), truth_of(y)) {
        (Some(x), Some(y)) => Value::Log(x.and(y)),
        _ => Value::Indet,
    }
}

fn disjunction(x: &Value, y: &Value) -> Value
    ensures { result ≡ spec.on_truths logical.disjunction x.now y.now }
{
    match (truth_of(x), truth_of(y)) {
        (Some(x), Some(y)) => Value::Log(x.or(y)),
        _ => Value::Indet,
    }
}

fn exclusive_disjunction(x: &Value, y: &Value) -> Value
    ensures { result ≡ spec.on_truths logical.exclusive_disjunction x.now y.now }
{
    match (truth_of(x), truth_of(y)) {
        (Some(x), Some(y)) => Value::Log(x.xor(y)),
        _ => Value::Indet,
    }
}

fn negation(x: &Value) -> Value
    ensures { result ≡ spec.applied_to n.Not x.now }
{
    match truth_of(x) {
        Some(x) => Value::Log(x.not()),
        None => Value::Indet,
    }
}

/// What a binary operator gives of two values, whatever they are.
#[inline(never)]
fn applied_to_any(
    alloc: Global,
    operator: BinaryOperator,
    x: &Value,
    y: &Value,
) -> Result<Value, AllocError>
    ensures { IfOk result (λ a. a ≡ spec.applied operator x.now y.now) }
{
    Ok(match operator {
        BinaryOperator::Power => power_of(x, y),
        BinaryOperator::Multiply => return product(alloc, x, y),
        BinaryOperator::Divide => Value::Indet,
        BinaryOperator::Div => quotient_of(x, y),
        BinaryOperator::Mod => rest_of(x, y),
        BinaryOperator::And => conjunction(x, y),
        BinaryOperator::Add => return sum(alloc, x, y),
        BinaryOperator::Subtract => return remainder(alloc, x, y),
        BinaryOperator::Or => disjunction(x, y),
        BinaryOperator::Xor => exclusive_disjunction(x, y),
        BinaryOperator::Less => less(x, y),
        BinaryOperator::Greater => greater(x, y),
        BinaryOperator::LessEqual => return at_most(alloc, x, y),
        BinaryOperator::GreaterEqual => return at_least(alloc, x, y),
        BinaryOperator::NotEqual => unequal(x, y),
        BinaryOperator::Equal => equal(x, y),
        BinaryOperator::InstanceNotEqual => Value::Log(same(x, y).not()),
        BinaryOperator::InstanceEqual => Value::Log(same(x, y)),
        BinaryOperator::In => is_in(x, y),
    })
}

/// The same, by what is beneath the names of the two. What is asked most stands first.
#[inline(never)]
fn applied_beneath(
    alloc: Global,
    operator: BinaryOperator,
    x: &Value,
    y: &Value,
) -> Result<Value, AllocError>
    ensures { IfOk result (λ a. a ≡ spec.applied operator x.now y.now) }
{
    match (beneath(x), beneath(y)) {
        (Value::Int(m), Value::Int(n)) => Ok(of_integers(operator, *m, *n)),
        (Value::Log(m), Value::Log(n)) => Ok(of_truths(operator, *m, *n)),
        (Value::Dec(m), Value::Dec(n)) => Ok(by_order(operator, compare_decimals(m, n))),
        (Value::Int(m), Value::Dec(n)) => Ok(by_order(operator, compare_whole(*m, n))),
        (Value::Dec(m), Value::Int(n)) => Ok(by_order(operator, compare_with_whole(m, *n))),
        (Value::Str(s), Value::Str(t)) => of_texts(alloc, operator, s, t),
        (Value::Str(s), Value::Agg { kind: _, elements }) => {
            match found_among(operator, s, elements.as_slice()) {
                Some(found) => Ok(Value::Log(Logical::of(found))),
                None => applied_to_any(alloc, operator, x, y),
            }
        }
        _ => applied_to_any(alloc, operator, x, y),
    }
}

/// What a binary operator gives of two values. Whole numbers without names are asked most.
#[inline]
pub fn applied(
    alloc: Global,
    operator: BinaryOperator,
    x: &Value,
    y: &Value,
) -> Result<Value, AllocError>
    ensures { IfOk result (λ a. a ≡ spec.applied operator x.now y.now) }
{
    match (x, y) {
        (Value::Int(m), Value::Int(n)) => Ok(of_integers(operator, *m, *n)),
        _ => applied_beneath(alloc, operator, x, y),
    }
}

/// `+` of an aggregate that isn't kept: an element is put behind the others without a copy of them, where nobody else has them.
#[inline(never)]
fn sum_in_place(alloc: Global, x: Value, y: &Value) -> Result<Value, AllocError>
    ensures { IfOk result (λ a. a ≡ spec.sum x y.now) }
{
    match beneath_names(&x) {
        Bare::Aggregate(_, _) => union_in_place(alloc, x, y),
        _ => applied_beneath(alloc, BinaryOperator::Add, &x, y),
    }
}

/// What a binary operator gives of two values, of which the left one isn't kept. An aggregate that nobody else has grows in
/// place.
pub fn applied_in_place(
    alloc: Global,
    operator: BinaryOperator,
    x: Value,
    y: &Value,
) -> Result<Value, AllocError>
    ensures { IfOk result (λ a. a ≡ spec.applied operator x y.now) }
{
    match operator {
        BinaryOperator::Add => sum_in_place(alloc, x, y),
        _ => applied(alloc, operator, &x, y),
    }
}

/// What a sign or NOT gives of a value.
pub fn applied_to(operator: UnaryOperator, x: &Value) -> Value
    ensures { result ≡ spec.applied_to operator x.now }
{
    match operator {
        UnaryOperator::Plus => plain(x),
        UnaryOperator::Minus => negated(x),
        UnaryOperator::Not => negation(x),
    }
}

fn relation(operator: IntervalOperator) -> BinaryOperator
    ensures { result ≡ spec.relation operator }
{
    match operator {
        IntervalOperator::Less => BinaryOperator::Less,
        IntervalOperator::LessEqual => BinaryOperator::LessEqual,
    }
}

/// `{ low first item second high }`
pub fn within(
    alloc: Global,
    first: IntervalOperator,
    second: IntervalOperator,
    low: &Value,
    item: &Value,
    high: &Value,
) -> Result<Value, AllocError>
    ensures { IfOk result (λ a. a ≡ spec.within first second low.now item.now high.now) }
{
    let above = applied(alloc, relation(first), low, item)?;
    let below = applied(alloc, relation(second), item, high)?;
    Ok(conjunction(&above, &below))
}
