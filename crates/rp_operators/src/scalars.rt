//! What operators give of two values of one kind that are no aggregates.

ghost use Rattle.std.specs.Prelude.{◌≡◌, ◌++◌, IfOk, IfSome};
ghost use Rattle.std.specs.Cmp.Lexicographic.{slice_cmp};
ghost use Rattle.std.specs.Ordering.{is_eq, nat_cmp};
ghost use Rattle.ex_tree.specs.declared.expression.BinaryOperator.TheVariants as o;
ghost use Rattle.rp_numbers.specs.Logical.{of_test};
ghost use Rattle.rp_operations.specs.Seen.{Text as SeenText, seen};
ghost use Rattle.rp_operators.specs.Scalars as spec;
ghost use Rattle.rp_value.specs.declared.value.Value.{Value};
ghost use Rattle.rp_value.specs.declared.value.Value.TheVariants as v;

use crate::numbers::{minus, plus, power, quotient, rest, times};
use ex_tree::BinaryOperator;
use plain_data::Text;
use rp_value::{Characters, Logical, Value};
use std::alloc::{AllocError, Global};
use std::cmp::Ordering;

/// What a relation says of two that stand in this order; `?` for what is no relation, as between decimals, with which no
/// arithmetic is done.
#[inline(always)]
pub(crate) fn by_order(operator: BinaryOperator, ordering: Ordering) -> Value
    ensures { result ≡ spec.by_order operator ordering }
{
    let holds = match operator {
        BinaryOperator::Less => ordering.is_lt(),
        BinaryOperator::Greater => ordering.is_gt(),
        BinaryOperator::LessEqual => ordering.is_le(),
        BinaryOperator::GreaterEqual => ordering.is_ge(),
        BinaryOperator::Equal | BinaryOperator::InstanceEqual => ordering.is_eq(),
        BinaryOperator::NotEqual | BinaryOperator::InstanceNotEqual => ordering.is_ne(),
        _ => return Value::Indet,
    };
    Value::Log(Logical::of(holds))
}

/// Of two whole numbers.
#[inline]
pub(crate) fn of_integers(operator: BinaryOperator, x: i64, y: i64) -> Value
    ensures { result ≡ spec.of_integers operator x y }
{
    match operator {
        BinaryOperator::Power => power(x, y),
        BinaryOperator::Multiply => times(x, y),
        BinaryOperator::Div => quotient(x, y),
        BinaryOperator::Mod => rest(x, y),
        BinaryOperator::Add => plus(x, y),
        BinaryOperator::Subtract => minus(x, y),
        _ => by_order(operator, x.cmp(&y)),
    }
}

/// Of two values of LOGICAL.
#[inline]
pub(crate) fn of_truths(operator: BinaryOperator, x: Logical, y: Logical) -> Value
    ensures { result ≡ spec.of_truths operator x y }
{
    match operator {
        BinaryOperator::And => Value::Log(x.and(y)),
        BinaryOperator::Or => Value::Log(x.or(y)),
        BinaryOperator::Xor => Value::Log(x.xor(y)),
        _ => by_order(operator, x.cmp(y)),
    }
}

/// One text behind the other.
#[inline(never)]
pub(crate) fn joined_texts(
    alloc: Global,
    s: &Characters,
    t: &Characters,
) -> Result<Value, AllocError>
    ensures { IfOk result (λ a. a ≡ v.Str (s.now ++ t.now)) }
{
    let mut text = String::from_str(alloc, s.as_str())?;
    text.push_str(t.as_str())?;
    Value::text(alloc, Text::new(text))
}

/// Whether two texts are the same, which their lengths may tell.
#[inline(always)]
fn are_equal(s: &Characters, t: &Characters) -> bool
    ensures { result ≡ is_eq (slice_cmp nat_cmp s.now t.now) }
{
    s.as_bytes() == t.as_bytes()
}

/// Of two texts.
#[inline]
#[tactic(auto, using(crate::proofs::Alike::unequal))]
pub(crate) fn of_texts(
    alloc: Global,
    operator: BinaryOperator,
    s: &Characters,
    t: &Characters,
) -> Result<Value, AllocError>
    ensures { IfOk result (λ a. a ≡ spec.of_texts operator s.now t.now) }
{
    match operator {
        BinaryOperator::Add => joined_texts(alloc, s, t),
        BinaryOperator::Equal | BinaryOperator::InstanceEqual => {
            Ok(Value::Log(Logical::of(are_equal(s, t))))
        }
        BinaryOperator::NotEqual | BinaryOperator::InstanceNotEqual => {
            Ok(Value::Log(Logical::of(!are_equal(s, t))))
        }
        _ => Ok(by_order(operator, s.as_bytes().cmp(t.as_bytes()))),
    }
}

/// Whether a text is among others. Nothing is told where something else stands before it.
fn is_among_texts(text: &Characters, values: &[Value]) -> Option<bool>
    ensures { (x : Value) → seen x ≡ SeenText text.now → IfSome result (λ found. of_test found ≡ spec.is_in x values.now) }
{
    for value in values {
        match value {
            Value::Str(other) if are_equal(text, other) => return Some(true),
            Value::Str(_) => {}
            _ => return None,
        }
    }
    Some(false)
}

/// Whether a text is among others, where that is asked.
#[inline]
pub(crate) fn found_among(
    operator: BinaryOperator,
    text: &Characters,
    values: &[Value],
) -> Option<bool>
    ensures asked { IfSome result (λ found. operator ≡ o.In) }
    ensures found { (x : Value) → seen x ≡ SeenText text.now → IfSome result (λ found. of_test found ≡ spec.is_in x values.now) }
{
    match operator {
        BinaryOperator::In => is_among_texts(text, values),
        _ => None,
    }
}
