//! The steps that operators and initialisers cost beside their own. Each is asked with how many are left: none is told
//! where it is more, so that nobody counts further than that.

ghost use Rattle.std.specs.Prelude.{◌≡◌, ◌+◌, ◌*◌, length, map, true};
ghost use Rattle.std.specs.List.{sum};
ghost use Rattle.rp_meaning.specs.BuiltIns.{size as size_of_initialiser};
ghost use Rattle.rp_meaning.specs.Operators as spec;
ghost use Rattle.rp_operations.specs.Seen.{seen};
ghost use Rattle.rp_meaning.specs.Bare.{aggregate_in};
ghost use Rattle.rp_operators.specs.Amounts.{joined_length, unless_more};
ghost use Rattle.rp_operators.specs.Sights.{opened, seen_by};

use crate::bare::{Bare, aggregate_of, beneath_names, is_scalar};
use ex_tree::BinaryOperator;
use rp_value::Value;

/// How many elements an aggregate has.
pub fn count(value: &Value) -> usize
    ensures { result ≡ spec.count value.now }
{
    match aggregate_of(value) {
        Some((_, elements)) => elements.as_slice().len(),
        None => 0,
    }
}

fn unless_more(most: usize, amount: usize) -> Option<usize>
    ensures { result ≡ unless_more most amount }
{
    if amount <= most { Some(amount) } else { None }
}

/// Of two aggregates of these counts the product and the sum of the counts, unless it is more than `most`.
fn of_counts(most: usize, m: usize, n: usize) -> Option<usize>
    ensures { result ≡ unless_more most (m * n + m + n) }
{
    let product = m.checked_mul(n)?;
    let one_more = product.checked_add(m)?;
    unless_more(most, one_more.checked_add(n)?)
}

/// Of two aggregates the product and the sum of their counts, unless it is more than `most`.
#[inline(never)]
fn of_aggregates(most: usize, x: &Value, y: &Value) -> Option<usize>
    ensures { result ≡ unless_more most (spec.cost_of_two x.now y.now) }
{
    match (aggregate_of(x), aggregate_of(y)) {
        (Some((_, xs)), Some((_, ys))) => of_counts(most, xs.as_slice().len(), ys.as_slice().len()),
        _ => Some(0),
    }
}

/// Whether one of the two is surely no aggregate.
#[inline(always)]
#[tactic(auto, using(crate::proofs::Sums::left_costs, crate::proofs::Sums::right_costs))]
fn costs_nothing(x: &Value, y: &Value) -> bool
    ensures { result ≡ true → spec.cost_of_two x.now y.now ≡ 0 }
{
    is_scalar(y) || is_scalar(x)
}

/// The same. Where one of them is surely no aggregate nothing more is asked.
#[inline]
fn of_two(most: usize, x: &Value, y: &Value) -> Option<usize>
    ensures { result ≡ unless_more most (spec.cost_of_two x.now y.now) }
{
    if costs_nothing(x, y) {
        return Some(0);
    }
    of_aggregates(most, x, y)
}

/// The sum of two lengths, unless it is more than `most`.
fn of_lengths(most: usize, m: usize, n: usize) -> Option<usize>
    ensures { result ≡ unless_more most (m + n) }
{
    unless_more(most, m.checked_add(n)?)
}

/// What `+` costs, by what is beneath the names of the two.
#[tactic(auto, using(crate::proofs::Characters::counts))]
fn of_sum_beneath(most: usize, x: Bare<'_>, y: Bare<'_>) -> Option<usize>
    ensures { result ≡ unless_more most (spec.cost_in (aggregate_in (opened x.entry)) (aggregate_in (opened y.entry)) + joined_length (seen_by x.entry) (seen_by y.entry)) }
{
    match (x, y) {
        (Bare::Aggregate(_, xs), Bare::Aggregate(_, ys)) => {
            of_counts(most, xs.as_slice().len(), ys.as_slice().len())
        }
        (Bare::Text(s), Bare::Text(t)) => of_lengths(most, s.count(), t.count()),
        (Bare::Bits(s), Bare::Bits(t)) => {
            of_lengths(most, s.as_slice().len(), t.as_slice().len())
        }
        _ => Some(0),
    }
}

/// What `+` costs.
fn of_sum(most: usize, x: &Value, y: &Value) -> Option<usize>
    ensures { result ≡ unless_more most (spec.cost_of_two x.now y.now + spec.length_seen (seen (spec.sum x.now y.now))) }
{
    of_sum_beneath(most, beneath_names(x), beneath_names(y))
}

/// How many steps a binary operator costs on two values, unless it is more than `most`.
#[inline]
pub fn cost(most: usize, operator: BinaryOperator, x: &Value, y: &Value) -> Option<usize>
    ensures { result ≡ unless_more most (spec.cost operator x.now y.now) }
{
    match operator {
        BinaryOperator::In => unless_more(most, count(y)),
        BinaryOperator::And | BinaryOperator::Or | BinaryOperator::Xor => Some(0),
        BinaryOperator::Add => of_sum(most, x, y),
        _ => of_two(most, x, y),
    }
}

/// How many steps the comparisons of an interval cost, unless it is more than `most`.
pub fn interval_cost(most: usize, low: &Value, item: &Value, high: &Value) -> Option<usize>
    ensures { result ≡ unless_more most (spec.interval_cost low.now item.now high.now) }
{
    let above = of_two(most, low, item)?;
    let below = of_two(most - above, item, high)?;
    Some(above + below)
}

/// How many steps an initialiser costs that gives this value, unless it is more than `most`.
#[cycle(sizes)]
#[tactic(auto, using(crate::proofs::Sizes::sizes))]
pub fn size(most: usize, value: &Value) -> Option<usize>
    ensures { result ≡ unless_more most (size_of_initialiser value.now) }
{
    match value {
        Value::Agg { kind: _, elements } => size_of_elements(most, elements.as_slice()),
        Value::Named {
            defined_type: _,
            value,
        } => size(most, value.get()),
        _ => unless_more(most, 1),
    }
}

/// One step, and those of the values.
#[cycle(sizes)]
fn size_of_elements(most: usize, values: &[Value]) -> Option<usize>
    ensures { result ≡ unless_more most (1 + sum (map size_of_initialiser values.now)) }
{
    let mut left = most.checked_sub(1)?;
    for value in values {
        left -= size(left, value)?;
    }
    Some(most - left)
}
