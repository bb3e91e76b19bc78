//! `=` and `:=:` of values.

ghost use Rattle.std.specs.Prelude.{◌≡◌, ◌||◌, not};
ghost use Rattle.std.specs.List.{list_all, list_any};
ghost use Rattle.rp_operations.specs.Seen as sight;
ghost use Rattle.rp_operations.specs.Seen.{seen};
ghost use Rattle.rp_operations.specs.Bare.{seen_by};
ghost use Rattle.rp_operations.specs.Equality as spec;
ghost use Rattle.rp_operations.specs.Relations.{scalars_by, equality_by};

use crate::bare::{Bare, are_of_one_kind, beneath, is_indeterminate};
use crate::compared::compare_scalars;
use rp_value::{AggregateKind, Logical, Value};

/// An equality of values.
#[derive(Clone, Copy)]
pub(crate) enum Relation {
    /// `=`, where nothing is known of instances and of two kinds.
    Equal,
    /// `:=:`, the identity of instances, where values of two kinds are unequal.
    Same,
}

/// `:=:` of two values that are no aggregates.
fn same_scalars(s: Bare<'_>, t: Bare<'_>) -> Logical
    ensures { result ≡ spec.same_scalars (seen_by s.entry) (seen_by t.entry) }
{
    match (s, t) {
        (Bare::Instance(name), Bare::Instance(other)) => Logical::of(name == other),
        (Bare::Indeterminate, _) | (_, Bare::Indeterminate) => Logical::Unknown,
        _ if are_of_one_kind(s, t) => compare_scalars(s, t).equals(),
        _ => Logical::False,
    }
}

impl Relation {
    ghost use Rattle.std.specs.Prelude.{◌≡◌};
    ghost use Rattle.rp_operations.specs.Bare.{seen_by};
    ghost use Rattle.rp_operations.specs.Relations.{scalars_by};

    /// Of two values that are no aggregates.
    fn of_scalars(self, s: Bare<'_>, t: Bare<'_>) -> Logical
        ensures { result ≡ scalars_by self (seen_by s.entry) (seen_by t.entry) }
    {
        match self {
            Relation::Equal => compare_scalars(s, t).equals(),
            Relation::Same => same_scalars(s, t),
        }
    }
}

fn is_bag_or_set(kind: AggregateKind) -> bool
    ensures { result ≡ spec.is_bag_or_set kind }
{
    match kind {
        AggregateKind::Bag | AggregateKind::Set => true,
        AggregateKind::Array | AggregateKind::List | AggregateKind::Initializer => false,
    }
}

/// Whether the elements of two such aggregates are compared place by place.
fn are_placed(kind: AggregateKind, other: AggregateKind) -> bool
    ensures { result ≡ not (spec.is_bag_or_set kind || spec.is_bag_or_set other) }
{
    !(is_bag_or_set(kind) || is_bag_or_set(other))
}

/// Whether one of the values is `?`.
pub(crate) fn has_indeterminate(values: &[Value]) -> bool
    ensures { result ≡ list_any (λ x. sight.is_indeterminate (seen x)) values.now }
{
    values.iter().any(|value| is_indeterminate(value))
}

/// One of the equalities, of two values.
#[cycle(equality)]
pub(crate) fn equality(relation: Relation, x: &Value, y: &Value) -> Logical
    ensures { result ≡ equality_by relation x.now y.now }
{
    match (beneath(x), beneath(y)) {
        (Bare::Aggregate(kind, xs), Bare::Aggregate(other, ys)) => {
            equal_elements(
                relation,
                are_placed(kind, other),
                xs.as_slice(),
                ys.as_slice(),
            )
        }
        (s, t) => relation.of_scalars(s, t),
    }
}

/// Of two aggregates' elements, in places or not.
#[cycle(equality)]
fn equal_elements(relation: Relation, are_placed: bool, xs: &[Value], ys: &[Value]) -> Logical
    ensures { result ≡ spec.equal_elements (equality_by relation) are_placed xs.now ys.now }
{
    if xs.len() != ys.len() {
        return Logical::False;
    }
    if are_placed {
        return equal_in_places(relation, xs, ys);
    }
    if has_indeterminate(xs) || has_indeterminate(ys) {
        return Logical::Unknown;
    }
    Logical::of(occur_equally(relation, xs, xs, ys) && occur_equally(relation, ys, xs, ys))
}

#[cycle(equality)]
fn equal_in_places(relation: Relation, xs: &[Value], ys: &[Value]) -> Logical
    ensures { result ≡ spec.equal_in_places (equality_by relation) xs.now ys.now }
{
    let mut all = Logical::True;
    'places: for (place, x) in xs.iter().enumerate() {
        let Some(y) = ys.get(place) else {
            return all;
        };
        all = all.and(equality(relation, x, y));
        if all == Logical::False {
            return all;
        }
    }
    all
}

/// Whether each of the values occurs equally often in the two lists.
#[cycle(equality)]
fn occur_equally(relation: Relation, values: &[Value], xs: &[Value], ys: &[Value]) -> bool
    ensures { result ≡ list_all (spec.occurs_equally (equality_by relation) xs.now ys.now) values.now }
{
    for value in values {
        if !occurs_equally(relation, value, xs, ys) {
            return false;
        }
    }
    true
}

/// Whether the value occurs equally often in the two lists.
#[cycle(equality)]
fn occurs_equally(relation: Relation, value: &Value, xs: &[Value], ys: &[Value]) -> bool
    ensures { result ≡ spec.occurs_equally (equality_by relation) xs.now ys.now value.now }
{
    occurrences(relation, value, xs) == occurrences(relation, value, ys)
}

/// How many of the values are equal to this one.
#[cycle(equality)]
fn occurrences(relation: Relation, value: &Value, values: &[Value]) -> usize
    ensures { result ≡ spec.occurrences (equality_by relation) value.now values.now }
{
    let mut count = 0;
    'values: for other in values {
        if equality(relation, other, value).is_true() {
            count += 1;
        }
    }
    count
}
