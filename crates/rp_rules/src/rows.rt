//! Rows: the values of the attributes that a rule of UNIQUE lists, in an instance.

ghost use Rattle.std.specs.Prelude.{◌≡◌};
ghost use Rattle.std.specs.List.{list_any};
ghost use Rattle.rp_meaning.specs.Bare as bare;
ghost use Rattle.rp_meaning.specs.Report as spec;

use plain_data::Items;
use rp_faults::{key_of, with_number};
use rp_meaning::Culprit;
use rp_operations::same;
use rp_operators::is_indeterminate;
use rp_value::Value;
use std::marker::Model;

/// An instance, and the values.
#[derive(Drop)]
pub(crate) struct Row {
    culprit: Culprit,
    values: Items<Value>,
}

impl Model for Row {
    ghost use Rattle.rp_meaning.specs.Report as report;
    ghost use Rattle.std.specs.Coded.{codes};
    ghost use Rattle.rp_value.specs.contracts.value.Value as value;

    ghost Value = { report.Row };

    ghost coded = { Prim.hlevel (codes, value.the_row.coded) };

    ghost view = { λ r. record { culprit = r.culprit; values = r.values } };
}

fn has_indeterminate(values: &[Value]) -> bool
    ensures { result ≡ list_any bare.is_indeterminate values.now }
{
    values.iter().any(|value| is_indeterminate(value))
}

/// Whether these are values of so many attributes, and none is `?`.
pub(crate) fn is_whole(values: &[Value], count: usize) -> bool
    ensures { result ≡ spec.is_whole values.now count }
{
    values.len() == count && !has_indeterminate(values)
}

/// Whether values are the same, one by one.
fn agree(values: &[Value], others: &[Value]) -> bool
    ensures { result ≡ spec.agree values.now others.now }
{
    for (place, value) in values.iter().enumerate() {
        let Some(other) = others.get(place) else {
            return true;
        };
        if !same(value, other).is_true() {
            return false;
        }
    }
    true
}

impl Row {
    ghost use Rattle.std.specs.Prelude.{◌≡◌};
    ghost use Rattle.rp_meaning.specs.Report as spec;
    ghost use Rattle.rp_rules.specs.Buckets.{key_of_row};

    pub(crate) fn of(culprit: Culprit, values: Items<Value>) -> Row
        ensures { result ≡ record { culprit = culprit; values = values } }
    {
        Row { culprit, values }
    }

    pub(crate) fn culprit(&self) -> Culprit
        ensures { result ≡ self.now.culprit }
    {
        self.culprit
    }

    /// A number that rows share which agree.
    pub(crate) fn key(&self) -> u32
        ensures { result ≡ key_of_row self.now }
    {
        let mut key = 0;
        for value in self.values.as_slice() {
            key = with_number(key, u64::from(key_of(value)));
        }
        key
    }

    /// Whether another instance is the same in all attributes.
    pub(crate) fn agrees(&self, other: &Row) -> bool
        ensures { result ≡ spec.agrees self.now other.now }
    {
        self.culprit.instance != other.culprit.instance
            && agree(self.values.as_slice(), other.values.as_slice())
    }
}
