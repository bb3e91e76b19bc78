//! What is read in place of the same values stands once.

ghost use Rattle.std.specs.Prelude.{◌≡◌, ◌++◌, IsTrue, OnOk};
ghost use Rattle.rp_domain.specs.Combinations as spec;

use crate::sameness::is_same;
use rp_meaning::ReadValue;
use rp_value::Value;
use std::alloc::AllocError;

/// Adds what is read in place of the value at a place, if that is another one.
pub(crate) fn push_other(
    found: &mut Vec<ReadValue>,
    place: usize,
    other: Option<Value>,
) -> Result<(), AllocError>
    ensures { OnOk result (found.new.items ≡ found.old.items ++ spec.differing_at place other) }
{
    if let Some(value) = other {
        found.push(ReadValue { place, value })?;
    }
    Ok(())
}

fn is_same_other(one: &ReadValue, other: &ReadValue) -> bool
    ensures { IsTrue result → one.now ≡ other.now }
{
    one.place == other.place && is_same(&one.value, &other.value)
}

/// Whether the same is read in place of the same values.
pub(crate) fn are_same_others(some: &[ReadValue], others: &[ReadValue]) -> bool
    ensures { IsTrue result → some.now ≡ others.now }
{
    if some.len() != others.len() {
        return false;
    }
    for (at, one) in some.iter().enumerate() {
        if !is_same_other(one, &others[at]) {
            return false;
        }
    }
    true
}
