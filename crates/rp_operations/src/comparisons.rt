//! How two values compare, and whether they are the same.

ghost use Rattle.std.specs.Prelude.{◌≡◌};
ghost use Rattle.rp_operations.specs.Operations as spec;

use crate::bare::{Bare, beneath, holds_instance};
use crate::compared::{Compared, compare_scalars};
use crate::equality::{Relation, equality};
use rp_value::{Logical, Value};

/// How it stands to the other, as `=` and `<` see it.
#[tactic(auto, unfolding(crate::specs::Operations::compare))]
pub fn compare(value: &Value, other: &Value) -> Compared
    ensures { result ≡ spec.compare value.now other.now }
{
    if holds_instance(value) || holds_instance(other) {
        return Compared::Unknown;
    }
    match (beneath(value), beneath(other)) {
        (Bare::Aggregate(_, _), Bare::Aggregate(_, _)) => {
            Compared::of_equality(equality(Relation::Equal, value, other))
        }
        (s, t) => compare_scalars(s, t),
    }
}

/// `:=:`, the identity of instances: TRUE, FALSE, or UNKNOWN with `?` on a side.
#[tactic(auto, unfolding(crate::specs::Operations::same))]
pub fn same(value: &Value, other: &Value) -> Logical
    ensures { result ≡ spec.same value.now other.now }
{
    equality(Relation::Same, value, other)
}
