//! What evaluations see.

use crate::kept::Kept;
use plain_data::Items;
use rp_meaning::{Role, Schema, Seen};
use rp_value::Value;
use std::alloc::{AllocError, Global};

/// How many bodies may nest.
pub const MOST_BODIES: u8 = 200;

/// What a walk sees.
pub trait Setting {
    ghost use Rattle.std.specs.Prelude.{◌≡◌, length, IfOk, IfSome, slice_get};
    ghost use Rattle.rp_meaning.specs.Attributes.{aggregate};
    ghost use Rattle.rp_meaning.specs.Expressions as spec;
    ghost use Rattle.rp_meaning.specs.Populations.{extent};
    ghost use Rattle.rp_meaning.specs.TypeNames.{texts, type_names};
    ghost use Rattle.rp_meaning.specs.Uses.{users};
    ghost use Rattle.rp_eval_parts.specs.Serving.{Serves};
    ghost use Rattle.rp_meaning.specs.declared.body.Body.TheVariants as b;
    ghost use Rattle.rp_value.specs.declared.value.AggregateKind.TheVariants as k;

    ghost world: { Self → spec.World };

    fn schema(&self) -> &Schema
        ensures { result.now ≡ (world self.now).schema };

    fn instance(&self, at: usize) -> Option<Seen<'_>>
        ensures { result ≡ slice_get (world self.now).population at };

    /// The instances of an entity, in their order.
    fn extent(&self, alloc: Global, entity: usize) -> Result<Items<Value>, AllocError>
        ensures { IfOk result (λ found. found ≡ extent (world self.now).population entity) };

    /// The users of what stands at a place, in their order, each as often as it uses it in the role.
    fn users(&self, alloc: Global, at: usize, role: &Role) -> Result<Items<Value>, AllocError>
        ensures { IfOk result (λ found. found ≡ users (world self.now).population role.now at) };

    /// The names of the types of a value.
    fn type_names(&self, alloc: Global, value: &Value) -> Result<Value, AllocError>
        ensures { IfOk result (λ x. x ≡ aggregate k.Set (texts (world self.now).schema (world self.now).population (type_names (world self.now).schema (world self.now).population value.now))) };

    /// What is kept of a constant.
    fn constant(&self, number: usize) -> Option<&Kept>
        ensures { IfSome result (λ kept. Serves (world self.now) (b.Constant number) kept.now) };
}
