//! What rules and the request `extent` have as the instances of an entity.

ghost use Rattle.std.specs.Prelude.{ℕ, List};
ghost use Rattle.rp_population.specs.Entities.{extent};
ghost use Rattle.rp_population.specs.Populations.{Counted, places, population};
ghost use Rattle.rp_positions.specs.Positions.{AreInOrder};
ghost use Rattle.rp_use_laws.specs.Extents.{HasExtent, HasName, ValidExtentsAgree};

use crate::bound::{all_bound, bound};
use ex_loaded::LoadedSchema;
use ex_types::CheckedSchema;

/// Rules have the instances of an entity that a request by the entity's name returns, in each population of models in their order.
pub fn extents_agree(schema: &CheckedSchema)
    ensures { (ms : List Counted) → AreInOrder ms → (entity : ℕ) (name : List ℕ) → HasName schema.now entity name → HasExtent schema.now (population ms) entity (places (extent schema.now name (population ms))) }
{
    bound(schema);
}

/// In a valid repository of these schemas, if a partner's request for an extent returns some instances of a group's population,
/// rules of the group's schema have them.
pub fn extent_replies_agree(schemas: &[LoadedSchema<'_>])
    ensures { ValidExtentsAgree schemas.now }
{
    all_bound(schemas);
}
