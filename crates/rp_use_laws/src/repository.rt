//! The law of each valid repository of schemas that were loaded.

ghost use Rattle.rp_use_laws.specs.ValidUses.{ValidUsersAgree};

use crate::bound::all_bound;
use ex_loaded::LoadedSchema;
use p21_laws::{accepted_schemas, instance_again};

/// In a valid repository of these schemas, where a request for the users of an instance of a group's population is told of some,
/// USEDIN of this instance has them, by the group's schema.
pub fn replies_agree(schemas: &[LoadedSchema<'_>])
    ensures { ValidUsersAgree schemas.now }
{
    accepted_schemas(schemas);
    all_bound(schemas);
    instance_again();
}
