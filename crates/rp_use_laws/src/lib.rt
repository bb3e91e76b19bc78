//! USEDIN and the request for users tell the same of a population, and so do rules and the request for an extent.
//!
//! Each function has a law as its contract, over the definitions that the calls cite.
#![tactic(auto)]

mod bound;
mod extents;
mod repository;

ghost use Rattle.rp_use_laws.specs.Uses.{AllUsersAgree};

use bound::bound;
use ex_types::CheckedSchema;
pub use extents::{extent_replies_agree, extents_agree};
pub use repository::replies_agree;

/// USEDIN has the users that the request tells of, of each instance of a population, in the role of each name: of models whose
/// instances have their values, and in which names stand for one thing each.
pub fn users_agree(schema: &CheckedSchema)
    ensures { AllUsersAgree schema.now }
{
    bound(schema);
}
