//! What a plan keeps of a change.

use plain_data::Rows;
use rp_plain::messages::Reply;
use std::alloc::{AllocError, Global};

/// A change of one row.
#[derive(Drop)]
pub enum Edit {
    /// Of what models hold. One that is created has no grants, and one that is removed takes its grants with it.
    OfModel(rp_store::Change),
    /// Of who may do what, and of groups.
    OfRights(rp_access::Change),
}

/// A request's reply, and what it changes, of which the store and the rights may know a reason against.
#[derive(Drop)]
pub struct Plan {
    pub reply: Reply,
    pub edits: Rows<Edit>,
}

impl Plan {
    ghost use Rattle.std.specs.Prelude.{◌≡◌, [], ◌∷◌, IfOk};

    /// That of a request which changes nothing.
    pub fn told(alloc: Global, reply: Reply) -> Plan
        ensures { result ≡ record { reply = reply; edits = [] } }
    {
        Plan {
            reply,
            edits: Rows::new(alloc),
        }
    }

    /// That of a request which changes one row.
    pub fn of(alloc: Global, reply: Reply, edit: Edit) -> Result<Plan, AllocError>
        ensures { IfOk result (λ plan. plan ≡ record { reply = reply; edits = edit ∷ [] }) }
    {
        let mut edits = Rows::new(alloc);
        edits.push(edit)?;
        Ok(Plan { reply, edits })
    }
}
