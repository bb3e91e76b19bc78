//! A population in a list.

use crate::chains::Chains;
use crate::extents::{extents_of, found_extent, instances_once};
use crate::instance::{KeptInstance, WrittenInstance};
use crate::read::kept_instances;
use crate::users::{User, users_among, users_of};
use plain_data::Items;
use rp_meaning::{Domain, Role, Schema, Seen};
use rp_value::Value;
use std::alloc::{AllocError, Global};
use std::marker::Model;

/// A population in a list, with its values as they are read, and with the instances of each entity and who uses whom.
pub struct ListDomain {
    instances: Items<KeptInstance>,
    /// The places of its instances, by entities of the schema.
    extents: Vec<Items<u32>>,
    /// By the places of what they use.
    users: Chains<User>,
}

impl Drop for ListDomain {
    fn drop(self) {
        let ListDomain {
            instances,
            extents,
            users,
        } = self;
        drop(instances);
        drop(extents);
        drop(users);
    }
}

impl Model for ListDomain {
    ghost use Rattle.std.specs.Prelude.{◌≡◌, List, [], length, replicate};
    ghost use Rattle.rp_meaning.specs.Populations.{Instance};
    ghost use Rattle.rp_meaning.specs.Uses.{uses_from};
    ghost use Rattle.rp_domain.specs.Chains.{rows};
    ghost use Rattle.rp_domain.specs.Rows.{put_all};
    ghost use Rattle.rp_domain.specs.Standing.{standing_from};
    ghost use Rattle.std.specs.Coded.{codes};
    ghost use Rattle.rp_value.specs.contracts.value.Value as value;

    ghost Value = { List Instance };

    ghost coded = { Prim.hlevel (codes, value.the_row.coded) };

    ghost view = { λ d. d.instances };

    ghost invariant = { λ d. record {
      extents : d.extents.items ≡ put_all (replicate (length d.extents.items) []) (standing_from 0 d.instances);
      users : rows d.users.0 d.users.1 ≡ put_all (replicate (length d.instances) []) (uses_from 0 d.instances);
    } };
}

impl ListDomain {
    ghost use Rattle.std.specs.Prelude.{◌≡◌, IfOk, map, length};
    ghost use Rattle.rp_meaning.specs.Reading.{instance_of};

    /// The population of these instances of a schema. A reference to a place that no instance has leaves it, and what an instance
    /// derives has no value that is written.
    pub fn new(
        alloc: Global,
        schema: &Schema,
        instances: Vec<WrittenInstance>,
    ) -> Result<ListDomain, AllocError>
        ensures { IfOk result (λ domain. domain ≡ map (λ i. instance_of schema.now (length instances.items) i.entities i.values) instances.items) }
    {
        let instances = kept_instances(alloc, schema, instances)?;
        let users = users_of(alloc, instances.as_slice())?;
        let extents = extents_of(alloc, schema.entities.len(), instances.as_slice())?;
        Ok(ListDomain {
            instances,
            extents,
            users,
        })
    }
}

impl Domain for ListDomain {
    ghost population = { λ d. d };

    fn count(&self) -> usize {
        self.instances.len()
    }

    fn instance(&self, at: usize) -> Option<Seen<'_>> {
        match self.instances.get(at) {
            None => None,
            Some(instance) => Some(instance.seen()),
        }
    }

    fn extent(&self, alloc: Global, entity: usize) -> Result<Items<Value>, AllocError> {
        if entity < self.extents.len() {
            instances_once(alloc, self.extents[entity].as_slice())
        } else {
            found_extent(alloc, self.instances.as_slice(), entity)
        }
    }

    fn users(&self, alloc: Global, at: usize, role: &Role) -> Result<Items<Value>, AllocError> {
        match self.users.end(at) {
            Some(end) => users_among(alloc, &self.users, end, role),
            None => Ok(Items::new(alloc)),
        }
    }
}
