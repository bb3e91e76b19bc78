//! Instances.

ghost use Rattle.std.specs.Prelude.{◌≡◌, IfOk};

use plain_data::Items;
use rp_value::Value;
use std::alloc::{AllocError, Global};

/// The entities of an instance, by their numbers in the schema.
pub enum Entities {
    /// An entity with all above it (internal mapping).
    Leaf(usize),
    /// All entities that it has (external mapping).
    Several(Items<usize>),
}

/// An instance of a schema.
#[derive(Drop)]
pub struct Instance {
    pub name: u64,
    pub entities: Entities,
    /// Of its attributes, in the order in which canonical text writes them. One that is derived has `Indet`.
    pub values: Items<Value>,
}

impl Drop for Entities {
    fn drop(self) {
        match self {
            Entities::Leaf(_) => {}
            Entities::Several(entities) => drop(entities),
        }
    }
}

impl Entities {
    ghost use Rattle.std.specs.Prelude.{◌≡◌, IfOk};

    /// The same entities.
    pub fn copy(&self, alloc: Global) -> Result<Entities, AllocError>
        ensures { IfOk result (λ entities. entities ≡ self.now) }
    {
        match self {
            Entities::Leaf(entity) => Ok(Entities::Leaf(*entity)),
            Entities::Several(entities) => {
                let entities = Items::from_slice(alloc, entities.as_slice())?;
                Ok(Entities::Several(entities))
            }
        }
    }
}

/// The same values, which share what they hold.
fn copy_values(alloc: Global, values: &[Value]) -> Result<Items<Value>, AllocError>
    ensures { IfOk result (λ copies. copies ≡ values.now) }
{
    let mut copies = Items::new(alloc);
    for value in values {
        copies.push(value.copy()?)?;
    }
    Ok(copies)
}

impl Instance {
    ghost use Rattle.std.specs.Prelude.{◌≡◌, IfOk};

    /// The same instance, whose values share what they hold.
    pub fn copy(&self, alloc: Global) -> Result<Instance, AllocError>
        ensures { IfOk result (λ instance. instance ≡ self.now) }
    {
        let entities = self.entities.copy(alloc)?;
        let values = copy_values(alloc, self.values.as_slice())?;
        Ok(Instance {
            name: self.name,
            entities,
            values,
        })
    }
}
