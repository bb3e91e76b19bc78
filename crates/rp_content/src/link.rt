//! Links between models.

use plain_data::Text;
use std::alloc::{AllocError, Global};

/// An instance name of a model that stands for an instance of another model.
#[derive(Drop)]
pub struct Link {
    pub name: u64,
    /// The owner of the other model.
    pub owner: Text,
    /// The name of the other model.
    pub model: Text,
    /// The name of the instance there.
    pub target: u64,
}

impl Link {
    ghost use Rattle.std.specs.Prelude.{◌≡◌, IfOk};

    /// The same link.
    pub fn copy(&self, alloc: Global) -> Result<Link, AllocError>
        ensures { IfOk result (λ link. link ≡ self.now) }
    {
        let owner = self.owner.copy(alloc)?;
        let model = self.model.copy(alloc)?;
        Ok(Link {
            name: self.name,
            owner,
            model,
            target: self.target,
        })
    }
}
