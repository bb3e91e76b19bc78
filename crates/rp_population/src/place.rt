//! Where an instance stands.

ghost use Rattle.std.specs.Prelude.{◌≡◌, ◌∷◌, ◌++◌, [], IfOk, OnOk};

use rp_rows::rows::Key;
use shared::Shared;
use std::alloc::{AllocError, Global};

/// An instance of a model, by its name there. Places in one model share its key: an answer has as many as there are instances.
#[derive(Drop)]
pub struct Place {
    pub model: Shared<Key>,
    pub instance: u64,
}

impl Place {
    ghost use Rattle.std.specs.Prelude.{◌≡◌, IfOk};

    /// The instance of this name in the model under the key.
    pub fn new(alloc: Global, model: Key, instance: u64) -> Result<Place, AllocError>
        ensures { IfOk result (λ place. place ≡ record { model = model; instance = instance }) }
    {
        let model = Shared::new(alloc, model)?;
        Ok(Place { model, instance })
    }

    /// The key of the model.
    pub fn key(&self) -> &Key
        ensures { result.now ≡ self.now.model }
    {
        self.model.get()
    }
}

/// The key in a block that places share.
pub(crate) fn shared_key(alloc: Global, key: &Key) -> Result<Shared<Key>, AllocError>
    ensures { IfOk result (λ copy. copy ≡ key.now) }
{
    let copy = key.copy(alloc)?;
    Shared::new(alloc, copy)
}

/// Puts the place of an instance of a model behind the others.
pub(crate) fn push_place(
    found: &mut Vec<Place>,
    model: &Shared<Key>,
    instance: u64,
) -> Result<(), AllocError>
    ensures { OnOk result (found.new.items ≡ found.old.items ++ (record { model = model.now; instance = instance }) ∷ []) }
{
    let model = model.share()?;
    found.push(Place { model, instance })?;
    Ok(())
}
