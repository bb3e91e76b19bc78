//! The models that count in groups.
#![tactic(auto, unfolding(crate::specs::Told::told))]

ghost use Rattle.std.specs.Prelude.{◌≡◌, map, IfOk};
ghost use Rattle.rp_readers.specs.Listed.{TellsListed, counted_of};
ghost use Rattle.rp_readers.specs.Told.{told};

use crate::readers::Readers;
use rp_index::Indexed;
use rp_rows::rows::Key;
use rp_sight::{RowRef, counted_models};
use std::alloc::{AllocError, Global};

impl<'a, 's> Readers<'a, 's> {
    /// The models that count in the group, if the partner sees it.
    pub fn counted(&self, alloc: Global, key: &Key) -> Result<Vec<RowRef<'a, Indexed>>, AllocError>
        requires { TellsListed (told self.now) }
        ensures { IfOk result (λ out. map counted_of out.items ≡ (told self.now).counted key.now) }
    {
        match self.group(key) {
            Some(group) => counted_models(alloc, self.models, &group),
            None => Ok(Vec::new(alloc)),
        }
    }
}
