//! The content of a model.

use crate::header::Header;
use crate::instances::Instances;
use crate::link::Link;
use plain_data::Items;
use std::alloc::{AllocError, Global};

/// What a model holds.
#[derive(Drop)]
pub struct Content {
    pub header: Header,
    pub instances: Instances,
    /// In order of name.
    pub links: Items<Link>,
}

impl Content {
    ghost use Rattle.std.specs.Prelude.{◌≡◌, [], IfOk};
    ghost use Rattle.rp_content.specs.Headers.{default_header};

    /// That of a model that nothing was put into.
    pub fn new(alloc: Global) -> Result<Content, AllocError>
        ensures { IfOk result (λ content. content ≡ (record { header = default_header; instances = []; links = [] })) }
    {
        Ok(Content {
            header: Header::new(alloc)?,
            instances: Instances::new(alloc),
            links: Items::new(alloc),
        })
    }
}
