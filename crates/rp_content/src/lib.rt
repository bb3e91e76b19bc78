//! What a model holds: a header, instances, and links to instances of other models.
#![tactic(auto)]

mod content;
mod gapped;
mod header;
mod instance;
mod instances;
mod link;
mod names;

pub use content::Content;
pub use header::Header;
pub use instance::{Entities, Instance};
pub use instances::{Instances, Spare};
pub use link::Link;
