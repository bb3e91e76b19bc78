//! What a partner's requests are told of what a repository holds: the readers that plans ask.
//!
//! [`Readers`] is a repository as one partner asks it. Each reader gives what the record of the same readers in the
//! plain repository has, and none gives more than that partner sees.
#![tactic(auto)]

pub mod contents;
mod counted;
pub mod instances;
mod items;
mod kept;
mod listings;
mod model_names;
pub mod populations;
mod readers;
pub mod schemas;

pub use kept::KeptLayouts;
pub use model_names::ModelNames;
pub use readers::{Readers, place_among};
