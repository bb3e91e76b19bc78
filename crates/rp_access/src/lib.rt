//! Who may do what with models, and groups with the rights on them: what is told of them, and changes of all that. What models
//! hold isn't here.
//!
//! A change is prepared, which makes all the room that it takes and changes nothing that is seen, and then committed,
//! which is never refused.
#![tactic(auto)]

mod access;
mod changes;
mod faults;
mod regranted;
mod relisted;
mod relisting;
mod steps;

pub use access::{Access, Prepared};
pub use changes::{AccessFault, Change};
