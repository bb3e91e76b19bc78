//! Which groups list a model. Asked for a model, what is kept may tell of groups that don't list it, and misses none that does.
//!
//! Keys of groups are kept once and shared, and no key of a model is kept: a number of it stands in its place.
#![tactic(auto)]

mod keys;
mod listers;
mod numbers;

pub use keys::Lister;
pub use listers::Listers;
pub use numbers::number_of;
