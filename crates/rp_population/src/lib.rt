//! Populations: the instances of the models that count in a group, what the names in them stand for, and who uses whom.
//!
//! `specs/` has the definitions, as functions of lists. Requests are answered by them: what is looked for is found once in
//! the schema, and then in one model after another.
#![tactic(auto)]

mod attribute;
mod extents;
mod names;
mod place;
mod roles;
mod users;
mod uses;

pub use extents::Extent;
pub use place::Place;
pub use roles::Role;
pub use users::Users;
