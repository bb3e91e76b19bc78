//! What the names of a schema mean in a scope (ISO 10303-11:1994, clause 10).
#![tactic(auto)]

mod attributes;
mod declarations;
mod items;
mod lookup;
mod owned;
mod scope;
mod seen;
mod sorts;

pub use declarations::Declarations;
pub use owned::OwnedDeclarations;
pub use scope::Scope;
pub use sorts::Sorts;
