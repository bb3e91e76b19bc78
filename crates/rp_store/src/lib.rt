//! What stands under keys, in the order of owner and name, and what models hold: found by a search by halving, and changed in
//! place.
//!
//! A change of a model is prepared, which makes all the room that it takes and changes nothing that is seen, and then committed,
//! which is never refused. Nothing here speaks of what partners may do.
#![tactic(auto)]

mod changes;
mod edits;
mod keyed;
mod prepares;
mod store;
mod uses;

pub use changes::{Change, Edit, Prepared, StoreFault};
pub use keyed::{Entry, Keyed};
pub use store::Store;
