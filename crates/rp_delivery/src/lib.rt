//! Files that one partner delivers: they are put, one after another, into models of their own, all of one schema, which are
//! validated as one group. What is asked of the repository is what he would ask by requests.
#![tactic(auto)]

mod asked;
mod choice;
mod delivering;
mod judged;
mod named;
mod notes;
mod requests;
mod sources;
mod texts;

pub use asked::{Asked, Form};
pub use delivering::{Delivered, deliver};
pub use judged::{Judgement, judgement_of};
pub use named::partners;
pub use notes::Notes;
pub use sources::{SchemaSources, sources_at};
