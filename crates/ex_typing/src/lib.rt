//! What the values of expressions may be, and the faults that are told of them.
#![tactic(auto)]

mod known;
mod leaves;
mod scope;
mod taken;
mod taken_names;
mod trees;

pub use known::{Known, Signature};
pub use scope::TypingScope;
pub use taken_names::{TakenName, push_taken, push_taken_of_all};
pub use trees::{expression, expressions, qualifier};
