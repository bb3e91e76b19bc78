//! What the values of an EXPRESS schema's expressions may be, and the faults of types.
#![tactic(auto)]

mod data_type;
mod fault;
mod indexed;
mod kind;
mod kinds;
mod list;
mod meeting;
mod typed;
mod types;

pub use data_type::{aggregate_of, kinds_of, kinds_of_one};
pub use fault::{TypeFault, TypeFaultKind, either, fault_at};
pub use kind::{PlainSort, Sort, ValueKind};
pub use kinds::Kinds;
pub use list::{apart, are_same, copied, elements, join};
pub use typed::{Typed, ruled};
pub use types::{Types, alternative};
