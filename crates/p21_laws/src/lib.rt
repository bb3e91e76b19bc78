//! What a model holds is read again from its canonical text.
//!
//! Each function has a law as its contract, over the definitions that reading and writing cite.
#![tactic(auto)]

mod law;
mod whole;

pub use law::{accepted_types, read_again, taken_again};
pub use whole::{
    accepted_schema, accepted_schemas, content_again, instance_again, kept_again, text_again,
};
