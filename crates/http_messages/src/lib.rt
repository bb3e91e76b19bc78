//! The requests of a connection, as HTTP/1.0 and 1.1 have them: the head by `httparse`, the body by its length.
#![tactic(auto)]

mod fields;
mod framing;
mod laws;
mod mask;
mod message;
mod scratch;

pub use laws::fronts_stay;
pub use message::{Fault, Head, Message, Next, next_message};
pub use scratch::Scratch;
