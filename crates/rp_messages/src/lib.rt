//! What the messages of HTTP are to the repository: whose request each is, what it is answered, and what holds of all of them
//! for each partner.
#![tactic(auto)]

mod laws;
mod routing;

pub use laws::{heads_decide, messages_are_turns, others_are_fixed, two_connections};
pub use routing::{Asked, Unrouted, route, route_head};
