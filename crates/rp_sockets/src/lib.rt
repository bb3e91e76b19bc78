//! The repository over the sockets of one address: many connections on one thread, none of which waits for another. One request
//! is handled at a time, and each connection's next one once the reply before it is sent.
#![tactic(auto)]

mod accepting;
mod arrivals;
mod client;
mod deadlines;
mod input;
mod keeper;
mod listening;
mod serving;
mod socket;

pub use deadlines::{Awaited, Times};
pub use keeper::Keeper;
pub use listening::{Listening, ServeFault};
pub use serving::Ends;
