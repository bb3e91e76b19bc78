//! The repository over HTTP: one connection, whose messages are answered one by one, in order.
#![tactic(auto)]

mod answers;
mod connection;
mod inbox;
mod outbox;
mod serve;
mod turn;
mod workspace;

pub use answers::{AnswerBytes, answer_bytes};
pub use connection::{Connection, Stage, Stepped, StreamFault};
pub use http_messages::{Fault, Head, Message, Next, Scratch, next_message};
pub use http_routes::{Bare, TokenFault, Tokens};
pub use inbox::{Dropped, Inbox};
pub use rp_messages::{Asked, Unrouted, route};
pub use serve::{ServeFault, serve_connection};
pub use turn::{Turn, take_turn};
pub use workspace::Workspace;
