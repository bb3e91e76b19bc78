//! Which request the path of a head is, who asks by a token, and how answers are spelled. Nothing here knows the
//! repository.
#![tactic(auto)]

mod answers;
mod paths;
mod segments;
mod tokens;

pub use answers::{Bare, answer_head, bare_answer, fault_answer, no_memory_answer};
pub use paths::{Item, Path, takes_method};
pub use tokens::{TokenFault, Tokens, is_token};
