//! The tokens of an EXPRESS text (ISO 10303-11:1994, clause 7).
#![tactic(auto)]

mod cut;
mod front;
mod lexed;
mod numbers;
mod strings;
mod symbols;
mod words;

pub use cut::tokens;
pub use ex_tree::{LexFault, LexFaultKind, Token, TokenKind};
pub use lexed::TokenList;
pub use plain_data::Failure;
pub use strings::character;
