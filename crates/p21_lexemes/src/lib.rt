//! The tokens of an exchange file, cut one by one from a cursor. ISO 10303-21.
#![tactic(auto)]

mod front;
mod kinds;
mod token;
mod tokens;
mod usual;

pub use token::{Token, TokenKind};
pub use tokens::Tokens;
