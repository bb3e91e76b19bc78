//! What the parsers of EXPRESS are made of: a cursor over tokens, and forms of one token.
#![tactic(auto)]

mod cursor;
mod forms;

pub use cursor::{Cursor, Read, refused};
pub use ex_lex::TokenList;
pub use ex_tree::{ParseFault, ParseFaultKind, Token, TokenKind};
pub use forms::{name, whole};
pub use text_forms::{Begins, Form, many, optional, separated, some};
