//! The canonical text of what a model holds is ASCII, and so UTF-8.
#![tactic(auto)]

mod law;

pub use law::canonical_is_ascii;
