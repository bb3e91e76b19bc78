//! What a declared type takes of a value as an exchange file spells it (ISO 10303-21:2002, clause 10).
#![tactic(auto)]

mod alone;
mod candidates;
mod deciding;
mod expected;
mod rest;
mod taking;
mod tokens;

pub use expected::bound_by;
