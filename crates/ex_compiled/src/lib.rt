//! A schema that is checked to the end, and that all which follows stands on.
#![tactic(auto)]

mod compiled;

pub use compiled::Compiled;
