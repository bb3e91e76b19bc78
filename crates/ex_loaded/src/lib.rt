//! A compiled schema with what is looked up in it for each instance.
#![tactic(auto)]

mod loaded;

pub use loaded::LoadedSchema;
