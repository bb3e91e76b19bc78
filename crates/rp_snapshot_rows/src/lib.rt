//! Rows of models and groups as they stand in a snapshot: how they are written, and read again.
//!
//! What is written of a row is said by `specs/`, and nothing is said of what may be read: a reader promises that what was
//! written is read as it was. Whoever reads a snapshot writes what he read again, and compares.
#![tactic(auto)]

mod lack;
mod lists;
mod members;
mod reading;
mod rows;
mod tokens;
mod writing;
mod written_lists;

pub use lack::Lack;
pub use reading::{first_list, group_row, list, model_file, model_row};
pub use rows::{SavedGroup, SavedModel};
pub use writing::{write_group, write_model};
