//! Rows that were read of a snapshot: each is tested, and the file of a model bound to its schema, before it is taken for a row
//! of the repository.
//!
//! What is taken is valid, and a valid row of which the snapshot was written is never refused. Nothing more is said of what is
//! refused: whoever restores a snapshot writes what he took again, and compares.
#![tactic(auto)]

mod files;
mod groups;
mod lack;
mod links;
mod models;
mod partners;
mod rows;

pub use groups::restored_group;
pub use lack::RowLack;
pub use models::{RestoredModel, restored_model};
pub use partners::PartnerOrder;
