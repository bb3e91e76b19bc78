//! A repository from the bytes of a snapshot: one row after another is read, tested and held.
//!
//! What a snapshot may be is said by what is written of a repository: in the end that of what is held is compared with the
//! bytes, and nothing else is taken. From the snapshot of a repository it comes back.
#![tactic(auto)]

mod fault;
mod groups;
mod models;
mod offsets;
mod places;
mod restoring;
mod rows;

pub use fault::{RefusedRow, RestoreFault, RowKind, RowReason, SnapshotLack};
pub use restoring::restore;
