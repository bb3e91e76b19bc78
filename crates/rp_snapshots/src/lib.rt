//! The snapshot of a repository: one text, from which the repository comes back.
//!
//! `specs/` says what it is, in any version. There is one version, the first, in which the file of a model is canonical text.
#![tactic(auto)]

mod first;
mod snapshots;

pub use first::{FirstVersion, schema_named};
pub use rp_snapshot_texts::SaveFault;
pub use snapshots::{is_snapshot_of, save, snapshot};
