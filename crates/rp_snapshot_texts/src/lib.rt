//! The text of rows in a snapshot, a row at a time: it is written to a writer, gathered in memory, or compared with bytes.
//!
//! What a version of snapshots writes of what a model holds is told by a [`Version`].
#![tactic(auto)]

mod comparing;
mod gathering;
mod law;
mod pieces;
mod saving;
mod version;

pub use comparing::{behind, is_text_of};
pub use gathering::gathered;
pub use law::rows_again;
pub use saving::{SaveFault, save};
pub use version::Version;
