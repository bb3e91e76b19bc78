//! Files that are read whole, over any folder.
#![tactic(auto)]

mod fault;
mod files;

pub use fault::LoadFault;
pub use files::{Folder, FromFiles, file_bytes, whole_file};
