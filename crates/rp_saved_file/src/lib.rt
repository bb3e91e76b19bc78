//! A file that is replaced as a whole: it stays as it was until all of the new bytes are on the disk.
#![tactic(auto)]

mod fault;
mod file_part;
mod part;
mod places;
mod replacing;

pub use fault::ReplaceFault;
pub use file_part::FilePart;
pub use part::Part;
pub use places::{FilePlaces, Places};
pub use replacing::{Left, NotReplaced, Replacement, take_place};
