//! What the program does, over any folder, reader and writer, and the exit status of each way to end.
#![tactic(auto)]

mod aimed;
mod checking;
mod delivering;
mod ending;
mod fault;
mod keeping;
mod opening;
mod pages;
mod running;
mod saving;
mod serving;

pub use checking::{check, explain};
pub use delivering::validate;
pub use ending::{Done, status_of};
pub use ex_check::Verdict;
pub use fault::{Fault, StartFault, Unsaved};
pub use http_routes::TokenFault;
pub use opening::bad_token_in;
pub use pages::Pages;
pub use rp_saved_file::{FilePlaces, Left, ReplaceFault};
pub use rp_sockets::{Ends, ServeFault};
pub use running::{Batched, batch};
pub use saving::Snapshots;
pub use serving::serve;
