//! What a repository holds, in memory, and the turns that its requests are.
//!
//! A request is planned over what is held (`plans`): its refusals are tested, its reply made, and what it
//! changes said as edits. Room is made for these, and only then is anything changed, which takes no
//! memory: see [`Holdings`].
#![tactic(auto)]

mod holdings;
mod opening;
mod plans;
mod steps;

pub use holdings::Holdings;
pub use steps::Pending;
