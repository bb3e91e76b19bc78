//! Who may do what with models and groups, over tables of their rows: levels, what counts in groups, and what a partner sees.
//!
//! For each partner the names of the groups that he is granted are kept, so that nothing is asked of groups that he
//! doesn't see.
#![tactic(auto)]

mod groups;
mod levels;
mod marks;
mod members;
mod rows;
mod sight;
mod visible;

pub use groups::{Groups, Regrant};
pub use levels::level;
pub use members::{Member, counted_models, members_of};
pub use rows::{RowRef, Table};
pub use sight::{at_least, counts, group_right, has_key, sees_group};
pub use visible::{Seen, visible_groups, visible_models};
