//! What a plan is: the reply to a request and the edits that come of it, or its first refusal; and the tests that the plans
//! of several requests have.
//!
//! A plan asks nothing of a repository but its readers (`rp_readers`), and says by the definition of its request in the
//! plain repository which of the tests holds first, what is answered, and which edits come of it, before anything is
//! changed. `rp_item_plans` and `rp_file_plans` have the plans themselves.
//!
//! Nothing grows before sight is tested, since a refused growth would tell of what isn't seen: in front of the last
//! `return Err` of a plan nothing takes memory. What the text of a put, an add or a set is refused for comes behind.
#![tactic(auto)]

mod edits;
mod faults;

pub use edits::{Edit, Plan};
pub use faults::{
    first, is_no_partner, key_fault, lacks, name_fault, names_fault, too_large, unseen, when,
};
