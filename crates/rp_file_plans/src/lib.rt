//! Plans of requests on what models hold: files that are put and exported, single instances, and texts that are checked.
#![tactic(auto)]

mod checks;
mod files;
mod instances;
mod links;
mod single;

pub use checks::plan_check;
pub use files::{plan_export, plan_put};
pub use instances::plan_get;
pub use single::{plan_add, plan_drop, plan_set};
