//! Plans of requests on models and groups as they are listed: who has which, who may do what with them, what groups have,
//! and what is told of the instances of groups.
#![tactic(auto)]

mod grants;
mod groups;
mod lists;
mod members;
mod models;
mod populations;
mod validation;

pub use grants::{plan_grant, plan_revoke};
pub use groups::{plan_create_group, plan_delete_group, plan_grant_group, plan_revoke_group};
pub use lists::{plan_list, plan_names, plan_schemas};
pub use members::{plan_exclude, plan_include, plan_members};
pub use models::{plan_create, plan_delete};
pub use populations::{plan_extent, plan_users};
pub use validation::plan_validate;
