//! What holds of rules, their operators and their reports.
//!
//! Each function has a law as its contract, over the definitions that the repository's own calls cite.
#![tactic(auto)]

mod attributes;
mod kinds;
mod operations;
mod reports;

pub use attributes::attributes_mean_one;
pub use kinds::{fits_by_kinds, given_by_kinds};
pub use operations::{
    all_within_counts, class_is_what_is_the_same, common_counts, difference_counts,
    elements_have_classes, intersection_counts, is_within_counts, joined_counts, less_counts,
    same_where_seen_alike, set_union_counts, union_counts,
};
pub use reports::{
    compiled_schemas_have_all_rules, culprits_are_in_order, each_rule_has_an_entry,
    instances_have_attributes_once, read_instances_have_attributes_once,
};
