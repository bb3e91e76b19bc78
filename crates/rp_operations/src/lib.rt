//! What values of EXPRESS can do: how two compare, whether they are the same, and the operators on aggregates.
#![tactic(auto)]

mod bare;
mod compared;
mod comparisons;
mod equality;
mod laws;
mod operations;

pub use bare::{holds_instance, is_indeterminate};
pub use compared::Compared;
pub use comparisons::{compare, same};
pub use laws::{
    compared_exchanged, difference_counts, intersection_counts, same_of_exchanged, union_counts,
    within_counts,
};
pub use operations::{
    aggregate_union, intersect, is_in, is_value_in, is_within, minus, union_in_place,
};
