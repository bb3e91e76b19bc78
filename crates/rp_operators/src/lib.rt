//! The operators and the built-in functions of EXPRESS over values, and what values become by declared types.
#![tactic(auto)]

mod attributes;
mod bare;
mod bounds;
mod built_ins;
mod costs;
mod decimals;
mod declared;
mod ends;
mod naming;
mod numbers;
mod operators;
mod qualifiers;
mod references;
mod relations;
mod scalars;
mod type_names;

pub use attributes::{is_of, same_attribute};
pub use bare::{aggregate_of, carried, integer_of, is_indeterminate, is_true, place_of, text_of};
pub use bounds::holds_count;
pub use built_ins::{
    absolute, binary_length, exists, high_index, initializer, low_index, null_value, odd, size_of,
    text_length, value_in,
};
pub use costs::{cost, count, interval_cost, size};
pub use declared::given;
pub use ends::{AggregateType, End, aggregate_type, behind_names, end_of, fits};
pub use operators::{applied, applied_in_place, applied_to, within};
pub use qualifiers::{index, range};
pub use references::{all_present, present};
pub use type_names::TypeNames;
