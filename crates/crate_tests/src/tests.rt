//! The tests, by what they look at.

mod decimals;
mod operations;
mod values;
