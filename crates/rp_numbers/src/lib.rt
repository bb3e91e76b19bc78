//! Plain values of EXPRESS: whole numbers, decimals and logical values.
#![tactic(auto)]

mod decimal;
mod fronts;
mod operators;
mod order;
mod spelling;
mod whole;
mod writing;

pub use decimal::{Decimal, DecimalFault};
pub use fronts::{digits_len, exponent_len, sign_len};
pub use spelling::{after_sign, is_negative};
pub use whole::{are_digits, number_after, whole_number};

/// A value of LOGICAL, in the order of the standard.
#[derive(Clone, Copy, PartialEq, Eq)]
pub enum Logical {
    False,
    Unknown,
    True,
}
