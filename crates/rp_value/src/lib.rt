//! Values of EXPRESS and of exchange files, which are plain data to contracts and whose copies share what they hold.
#![tactic(auto)]

mod bits;
mod characters;
mod decimal;
mod elements;
mod value;

pub use bits::Bits;
pub use characters::Characters;
pub use decimal::HeldDecimal;
pub use elements::Elements;
pub use rp_numbers::{Decimal, DecimalFault, Logical};
pub use value::{AggregateKind, Value};
