//! What an evaluation does with values: steps, variables, attributes, users and functions of the language.
#![tactic(auto)]

mod attributes;
mod calls;
mod copies;
mod frame;
mod kept;
mod lookup;
mod memory;
mod setting;
mod steps;
mod table;
mod turns;
mod users;

pub use attributes::{
    chosen, derivation, derivation_in, explicit_derivations, inverse_at, named_role,
    own_derivations, stored_value,
};
pub use copies::copied;
pub use frame::Frame;
pub use kept::{Derived, Kept, Row};
pub use lookup::Lookup;
pub use memory::{Memory, Remembered};
pub use setting::{MOST_BODIES, Setting};
pub use steps::{
    charge, charge_initializer, charge_interval, charge_operator, known, serve, variable,
};
pub use table::Table;
pub use turns::{Running, advanced, begun, start};
pub use users::{inverse_users, of_users};
