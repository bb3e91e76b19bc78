//! What the declared types of an EXPRESS schema come to (ISO 10303-11:1994, clauses 8 and 9.1): what each is behind all
//! names, what SELECTs choose from, the items of enumerations, and the types of elements, found once for all types.
#![tactic(auto)]

mod ends;
mod expected;
mod items;
mod kept;
mod levels;
mod selects;
mod sorts;
mod takers;
mod types;

pub use ends::{Base, Target, base_of, inside, target_of};
pub use expected::Expected;
pub use levels::{Candidate, Level, Levels, level_of, levels_of};
pub use sorts::Class;
pub use takers::{Takers, taker_at};
pub use types::DefinedTypes;
