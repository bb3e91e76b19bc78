//! Expressions and statements as trees, and as lists of instructions, which contracts see as the trees that they denote.
#![tactic(auto)]

mod code;
mod copies;
mod expressions;
mod instruction;
mod role;
mod statements;
mod tree;
mod written;

pub use code::{Code, Routine, behind};
pub use copies::{copied_role, copied_type};
pub use instruction::Instruction;
pub use role::{NamedRole, Role};
pub use tree::{
    CaseAction, Control, Expression, Increment, Interval, Operation, Qualifier, Query, Statement,
};
