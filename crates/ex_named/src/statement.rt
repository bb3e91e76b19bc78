//! Statements.

use crate::expression::NamedExpression;
use plain_data::{Boxed, Items};

/// `variable := first TO last BY step`, and the variable's first byte. It has the next slot.
#[derive(Drop)]
pub struct NamedIncrement {
    pub at: usize,
    pub first: NamedExpression,
    pub last: NamedExpression,
    pub step: Option<NamedExpression>,
}

/// What governs the turns of a REPEAT. Its variable stands in the conditions, and in the statements.
#[derive(Drop)]
pub struct NamedRepeatControl {
    pub increment: Option<NamedIncrement>,
    pub while_condition: Option<NamedExpression>,
    pub until_condition: Option<NamedExpression>,
}

#[derive(Drop)]
#[cycle(named_statement)]
pub struct NamedCaseAction {
    pub labels: Items<NamedExpression>,
    pub statement: NamedStatement,
}

/// A CASE, and the first byte of its word.
#[derive(Drop)]
#[cycle(named_statement)]
pub struct NamedCase {
    pub at: usize,
    pub selector: NamedExpression,
    pub actions: Items<NamedCaseAction>,
    pub otherwise: Option<Boxed<NamedStatement>>,
}

#[cycle(named_statement)]
pub enum NamedStatement {
    Null,
    /// The slot, the first byte of the variable, and the value.
    Assignment(usize, usize, NamedExpression),
    Case(Boxed<NamedCase>),
    Compound(Items<NamedStatement>),
    Escape,
    /// The condition, what follows THEN, and what follows ELSE: nothing where it is not there.
    If(NamedExpression, Items<NamedStatement>, Items<NamedStatement>),
    Repeat(Boxed<NamedRepeatControl>, Items<NamedStatement>),
    /// With the first byte of its word.
    Return(usize, NamedExpression),
    Skip,
}

impl Drop for NamedStatement {
    #[cycle(named_statement_drop)]
    fn drop(self) {
        match self {
            NamedStatement::Null | NamedStatement::Escape | NamedStatement::Skip => {}
            NamedStatement::Assignment(_, _, value) => drop(value),
            NamedStatement::Case(case) => drop(case),
            NamedStatement::Compound(statements) => drop(statements),
            NamedStatement::If(condition, then_part, else_part) => {
                drop(condition);
                drop(then_part);
                drop(else_part);
            }
            NamedStatement::Repeat(control, statements) => {
                drop(control);
                drop(statements);
            }
            NamedStatement::Return(_, value) => drop(value),
        }
    }
}
