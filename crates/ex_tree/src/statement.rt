//! Statements (clause 13).

use crate::expression::{Expression, Name};
use plain_data::{Boxed, Items};

/// `variable := first TO last BY step`
#[derive(Drop)]
pub struct Increment {
    pub variable: Name,
    pub first: Expression,
    pub last: Expression,
    pub step: Option<Expression>,
}

/// What governs the turns of a REPEAT.
#[derive(Drop)]
pub struct RepeatControl {
    pub increment: Option<Increment>,
    pub while_condition: Option<Expression>,
    pub until_condition: Option<Expression>,
}

#[derive(Drop)]
#[cycle(statement)]
pub struct CaseAction {
    pub labels: Items<Expression>,
    pub statement: Statement,
}

/// A CASE, and the first byte of its word.
#[derive(Drop)]
#[cycle(statement)]
pub struct Case {
    pub at: usize,
    pub selector: Expression,
    pub actions: Items<CaseAction>,
    pub otherwise: Option<Boxed<Statement>>,
}

#[cycle(statement)]
pub enum Statement {
    Null,
    Assignment(Name, Expression),
    Case(Boxed<Case>),
    Compound(Items<Statement>),
    Escape,
    /// The condition, what follows THEN, and what follows ELSE: nothing where it is not there.
    If(Expression, Items<Statement>, Items<Statement>),
    Repeat(Boxed<RepeatControl>, Items<Statement>),
    /// With the first byte of its word.
    Return(usize, Expression),
    Skip,
}

impl Drop for Statement {
    #[cycle(statement_drop)]
    fn drop(self) {
        match self {
            Statement::Null | Statement::Escape | Statement::Skip => {}
            Statement::Assignment(name, value) => {
                drop(name);
                drop(value);
            }
            Statement::Case(case) => drop(case),
            Statement::Compound(statements) => drop(statements),
            Statement::If(condition, then_part, else_part) => {
                drop(condition);
                drop(then_part);
                drop(else_part);
            }
            Statement::Repeat(control, statements) => {
                drop(control);
                drop(statements);
            }
            Statement::Return(_, value) => drop(value),
        }
    }
}
