//! Expressions and statements whose names are bound, as they are evaluated (ISO 10303-11:1994, clauses 12 and 13).

use crate::role::Role;
use ex_named::{AttributePlace, NamedDataType};
use ex_tree::{BinaryOperator, BuiltInFunction, IntervalOperator, UnaryOperator};
use plain_data::{Boxed, Items};
use rp_value::Value;

/// An operator, and the operand on its right.
#[cycle(expression)]
pub struct Operation {
    pub operator: BinaryOperator,
    pub right: Expression,
}

/// What is taken of a value.
#[cycle(expression)]
pub enum Qualifier {
    /// The attributes that the name may mean: the first of them of which the instance has the entity.
    Attribute(Items<AttributePlace>),
    /// The same instance, if it is of this entity.
    Group(usize),
    Index(Expression),
    /// From the first index to the second.
    Range(Boxed<Expression>, Boxed<Expression>),
}

/// `{ low < item <= high }`
#[cycle(expression)]
pub struct Interval {
    pub low: Expression,
    pub low_operator: IntervalOperator,
    pub item: Expression,
    pub high_operator: IntervalOperator,
    pub high: Expression,
}

/// `QUERY(variable <* source | condition)`. The variable has the next slot.
#[cycle(expression)]
pub struct Query {
    pub source: Expression,
    pub condition: Expression,
}

/// Variables have slots: first the parameters and locals in their order, then the variables of REPEAT and QUERY that are
/// open, from the outermost.
#[cycle(expression)]
pub enum Expression {
    /// A literal with its sign, an item of an enumeration, or `?`.
    Literal(Value),
    /// `SELF`
    Itself,
    /// The variable of a slot.
    Variable(usize),
    /// An attribute of SELF, by its name alone.
    Attribute(AttributePlace),
    /// A constant, by its number.
    Constant(usize),
    /// The instances of an entity, in a rule that is for it.
    Population(usize),
    /// A function, by its number, with its arguments.
    Call(usize, Items<Expression>),
    BuiltIn(BuiltInFunction, Items<Expression>),
    /// `USEDIN(instance, 'role')`, whose role is a literal: none where it is no role.
    UsedIn(Boxed<Expression>, Option<Role>),
    Qualified(Boxed<Expression>, Items<Qualifier>),
    Unary(UnaryOperator, Boxed<Expression>),
    /// Operators of one level, from left to right.
    Chain(Boxed<Expression>, Items<Operation>),
    Interval(Boxed<Interval>),
    Query(Boxed<Query>),
    /// `[ .. ]`
    Initializer(Items<Expression>),
}

/// `variable := first TO last BY step`. The variable has the next slot.
pub struct Increment {
    pub first: Expression,
    pub last: Expression,
    pub step: Option<Expression>,
}

/// What governs the turns of a REPEAT.
pub struct Control {
    pub increment: Option<Increment>,
    pub while_condition: Option<Expression>,
    pub until_condition: Option<Expression>,
}

/// An action of a CASE; without labels what follows OTHERWISE.
#[cycle(statement)]
pub struct CaseAction {
    pub labels: Option<Items<Expression>>,
    pub statement: Statement,
}

#[cycle(statement)]
pub enum Statement {
    Null,
    /// The slot, the type with which the variable is declared, and the value.
    Assignment(usize, NamedDataType, Expression),
    /// The selector, and the actions.
    Case(Expression, Items<CaseAction>),
    Compound(Items<Statement>),
    Escape,
    /// The condition, what follows THEN, and what follows ELSE: nothing where it is not there.
    If(Expression, Items<Statement>, Items<Statement>),
    Repeat(Boxed<Control>, Items<Statement>),
    Return(Expression),
    Skip,
}

impl Drop for Operation {
    #[cycle(expression_drop)]
    fn drop(self) {
        let Operation { operator: _, right } = self;
        drop(right);
    }
}

impl Drop for Qualifier {
    #[cycle(expression_drop)]
    fn drop(self) {
        match self {
            Qualifier::Attribute(attributes) => drop(attributes),
            Qualifier::Group(_) => {}
            Qualifier::Index(index) => drop(index),
            Qualifier::Range(first, last) => {
                drop(first);
                drop(last);
            }
        }
    }
}

impl Drop for Interval {
    #[cycle(expression_drop)]
    fn drop(self) {
        let Interval {
            low,
            low_operator: _,
            item,
            high_operator: _,
            high,
        } = self;
        drop(low);
        drop(item);
        drop(high);
    }
}

impl Drop for Query {
    #[cycle(expression_drop)]
    fn drop(self) {
        let Query { source, condition } = self;
        drop(source);
        drop(condition);
    }
}

impl Drop for Expression {
    #[cycle(expression_drop)]
    fn drop(self) {
        match self {
            Expression::Literal(value) => drop(value),
            Expression::Itself | Expression::Variable(_) | Expression::Attribute(_) => {}
            Expression::Constant(_) | Expression::Population(_) => {}
            Expression::Call(_, arguments) => drop(arguments),
            Expression::BuiltIn(_, arguments) => drop(arguments),
            Expression::UsedIn(instance, role) => {
                drop(instance);
                drop(role);
            }
            Expression::Qualified(base, qualifiers) => {
                drop(base);
                drop(qualifiers);
            }
            Expression::Unary(_, right) => drop(right),
            Expression::Chain(first, more) => {
                drop(first);
                drop(more);
            }
            Expression::Interval(interval) => drop(interval),
            Expression::Query(query) => drop(query),
            Expression::Initializer(elements) => drop(elements),
        }
    }
}

impl Drop for Increment {
    fn drop(self) {
        let Increment { first, last, step } = self;
        drop(first);
        drop(last);
        drop(step);
    }
}

impl Drop for Control {
    fn drop(self) {
        let Control {
            increment,
            while_condition,
            until_condition,
        } = self;
        drop(increment);
        drop(while_condition);
        drop(until_condition);
    }
}

impl Drop for CaseAction {
    #[cycle(statement_drop)]
    fn drop(self) {
        let CaseAction { labels, statement } = self;
        drop(labels);
        drop(statement);
    }
}

impl Drop for Statement {
    #[cycle(statement_drop)]
    fn drop(self) {
        match self {
            Statement::Null | Statement::Escape | Statement::Skip => {}
            Statement::Assignment(_, data_type, value) => {
                drop(data_type);
                drop(value);
            }
            Statement::Case(selector, actions) => {
                drop(selector);
                drop(actions);
            }
            Statement::Compound(statements) => drop(statements),
            Statement::If(condition, then_part, else_part) => {
                drop(condition);
                drop(then_part);
                drop(else_part);
            }
            Statement::Repeat(control, statements) => {
                drop(control);
                drop(statements);
            }
            Statement::Return(value) => drop(value),
        }
    }
}
