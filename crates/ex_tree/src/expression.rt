//! Expressions (clause 12). An offset stands wherever a fault of names or types may lie.

use crate::identifier::Identifier;
use plain_data::{Boxed, Items, Text};
use rp_numbers::{Decimal, Logical};

/// An identifier, and its first byte.
#[derive(Drop)]
pub struct Name {
    pub text: Identifier,
    pub at: usize,
}

pub enum Literal {
    Integer(u64),
    /// With its sign, if one stands directly before it.
    Real(Decimal),
    /// Its value in UTF-8, and its first byte.
    String(Text, usize),
    /// Its bits, as `0` and `1`.
    Binary(Text),
    Logical(Logical),
}

#[derive(Clone, Copy, PartialEq, Eq)]
pub enum UnaryOperator {
    Plus,
    Minus,
    Not,
}

#[derive(Clone, Copy, PartialEq, Eq)]
pub enum BinaryOperator {
    Power,
    Multiply,
    /// `/`
    Divide,
    Div,
    Mod,
    And,
    Add,
    Subtract,
    Or,
    Xor,
    Less,
    Greater,
    LessEqual,
    GreaterEqual,
    NotEqual,
    Equal,
    /// `:<>:`
    InstanceNotEqual,
    /// `:=:`
    InstanceEqual,
    In,
}

#[derive(Clone, Copy, PartialEq, Eq)]
pub enum IntervalOperator {
    Less,
    LessEqual,
}

#[derive(Clone, Copy, PartialEq, Eq)]
pub enum BuiltInFunction {
    Abs,
    BLength,
    Exists,
    HiIndex,
    Length,
    LoIndex,
    Nvl,
    Odd,
    SizeOf,
    TypeOf,
    UsedIn,
    ValueIn,
}

/// An operator, its first byte, and the operand on its right.
#[derive(Drop)]
#[cycle(expression)]
pub struct Operation {
    pub operator: BinaryOperator,
    pub at: usize,
    pub right: Expression,
}

/// What is taken of a value. The number is the first byte of `.`, `\` or `[`.
#[cycle(expression)]
pub enum Qualifier {
    Attribute(usize, Name),
    Group(usize, Name),
    Index(usize, Expression),
    /// From the first index to the second.
    Range(usize, Boxed<Expression>, Boxed<Expression>),
}

/// `{ low < item <= high }`, each operator with its first byte.
#[derive(Drop)]
#[cycle(expression)]
pub struct Interval {
    pub low: Expression,
    pub low_operator: IntervalOperator,
    pub low_at: usize,
    pub item: Expression,
    pub high_operator: IntervalOperator,
    pub high_at: usize,
    pub high: Expression,
}

/// `QUERY(variable <* source | condition)`, and the first byte of its word.
#[derive(Drop)]
#[cycle(expression)]
pub struct Query {
    pub at: usize,
    pub variable: Name,
    pub source: Expression,
    pub condition: Expression,
}

/// Parentheses leave no node.
#[cycle(expression)]
pub enum Expression {
    Literal(Literal),
    /// An attribute, constant, parameter, variable, item, population, or a function without arguments.
    Name(Name),
    /// `SELF`, and its first byte.
    Itself(usize),
    /// `?`
    Indeterminate,
    Call(Name, Items<Expression>),
    /// With the first byte of its word; without arguments where no list stands.
    BuiltIn(BuiltInFunction, usize, Items<Expression>),
    Qualified(Boxed<Expression>, Items<Qualifier>),
    /// With the operator's first byte.
    Unary(UnaryOperator, usize, Boxed<Expression>),
    /// Operators of one level, from left to right; of `**` and the relations one alone.
    Chain(Boxed<Expression>, Items<Operation>),
    Interval(Boxed<Interval>),
    Query(Boxed<Query>),
    /// `[ .. ]`
    Initializer(Items<Expression>),
}

impl Drop for Literal {
    fn drop(self) {
        match self {
            Literal::Integer(_) | Literal::Real(_) | Literal::Logical(_) => {}
            Literal::String(text, _) => drop(text),
            Literal::Binary(bits) => drop(bits),
        }
    }
}

impl Drop for Qualifier {
    #[cycle(expression_drop)]
    fn drop(self) {
        match self {
            Qualifier::Attribute(_, name) => drop(name),
            Qualifier::Group(_, name) => drop(name),
            Qualifier::Index(_, index) => drop(index),
            Qualifier::Range(_, first, last) => {
                drop(first);
                drop(last);
            }
        }
    }
}

impl Drop for Expression {
    #[cycle(expression_drop)]
    fn drop(self) {
        match self {
            Expression::Literal(literal) => drop(literal),
            Expression::Name(name) => drop(name),
            Expression::Itself(_) | Expression::Indeterminate => {}
            Expression::Call(name, arguments) => {
                drop(name);
                drop(arguments);
            }
            Expression::BuiltIn(_, _, arguments) => drop(arguments),
            Expression::Qualified(base, qualifiers) => {
                drop(base);
                drop(qualifiers);
            }
            Expression::Unary(_, _, right) => drop(right),
            Expression::Chain(first, more) => {
                drop(first);
                drop(more);
            }
            Expression::Interval(interval) => drop(interval),
            Expression::Query(query) => drop(query),
            Expression::Initializer(elements) => drop(elements),
        }
    }
}
