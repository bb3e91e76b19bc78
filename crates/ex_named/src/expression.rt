//! Expressions and types. An offset stands wherever a fault of types may lie.

use crate::reference::{AttributeUse, EnumerationItem, TypeName};
use ex_tree::{
    ArrayBounds, BinaryOperator, Bounds, BuiltInFunction, IntervalOperator, Literal, Name,
    SimpleType, UnaryOperator,
};
use plain_data::{Boxed, Items};

/// A type of an attribute, a constant, a variable, a parameter or a result.
pub enum NamedDataType {
    Simple(SimpleType),
    Named(TypeName),
    Array {
        bounds: ArrayBounds,
        optional: bool,
        unique: bool,
        element: Boxed<NamedDataType>,
    },
    List {
        bounds: Bounds,
        unique: bool,
        element: Boxed<NamedDataType>,
    },
    Bag {
        bounds: Bounds,
        element: Boxed<NamedDataType>,
    },
    Set {
        bounds: Bounds,
        element: Boxed<NamedDataType>,
    },
    Aggregate(Boxed<NamedDataType>),
    Generic,
}

/// An operator, its first byte, and the operand on its right.
#[derive(Drop)]
#[cycle(named_expression)]
pub struct NamedOperation {
    pub operator: BinaryOperator,
    pub at: usize,
    pub right: NamedExpression,
}

/// What is taken of a value. The number is the first byte of `.`, `\` or `[`.
#[cycle(named_expression)]
pub enum NamedQualifier {
    /// Which attribute is meant depends on the value's kinds.
    Attribute(usize, Name),
    /// With the entity.
    Group(usize, usize),
    Index(usize, NamedExpression),
    /// From the first index to the second.
    Range(usize, Boxed<NamedExpression>, Boxed<NamedExpression>),
}

/// `{ low < item <= high }`, each operator with its first byte.
#[derive(Drop)]
#[cycle(named_expression)]
pub struct NamedInterval {
    pub low: NamedExpression,
    pub low_operator: IntervalOperator,
    pub low_at: usize,
    pub item: NamedExpression,
    pub high_operator: IntervalOperator,
    pub high_at: usize,
    pub high: NamedExpression,
}

/// `QUERY(variable <* source | condition)`, and the first byte of its word. The variable has the next slot.
#[derive(Drop)]
#[cycle(named_expression)]
pub struct NamedQuery {
    pub at: usize,
    pub source: NamedExpression,
    pub condition: NamedExpression,
}

/// The numbers of constants, functions, entities and types are those of the schema. Variables have slots: first the
/// parameters and locals in their order, then the variables of REPEAT and QUERY that are open, from the outermost.
#[cycle(named_expression)]
pub enum NamedExpression {
    Literal(Literal),
    /// `SELF`
    Itself,
    /// `?`
    Indeterminate,
    /// The variable of a slot.
    Variable(usize),
    /// An attribute of SELF, by its name alone.
    Attribute(AttributeUse),
    Constant(usize),
    /// The instances of an entity, in a rule that is for it.
    Population(usize),
    Item(EnumerationItem),
    /// An item of two enumerations or more, and the first byte of its name.
    AmbiguousItem(usize),
    /// A function with its arguments, and the first byte of its name.
    Call(usize, usize, Items<NamedExpression>),
    /// With the first byte of its word.
    BuiltIn(BuiltInFunction, usize, Items<NamedExpression>),
    Qualified(Boxed<NamedExpression>, Items<NamedQualifier>),
    /// With the operator's first byte.
    Unary(UnaryOperator, usize, Boxed<NamedExpression>),
    /// Operators of one level, from left to right.
    Chain(Boxed<NamedExpression>, Items<NamedOperation>),
    Interval(Boxed<NamedInterval>),
    Query(Boxed<NamedQuery>),
    /// `[ .. ]`
    Initializer(Items<NamedExpression>),
}

impl Drop for NamedDataType {
    #[cycle(named_data_type_drop)]
    fn drop(self) {
        match self {
            NamedDataType::Simple(_) | NamedDataType::Generic => {}
            NamedDataType::Named(name) => drop(name),
            NamedDataType::Array {
                bounds: _,
                optional: _,
                unique: _,
                element,
            } => drop(element),
            NamedDataType::List {
                bounds: _,
                unique: _,
                element,
            } => drop(element),
            NamedDataType::Bag { bounds: _, element } => drop(element),
            NamedDataType::Set { bounds: _, element } => drop(element),
            NamedDataType::Aggregate(element) => drop(element),
        }
    }
}

impl Drop for NamedQualifier {
    #[cycle(named_expression_drop)]
    fn drop(self) {
        match self {
            NamedQualifier::Attribute(_, name) => drop(name),
            NamedQualifier::Group(_, _) => {}
            NamedQualifier::Index(_, index) => drop(index),
            NamedQualifier::Range(_, first, last) => {
                drop(first);
                drop(last);
            }
        }
    }
}

impl Drop for NamedExpression {
    #[cycle(named_expression_drop)]
    fn drop(self) {
        match self {
            NamedExpression::Literal(literal) => drop(literal),
            NamedExpression::Itself | NamedExpression::Indeterminate => {}
            NamedExpression::Variable(_) | NamedExpression::Constant(_) => {}
            NamedExpression::Population(_) | NamedExpression::AmbiguousItem(_) => {}
            NamedExpression::Attribute(_) | NamedExpression::Item(_) => {}
            NamedExpression::Call(_, _, arguments) => drop(arguments),
            NamedExpression::BuiltIn(_, _, arguments) => drop(arguments),
            NamedExpression::Qualified(base, qualifiers) => {
                drop(base);
                drop(qualifiers);
            }
            NamedExpression::Unary(_, _, right) => drop(right),
            NamedExpression::Chain(first, more) => {
                drop(first);
                drop(more);
            }
            NamedExpression::Interval(interval) => drop(interval),
            NamedExpression::Query(query) => drop(query),
            NamedExpression::Initializer(elements) => drop(elements),
        }
    }
}
