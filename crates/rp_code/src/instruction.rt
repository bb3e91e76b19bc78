//! Instructions.

use crate::role::Role;
use ex_named::{AttributePlace, NamedDataType};
use ex_tree::{BinaryOperator, BuiltInFunction, IntervalOperator, UnaryOperator};
use plain_data::{Boxed, Items};
use rp_value::Value;

/// A node of an expression, of a statement or of a list. Its first part is right behind it. For each further part it has a distance:
/// how far behind its own next place that part begins.
pub enum Instruction {
    /// A literal with its sign, an item of an enumeration, or `?`.
    Literal(Value),
    /// `SELF`
    Itself,
    /// The variable of a slot.
    Variable(usize),
    /// An attribute of SELF, by its name alone.
    Attribute(AttributePlace),
    /// A constant, by its number.
    Constant(usize),
    /// The instances of an entity.
    Population(usize),
    /// A function, by its number. Behind it is the list of its arguments.
    Call(usize),
    /// A function of the language. Behind it is the list of its arguments.
    BuiltIn(BuiltInFunction),
    /// USEDIN in a role, or in none. Behind it is the instance.
    UsedIn(Option<Boxed<Role>>),
    /// A sign or NOT. Behind it is its operand.
    Unary(UnaryOperator),
    /// Behind it is the value that is qualified, and at the distance the list of its qualifiers.
    Qualified(usize),
    /// A variable that is qualified. Behind it is the list of its qualifiers.
    QualifiedVariable(usize),
    /// SELF that is qualified. Behind it is the list of its qualifiers.
    QualifiedItself,
    /// An attribute of SELF, by its name alone, that is qualified. Behind it is the list of its qualifiers.
    QualifiedAttribute(AttributePlace),
    /// Behind it is the first operand, and at the distance the list of its operations.
    Chain(usize),
    /// Behind it is the lower bound, and at the distances the item and the upper bound.
    Interval {
        low_operator: IntervalOperator,
        item: usize,
        high_operator: IntervalOperator,
        high: usize,
    },
    /// Behind it is the source, and at the distance the condition.
    Query(usize),
    /// `[ .. ]`. Behind it is the list of its elements.
    Initializer,

    /// In a list of expressions or statements. Behind it is one of them, and at the distance the list of the next ones.
    Item(usize),
    /// In a list of operations. Behind it is the right operand, and at the distance the list of the next operations.
    Operation(BinaryOperator, usize),
    /// In a list of operations, with a literal as its right operand. Behind it is the list of the next operations.
    OperationBy(BinaryOperator, Value),
    /// In a list of operations, with the variable of a slot as its right operand. Behind it is the list of the next operations.
    OperationByVariable(BinaryOperator, usize),
    /// In a list of qualifiers: the attributes that the name may mean. Behind it is the list of the next qualifiers.
    OfAttribute(Items<AttributePlace>),
    /// In a list of qualifiers, with its entity. Behind it is the list of the next qualifiers.
    Group(usize),
    /// In a list of qualifiers. Behind it is the index, and at the distance the list of the next qualifiers.
    Index(usize),
    /// In a list of qualifiers. Behind it is the first index, and at the distances the last one and the list of the next qualifiers.
    Range {
        last: usize,
        next: usize,
    },
    /// In a list of the actions of a CASE. Behind it is the list of its labels, and at the distances its statement and the list of
    /// the next actions.
    Labels {
        statement: usize,
        next: usize,
    },
    /// In a list of the actions of a CASE. Behind it is its statement, and at the distance the list of the next actions.
    Otherwise(usize),
    /// The end of a list.
    End,

    /// The slot, and the type with which the variable is declared. Behind it is the value.
    Assignment(usize, Boxed<NamedDataType>),
    /// The same where the value is an operation whose first operand is the variable itself. Behind it is the right operand.
    Growth(usize, BinaryOperator, Boxed<NamedDataType>),
    /// Behind it is the selector, and at the distance the list of its actions.
    Case(usize),
    /// Behind it is the list of its statements.
    Compound,
    /// Behind it is the condition, and at the distances the lists of statements behind THEN and ELSE.
    If {
        then_part: usize,
        else_part: usize,
    },
    /// Behind it is the list of the first and the last value and the step of its variable: empty where it has no variable, and
    /// without a step where none is given. At the distances are a list with the condition of WHILE, a list with that of UNTIL,
    /// either empty where there is none, and the list of statements.
    Repeat {
        while_condition: usize,
        until_condition: usize,
        body: usize,
    },
    /// Behind it is the value.
    Return,
    Skip,
    Escape,
    /// The empty statement.
    Null,
}

impl Drop for Instruction {
    fn drop(self) {
        match self {
            Instruction::Literal(value) => drop(value),
            Instruction::UsedIn(role) => drop(role),
            Instruction::OfAttribute(attributes) => drop(attributes),
            Instruction::OperationBy(_, value) => drop(value),
            Instruction::Assignment(_, data_type) => drop(data_type),
            Instruction::Growth(_, _, data_type) => drop(data_type),
            Instruction::Itself | Instruction::Variable(_) | Instruction::Attribute(_) => {}
            Instruction::Constant(_) | Instruction::Population(_) | Instruction::Call(_) => {}
            Instruction::BuiltIn(_) | Instruction::Unary(_) | Instruction::Qualified(_) => {}
            Instruction::QualifiedVariable(_) | Instruction::QualifiedItself => {}
            Instruction::QualifiedAttribute(_) | Instruction::Chain(_) => {}
            Instruction::Query(_) | Instruction::Initializer => {}
            Instruction::Interval {
                low_operator: _,
                item: _,
                high_operator: _,
                high: _,
            } => {}
            Instruction::Item(_) | Instruction::Operation(_, _) | Instruction::Group(_) => {}
            Instruction::OperationByVariable(_, _) => {}
            Instruction::Index(_) | Instruction::Otherwise(_) | Instruction::End => {}
            Instruction::Range { last: _, next: _ } => {}
            Instruction::Labels {
                statement: _,
                next: _,
            } => {}
            Instruction::Case(_) | Instruction::Compound | Instruction::Return => {}
            Instruction::If {
                then_part: _,
                else_part: _,
            } => {}
            Instruction::Repeat {
                while_condition: _,
                until_condition: _,
                body: _,
            } => {}
            Instruction::Skip | Instruction::Escape | Instruction::Null => {}
        }
    }
}
