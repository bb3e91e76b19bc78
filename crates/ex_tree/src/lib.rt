//! An EXPRESS schema as it is spelled: its tokens, its syntax tree, and the faults of a text (ISO 10303-11:1994,
//! clause 7 and Annex A).
#![tactic(auto)]

mod data_type;
mod declaration;
mod expression;
mod fault;
mod identifier;
mod kind;
mod statement;
mod token;

pub use data_type::{ArrayBounds, Bounds, DataType, SimpleType, Width};
pub use declaration::{
    AttributeDeclaration, Constant, Declaration, DerivedAttribute, DomainRule, Entity, EntityBody,
    EntityHead, ExplicitAttribute, Function, FunctionHead, InverseAggregate, InverseAttribute,
    LocalVariable, Parameter, QualifiedAttribute, Rule, RuleHead, Schema, SetOrBag, StringToken,
    SupertypeExpression, TypeDeclaration, UnderlyingType, UniqueRule,
};
pub use expression::{
    BinaryOperator, BuiltInFunction, Expression, Interval, IntervalOperator, Literal, Name,
    Operation, Qualifier, Query, UnaryOperator,
};
pub use fault::{LexFault, LexFaultKind, ParseFault, ParseFaultKind};
pub use identifier::Identifier;
pub use kind::TokenKind;
pub use statement::{Case, CaseAction, Increment, RepeatControl, Statement};
pub use token::Token;
