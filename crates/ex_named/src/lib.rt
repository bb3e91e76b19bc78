//! An EXPRESS schema whose names are bound: each name stands for the declaration that it means (ISO 10303-11:1994,
//! clause 10). Entities, types, constants, functions and rules are numbered from 0, each sort by itself, in the order of
//! their declarations.
#![tactic(auto)]

mod binding;
mod declaration;
mod expression;
mod fault;
mod reference;
mod statement;

pub use binding::{Binding, Gathered, both, refused};
pub use declaration::{
    NamedAttribute, NamedConstant, NamedDerived, NamedDomainRule, NamedEntity, NamedExplicit,
    NamedFunction, NamedInverse, NamedLocal, NamedParameter, NamedRedeclaration, NamedRule,
    NamedSchema, NamedSupertype, NamedType, NamedUnderlying, NamedUniqueRule,
};
pub use expression::{
    NamedDataType, NamedExpression, NamedInterval, NamedOperation, NamedQualifier, NamedQuery,
};
pub use fault::{NameFault, NameFaultKind};
pub use reference::{
    AttributeMeaning, AttributePlace, AttributeSort, AttributeUse, Declared, EnumerationItem,
    TypeName,
};
pub use statement::{
    NamedCase, NamedCaseAction, NamedIncrement, NamedRepeatControl, NamedStatement,
};
