//! Declarations, and the schema. Names that are declared stand with their first bytes.

use crate::expression::{NamedDataType, NamedExpression};
use crate::reference::{AttributeUse, TypeName};
use crate::statement::NamedStatement;
use ex_tree::{InverseAggregate, Name, StringToken};
use plain_data::Items;

#[derive(Drop)]
pub struct NamedConstant {
    pub name: Name,
    pub data_type: NamedDataType,
    pub value: NamedExpression,
}

/// A rule of a WHERE clause.
#[derive(Drop)]
pub struct NamedDomainRule {
    pub label: Option<Name>,
    pub condition: NamedExpression,
}

pub enum NamedUnderlying {
    /// Its items in order.
    Enumeration(Items<Name>),
    Select(Items<TypeName>),
    Data(NamedDataType),
}

#[derive(Drop)]
pub struct NamedType {
    pub name: Name,
    pub underlying: NamedUnderlying,
    pub domain_rules: Items<NamedDomainRule>,
}

/// An attribute of one's own, or the inherited one that is redeclared.
pub enum NamedAttribute {
    Own(Name),
    Redeclared(NamedRedeclaration),
}

/// `SELF\entity.attribute`: the entity, and what the attribute's name means there.
#[derive(Drop)]
pub struct NamedRedeclaration {
    pub entity: usize,
    pub attribute: AttributeUse,
}

/// `attributes : data_type`
#[derive(Drop)]
pub struct NamedExplicit {
    pub attributes: Items<NamedAttribute>,
    pub optional: bool,
    pub data_type: NamedDataType,
}

#[derive(Drop)]
pub struct NamedDerived {
    pub attribute: NamedAttribute,
    pub data_type: NamedDataType,
    pub value: NamedExpression,
}

/// `name : SET [..] OF entity FOR attribute`
#[derive(Drop)]
pub struct NamedInverse {
    pub name: Name,
    pub aggregate: Option<InverseAggregate>,
    pub entity: usize,
    pub attribute: AttributeUse,
}

#[derive(Drop)]
pub struct NamedUniqueRule {
    pub label: Option<Name>,
    pub attributes: Items<AttributeUse>,
}

/// ANDOR, AND and ONEOF over entities, each with the first byte of its name.
pub enum NamedSupertype {
    Entity(usize, usize),
    OneOf(Items<NamedSupertype>),
    And(Items<NamedSupertype>),
    AndOr(Items<NamedSupertype>),
}

#[derive(Drop)]
pub struct NamedEntity {
    pub name: Name,
    pub is_abstract: bool,
    /// What SUPERTYPE OF says.
    pub constraint: Option<NamedSupertype>,
    /// The entities that SUBTYPE OF lists.
    pub supertypes: Items<usize>,
    pub explicit: Items<NamedExplicit>,
    pub derived: Items<NamedDerived>,
    pub inverse: Items<NamedInverse>,
    pub unique_rules: Items<NamedUniqueRule>,
    pub domain_rules: Items<NamedDomainRule>,
}

/// `names : data_type`
#[derive(Drop)]
pub struct NamedParameter {
    pub names: Items<Name>,
    pub data_type: NamedDataType,
}

/// `names : data_type := value`
#[derive(Drop)]
pub struct NamedLocal {
    pub names: Items<Name>,
    pub data_type: NamedDataType,
    pub value: Option<NamedExpression>,
}

#[derive(Drop)]
pub struct NamedFunction {
    pub name: Name,
    pub parameters: Items<NamedParameter>,
    pub result: NamedDataType,
    pub locals: Items<NamedLocal>,
    pub statements: Items<NamedStatement>,
}

#[derive(Drop)]
pub struct NamedRule {
    pub name: Name,
    /// The entities that FOR lists.
    pub entities: Items<usize>,
    pub locals: Items<NamedLocal>,
    pub statements: Items<NamedStatement>,
    pub domain_rules: Items<NamedDomainRule>,
}

#[derive(Drop)]
pub struct NamedSchema {
    pub name: Name,
    pub constants: Items<NamedConstant>,
    pub types: Items<NamedType>,
    pub entities: Items<NamedEntity>,
    pub functions: Items<NamedFunction>,
    pub rules: Items<NamedRule>,
    /// The string literals of the whole text, in its order.
    pub strings: Items<StringToken>,
}

impl Drop for NamedUnderlying {
    fn drop(self) {
        match self {
            NamedUnderlying::Enumeration(items) => drop(items),
            NamedUnderlying::Select(items) => drop(items),
            NamedUnderlying::Data(data_type) => drop(data_type),
        }
    }
}

impl Drop for NamedAttribute {
    fn drop(self) {
        match self {
            NamedAttribute::Own(name) => drop(name),
            NamedAttribute::Redeclared(redeclaration) => drop(redeclaration),
        }
    }
}

impl Drop for NamedSupertype {
    #[cycle(named_supertype_drop)]
    fn drop(self) {
        match self {
            NamedSupertype::Entity(_, _) => {}
            NamedSupertype::OneOf(parts) => drop(parts),
            NamedSupertype::And(parts) => drop(parts),
            NamedSupertype::AndOr(parts) => drop(parts),
        }
    }
}
