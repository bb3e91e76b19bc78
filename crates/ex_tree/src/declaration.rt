//! Declarations (clause 9), and the schema.

use crate::data_type::{Bounds, DataType};
use crate::expression::{Expression, Name};
use crate::statement::Statement;
use plain_data::{Items, Text};

/// `name : data_type := value`
#[derive(Drop)]
pub struct Constant {
    pub name: Name,
    pub data_type: DataType,
    pub value: Expression,
}

/// A rule of a WHERE clause.
#[derive(Drop)]
pub struct DomainRule {
    pub label: Option<Name>,
    pub condition: Expression,
}

pub enum UnderlyingType {
    /// Its items in order.
    Enumeration(Items<Name>),
    Select(Items<Name>),
    Data(DataType),
}

pub struct TypeDeclaration {
    pub name: Name,
    pub underlying: UnderlyingType,
    pub domain_rules: Items<DomainRule>,
}

/// `SELF\entity.attribute`
#[derive(Drop)]
pub struct QualifiedAttribute {
    pub entity: Name,
    pub attribute: Name,
}

/// A name, or one that is inherited. It is what an attribute is declared by, and what a UNIQUE rule refers to.
pub enum AttributeDeclaration {
    Own(Name),
    Qualified(QualifiedAttribute),
}

#[derive(Drop)]
pub struct ExplicitAttribute {
    pub attributes: Items<AttributeDeclaration>,
    pub optional: bool,
    pub data_type: DataType,
}

#[derive(Drop)]
pub struct DerivedAttribute {
    pub attribute: AttributeDeclaration,
    pub data_type: DataType,
    pub value: Expression,
}

#[derive(Clone, Copy, PartialEq, Eq)]
pub enum SetOrBag {
    Set,
    Bag,
}

#[derive(Clone, Copy, PartialEq, Eq)]
pub struct InverseAggregate {
    pub kind: SetOrBag,
    pub bounds: Bounds,
}

/// `name : SET [..] OF entity FOR attribute`
#[derive(Drop)]
pub struct InverseAttribute {
    pub name: Name,
    pub aggregate: Option<InverseAggregate>,
    pub entity: Name,
    pub attribute: Name,
}

#[derive(Drop)]
pub struct UniqueRule {
    pub label: Option<Name>,
    pub attributes: Items<AttributeDeclaration>,
}

/// ANDOR, AND and ONEOF over names of entities. A list of one is that one alone, but for ONEOF.
pub enum SupertypeExpression {
    Entity(Name),
    OneOf(Items<SupertypeExpression>),
    And(Items<SupertypeExpression>),
    AndOr(Items<SupertypeExpression>),
}

pub struct EntityHead {
    pub name: Name,
    pub is_abstract: bool,
    /// What SUPERTYPE OF says.
    pub constraint: Option<SupertypeExpression>,
    /// What SUBTYPE OF lists.
    pub supertypes: Items<Name>,
}

pub struct EntityBody {
    pub explicit: Items<ExplicitAttribute>,
    pub derived: Items<DerivedAttribute>,
    pub inverse: Items<InverseAttribute>,
    pub unique_rules: Items<UniqueRule>,
    pub domain_rules: Items<DomainRule>,
}

pub struct Entity {
    pub head: EntityHead,
    pub body: EntityBody,
}

/// `names : data_type`
#[derive(Drop)]
pub struct Parameter {
    pub names: Items<Name>,
    pub data_type: DataType,
}

/// `names : data_type := value`
#[derive(Drop)]
pub struct LocalVariable {
    pub names: Items<Name>,
    pub data_type: DataType,
    pub value: Option<Expression>,
}

pub struct FunctionHead {
    pub name: Name,
    pub parameters: Items<Parameter>,
    pub result: DataType,
}

pub struct Function {
    pub head: FunctionHead,
    pub locals: Items<LocalVariable>,
    pub statements: Items<Statement>,
}

pub struct RuleHead {
    pub name: Name,
    /// What FOR lists.
    pub entities: Items<Name>,
}

pub struct Rule {
    pub head: RuleHead,
    pub locals: Items<LocalVariable>,
    pub statements: Items<Statement>,
    pub domain_rules: Items<DomainRule>,
}

/// It is taken apart where declarations are sorted, so that its `Drop` is derived.
#[derive(Drop)]
pub enum Declaration {
    Entity(Entity),
    Function(Function),
    Rule(Rule),
    Type(TypeDeclaration),
}

/// A string literal of the text: its value in UTF-8, and its first byte.
#[derive(Drop)]
pub struct StringToken {
    pub value: Text,
    pub at: usize,
}

#[derive(Drop)]
pub struct Schema {
    pub name: Name,
    pub constants: Items<Constant>,
    pub declarations: Items<Declaration>,
    /// The string literals of the whole text, in its order.
    pub strings: Items<StringToken>,
}

impl Drop for UnderlyingType {
    fn drop(self) {
        match self {
            UnderlyingType::Enumeration(items) => drop(items),
            UnderlyingType::Select(items) => drop(items),
            UnderlyingType::Data(data_type) => drop(data_type),
        }
    }
}

impl Drop for AttributeDeclaration {
    fn drop(self) {
        match self {
            AttributeDeclaration::Own(name) => drop(name),
            AttributeDeclaration::Qualified(attribute) => drop(attribute),
        }
    }
}

impl Drop for SupertypeExpression {
    #[cycle(supertype_drop)]
    fn drop(self) {
        match self {
            SupertypeExpression::Entity(name) => drop(name),
            SupertypeExpression::OneOf(parts) => drop(parts),
            SupertypeExpression::And(parts) => drop(parts),
            SupertypeExpression::AndOr(parts) => drop(parts),
        }
    }
}

impl Drop for EntityHead {
    fn drop(self) {
        let EntityHead {
            name,
            is_abstract: _,
            constraint,
            supertypes,
        } = self;
        drop(name);
        drop(constraint);
        drop(supertypes);
    }
}

impl Drop for EntityBody {
    fn drop(self) {
        let EntityBody {
            explicit,
            derived,
            inverse,
            unique_rules,
            domain_rules,
        } = self;
        drop(explicit);
        drop(derived);
        drop(inverse);
        drop(unique_rules);
        drop(domain_rules);
    }
}

impl Drop for Entity {
    fn drop(self) {
        let Entity { head, body } = self;
        drop(head);
        drop(body);
    }
}

impl Drop for FunctionHead {
    fn drop(self) {
        let FunctionHead {
            name,
            parameters,
            result,
        } = self;
        drop(name);
        drop(parameters);
        drop(result);
    }
}

impl Drop for Function {
    fn drop(self) {
        let Function {
            head,
            locals,
            statements,
        } = self;
        drop(head);
        drop(locals);
        drop(statements);
    }
}

impl Drop for RuleHead {
    fn drop(self) {
        let RuleHead { name, entities } = self;
        drop(name);
        drop(entities);
    }
}

impl Drop for Rule {
    fn drop(self) {
        let Rule {
            head,
            locals,
            statements,
            domain_rules,
        } = self;
        drop(head);
        drop(locals);
        drop(statements);
        drop(domain_rules);
    }
}

impl Drop for TypeDeclaration {
    fn drop(self) {
        let TypeDeclaration {
            name,
            underlying,
            domain_rules,
        } = self;
        drop(name);
        drop(underlying);
        drop(domain_rules);
    }
}
