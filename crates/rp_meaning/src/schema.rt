//! What evaluation looks at of a schema. Entities, defined types, constants, functions and rules are numbered from 0, each
//! sort by itself, in the order of their declarations.

use ex_named::{AttributePlace, NamedDataType, TypeName};
use ex_tree::InverseAggregate;
use plain_data::{Items, Text};
use rp_code::{Code, NamedRole, Role, Routine};

/// What a defined type is behind all names of types that it renames.
pub enum Underlying {
    /// The enumeration that the defined type of this number declares.
    Enumeration(usize),
    Select,
    /// A type that is written out.
    Data(NamedDataType),
}

/// A defined type (9.1).
pub struct DefinedType {
    /// `SCHEMA.NAME`, in upper case.
    pub name: Text,
    /// The defined types beneath it that it renames, the nearest first.
    pub beneath: Items<usize>,
    pub underlying: Underlying,
    /// Of a SELECT: itself, and the SELECTs among its members, at any depth.
    pub selects: Items<usize>,
    /// What a SELECT chooses from: its members at any depth that are no SELECTs.
    pub choices: Items<TypeName>,
    /// The conditions of its WHERE clause.
    pub domain_rules: Items<Code>,
}

/// What gives the value of an attribute: an entity, and a place in its DERIVE clause.
#[derive(Clone, Copy, PartialEq, Eq)]
pub struct Derivation {
    pub entity: usize,
    pub place: usize,
}

/// What a declaration of an explicit attribute asks for.
#[derive(Drop)]
pub struct Explicit {
    pub data_type: NamedDataType,
    pub is_optional: bool,
}

/// An explicit attribute of an entity's own.
#[derive(Drop)]
pub struct ExplicitAttribute {
    pub declaration: Explicit,
    /// What redeclares it in DERIVE: the entity with most ancestors first, and of several such the first by its name.
    pub derivations: Items<Derivation>,
}

/// What an entity asks for by redeclaring an inherited explicit attribute as an explicit one.
#[derive(Drop)]
pub struct Redeclaration {
    pub attribute: AttributePlace,
    pub declaration: Explicit,
}

/// An expression that gives the value of a constant, of an attribute or of locals.
#[derive(Drop)]
pub struct Given {
    pub data_type: NamedDataType,
    pub value: Code,
}

/// An inverse attribute: the instances that use an instance in its role, which is one attribute in the instances of an entity.
/// Without an aggregate it is the only one.
#[derive(Drop)]
pub struct Inverse {
    pub aggregate: Option<InverseAggregate>,
    pub role: Role,
}

/// An entity (9.2).
pub struct Entity {
    /// `SCHEMA.NAME`, in upper case.
    pub name: Text,
    /// By the places of its explicit attributes.
    pub explicit: Items<ExplicitAttribute>,
    pub redeclarations: Items<Redeclaration>,
    /// By the places of its derived attributes: what redeclares it in DERIVE, as of an explicit one, and then its own.
    pub derived: Items<Items<Derivation>>,
    /// By the places in its DERIVE clause.
    pub derivations: Items<Given>,
    /// By the places of its inverse attributes.
    pub inverse: Items<Inverse>,
    /// The attributes that each rule of its UNIQUE clause lists.
    pub unique_rules: Items<Items<AttributePlace>>,
    /// The conditions of its WHERE clause.
    pub domain_rules: Items<Code>,
}

/// Locals that have an initial value: the slot of the first of them, how many have this value, and what gives it.
#[derive(Drop)]
pub struct Initial {
    pub slot: usize,
    pub count: usize,
    pub given: Given,
}

/// What functions and rules run: their locals and their statements (9.5).
#[derive(Drop)]
pub struct Algorithm {
    /// How many variables it has beside its parameters.
    pub locals: usize,
    pub initial: Items<Initial>,
    pub statements: Routine,
}

/// A function (9.5.1).
#[derive(Drop)]
pub struct Function {
    /// The types of its parameters.
    pub parameters: Items<NamedDataType>,
    pub result: NamedDataType,
    pub algorithm: Algorithm,
}

/// A rule (9.6).
#[derive(Drop)]
pub struct GlobalRule {
    pub algorithm: Algorithm,
    /// The conditions of its WHERE clause.
    pub domain_rules: Items<Code>,
}

pub struct Schema {
    pub types: Items<DefinedType>,
    pub entities: Items<Entity>,
    pub constants: Items<Given>,
    pub functions: Items<Function>,
    pub rules: Items<GlobalRule>,
    /// The roles of explicit attributes in the entities that declare or inherit them.
    pub roles: Items<NamedRole>,
    /// The defined types, in the order of the bytes of their names.
    pub type_order: Items<usize>,
    /// The entities, in the order of the bytes of their names.
    pub entity_order: Items<usize>,
    /// The rules, in the order of the bytes of their names.
    pub rule_order: Items<usize>,
}

impl Drop for Underlying {
    fn drop(self) {
        match self {
            Underlying::Enumeration(_) | Underlying::Select => {}
            Underlying::Data(data_type) => drop(data_type),
        }
    }
}

impl Drop for DefinedType {
    fn drop(self) {
        let DefinedType {
            name,
            beneath,
            underlying,
            selects,
            choices,
            domain_rules,
        } = self;
        drop(name);
        drop(beneath);
        drop(underlying);
        drop(selects);
        drop(choices);
        drop(domain_rules);
    }
}

impl Drop for Entity {
    fn drop(self) {
        let Entity {
            name,
            explicit,
            redeclarations,
            derived,
            derivations,
            inverse,
            unique_rules,
            domain_rules,
        } = self;
        drop(name);
        drop(explicit);
        drop(redeclarations);
        drop(derived);
        drop(derivations);
        drop(inverse);
        drop(unique_rules);
        drop(domain_rules);
    }
}

impl Drop for Schema {
    fn drop(self) {
        let Schema {
            types,
            entities,
            constants,
            functions,
            rules,
            roles,
            type_order,
            entity_order,
            rule_order,
        } = self;
        drop(types);
        drop(entities);
        drop(constants);
        drop(functions);
        drop(rules);
        drop(roles);
        drop(type_order);
        drop(entity_order);
        drop(rule_order);
    }
}
