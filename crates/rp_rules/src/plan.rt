//! Which attributes may have something in their values on which the rules of a defined type are tried, by their declarations.

ghost use Rattle.std.specs.Prelude.{◌≡◌, slice_index_or};
ghost use Rattle.rp_rules.specs.Plan as spec;

use crate::choices::{element_of, is_beneath, is_between, named};
use ex_named::{AttributePlace, NamedDataType, TypeName};
use plain_data::Items;
use rp_meaning::{Entity, ExplicitAttribute, Redeclaration, Schema};
use rp_operators::{End, aggregate_type, behind_names, carried, end_of};
use rp_value::Value;
use std::alloc::{AllocError, Global};

/// Whether the rules may be tried on something in a value: in one that carries no type, and in one that does.
#[derive(Clone, Copy)]
pub(crate) struct Tryable {
    pub(crate) bare: bool,
    pub(crate) named: bool,
}

impl Tryable {
    ghost use Rattle.std.specs.Prelude.{◌≡◌};
    ghost use Rattle.rp_rules.specs.Plan as spec;

    fn nothing() -> Tryable
        ensures { result ≡ spec.nothing }
    {
        Tryable {
            bare: false,
            named: false,
        }
    }

    fn anything() -> Tryable
        ensures { result ≡ spec.anything }
    {
        Tryable {
            bare: true,
            named: true,
        }
    }

    #[inline(always)]
    fn or(self, other: Tryable) -> Tryable
        ensures { result ≡ spec.either self other }
    {
        Tryable {
            bare: self.bare || other.bare,
            named: self.named || other.named,
        }
    }

    fn may_be_tried(self) -> bool
        ensures { result ≡ spec.may_be_tried self }
    {
        self.bare || self.named
    }
}

/// What stands at a place, or else another.
#[inline(always)]
fn tryable_or(row: &[Tryable], place: usize, other: Tryable) -> Tryable
    ensures { result ≡ slice_index_or row.now place other }
{
    match row.get(place) {
        Some(tryable) => *tryable,
        None => other,
    }
}

/// What may be tried in the attributes of a schema.
pub(crate) struct Plan {
    /// By the entities that declare attributes, of all redeclarations of these.
    again: Items<Tryable>,
    /// By entities and the places of their explicit attributes.
    own: Items<Items<Tryable>>,
}

impl Drop for Plan {
    fn drop(self) {
        let Plan { again, own } = self;
        drop(again);
        drop(own);
    }
}

impl Plan {
    ghost use Rattle.std.specs.Prelude.{◌≡◌};
    ghost use Rattle.rp_rules.specs.Plan as spec;

    /// By which anything may be tried everywhere.
    pub(crate) fn without(alloc: Global) -> Plan
        ensures { result ≡ spec.no_plan }
    {
        Plan {
            again: Items::new(alloc),
            own: Items::new(alloc),
        }
    }

    #[inline(always)]
    fn own(&self, attribute: AttributePlace) -> Tryable
        ensures { result ≡ spec.own_at self.now.own attribute }
    {
        match self.own.get(attribute.entity) {
            Some(row) => tryable_or(row.as_slice(), attribute.place, Tryable::nothing()),
            None => Tryable::nothing(),
        }
    }

    #[inline(always)]
    fn tryable(&self, attribute: AttributePlace) -> Tryable
        ensures { result ≡ spec.tryable_at self.now attribute }
    {
        let again = tryable_or(self.again.as_slice(), attribute.entity, Tryable::anything());
        self.own(attribute).or(again)
    }

    /// Whether the rules may be tried on something in a value of an attribute.
    #[inline(always)]
    pub(crate) fn may_have(&self, attribute: AttributePlace, written: &Value) -> bool
        ensures { result ≡ spec.may_have self.now attribute written.now }
    {
        let tryable = self.tryable(attribute);
        tryable.bare || (tryable.named && carried(written).is_some())
    }

    /// Whether they may be on something in any values of these attributes.
    pub(crate) fn may_have_any(&self, attributes: &[AttributePlace]) -> bool
        ensures { result ≡ spec.may_have_any self.now attributes.now }
    {
        attributes
            .iter()
            .any(|attribute| self.tryable(*attribute).may_be_tried())
    }
}

/// How many attributes a schema declares and redeclares: as many a plan looks at.
fn count_of_attributes(schema: &Schema) -> usize {
    let mut count = 0usize;
    for entity in schema.entities.as_slice() {
        count = count.wrapping_add(entity.explicit.len());
        count = count.wrapping_add(entity.redeclarations.len());
    }
    count
}

/// How many of so many instances plans are made for: all or none, as plans take less or more than they save.
pub(crate) fn count_of_planned(schema: &Schema, count: usize) -> usize {
    let mut types = schema.types.as_slice().iter();
    let has_rules = types.any(|defined_type| !defined_type.domain_rules.is_empty());
    let is_planned = has_rules && count_of_attributes(schema) <= count;
    if is_planned { count } else { 0 }
}

/// Adds what may be tried by a redeclaration to what may be by others of an entity.
fn put(found: &mut Vec<Tryable>, entity: usize, tryable: Tryable)
    ensures { found.new.items ≡ spec.put found.old.items entity tryable }
{
    if entity < found.len() {
        found[entity] = found[entity].or(tryable);
    }
}

/// What makes the plan for the rules of a defined type.
#[derive(Drop)]
pub(crate) struct Planning<'a> {
    pub(crate) alloc: Global,
    pub(crate) schema: &'a Schema,
    pub(crate) number: usize,
}

/// Types are looked into through as many aggregates in one another: deeper, the rules may be tried.
const DEPTH: usize = 8;

/// More choices of a SELECT, or types that one of them renames, are not looked through: the rules may be tried then.
const MANY: usize = 100;

impl<'a> Planning<'a> {
    ghost use Rattle.std.specs.Prelude.{◌≡◌, [], length, map, replicate, IfOk};
    ghost use Rattle.std.specs.List.{list_any};
    ghost use Rattle.rp_meaning.specs.TypeRules.{named};
    ghost use Rattle.rp_meaning.specs.Types.{end};
    ghost use Rattle.rp_rules.specs.Plan as spec;

    /// Whether a defined type renames so many that they are not looked through for each choice of a SELECT.
    fn is_long(&self, from: usize) -> bool
        ensures { result ≡ spec.is_long self.now.schema.now.types self.now.number from }
    {
        match self.schema.types.get(from) {
            Some(defined_type) => defined_type.beneath.len() > MANY,
            None => false,
        }
    }

    /// Whether they may be tried on a value, or on something in it, that is written as a choice of a SELECT.
    fn may_choose(&self, choice: TypeName) -> bool
        ensures { result ≡ spec.may_choose self.now.schema.now.types self.now.number choice }
    {
        match choice {
            TypeName::Entity(_) => true,
            TypeName::Defined(other) => {
                let types = self.schema.types.as_slice();
                self.is_long(other)
                    || is_beneath(types, other, self.number)
                    || aggregate_type(end_of(types, other)).is_some()
            }
        }
    }

    fn may_choose_one(&self, choices: &[TypeName]) -> bool
        ensures { result ≡ list_any (spec.may_choose self.now.schema.now.types self.now.number) choices.now }
    {
        choices.iter().any(|choice| self.may_choose(*choice))
    }

    /// Whether they may be on one that carries a type, in a SELECT.
    fn may_carry(&self, from: usize) -> bool
        ensures { result ≡ spec.may_carry self.now.schema.now.types self.now.number from }
    {
        match self.schema.types.get(from) {
            Some(defined_type) => {
                let choices = defined_type.choices.as_slice();
                choices.len() > MANY || self.may_choose_one(choices)
            }
            None => false,
        }
    }

    /// Whether they may be on a value itself, which carries a type or none.
    fn may_be(&self, data_type: &NamedDataType, is_named: bool) -> bool
        ensures { result ≡ spec.may_be_by self.now.schema.now.types self.now.number (end self.now.schema.now.types data_type.now) (named data_type.now) is_named }
    {
        let types = self.schema.types.as_slice();
        match (behind_names(types, data_type), named(data_type)) {
            (End::Select(_), Some(from)) => {
                from == self.number
                    || is_between(types, from, self.number)
                    || (is_named && self.may_carry(from))
            }
            (_, Some(from)) => is_beneath(types, from, self.number),
            (_, None) => false,
        }
    }

    /// Whether they may be on something in a value.
    fn may_stand(&self, data_type: &NamedDataType, is_named: bool) -> bool
        ensures { result ≡ spec.may_stand self.now.schema.now.types self.now.number 8 is_named data_type.now }
    {
        let mut inner = data_type;
        let mut carries = is_named;
        for _depth in 0..DEPTH {
            if self.may_be(inner, carries) {
                return true;
            }
            let end = behind_names(self.schema.types.as_slice(), inner);
            let Some(element) = element_of(end) else {
                return false;
            };
            inner = element;
            carries = true;
        }
        true
    }

    fn tryable(&self, data_type: &NamedDataType) -> Tryable
        ensures { result ≡ spec.tryable self.now.schema.now.types self.now.number data_type.now }
    {
        Tryable {
            bare: self.may_stand(data_type, false),
            named: self.may_stand(data_type, true),
        }
    }

    fn put_all(&self, redeclarations: &[Redeclaration], found: &mut Vec<Tryable>)
        ensures { found.new.items ≡ spec.put_all self.now.schema.now.types self.now.number found.old.items redeclarations.now }
    {
        for redeclaration in redeclarations {
            let tryable = self.tryable(&redeclaration.declaration.data_type);
            put(found, redeclaration.attribute.entity, tryable);
        }
    }

    /// By entities, what may be tried by what redeclares their attributes.
    fn again(&self, entities: &[Entity]) -> Result<Vec<Tryable>, AllocError>
        ensures { IfOk result (λ found. found.items ≡ spec.put_of self.now.schema.now.types self.now.number (replicate (length entities.now) spec.nothing) entities.now) }
    {
        let mut found = Vec::with_capacity(self.alloc, entities.len())?;
        found.resize(entities.len(), Tryable::nothing())?;
        for entity in entities {
            self.put_all(entity.redeclarations.as_slice(), &mut found);
        }
        Ok(found)
    }

    /// What may be tried in the explicit attributes of an entity.
    fn own(&self, explicit: &[ExplicitAttribute]) -> Result<Items<Tryable>, AllocError>
        ensures { IfOk result (λ found. found ≡ spec.own self.now.schema.now.types self.now.number explicit.now) }
    {
        let mut found = Items::new(self.alloc);
        for attribute in explicit {
            found.push(self.tryable(&attribute.declaration.data_type))?;
        }
        Ok(found)
    }

    fn all_own(&self, entities: &[Entity]) -> Result<Items<Items<Tryable>>, AllocError>
        ensures { IfOk result (λ found. found ≡ map (λ e. spec.own self.now.schema.now.types self.now.number e.explicit) entities.now) }
    {
        let mut found = Items::new(self.alloc);
        for entity in entities {
            found.push(self.own(entity.explicit.as_slice())?)?;
        }
        Ok(found)
    }

    /// The plan for the rules.
    pub(crate) fn plan(&self) -> Result<Plan, AllocError>
        ensures { IfOk result (λ plan. spec.Tells self.now.schema.now self.now.number plan) }
    {
        let entities = self.schema.entities.as_slice();
        Ok(Plan {
            again: Items::from_vec(self.again(entities)?),
            own: self.all_own(entities)?,
        })
    }
}
