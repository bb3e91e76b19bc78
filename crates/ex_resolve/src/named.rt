//! A schema whose names are bound.

ghost use Rattle.std.specs.Prelude.{◌≡◌, ◌↔◌, ◌++◌, ◌≤◌, ◌-◌, ℕ, IfOk, IsTrue, Some, filter, length, map};
ghost use Rattle.std.specs.List.{flat_map};
ghost use Rattle.std.specs.List.Sorted.{IsStrictlyIncreasing};
ghost use Rattle.plain_data.specs.Numbers.{is_among, numbered_from};
ghost use Rattle.graphs.specs.Graphs as graphs;
ghost use Rattle.ex_resolve.specs.Proved as proved;
ghost use Rattle.ex_resolve.specs.Ranges as ranges;
ghost use Rattle.ex_resolve.specs.Schemas as spec;

use ex_named::{AttributePlace, AttributeSort, NamedAttribute, NamedEntity, NamedSchema};
use graphs::{ancestors, line};
use plain_data::Rows;
use std::alloc::{AllocError, Global};
use std::marker::Model;

/// A schema whose names are bound: what some tree resolves to.
pub struct Named {
    schema: NamedSchema,
    /// Of each entity the entities that SUBTYPE OF lists.
    supertypes: Rows<Rows<usize>>,
}

impl Drop for Named {
    fn drop(self) {
        let Named { schema, supertypes } = self;
        drop(schema);
        drop(supertypes);
    }
}

impl Model for Named {
    ghost use Rattle.ex_resolve.specs.Proved as proved;
    ghost use Rattle.ex_resolve.specs.Schemas as spec;

    ghost Value = { spec.Resolved };

    ghost view = { λ n. record { schema = n.schema; supertypes = n.supertypes } };

    ghost invariant = { λ n. spec.IsResolved (record { schema = n.schema; supertypes = n.supertypes }) × proved.HasIdentifiers n.schema };

    ghost use Rattle.std.specs.Coded.{codes};
    ghost use Rattle.ex_named.specs.contracts.expression.NamedDataType as data_type;
    ghost use Rattle.ex_named.specs.contracts.expression.NamedExpression as expression;
    ghost use Rattle.ex_named.specs.contracts.statement.NamedStatement as statement;
    ghost use Rattle.ex_named.specs.contracts.declaration.NamedSupertype as supertype;

    ghost coded = { Prim.hlevel (codes, data_type.the_row.coded, expression.the_row.coded, statement.the_row.coded, supertype.the_row.coded) };
}

impl Named {
    pub(crate) fn new(schema: NamedSchema, supertypes: Rows<Rows<usize>>) -> Named
        requires resolved { spec.IsResolved (record { schema = schema; supertypes = supertypes }) }
        requires identified { proved.HasIdentifiers schema }
        ensures { result ≡ record { schema = schema; supertypes = supertypes } }
    {
        Named { schema, supertypes }
    }

    /// What was proved when it was made: some tree resolves to it, its graph is what its entities list, no entity is an
    /// ancestor of itself, each name stands for one declaration and is an identifier, no type holds itself but through an
    /// entity, and each number is that of a declaration, or of a variable that is open.
    pub fn proved(&self)
        ensures resolved { spec.IsResolved self.now }
        ensures listed { self.now.supertypes ≡ map (λ e. e.supertypes) self.now.schema.entities }
        ensures acyclic { graphs.IsAcyclic self.now.supertypes }
        ensures once { proved.DeclaresOnce self.now.schema }
        ensures identified { proved.HasIdentifiers self.now.schema }
        ensures held { graphs.IsAcyclic (proved.held_types self.now.schema.types) }
        ensures in_range { ranges.InRange self.now.schema }
    {
        let _ = &self.schema;
    }

    /// The schema alone, without the graph of its supertypes.
    pub fn named(&self) -> &NamedSchema
        ensures { result.now ≡ self.now.schema }
    {
        &self.schema
    }

    /// Of each entity the entities that SUBTYPE OF lists.
    pub fn supertypes(&self) -> &[Rows<usize>]
        ensures { result.now ≡ self.now.supertypes }
    {
        self.supertypes.as_slice()
    }

    /// The entities above one, by their numbers in ascending order: the least set that holds its supertypes and those of
    /// each of its members.
    pub fn ancestors(&self, alloc: Global, entity: usize) -> Result<Rows<usize>, AllocError>
        ensures ascending { IfOk result (λ found. IsStrictlyIncreasing found) }
        ensures exact { IfOk result (λ found. (a : ℕ) → IsTrue (is_among found a) ↔ graphs.IsAncestor self.now.supertypes entity a) }
    {
        ancestors(alloc, self.supertypes.as_slice(), entity)
    }

    /// The entities above one and itself: supertypes first, in the order of SUBTYPE OF, depth first, each once, at its first
    /// place.
    pub fn line(&self, alloc: Global, entity: usize) -> Result<Rows<usize>, AllocError>
        ensures { IfOk result (λ found. graphs.line self.now.supertypes entity ≡ Some found) }
    {
        line(alloc, self.supertypes.as_slice(), entity)
    }

    /// The inherited and own explicit attributes of an entity, in the order in which files write their values:
    /// supertypes first, in the order of SUBTYPE OF, depth first, each entity's once, at its first place.
    pub fn attributes(
        &self,
        alloc: Global,
        entity: usize,
    ) -> Result<Rows<AttributePlace>, AllocError>
        ensures { IfOk result (λ found. spec.attributes self.now entity ≡ Some found) }
    {
        let line = line(alloc, self.supertypes.as_slice(), entity)?;
        let places = places_of(alloc, self.schema.entities.as_slice(), line.as_slice())?;
        Ok(Rows::from_vec(places))
    }
}

/// The places of the explicit attributes of the entities of these numbers, in order.
fn places_of(
    alloc: Global,
    entities: &[NamedEntity],
    numbers: &[usize],
) -> Result<Vec<AttributePlace>, AllocError>
    ensures { IfOk result (λ places. places.items ≡ flat_map (spec.explicit_of entities.now) numbers.now) }
{
    let mut places = Vec::new(alloc);
    for number in numbers {
        push_explicit_of(&mut places, entities, *number)?;
    }
    Ok(places)
}

/// Puts the places of the explicit attributes of the entity of this number behind the others.
fn push_explicit_of(
    places: &mut Vec<AttributePlace>,
    entities: &[NamedEntity],
    number: usize,
) -> Result<(), AllocError>
    ensures { IfOk result (λ _. places.new.items ≡ places.old.items ++ spec.explicit_of entities.now number) }
{
    match entities.get(number) {
        Some(entity) => push_explicit(places, number, entity),
        None => Ok(()),
    }
}

/// Puts the places of an entity's own explicit attributes behind the others.
fn push_explicit(
    places: &mut Vec<AttributePlace>,
    number: usize,
    entity: &NamedEntity,
) -> Result<(), AllocError>
    ensures { IfOk result (λ _. places.new.items ≡ places.old.items ++ spec.explicit_places number entity.now) }
{
    let start = places.len();
    for explicit in entity.explicit.as_slice() {
        push_own(places, start, number, explicit.attributes.as_slice())?;
    }
    Ok(())
}

/// Puts the places of those attributes that are not redeclared behind the others. The entity's begin at `start`.
fn push_own(
    places: &mut Vec<AttributePlace>,
    start: usize,
    number: usize,
    attributes: &[NamedAttribute],
) -> Result<(), AllocError>
    requires { start ≤ length places.old.items }
    ensures { IfOk result (λ _. places.new.items ≡ places.old.items ++ numbered_from (spec.place_in number) (length places.old.items - start) (filter spec.is_own attributes.now)) }
{
    for attribute in attributes {
        if let NamedAttribute::Own(_) = attribute {
            let place = places.len() - start;
            places.push(AttributePlace {
                entity: number,
                sort: AttributeSort::Explicit,
                place,
            })?;
        }
    }
    Ok(())
}
