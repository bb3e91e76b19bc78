//! The attributes that entities declare, and what a name of them means in a family: by a look at each, or by halving,
//! where the family has few entities and the attributes are many.

ghost use Rattle.std.specs.Prelude.{◌≡◌, ◌≤◌, ◌==◌, [], ◌∷◌, ◌++◌, IfOk, IsTrue, OnOk, OnErr, filter};
ghost use Rattle.std.specs.List.{flat_map};
ghost use Rattle.std.specs.List.Sorted.{IsNonDecreasingBy};
ghost use Rattle.plain_data.specs.Numbers.{is_among};
ghost use Rattle.name_tables.specs.Names.{named};
ghost use Rattle.ex_scopes.specs.Attributes as spec;
ghost use Rattle.ex_scopes.specs.Sorts.{admitted};

use crate::seen::Seen;
use crate::sorts::Sorts;
use ancestors::Family;
use ex_named::{AttributeMeaning, AttributePlace};
use name_tables::NameRows;
use std::alloc::{AllocError, Global};
use std::marker::Model;

/// The attributes that entities declare, in the order in which they were put.
#[derive(Drop)]
pub(crate) struct AttributeRows<'a> {
    rows: NameRows<'a, AttributePlace>,
    // Whether they were put in the order of their entities, as those of a schema are.
    is_ascending: bool,
    // The entity of the last row.
    last_entity: usize,
}

impl<'a> Model for AttributeRows<'a> {
    ghost use Rattle.std.specs.Prelude.{List, ℕ};
    ghost use Rattle.ex_named.specs.declared.reference.AttributePlace.{AttributePlace};
    ghost use Rattle.ex_scopes.specs.Attributes.{AscendIf};

    ghost Value = { List (List ℕ × AttributePlace) };

    ghost view = { λ table. table.rows };

    ghost invariant = { λ table. AscendIf (λ a. a.entity) table.is_ascending table.last_entity table.rows };
}

impl<'a> AttributeRows<'a> {
    pub(crate) fn new(alloc: Global) -> AttributeRows<'a>
        ensures { result ≡ [] }
    {
        AttributeRows {
            rows: NameRows::new(alloc),
            is_ascending: true,
            last_entity: 0,
        }
    }

    /// Puts an attribute behind the others.
    pub(crate) fn push(&mut self, name: &'a [u8], place: AttributePlace) -> Result<(), AllocError>
        ensures ok { OnOk result (self.new ≡ self.old ++ (name.now, place) ∷ []) }
        ensures err { OnErr result (self.new ≡ self.old) }
    {
        self.rows.push(name, place)?;
        self.is_ascending = self.is_ascending && self.last_entity <= place.entity;
        self.last_entity = place.entity;
        Ok(())
    }

    /// What this name means in a family, if one of its declarations there is of these sorts, or two are of two sorts.
    pub(crate) fn meaning(
        &self,
        alloc: Global,
        family: &Family<'_>,
        sorts: Sorts,
        name: &[u8],
    ) -> Result<Option<AttributeMeaning>, AllocError>
        ensures { IfOk result (λ found. found ≡ spec.meaning_if (admitted sorts) (filter (λ a. is_among family.now a.entity) (named name.now self.now))) }
    {
        let places = self.rows.get(name);
        let seen = and_left(
            alloc,
            Seen::Nothing,
            family,
            sorts,
            self.is_ascending,
            FIRST_LOOK,
            places,
        )?;
        Ok(seen.meaning(sorts))
    }

    /// The attributes of this name that a family declares.
    pub(crate) fn of_family(
        &self,
        alloc: Global,
        family: &Family<'_>,
        name: &[u8],
    ) -> Result<Vec<AttributePlace>, AllocError>
        ensures { IfOk result (λ found. found.items ≡ filter (λ a. is_among family.now a.entity) (named name.now self.now)) }
    {
        let places = self.rows.get(name);
        if self.is_ascending {
            if let Some(members) = family.within(alloc, places.len() / 8)? {
                return of_each(alloc, &members, places);
            }
        }
        declared_in(alloc, family, places)
    }
}

/// How many attributes of a name are looked at, where the members of the family are more.
const FIRST_LOOK: usize = 8;

/// Those of the attributes that this entity declares.
fn run_of(entity: usize, places: &[AttributePlace]) -> &[AttributePlace]
    requires { IsNonDecreasingBy (λ a. a.entity) places.now }
    ensures { result.now ≡ filter (λ a. entity == a.entity) places.now }
{
    let start = places.partition_point(|place| place.entity < entity);
    let from = &places[start..];
    let end = from.partition_point(|place| place.entity <= entity);
    &from[..end]
}

/// What is seen with these declarations too.
fn and_all(before: Seen, sorts: Sorts, places: &[AttributePlace]) -> Seen
    ensures { result ≡ spec.seen_after (admitted sorts) before places.now }
{
    let mut seen = before;
    for place in places {
        if seen.is_settled() {
            return seen;
        }
        seen = seen.and(sorts, *place);
    }
    seen
}

/// What is seen with those of the attributes that these entities declare, one entity after another.
fn and_of_each(before: Seen, sorts: Sorts, entities: &[usize], places: &[AttributePlace]) -> Seen
    requires { IsNonDecreasingBy (λ a. a.entity) places.now }
    ensures { result ≡ spec.seen_after (admitted sorts) before (flat_map (λ e. filter (λ a. e == a.entity) places.now) entities.now) }
{
    let mut seen = before;
    for entity in entities {
        if seen.is_settled() {
            return seen;
        }
        seen = and_all(seen, sorts, run_of(*entity, places));
    }
    seen
}

/// What is seen with those of the attributes that a family declares, one attribute after another.
fn and_of_family(
    alloc: Global,
    before: Seen,
    family: &Family<'_>,
    sorts: Sorts,
    places: &[AttributePlace],
) -> Result<Seen, AllocError>
    ensures { IfOk result (λ found. found ≡ spec.seen_after (admitted sorts) before (filter (λ a. is_among family.now a.entity) places.now)) }
{
    let mut seen = before;
    for place in places {
        if seen.is_settled() {
            return Ok(seen);
        }
        if family.has(alloc, place.entity)? {
            seen = seen.and(sorts, *place);
        }
    }
    Ok(seen)
}

/// What is seen with those of the attributes that a family declares: of ever more attributes one after another, unless
/// the family has no more members than would be looked at.
fn and_left(
    alloc: Global,
    before: Seen,
    family: &Family<'_>,
    sorts: Sorts,
    is_ascending: bool,
    count: usize,
    left: &[AttributePlace],
) -> Result<Seen, AllocError>
    requires some { 1 ≤ count }
    requires ascending { IsTrue is_ascending → IsNonDecreasingBy (λ a. a.entity) left.now }
    ensures { IfOk result (λ found. found ≡ spec.seen_after (admitted sorts) before (filter (λ a. is_among family.now a.entity) left.now)) }
{
    if left.len() <= count {
        return and_of_family(alloc, before, family, sorts, left);
    }
    if is_ascending {
        if let Some(members) = family.within(alloc, count)? {
            return Ok(and_of_each(before, sorts, &members, left));
        }
    }
    let (next, others) = left.split_at(count);
    let seen = and_of_family(alloc, before, family, sorts, next)?;
    if seen.is_settled() {
        return Ok(seen);
    }
    and_left(alloc, seen, family, sorts, is_ascending, 2 * count, others)
}

/// Those of the attributes that these entities declare, one entity after another.
fn of_each(
    alloc: Global,
    entities: &[usize],
    places: &[AttributePlace],
) -> Result<Vec<AttributePlace>, AllocError>
    requires { IsNonDecreasingBy (λ a. a.entity) places.now }
    ensures { IfOk result (λ found. found.items ≡ flat_map (λ e. filter (λ a. e == a.entity) places.now) entities.now) }
{
    entities
        .iter()
        .flat_map(|entity| run_of(*entity, places))
        .copied()
        .collect(alloc)
}

/// Those of the attributes that a family declares, one attribute after another.
fn declared_in(
    alloc: Global,
    family: &Family<'_>,
    places: &[AttributePlace],
) -> Result<Vec<AttributePlace>, AllocError>
    ensures { IfOk result (λ found. found.items ≡ filter (λ a. is_among family.now a.entity) places.now) }
{
    let mut found = Vec::new(alloc);
    for place in places {
        if family.has(alloc, place.entity)? {
            found.push(*place)?;
        }
    }
    Ok(found)
}
