//! The attributes that entities declare, found by their names and by where they are declared.

ghost use Rattle.std.specs.Prelude.{◌≡◌, ◌≤◌, ◌==◌, true, false, [], length, if◌then◌else◌, IfOk, filter};
ghost use Rattle.std.specs.List.{flat_map};
ghost use Rattle.std.specs.List.Sorted.{IsNonDecreasingBy, IsPartitionPoint};
ghost use Rattle.plain_data.specs.Numbers.{is_among};
ghost use Rattle.ex_attributes.specs.Attributes as spec;
ghost use Rattle.ex_attributes.specs.Steps.{read};
ghost use Rattle.ex_attributes.specs.Tables as tables;

use crate::attribute::Attribute;
use crate::order::{attributes_ascend, attributes_in_order, is_same_place, place_order};
use crate::tables::{places_of, push_rows_at, put_name, rows_at};
use ancestors::Family;
use ex_kinds::ValueKind;
use ex_named::AttributePlace;
use std::alloc::{AllocError, Global};
use std::collections::BTreeMap;
use std::marker::Model;

/// The attributes that entities declare.
pub(crate) struct DeclaredRows {
    rows: Vec<Attribute>,
    by_name: BTreeMap<Vec<u8>, Vec<usize>>,
    /// Whether they stand in the order of who declares them, as those of a schema do.
    is_ascending: bool,
    /// Whether they stand in the order of where they are declared, as those of a schema do.
    is_in_order: bool,
}

impl Drop for DeclaredRows {
    fn drop(self) {
        let DeclaredRows {
            rows,
            by_name,
            is_ascending: _,
            is_in_order: _,
        } = self;
        drop(rows);
        drop(by_name);
    }
}

impl Model for DeclaredRows {
    ghost use Rattle.std.specs.Prelude.{List, IsTrue};
    ghost use Rattle.ex_attributes.specs.declared.attribute.Attribute.{Attribute};
    ghost use Rattle.ex_attributes.specs.Tables.{HasNames, AscendIf, IsInOrder};

    ghost Value = { List Attribute };

    ghost view = { λ d. d.rows.items };

    ghost invariant = { λ d. HasNames d.rows.items d.by_name
        × (AscendIf (λ a. a.place.entity) d.is_ascending d.rows.items
        × (IsTrue d.is_in_order → IsInOrder d.rows.items)) };
}

/// The places of each name among attributes.
fn by_name(alloc: Global, rows: &[Attribute]) -> Result<BTreeMap<Vec<u8>, Vec<usize>>, AllocError>
    ensures { IfOk result (λ table. tables.HasNames rows.now table) }
{
    let mut table = BTreeMap::new(alloc);
    for (place, row) in rows.iter().enumerate() {
        put_name(alloc, &mut table, row.name.as_bytes(), place)?;
    }
    Ok(table)
}

/// Those that a family declares, one attribute after another.
fn of_family<'r>(
    alloc: Global,
    family: &Family<'_>,
    rows: &[&'r Attribute],
) -> Result<Vec<&'r Attribute>, AllocError>
    ensures { IfOk result (λ found. read found.items ≡ filter (λ a. is_among family.now a.place.entity) (read rows.now)) }
{
    let mut found = Vec::new(alloc);
    for row in rows {
        if family.has(alloc, row.place.entity)? {
            found.push(*row)?;
        }
    }
    Ok(found)
}

/// Which entity declares the attribute in this place.
fn declarer_at(rows: &[Attribute], place: usize) -> usize
    ensures { result ≡ tables.declarer_at rows.now place }
{
    match rows.get(place) {
        Some(row) => row.place.entity,
        None => 0,
    }
}

/// Those of the places whose attributes this entity declares.
fn run_of<'p>(rows: &[Attribute], entity: usize, places: &'p [usize]) -> &'p [usize]
    requires { IsNonDecreasingBy (tables.declarer_at rows.now) places.now }
    ensures { result.now ≡ filter (λ p. entity == tables.declarer_at rows.now p) places.now }
{
    let start = places.partition_point(|place| declarer_at(rows, *place) < entity);
    let from = &places[start..];
    let end = from.partition_point(|place| declarer_at(rows, *place) <= entity);
    &from[..end]
}

/// Those of the attributes in these places that these entities declare, one entity after another.
fn of_members<'r>(
    alloc: Global,
    rows: &'r [Attribute],
    places: &[usize],
    members: &[usize],
) -> Result<Vec<&'r Attribute>, AllocError>
    requires { IsNonDecreasingBy (tables.declarer_at rows.now) places.now }
    ensures { IfOk result (λ found. read found.items ≡ flat_map (λ e. tables.rows_at rows.now (filter (λ p. e == tables.declarer_at rows.now p) places.now)) members.now) }
{
    let mut found = Vec::new(alloc);
    for member in members {
        push_rows_at(&mut found, rows, run_of(rows, *member, places))?;
    }
    Ok(found)
}

/// Where the first of these stands that isn't declared before this place.
fn first_not_before(rows: &[Attribute], place: AttributePlace) -> usize
    requires { tables.IsInOrder rows.now }
    ensures within { result ≤ length rows.now }
    ensures parts { IsPartitionPoint (λ a. tables.is_before place a ≡ true) (λ a. tables.is_before place a ≡ false) rows.now result }
{
    rows.partition_point(|row| place_order(row.place, place).is_lt())
}

/// What an attribute may be, if it is declared there.
fn kinds_if<'r>(row: &'r Attribute, place: AttributePlace) -> &'r [ValueKind]
    ensures { result.now ≡ (if spec.same_place row.now.place place then row.now.kinds else []) }
{
    if is_same_place(row.place, place) {
        row.kinds.as_slice()
    } else {
        &[]
    }
}

/// What the first attribute that is declared there may be, where they stand in the order of that.
fn kinds_in_order(rows: &[Attribute], place: AttributePlace) -> &[ValueKind]
    requires { tables.IsInOrder rows.now }
    ensures { result.now ≡ spec.kinds_of_first (filter (λ a. spec.same_place a.place place) rows.now) }
{
    match rows.get(first_not_before(rows, place)) {
        Some(row) => kinds_if(row, place),
        None => &[],
    }
}

/// What the first attribute that is declared there may be.
fn kinds_of_first(rows: &[Attribute], place: AttributePlace) -> &[ValueKind]
    ensures { result.now ≡ spec.kinds_of_first (filter (λ a. spec.same_place a.place place) rows.now) }
{
    for row in rows {
        if is_same_place(row.place, place) {
            return row.kinds.as_slice();
        }
    }
    &[]
}

impl DeclaredRows {
    pub(crate) fn new(alloc: Global, rows: Vec<Attribute>) -> Result<DeclaredRows, AllocError>
        ensures { IfOk result (λ d. d ≡ rows.items) }
    {
        let by_name = by_name(alloc, &rows)?;
        let is_ascending = attributes_ascend(&rows);
        let is_in_order = attributes_in_order(&rows);
        Ok(DeclaredRows {
            rows,
            by_name,
            is_ascending,
            is_in_order,
        })
    }

    /// Those of this name.
    pub(crate) fn named(&self, alloc: Global, name: &str) -> Result<Vec<&Attribute>, AllocError>
        ensures { IfOk result (λ found. read found.items ≡ spec.named name.now self.now) }
    {
        rows_at(alloc, &self.rows, places_of(&self.by_name, name.as_bytes()))
    }

    /// Those of this name that a family declares.
    pub(crate) fn named_in(
        &self,
        alloc: Global,
        family: &Family<'_>,
        name: &str,
    ) -> Result<Vec<&Attribute>, AllocError>
        ensures { IfOk result (λ found. read found.items ≡ filter (λ a. is_among family.now a.place.entity) (spec.named name.now self.now)) }
    {
        let places = places_of(&self.by_name, name.as_bytes());
        // Few are looked at sooner than the members of a family are counted.
        if places.len() > 8 {
            if self.is_ascending {
                if let Some(members) = family.within(alloc, places.len() / 8)? {
                    return of_members(alloc, &self.rows, places, &members);
                }
            }
        }
        let rows = rows_at(alloc, &self.rows, places)?;
        of_family(alloc, family, &rows)
    }

    /// What the first that is declared there may be.
    pub(crate) fn kinds_at(&self, place: AttributePlace) -> &[ValueKind]
        ensures { result.now ≡ spec.kinds_of_first (filter (λ a. spec.same_place a.place place) self.now) }
    {
        if self.is_in_order {
            kinds_in_order(&self.rows, place)
        } else {
            kinds_of_first(&self.rows, place)
        }
    }
}
