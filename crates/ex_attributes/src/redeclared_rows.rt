//! The attributes that entities redeclare, found by where they are declared, and by who redeclares them.

ghost use Rattle.std.specs.Prelude.{◌≡◌, ◌==◌, ◌&&◌, IfOk, filter, length};
ghost use Rattle.std.specs.List.{flat_map};
ghost use Rattle.plain_data.specs.Numbers.{is_among};
ghost use Rattle.ex_attributes.specs.Attributes as spec;
ghost use Rattle.ex_attributes.specs.Steps.{read};
ghost use Rattle.ex_attributes.specs.Tables as tables;

use crate::attribute::Redeclared;
use crate::keys::{place_key, redeclared_keys, redeclarer_key, redeclarer_keys};
use crate::order::redeclarations_ascend;
use crate::tables::{places_at, places_by_key, push_rows_at, rows_at};
use ancestors::Family;
use ex_named::AttributePlace;
use std::alloc::{AllocError, Global};
use std::collections::BTreeMap;
use std::marker::Model;

/// The attributes that entities redeclare.
pub(crate) struct RedeclaredRows {
    rows: Vec<Redeclared>,
    by_place: BTreeMap<Vec<usize>, Vec<usize>>,
    by_redeclarer: BTreeMap<Vec<usize>, Vec<usize>>,
    /// Whether they stand in the order of who redeclares them, as those of a schema do.
    is_ascending: bool,
}

impl Drop for RedeclaredRows {
    fn drop(self) {
        let RedeclaredRows {
            rows,
            by_place,
            by_redeclarer,
            is_ascending: _,
        } = self;
        drop(rows);
        drop(by_place);
        drop(by_redeclarer);
    }
}

impl Model for RedeclaredRows {
    ghost use Rattle.std.specs.Prelude.{List};
    ghost use Rattle.ex_attributes.specs.declared.attribute.Redeclared.{Redeclared};
    ghost use Rattle.ex_attributes.specs.Tables.{HasPlaces, AscendIf, redeclarer_key, redeclared_key};

    ghost Value = { List Redeclared };

    ghost view = { λ d. d.rows.items };

    ghost invariant = { λ d. HasPlaces redeclared_key d.rows.items d.by_place
        × (HasPlaces redeclarer_key d.rows.items d.by_redeclarer
        × AscendIf (λ r. r.entity) d.is_ascending d.rows.items) };
}

fn by_place(
    alloc: Global,
    rows: &[Redeclared],
) -> Result<BTreeMap<Vec<usize>, Vec<usize>>, AllocError>
    ensures { IfOk result (λ table. tables.HasPlaces tables.redeclared_key rows.now table) }
{
    let keys = redeclared_keys(alloc, rows)?;
    let table = places_by_key(alloc, keys)?;
    Ok(table)
}

fn by_redeclarer(
    alloc: Global,
    rows: &[Redeclared],
) -> Result<BTreeMap<Vec<usize>, Vec<usize>>, AllocError>
    ensures { IfOk result (λ table. tables.HasPlaces tables.redeclarer_key rows.now table) }
{
    let keys = redeclarer_keys(alloc, rows)?;
    let table = places_by_key(alloc, keys)?;
    Ok(table)
}

/// Those by a family, one redeclaration after another.
fn of_family<'r>(
    alloc: Global,
    family: &Family<'_>,
    rows: &[&'r Redeclared],
) -> Result<Vec<&'r Redeclared>, AllocError>
    ensures { IfOk result (λ found. read found.items ≡ filter (λ r. is_among family.now r.entity) (read rows.now)) }
{
    let mut found = Vec::new(alloc);
    for row in rows {
        if family.has(alloc, row.entity)? {
            found.push(*row)?;
        }
    }
    Ok(found)
}

/// Those by these entities, one entity after another.
fn of_members<'r>(
    alloc: Global,
    rows: &'r [Redeclared],
    by_redeclarer: &BTreeMap<Vec<usize>, Vec<usize>>,
    members: &[usize],
    place: AttributePlace,
) -> Result<Vec<&'r Redeclared>, AllocError>
    ensures { IfOk result (λ found. read found.items ≡ flat_map (λ e. tables.rows_at rows.now (tables.places_at (tables.behind e (spec.place_key place)) by_redeclarer.now)) members.now) }
{
    let mut found = Vec::new(alloc);
    for member in members {
        let key = redeclarer_key(alloc, *member, place)?;
        push_rows_at(&mut found, rows, places_at(by_redeclarer, &key))?;
    }
    Ok(found)
}

impl RedeclaredRows {
    pub(crate) fn new(alloc: Global, rows: Vec<Redeclared>) -> Result<RedeclaredRows, AllocError>
        ensures { IfOk result (λ d. d ≡ rows.items) }
    {
        let by_place = by_place(alloc, &rows)?;
        let by_redeclarer = by_redeclarer(alloc, &rows)?;
        let is_ascending = redeclarations_ascend(&rows);
        Ok(RedeclaredRows {
            rows,
            by_place,
            by_redeclarer,
            is_ascending,
        })
    }

    /// Whether nothing is redeclared, as in most schemas.
    pub(crate) fn is_empty(&self) -> bool
        ensures { result ≡ (length self.now == 0) }
    {
        self.rows.is_empty()
    }

    /// All redeclarations of the attribute that is declared there.
    pub(crate) fn of_place(
        &self,
        alloc: Global,
        place: AttributePlace,
    ) -> Result<Vec<&Redeclared>, AllocError>
        ensures { IfOk result (λ found. read found.items ≡ filter (λ r. spec.same_place r.place place) self.now) }
    {
        let key = place_key(alloc, place)?;
        rows_at(alloc, &self.rows, places_at(&self.by_place, &key))
    }

    /// Its redeclarations by one entity.
    pub(crate) fn by(
        &self,
        alloc: Global,
        entity: usize,
        place: AttributePlace,
    ) -> Result<Vec<&Redeclared>, AllocError>
        ensures { IfOk result (λ found. read found.items ≡ filter (λ r. (r.entity == entity) && spec.same_place r.place place) self.now) }
    {
        let key = redeclarer_key(alloc, entity, place)?;
        rows_at(alloc, &self.rows, places_at(&self.by_redeclarer, &key))
    }

    /// Its redeclarations by a family.
    pub(crate) fn by_family(
        &self,
        alloc: Global,
        family: &Family<'_>,
        place: AttributePlace,
    ) -> Result<Vec<&Redeclared>, AllocError>
        ensures { IfOk result (λ found. read found.items ≡ filter (λ r. is_among family.now r.entity) (filter (λ r. spec.same_place r.place place) self.now)) }
    {
        let key = place_key(alloc, place)?;
        let places = places_at(&self.by_place, &key);
        // Few are looked at sooner than the members of a family are counted.
        if places.len() > 8 {
            if self.is_ascending {
                if let Some(members) = family.within(alloc, places.len() / 8)? {
                    return of_members(alloc, &self.rows, &self.by_redeclarer, &members, place);
                }
            }
        }
        let rows = rows_at(alloc, &self.rows, places)?;
        of_family(alloc, family, &rows)
    }
}
