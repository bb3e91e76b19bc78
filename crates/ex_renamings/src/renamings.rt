//! The types of a schema, with where their renamings end.

ghost use Rattle.std.specs.Prelude.{◌≡◌, length, map, IfOk};
ghost use Rattle.ex_renamings.specs.Renamings as spec;
ghost use Rattle.ex_renamings.specs.Tables.{HasRenamed, target as target_in};

use ex_named::{NamedDataType, NamedType, NamedUnderlying, TypeName};
use std::alloc::{AllocError, Global};
use std::marker::Model;

/// The type that a type renames; itself, where it renames none.
fn renamed(types: &[NamedType], number: usize) -> usize
    ensures { result ≡ spec.renamed types.now number }
{
    match types.get(number) {
        Some(declared) => renamed_by(number, &declared.underlying),
        None => number,
    }
}

fn renamed_by(number: usize, underlying: &NamedUnderlying) -> usize
    ensures { result ≡ spec.renamed_by number underlying.now }
{
    match underlying {
        NamedUnderlying::Data(NamedDataType::Named(TypeName::Defined(other))) => *other,
        _ => number,
    }
}

/// What stands in a table at a number; the number itself beyond the end.
fn target(table: &[usize], number: usize) -> usize
    ensures { result ≡ target_in table.now number }
{
    table.get(number).copied().unwrap_or(number)
}

/// What each number of the first table has in the second.
fn joined(alloc: Global, first: &[usize], second: &[usize]) -> Result<Vec<usize>, AllocError>
    ensures { IfOk result (λ table. table.items ≡ map (target_in second.now) first.now) }
{
    let mut table = Vec::with_capacity(alloc, first.len())?;
    for number in first {
        table.push(target(second, *number))?;
    }
    Ok(table)
}

/// What each type of a table renames.
fn all_renamed(
    alloc: Global,
    types: &[NamedType],
    table: &[usize],
) -> Result<Vec<usize>, AllocError>
    ensures { IfOk result (λ further. further.items ≡ map (spec.renamed types.now) table.now) }
{
    let mut further = Vec::with_capacity(alloc, table.len())?;
    for number in table {
        further.push(renamed(types, *number))?;
    }
    Ok(further)
}

/// Of each type itself, which is no renaming further.
fn all_themselves(alloc: Global, types: &[NamedType]) -> Result<Vec<usize>, AllocError>
    ensures { IfOk result (λ table. HasRenamed 0 types.now table.items) }
{
    let mut table = Vec::with_capacity(alloc, types.len())?;
    for number in 0..types.len() {
        table.push(number)?;
    }
    Ok(table)
}

/// Of each type the one that is so many renamings further. By halves: there may be hundreds of thousands in a row.
fn renamed_times(alloc: Global, types: &[NamedType], count: usize) -> Result<Vec<usize>, AllocError>
    ensures { IfOk result (λ table. HasRenamed count types.now table.items) }
{
    if count == 0 {
        return all_themselves(alloc, types);
    }
    let half = renamed_times(alloc, types, count / 2)?;
    let table = joined(alloc, &half, &half)?;
    if count % 2 == 0 {
        Ok(table)
    } else {
        all_renamed(alloc, types, &table)
    }
}

fn is_listed(underlying: &NamedUnderlying) -> bool
    ensures { result ≡ spec.is_listed underlying.now }
{
    match underlying {
        NamedUnderlying::Select(_) => true,
        NamedUnderlying::Enumeration(_) | NamedUnderlying::Data(_) => false,
    }
}

/// Whether a type lists its members.
fn lists_members(types: &[NamedType], number: usize) -> bool
    ensures { result ≡ spec.lists_members types.now number }
{
    match types.get(number) {
        Some(declared) => is_listed(&declared.underlying),
        None => false,
    }
}

/// The types of a schema, with where their renamings end.
#[derive(Drop)]
pub struct Renamings<'s> {
    types: &'s [NamedType],
    /// Of each type the one that it is behind all names.
    ends: Vec<usize>,
}

impl<'s> Model for Renamings<'s> {
    ghost use Rattle.std.specs.Prelude.{List, length};
    ghost use Rattle.ex_named.specs.declared.declaration.NamedType.{NamedType};
    ghost use Rattle.ex_renamings.specs.Tables.{HasRenamed};

    ghost Value = { List NamedType };

    ghost view = { λ r. r.types.now };

    ghost invariant = { λ r. HasRenamed (length r.types.now) r.types.now r.ends.items };

    ghost use Rattle.std.specs.Coded.{codes};
    ghost use Rattle.ex_named.specs.contracts.expression.NamedDataType as data_type;
    ghost use Rattle.ex_named.specs.contracts.expression.NamedExpression as expression;

    ghost coded = { Prim.hlevel (codes, data_type.the_row.coded, expression.the_row.coded) };
}

impl<'s> Renamings<'s> {
    ghost use Rattle.std.specs.Prelude.{◌≡◌, IfOk};
    ghost use Rattle.ex_renamings.specs.Renamings as spec;

    pub fn of(alloc: Global, types: &'s [NamedType]) -> Result<Renamings<'s>, AllocError>
        ensures { IfOk result (λ found. found ≡ types.now) }
    {
        let ends = renamed_times(alloc, types, types.len())?;
        Ok(Renamings { types, ends })
    }

    pub fn types(&self) -> &'s [NamedType]
        ensures { result.now ≡ self.now }
    {
        self.types
    }

    /// The type that a defined type is behind all names.
    #[tactic(auto, unfolding(crate::specs::Renamings::end))]
    pub fn end(&self, number: usize) -> usize
        ensures { result ≡ spec.end self.now number }
    {
        target(&self.ends, number)
    }

    /// Whether a type is a SELECT.
    pub fn is_select(&self, number: usize) -> bool
        ensures { result ≡ spec.is_select self.now number }
    {
        lists_members(self.types, self.end(number))
    }
}
