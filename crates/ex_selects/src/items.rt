//! The items of enumerations, found by their names.

ghost use Rattle.std.specs.Prelude.{◌≡◌, ◌++◌, map, IfOk, OnOk};
ghost use Rattle.ex_selects.specs.Items as spec;

use ex_named::{NamedType, NamedUnderlying};
use ex_renamings::Renamings;
use ex_tree::Name;
use name_tables::NameTable;
use std::alloc::{AllocError, Global};

fn items_by(underlying: &NamedUnderlying) -> &[Name]
    ensures { map (λ n. n.text) result.now ≡ spec.items_by underlying.now }
{
    match underlying {
        NamedUnderlying::Enumeration(items) => items.as_slice(),
        NamedUnderlying::Select(_) | NamedUnderlying::Data(_) => &[],
    }
}

/// The items of a type of this number.
pub fn items_of<'s>(types: &Renamings<'s>, number: usize) -> &'s [Name]
    ensures { map (λ n. n.text) result.now ≡ spec.items types.now number }
{
    match types.types().get(number) {
        Some(declared) => items_by(&declared.underlying),
        None => &[],
    }
}

/// The texts of names.
fn table_of<'s>(alloc: Global, names: &'s [Name]) -> Result<NameTable<'s>, AllocError>
    ensures { IfOk result (λ table. table ≡ map (λ n. n.text) names.now) }
{
    let mut table = NameTable::new(alloc);
    for name in names {
        table.push(name.text.as_bytes())?;
    }
    Ok(table)
}

/// Of each type its items; one that is no enumeration has none.
pub fn all_items<'s>(
    alloc: Global,
    types: &'s [NamedType],
) -> Result<Vec<NameTable<'s>>, AllocError>
    ensures { IfOk result (λ all. all.items ≡ map (λ x. spec.items_by x.underlying) types.now) }
{
    let mut all = Vec::with_capacity(alloc, types.len())?;
    for declared in types {
        all.push(table_of(alloc, items_by(&declared.underlying))?)?;
    }
    Ok(all)
}
