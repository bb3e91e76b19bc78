//! Declarations in the order of the bytes of their names.

ghost use Rattle.std.specs.Prelude.{◌≡◌, [], map, length, replicate, IfOk};
ghost use Rattle.ex_types.specs.Checked.{entity_names as names_of_entities, type_names as names_of_types};
ghost use Rattle.name_tables.specs.Order.{IsOrderOf};
ghost use Rattle.rp_meaning.specs.CompiledNames as spec;
ghost use Rattle.rp_compile_names.specs.Found as parts;
ghost use Rattle.rp_compile_names.specs.Rows.{put_all};

use crate::names::{entity_names, rule_names, type_names};
use crate::rows::{concatenated, empty_rows, put};
use ex_named::{NamedEntity, NamedRule, NamedType};
use name_tables::NameOrder;
use plain_data::Items;
use std::alloc::{AllocError, Global};

/// The number of each name in the row of its rank.
fn rows_by_rank(
    alloc: Global,
    order: &NameOrder,
    names: &[&str],
) -> Result<Vec<Items<usize>>, AllocError>
    requires { IsOrderOf (map (λ n. n.now) names.now) order.now }
    ensures { IfOk result (λ rows. rows.items ≡ put_all (replicate (length names.now) []) (parts.ranked (map (λ n. n.now) names.now))) }
{
    let mut rows = empty_rows(alloc, names.len())?;
    for (number, name) in names.iter().enumerate() {
        put(&mut rows, order.rank(name), number)?;
    }
    Ok(rows)
}

/// The numbers of names, in the order of their bytes.
fn in_order(alloc: Global, names: &[&str]) -> Result<Items<usize>, AllocError>
    ensures { IfOk result (λ found. found ≡ spec.in_order (map (λ n. n.now) names.now)) }
{
    let order = NameOrder::of(alloc, names)?;
    let rows = rows_by_rank(alloc, &order, names)?;
    concatenated(alloc, &rows)
}

/// The defined types, in the order of the bytes of their names.
pub fn type_order(alloc: Global, types: &[NamedType]) -> Result<Items<usize>, AllocError>
    ensures { IfOk result (λ order. order ≡ spec.in_order (names_of_types types.now)) }
{
    in_order(alloc, &type_names(alloc, types)?)
}

/// The entities, in the order of the bytes of their names.
pub fn entity_order(alloc: Global, entities: &[NamedEntity]) -> Result<Items<usize>, AllocError>
    ensures { IfOk result (λ order. order ≡ spec.in_order (names_of_entities entities.now)) }
{
    in_order(alloc, &entity_names(alloc, entities)?)
}

/// The rules, in the order of the bytes of their names.
pub fn rule_order(alloc: Global, rules: &[NamedRule]) -> Result<Items<usize>, AllocError>
    ensures { IfOk result (λ order. order ≡ spec.in_order (map (λ x. x.name.text) rules.now)) }
{
    in_order(alloc, &rule_names(alloc, rules)?)
}
