//! Which of many types take an item, found by its name.
//!
//! A SELECT may choose from thousands of enumerations, and an item without a keyword is of the only one that has it. So of each
//! name it is kept who takes it first, and whether another does.

ghost use Rattle.std.specs.Prelude.{◌≡◌, ℕ, List, ⊤, map, is_some, Some, if◌then◌else◌, MatchOption, None, IfOk, OnOk};
ghost use Rattle.std.specs.List.Sorted.{IsStrictlySortedBy};
ghost use Rattle.std.specs.Option.{option_map};
ghost use Rattle.std.specs.Ordering.{nat_cmp};
ghost use Rattle.std.specs.Str.{bytes_eq};
ghost use Rattle.name_tables.specs.Names.{first_in, pair_of, place_of};
ghost use Rattle.ex_selects.specs.Kept as tables;
ghost use Rattle.ex_selects.specs.Seen.{seen};
ghost use Rattle.ex_selects.specs.Shared as shared;
ghost use Rattle.ex_selects.specs.Sorts as sorts;
ghost use Rattle.ex_selects.specs.Takers as spec;
ghost use Rattle.ex_selects.specs.Items as items;
ghost use Rattle.ex_selects.specs.declared.sorts.Class.TheVariants as class;

use crate::ends::{Base, base_of};
use crate::items::items_of;
use ex_named::{NamedType, NamedUnderlying};
use ex_renamings::Renamings;
use ex_tree::{Name, SimpleType};
use name_tables::First;
use plain_data::Rows;
use std::alloc::{AllocError, Global};
use std::collections::BTreeMap;

/// Of each name of an item the first of some types that takes it, and whether another does.
pub type Takers<'s> = BTreeMap<&'s [u8], First<usize>>;

/// With fewer types each is asked in turn.
const FEW: usize = 8;

/// The same with one type more.
fn and_taker(first: Option<First<usize>>, number: usize) -> First<usize>
    ensures { pair_of result ≡ spec.and_taker (option_map pair_of first) number }
{
    match first {
        Some(first) => First {
            value: first.value,
            is_repeated: first.is_repeated || first.value != number,
        },
        None => First {
            value: number,
            is_repeated: false,
        },
    }
}

/// Adds a type to those that take an item.
fn add_taker<'s>(takers: &mut Takers<'s>, name: &'s [u8], number: usize) -> Result<(), AllocError>
    ensures { (other : List ℕ) → OnOk result (first_in other takers.new ≡ spec.with_taker (bytes_eq name.now other) (first_in other takers.old) number) }
{
    let first = and_taker(taker_at(takers, name), number);
    takers.insert(name, first)?;
    Ok(())
}

/// Adds an enumeration with these items.
fn add_items<'s>(
    takers: &mut Takers<'s>,
    items: &'s [Name],
    number: usize,
) -> Result<(), AllocError>
    ensures { (other : List ℕ) → OnOk result (first_in other takers.new ≡ spec.with_taker (is_some (place_of other (map (λ n. n.text) items.now))) (first_in other takers.old) number) }
{
    for item in items {
        add_taker(takers, item.text.as_bytes(), number)?;
    }
    Ok(())
}

/// Adds a type that is BOOLEAN.
fn add_boolean(takers: &mut Takers<'_>, number: usize) -> Result<(), AllocError>
    ensures { (other : List ℕ) → OnOk result (first_in other takers.new ≡ spec.with_taker (items.is_boolean other) (first_in other takers.old) number) }
{
    add_taker(takers, b"F", number)?;
    add_taker(takers, b"T", number)
}

/// Adds a type that is LOGICAL.
fn add_logical(takers: &mut Takers<'_>, number: usize) -> Result<(), AllocError>
    ensures { (other : List ℕ) → OnOk result (first_in other takers.new ≡ spec.with_taker (items.is_logical other) (first_in other takers.old) number) }
{
    add_boolean(takers, number)?;
    add_taker(takers, b"U", number)
}

/// Adds a type.
fn add<'s>(
    takers: &mut Takers<'s>,
    types: &Renamings<'s>,
    base: &Base<'s>,
    number: usize,
) -> Result<(), AllocError>
    ensures { (other : List ℕ) → OnOk result (first_in other takers.new ≡ spec.with_taker (items.has_item types.now other (seen base.now)) (first_in other takers.old) number) }
{
    match base {
        Base::Plain(SimpleType::Boolean) => add_boolean(takers, number),
        Base::Plain(SimpleType::Logical) => add_logical(takers, number),
        Base::Enumeration(enumeration) => add_items(takers, items_of(types, *enumeration), number),
        _ => Ok(()),
    }
}

/// How many names a type takes, about. It only says what room it needs, so no clause tells it.
fn name_count(types: &Renamings<'_>, base: &Base<'_>) -> usize {
    match base {
        Base::Enumeration(enumeration) => items_of(types, *enumeration).len(),
        _ => 3,
    }
}

/// Who takes an item of these types, where there is room for all names.
fn takers_among<'s>(
    alloc: Global,
    types: &Renamings<'s>,
    numbers: &[usize],
    room: &mut usize,
) -> Result<Option<Takers<'s>>, AllocError>
    requires { IsStrictlySortedBy nat_cmp numbers.now }
    ensures { IfOk result (λ found. MatchOption found ⊤ (λ takers. spec.AreTakers types.now numbers.now takers)) }
{
    let mut takers = BTreeMap::new(alloc);
    for number in numbers {
        let base = base_of(types, *number);
        let count = name_count(types, &base);
        if count > *room {
            return Ok(None);
        }
        *room -= count;
        add(&mut takers, types, &base, *number)?;
    }
    Ok(Some(takers))
}

/// Who takes an item of what a type keeps, where that are many.
fn takers_of<'s>(
    alloc: Global,
    types: &Renamings<'s>,
    kept: &Option<Rows<usize>>,
    room: &mut usize,
) -> Result<Option<Takers<'s>>, AllocError>
    requires { MatchOption kept.now ⊤ (λ numbers. IsStrictlySortedBy nat_cmp numbers) }
    ensures { IfOk result (λ found. spec.AreTakersAt types.now kept.now found) }
{
    match kept {
        Some(numbers) => {
            if numbers.len() <= FEW {
                return Ok(None);
            }
            takers_among(alloc, types, numbers.as_slice(), room)
        }
        None => Ok(None),
    }
}

fn item_count(underlying: &NamedUnderlying) -> usize {
    match underlying {
        NamedUnderlying::Enumeration(items) => items.as_slice().len(),
        NamedUnderlying::Select(_) | NamedUnderlying::Data(_) => 0,
    }
}

/// How many names may be kept in all: for each type and each item some.
fn room_of(types: &[NamedType]) -> usize {
    let mut count: usize = types.len();
    for declared in types {
        count = count.saturating_add(item_count(&declared.underlying));
    }
    count.saturating_mul(4)
}

/// Of each type who takes an item of what it keeps, where there is room.
pub fn all_takers<'s>(
    alloc: Global,
    types: &Renamings<'s>,
    kept: &[Option<Rows<usize>>],
) -> Result<Vec<Option<Takers<'s>>>, AllocError>
    requires { tables.IsTable (shared.shared types.now) (sorts.all_sorts types.now) class.Items kept.now }
    ensures { IfOk result (λ all. spec.AreAllTakers types.now kept.now all.items) }
{
    let mut all = Vec::with_capacity(alloc, kept.len())?;
    let mut room = room_of(types.types());
    for numbers in kept {
        let takers = takers_of(alloc, types, numbers, &mut room)?;
        all.push(takers)?;
    }
    Ok(all)
}

/// What a table has at a number, where it has something.
pub fn takers_at<'t, 's>(all: &'t [Option<Takers<'s>>], number: usize) -> Option<&'t Takers<'s>>
    ensures { MatchOption result ⊤ (λ found. spec.takers_in all.now number ≡ Some found.now) }
{
    match all.get(number) {
        Some(Some(takers)) => Some(takers),
        Some(None) | None => None,
    }
}

/// Who takes the item of this name.
pub fn taker_at(takers: &Takers<'_>, name: &[u8]) -> Option<First<usize>>
    ensures { option_map pair_of result ≡ first_in name.now takers.now }
{
    takers.get(name).copied()
}
