//! The items of enumerations, and the one of a name that a type has: by halving.

ghost use Rattle.std.specs.Prelude.{◌≡◌, ◌==◌, [], ◌∷◌, ◌++◌, OnOk, OnErr, filter};
ghost use Rattle.std.specs.List.{find};
ghost use Rattle.std.specs.List.Sorted.{IsNonDecreasingBy};
ghost use Rattle.name_tables.specs.Names.{named};

use ex_named::EnumerationItem;
use name_tables::NameRows;
use std::alloc::{AllocError, Global};
use std::marker::Model;

/// The items of enumerations, in the order in which they were put.
#[derive(Drop)]
pub(crate) struct ItemRows<'a> {
    rows: NameRows<'a, EnumerationItem>,
    // Whether they were put in the order of their types, as those of a schema are.
    is_ascending: bool,
    // The type of the last row.
    last_type: usize,
}

impl<'a> Model for ItemRows<'a> {
    ghost use Rattle.std.specs.Prelude.{List, ℕ};
    ghost use Rattle.ex_named.specs.declared.reference.EnumerationItem.{EnumerationItem};
    ghost use Rattle.ex_scopes.specs.Attributes.{AscendIf};

    ghost Value = { List (List ℕ × EnumerationItem) };

    ghost view = { λ table. table.rows };

    ghost invariant = { λ table. AscendIf (λ i. i.type_number) table.is_ascending table.last_type table.rows };
}

impl<'a> ItemRows<'a> {
    pub(crate) fn new(alloc: Global) -> ItemRows<'a>
        ensures { result ≡ [] }
    {
        ItemRows {
            rows: NameRows::new(alloc),
            is_ascending: true,
            last_type: 0,
        }
    }

    /// Puts an item behind the others.
    pub(crate) fn push(&mut self, name: &'a [u8], item: EnumerationItem) -> Result<(), AllocError>
        ensures ok { OnOk result (self.new ≡ self.old ++ (name.now, item) ∷ []) }
        ensures err { OnErr result (self.new ≡ self.old) }
    {
        self.rows.push(name, item)?;
        self.is_ascending = self.is_ascending && self.last_type <= item.type_number;
        self.last_type = item.type_number;
        Ok(())
    }

    /// The items of this name.
    pub(crate) fn get(&self, name: &[u8]) -> &[EnumerationItem]
        ensures { result.now ≡ named name.now self.now }
    {
        self.rows.get(name)
    }

    /// The first item of this name that is one of this type.
    pub(crate) fn of_type(&self, number: usize, name: &[u8]) -> Option<EnumerationItem>
        ensures { result ≡ find (λ i. i.type_number == number) (named name.now self.now) }
    {
        let items = self.rows.get(name);
        if self.is_ascending {
            first_of_type(number, items)
        } else {
            items
                .iter()
                .copied()
                .find(|item| item.type_number == number)
        }
    }
}

/// The first of the items that is one of this type.
fn first_of_type(number: usize, items: &[EnumerationItem]) -> Option<EnumerationItem>
    requires { IsNonDecreasingBy (λ i. i.type_number) items.now }
    ensures { result ≡ find (λ i. i.type_number == number) items.now }
{
    match run_of(number, items) {
        [first, ..] => Some(*first),
        [] => None,
    }
}

/// Those of the items that are of this type.
fn run_of(number: usize, items: &[EnumerationItem]) -> &[EnumerationItem]
    requires { IsNonDecreasingBy (λ i. i.type_number) items.now }
    ensures { result.now ≡ filter (λ i. number == i.type_number) items.now }
{
    let start = items.partition_point(|item| item.type_number < number);
    let from = &items[start..];
    let end = from.partition_point(|item| item.type_number <= number);
    &from[..end]
}
