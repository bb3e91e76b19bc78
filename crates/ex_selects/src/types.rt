//! The defined types of a schema, found by their names.

ghost use Rattle.std.specs.Prelude.{◌≡◌, ◌++◌, [], map, slice_index_or, IfOk, OnOk};
ghost use Rattle.plain_data.specs.Numbers.{is_among};
ghost use Rattle.name_tables.specs.Names.{place_of};
ghost use Rattle.std.specs.Str.{str_to_ascii_uppercase};
ghost use Rattle.ex_selects.specs.Ends as ends;
ghost use Rattle.ex_selects.specs.Seen.{seen, seen_target};
ghost use Rattle.ex_selects.specs.Kept as kept;
ghost use Rattle.ex_selects.specs.Shared as shared;
ghost use Rattle.ex_selects.specs.Sorts as sorts;
ghost use Rattle.ex_selects.specs.Takers as takers;
ghost use Rattle.ex_selects.specs.Items as spec;

use crate::items::all_items;
use crate::kept::{Kept, kept_at, kept_by_class, table_of};
use crate::selects::{shared_selection, unrenamed, walked_choices, with_instances};
use crate::sorts::{Class, all_sorts};
use crate::takers::{Takers, all_takers, takers_at};
use ancestors::Descent;
use ex_named::NamedType;
use ex_renamings::{Renamings, is_marked};
use name_tables::NameTable;
use plain_data::Rows;
use std::alloc::{AllocError, Global};
use std::marker::Model;

/// The defined types of a schema, with what is looked up for each value of a file.
#[derive(Drop)]
pub struct DefinedTypes<'s> {
    declared: Renamings<'s>,
    names: NameTable<'s>,
    /// Which types SELECTs list.
    descent: Descent,
    kept: Kept,
    /// Of each SELECT which of those that it chooses from take an item, where that is kept.
    takers: Vec<Option<Takers<'s>>>,
    /// Of each type the items that it has as an enumeration.
    items: Vec<NameTable<'s>>,
    /// Of each type whether it, or one that it chooses from, lists an entity.
    instances: Vec<bool>,
}

impl<'s> Model for DefinedTypes<'s> {
    ghost use Rattle.std.specs.Prelude.{◌≡◌, List, map};
    ghost use Rattle.ex_named.specs.declared.declaration.NamedType.{NamedType};
    ghost use Rattle.ex_selects.specs.Kept.{IsKept};
    ghost use Rattle.ex_selects.specs.Shared.{shared, with_instances};
    ghost use Rattle.ex_selects.specs.Sorts.{all_sorts};
    ghost use Rattle.ex_selects.specs.Takers.{AreAllTakers};
    ghost use Rattle.ex_selects.specs.Items as spec;

    ghost Value = { List NamedType };

    ghost view = { λ t. t.declared };

    ghost invariant = { λ t. (t.names ≡ map (λ x. x.name.text) t.declared) × (t.descent ≡ shared t.declared) × (t.items.items ≡ map (λ x. spec.items_by x.underlying) t.declared) × IsKept (shared t.declared) (all_sorts t.declared) t.kept × AreAllTakers t.declared t.kept.items.items t.takers.items × (t.instances.items ≡ with_instances t.declared) };

    ghost use Rattle.std.specs.Coded.{codes};
    ghost use Rattle.ex_named.specs.contracts.expression.NamedDataType as data_type;
    ghost use Rattle.ex_named.specs.contracts.expression.NamedExpression as expression;

    ghost coded = { Prim.hlevel (codes, data_type.the_row.coded, expression.the_row.coded) };
}

fn names_of<'s>(alloc: Global, types: &'s [NamedType]) -> Result<NameTable<'s>, AllocError>
    ensures { IfOk result (λ names. names ≡ map (λ x. x.name.text) types.now) }
{
    let mut names = NameTable::new(alloc);
    for declared in types {
        names.push(declared.name.text.as_bytes())?;
    }
    Ok(names)
}

/// What is kept of what SELECTs choose from, where this is what they list, and of each who takes its items.
fn kept_and_takers<'s>(
    alloc: Global,
    types: &Renamings<'s>,
    graph: &[Rows<usize>],
) -> Result<(Kept, Vec<Option<Takers<'s>>>), AllocError>
    requires { graph.now ≡ shared.shared types.now }
    ensures kept { IfOk result (λ found. kept.IsKept (shared.shared types.now) (sorts.all_sorts types.now) found.0) }
    ensures takers { IfOk result (λ found. takers.AreAllTakers types.now found.0.items.items found.1.items) }
{
    let sorts = all_sorts(alloc, types)?;
    let kept = kept_by_class(alloc, graph, &sorts)?;
    let takers = all_takers(alloc, types, &kept.items)?;
    Ok((kept, takers))
}

/// Which types SELECTs list, with what is kept of what they choose from.
fn selection_of<'s>(
    alloc: Global,
    types: &Renamings<'s>,
) -> Result<(Descent, Kept, Vec<Option<Takers<'s>>>), AllocError>
    ensures descent { IfOk result (λ found. found.0 ≡ shared.shared types.now) }
    ensures kept { IfOk result (λ found. kept.IsKept (shared.shared types.now) (sorts.all_sorts types.now) found.1) }
    ensures takers { IfOk result (λ found. takers.AreAllTakers types.now found.1.items.items found.2.items) }
{
    let graph = shared_selection(alloc, types)?;
    let (kept, takers) = kept_and_takers(alloc, types, &graph)?;
    let descent = Descent::of(alloc, graph)?;
    Ok((descent, kept, takers))
}

/// The names of types, and of each the items that it has as an enumeration.
fn names_and_items<'s>(
    alloc: Global,
    types: &'s [NamedType],
) -> Result<(NameTable<'s>, Vec<NameTable<'s>>), AllocError>
    ensures names { IfOk result (λ found. found.0 ≡ map (λ x. x.name.text) types.now) }
    ensures items { IfOk result (λ found. found.1.items ≡ map (λ x. spec.items_by x.underlying) types.now) }
{
    let names = names_of(alloc, types)?;
    let items = all_items(alloc, types)?;
    Ok((names, items))
}

/// The place of a type's item of this name. A number beyond the types has none.
fn place_at(all: &[NameTable<'_>], number: usize, name: &[u8]) -> Option<usize>
    ensures { result ≡ place_of name.now (slice_index_or all.now number []) }
{
    match all.get(number) {
        Some(items) => items.place(name),
        None => None,
    }
}

impl<'s> DefinedTypes<'s> {
    ghost use Rattle.std.specs.Prelude.{◌≡◌, ⊤, MatchOption, IfOk, map};
    ghost use Rattle.plain_data.specs.Numbers.{is_among};
    ghost use Rattle.ex_selects.specs.Kept as kept;
    ghost use Rattle.ex_selects.specs.Takers as takers;
    ghost use Rattle.name_tables.specs.Names.{place_of};
    ghost use Rattle.ex_selects.specs.Ends as ends;
    ghost use Rattle.ex_selects.specs.Items as spec;
    ghost use Rattle.ex_selects.specs.Seen.{seen, seen_target};

    pub fn of(alloc: Global, types: &'s [NamedType]) -> Result<DefinedTypes<'s>, AllocError>
        ensures { IfOk result (λ found. found ≡ types.now) }
    {
        let declared = Renamings::of(alloc, types)?;
        let (names, items) = names_and_items(alloc, types)?;
        let (descent, kept, takers) = selection_of(alloc, &declared)?;
        let instances = with_instances(alloc, &declared, descent.graph())?;
        Ok(DefinedTypes {
            declared,
            names,
            descent,
            kept,
            takers,
            items,
            instances,
        })
    }

    pub fn types(&self) -> &Renamings<'s>
        ensures { result.now ≡ self.now }
    {
        &self.declared
    }

    /// The type of this name, in either case.
    pub fn number(&self, alloc: Global, keyword: &[u8]) -> Result<Option<usize>, AllocError>
        ensures { IfOk result (λ number. number ≡ spec.type_named self.now keyword.now) }
    {
        let keyword = keyword.to_ascii_uppercase(alloc)?;
        Ok(self.names.place(&keyword))
    }

    /// The defined types that a value of a SELECT may be of.
    pub fn choices(&self, alloc: Global, number: usize) -> Result<Vec<usize>, AllocError>
        ensures { IfOk result (λ found. found.items ≡ ends.choices self.now number) }
    {
        walked_choices(alloc, &self.declared, self.descent.graph(), number)
    }

    /// What stands for all of a class that a SELECT chooses from, where something is kept.
    pub fn kept(&self, class: Class, number: usize) -> Option<&[usize]>
        ensures { MatchOption result ⊤ (λ found. kept.StandForClass self.now class number found.now) }
    {
        kept_at(
            table_of(&self.kept, class),
            unrenamed(&self.declared, number),
        )
    }

    /// Which of the types that a SELECT chooses from take an item, where that is kept.
    pub fn takers(&self, number: usize) -> Option<&Takers<'s>>
        ensures { MatchOption result ⊤ (λ found. takers.AreTakersOf self.now number found.now) }
    {
        takers_at(&self.takers, unrenamed(&self.declared, number))
    }

    /// Whether a value of a SELECT may be of this type.
    #[tactic(auto, using(crate::proofs::Chosen::chosen_none, crate::proofs::Chosen::chosen_among))]
    pub fn chooses(&self, alloc: Global, select: usize, number: usize) -> Result<bool, AllocError>
        ensures { IfOk result (λ told. told ≡ is_among (ends.choices self.now select) number) }
    {
        if self.declared.is_select(number) {
            return Ok(false);
        }
        self.descent
            .is_in_family(alloc, unrenamed(&self.declared, select), number)
    }

    /// Whether a value of a SELECT may be an instance.
    pub fn chooses_instances(&self, number: usize) -> bool
        ensures { result ≡ ends.chooses_instances self.now number }
    {
        is_marked(&self.instances, unrenamed(&self.declared, number))
    }

    /// The place of an enumeration's item of this name.
    #[tactic(auto, using(crate::proofs::Tables::items_kept))]
    pub fn item_place(&self, number: usize, name: &[u8]) -> Option<usize>
        ensures { result ≡ place_of name.now (spec.items self.now number) }
    {
        place_at(&self.items, number, name)
    }
}
