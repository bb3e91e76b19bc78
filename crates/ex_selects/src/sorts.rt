//! Defined types by the values of a file that they take.

ghost use Rattle.std.specs.Prelude.{◌≡◌, ◌++◌, map, IfOk};
ghost use Rattle.plain_data.specs.Numbers.{numbered};
ghost use Rattle.ex_selects.specs.Ends as ends;
ghost use Rattle.ex_selects.specs.Seen.{seen};
ghost use Rattle.ex_selects.specs.Sorts as spec;

use crate::ends::{Base, base_of};
use ex_renamings::Renamings;
use ex_tree::SimpleType;
use std::alloc::{AllocError, Global};

/// What a defined type takes of a file without a keyword.
#[derive(Clone, Copy)]
pub enum Sort {
    Nothing,
    Integer,
    Number,
    Real,
    Text,
    Binary,
    Item,
    List,
}

/// Sorts that are asked for the same values.
#[derive(Clone, Copy)]
pub enum Class {
    Plain,
    Items,
    Lists,
}

fn of_simple(simple: SimpleType) -> Sort
    ensures { result ≡ spec.of_simple simple }
{
    match simple {
        SimpleType::Integer => Sort::Integer,
        SimpleType::Number => Sort::Number,
        SimpleType::Real => Sort::Real,
        SimpleType::String(_) => Sort::Text,
        SimpleType::Binary(_) => Sort::Binary,
        SimpleType::Boolean | SimpleType::Logical => Sort::Item,
    }
}

fn of_base(base: &Base<'_>) -> Sort
    ensures { result ≡ spec.of_base (seen base.now) }
{
    match base {
        Base::Plain(simple) => of_simple(*simple),
        Base::Enumeration(_) => Sort::Item,
        Base::Aggregate(_, _, _) => Sort::List,
        Base::Instance | Base::Select(_) | Base::Nothing => Sort::Nothing,
    }
}

fn sort_of(types: &Renamings<'_>, number: usize) -> Sort
    ensures { result ≡ spec.sort_of types.now number }
{
    of_base(&base_of(types, number))
}

/// Of each type its sort.
#[tactic(auto, unfolding(crate::specs::Sorts::all_sorts))]
pub fn all_sorts(alloc: Global, types: &Renamings<'_>) -> Result<Vec<Sort>, AllocError>
    ensures { IfOk result (λ sorts. sorts.items ≡ spec.all_sorts types.now) }
{
    let mut sorts = Vec::with_capacity(alloc, types.types().len())?;
    for (number, _) in types.types().iter().enumerate() {
        sorts.push(sort_of(types, number))?;
    }
    Ok(sorts)
}

/// The sort of a number; beyond the types it is none.
pub fn sort_at(sorts: &[Sort], number: usize) -> Sort
    ensures { result ≡ spec.sort_at sorts.now number }
{
    sorts.get(number).copied().unwrap_or(Sort::Nothing)
}

pub fn is_of(class: Class, sort: Sort) -> bool
    ensures { result ≡ spec.is_of class sort }
{
    match sort {
        Sort::Nothing => false,
        Sort::Integer | Sort::Number | Sort::Real | Sort::Text | Sort::Binary => match class {
            Class::Plain => true,
            Class::Items | Class::Lists => false,
        },
        Sort::Item => match class {
            Class::Items => true,
            Class::Plain | Class::Lists => false,
        },
        Sort::List => match class {
            Class::Lists => true,
            Class::Plain | Class::Items => false,
        },
    }
}
