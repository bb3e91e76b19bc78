//! What SELECTs choose from, kept by its sorts.
//!
//! A value without a keyword is of the only choice that takes it. So two of a sort stand for all others of it: either both take
//! the value, or none of them does. What a SELECT keeps is found from what its members keep.

ghost use Rattle.std.specs.Prelude.{◌≡◌, ◌<◌, ◌||◌, ◌&&◌, ◌==◌, ℕ, length, ⊤, MatchOption, Some, None, IfOk, OnOk};
ghost use Rattle.std.specs.List.Sorted.{IsStrictlySortedBy};
ghost use Rattle.std.specs.Ordering.{nat_cmp};
ghost use Rattle.plain_data.specs.Numbers.{is_among};
ghost use Rattle.ex_selects.specs.Sorts as sorted;
ghost use Rattle.ex_selects.specs.Kept as spec;

use crate::sorts::{Class, Sort, is_of, sort_at};
use graphs::{NONE, subtypes, supertypes, traces};
use plain_data::Rows;
use std::alloc::{AllocError, Global};
use std::collections::BTreeSet;

/// Of each type what it keeps of the types that it chooses from, where it keeps something: a table for each class.
pub struct Kept {
    pub plain: Vec<Option<Rows<usize>>>,
    pub items: Vec<Option<Rows<usize>>>,
    pub lists: Vec<Option<Rows<usize>>>,
}

impl Drop for Kept {
    fn drop(self) {
        match self {
            Kept {
                plain,
                items,
                lists,
            } => {
                drop(plain);
                drop(items);
                drop(lists);
            }
        }
    }
}

/// The types of a graph, those above others first. Nothing is proved of the order, and nothing rests on it.
fn bottom_up(alloc: Global, graph: &[Rows<usize>]) -> Result<Vec<usize>, AllocError> {
    let below = subtypes(alloc, graph)?;
    let traces = traces(alloc, graph, &below)?;
    let mut order = Vec::with_capacity(alloc, graph.len())?;
    for _ in 0..graph.len() {
        order.push(NONE)?;
    }
    for (number, trace) in traces.iter().enumerate() {
        if trace.turn < order.len() {
            let place = order.len() - 1 - trace.turn;
            order[place] = number;
        }
    }
    Ok(order)
}

/// Whether two of the sort suffice.
fn suffices(sort: Sort) -> bool
    ensures { result ≡ spec.suffices sort }
{
    match sort {
        Sort::Integer | Sort::Number | Sort::Real | Sort::Text | Sort::Binary => true,
        Sort::Nothing | Sort::Item | Sort::List => false,
    }
}

fn rank(sort: Sort) -> u8
    ensures { result ≡ spec.rank sort }
{
    match sort {
        Sort::Nothing => 0,
        Sort::Integer => 1,
        Sort::Number => 2,
        Sort::Real => 3,
        Sort::Text => 4,
        Sort::Binary => 5,
        Sort::Item => 6,
        Sort::List => 7,
    }
}

/// Whether a number is of the sort.
fn is_one(sorts: &[Sort], number: usize, sort: Sort) -> bool
    ensures { result ≡ spec.is_same (sorted.sort_at sorts.now number) sort }
{
    rank(sort_at(sorts, number)) == rank(sort)
}

/// Whether another of the numbers is of the sort.
fn has_other(sorts: &[Sort], numbers: &[usize], sort: Sort, number: usize) -> bool
    ensures { result ≡ spec.has_other sorts.now numbers.now sort number }
{
    numbers
        .iter()
        .any(|other| *other != number && is_one(sorts, *other, sort))
}

/// Whether two of the numbers are of the sort.
fn has_pair(sorts: &[Sort], numbers: &[usize], sort: Sort) -> bool
    ensures { result ≡ spec.has_pair sorts.now numbers.now sort }
{
    numbers.iter().any(|number| is_one(sorts, *number, sort)
        && has_other(sorts, numbers, sort, *number))
}

/// Whether two suffice of the sort, and are among the numbers.
fn has_two(sorts: &[Sort], numbers: &[usize], sort: Sort) -> bool
    ensures { result ≡ spec.has_two sorts.now numbers.now sort }
{
    suffices(sort) && has_pair(sorts, numbers, sort)
}

/// The numbers without those of which two others of their sort are there.
fn thinned(alloc: Global, sorts: &[Sort], numbers: &[usize]) -> Result<Rows<usize>, AllocError>
    requires { IsStrictlySortedBy nat_cmp numbers.now }
    ensures { IfOk result (λ kept. spec.StandFor sorts.now numbers.now kept) }
{
    let mut kept = Rows::new(alloc);
    for number in numbers {
        if !has_two(sorts, kept.as_slice(), sort_at(sorts, *number)) {
            kept.push(*number)?;
        }
    }
    Ok(kept)
}

/// What a table has of a number, where it has something.
pub fn kept_at(all: &[Option<Rows<usize>>], number: usize) -> Option<&[usize]>
    ensures { MatchOption result (spec.kept_in all.now number ≡ None) (λ kept. spec.kept_in all.now number ≡ Some kept.now) }
{
    match all.get(number) {
        Some(Some(kept)) => Some(kept.as_slice()),
        Some(None) | None => None,
    }
}

fn add_all(found: &mut BTreeSet<usize>, numbers: &[usize]) -> Result<(), AllocError>
    ensures { (k : ℕ) → OnOk result (is_among found.new.keys k ≡ (is_among found.old.keys k || is_among numbers.now k)) }
{
    for number in numbers {
        found.insert(*number)?;
    }
    Ok(())
}

/// What the members keep, where each keeps something, and there is room for all of it.
fn united(
    alloc: Global,
    all: &[Option<Rows<usize>>],
    members: &[usize],
    room: &mut usize,
) -> Result<Option<BTreeSet<usize>>, AllocError>
    ensures { IfOk result (λ found. MatchOption found ⊤ (λ numbers. spec.IsUnited all.now members.now numbers.keys)) }
{
    let mut found = BTreeSet::new(alloc);
    for member in members {
        let Some(kept) = kept_at(all, *member) else {
            return Ok(None);
        };
        if kept.len() > *room {
            return Ok(None);
        }
        *room -= kept.len();
        add_all(&mut found, kept)?;
    }
    Ok(Some(found))
}

/// Adds a number, if it is to be added.
fn add_if(found: &mut BTreeSet<usize>, is_added: bool, number: usize) -> Result<(), AllocError>
    ensures { (k : ℕ) → OnOk result (is_among found.new.keys k ≡ ((is_added && number == k) || is_among found.old.keys k)) }
{
    if is_added {
        found.insert(number)?;
    }
    Ok(())
}

fn ascending(alloc: Global, numbers: BTreeSet<usize>) -> Result<Vec<usize>, AllocError>
    ensures same { IfOk result (λ found. found.items ≡ numbers.keys) }
    ensures ascend { IfOk result (λ found. IsStrictlySortedBy nat_cmp found.items) }
{
    let found: Vec<usize> = numbers.into_iter().collect(alloc)?;
    Ok(found)
}

/// What a type keeps of a class.
fn kept_of(
    alloc: Global,
    graph: &[Rows<usize>],
    sorts: &[Sort],
    class: Class,
    all: &[Option<Rows<usize>>],
    number: usize,
    room: &mut usize,
) -> Result<Option<Rows<usize>>, AllocError>
    requires table { spec.IsTable graph.now sorts.now class all.now }
    requires within { number < length graph.now }
    ensures { IfOk result (λ found. MatchOption found ⊤ (λ kept. spec.StandFor sorts.now (spec.of_class graph.now sorts.now class number) kept)) }
{
    let Some(mut found) = united(alloc, all, supertypes(graph, number), room)? else {
        return Ok(None);
    };
    add_if(&mut found, is_of(class, sort_at(sorts, number)), number)?;
    let numbers = ascending(alloc, found)?;
    let kept = thinned(alloc, sorts, &numbers)?;
    Ok(Some(kept))
}

/// How much may be kept in all: for each type and each of its members some.
fn room_of(graph: &[Rows<usize>]) -> usize {
    let mut count: usize = graph.len();
    for members in graph {
        count = count.saturating_add(members.len());
    }
    count.saturating_mul(16)
}

/// Nothing for each type.
fn nothing_kept(alloc: Global, count: usize) -> Result<Vec<Option<Rows<usize>>>, AllocError>
    ensures many { IfOk result (λ all. length all.items ≡ count) }
    ensures nothing { IfOk result (λ all. (n : ℕ) → spec.kept_in all.items n ≡ None) }
{
    let mut all = Vec::with_capacity(alloc, count)?;
    for _ in 0..count {
        all.push(None)?;
    }
    Ok(all)
}

/// Of each type what it keeps of a class, in this order; nothing where there is no room.
fn all_kept(
    alloc: Global,
    graph: &[Rows<usize>],
    sorts: &[Sort],
    order: &[usize],
    class: Class,
) -> Result<Vec<Option<Rows<usize>>>, AllocError>
    ensures { IfOk result (λ all. spec.IsTable graph.now sorts.now class all.items) }
{
    let mut all = nothing_kept(alloc, graph.len())?;
    let mut room = room_of(graph);
    for number in order {
        if *number < graph.len() {
            let kept = kept_of(alloc, graph, sorts, class, &all, *number, &mut room)?;
            all[*number] = kept;
        }
    }
    Ok(all)
}

/// Of each type what it keeps.
pub fn kept_by_class(
    alloc: Global,
    graph: &[Rows<usize>],
    sorts: &[Sort],
) -> Result<Kept, AllocError>
    ensures { IfOk result (λ kept. spec.IsKept graph.now sorts.now kept) }
{
    let order = bottom_up(alloc, graph)?;
    let plain = all_kept(alloc, graph, sorts, &order, Class::Plain)?;
    let items = all_kept(alloc, graph, sorts, &order, Class::Items)?;
    let lists = all_kept(alloc, graph, sorts, &order, Class::Lists)?;
    Ok(Kept {
        plain,
        items,
        lists,
    })
}

/// What is kept of a class.
pub fn table_of(kept: &Kept, class: Class) -> &[Option<Rows<usize>>]
    ensures { result.now ≡ spec.table_of kept.now class }
{
    match class {
        Class::Plain => &kept.plain,
        Class::Items => &kept.items,
        Class::Lists => &kept.lists,
    }
}
