//! Names that a scope declares once.

ghost use Rattle.std.specs.Prelude.{◌≡◌, map, Some, Ok, is_none, IsTrue, IfOk};
ghost use Rattle.std.specs.Cmp.Lexicographic.{slice_cmp};
ghost use Rattle.std.specs.List.{list_any};
ghost use Rattle.std.specs.List.Sorted.{IsStrictlySortedBy};
ghost use Rattle.std.specs.Ordering.{is_lt, nat_cmp};
ghost use Rattle.std.specs.Str.{bytes_eq};
ghost use Rattle.name_tables.specs.Names.{bytes_of, by_lent_bytes, place_of};
ghost use Rattle.ex_named.specs.Outcomes.{Binds, both, given};
ghost use Rattle.ex_declarations.specs.Declared as spec;
ghost use Rattle.ex_declarations.specs.Steps.{told};

use ex_named::{Binding, NameFault, NameFaultKind};
use ex_tree::Name;
use name_tables::{NameTable, hashes_differ};
use plain_data::Failure;
use std::alloc::{AllocError, Global};
use std::cmp::Ordering;

/// Of a fault that was found, if any, and one more the one of lesser offset; the first, where they lie at one.
fn least(found: Option<NameFault>, next: NameFault) -> NameFault
    ensures { told (Some result) ≡ given (λ p. tt) (both (told found) (told (Some next))) }
{
    match found {
        Some(fault) if next.at >= fault.at => fault,
        _ => next,
    }
}

/// The least fault of a name that stands in the list before, if there is one.
#[tactic(auto, unfolding(crate::specs::Declared::once))]
fn first_repeated(alloc: Global, names: &[&Name]) -> Binding<()>
    ensures { Binds result (spec.once (map (λ n. n.now) names.now)) }
{
    let mut before = NameTable::new(alloc);
    let mut found = None;
    // The names need not stand in the order of the text.
    for name in names {
        let text = name.text.as_bytes();
        if before.place(text).is_some() {
            let twice = NameFault {
                kind: NameFaultKind::DeclaredTwice,
                at: name.at,
            };
            found = Some(least(found, twice));
        }
        before.push(text)?;
    }
    match found {
        Some(fault) => Err(Failure::Fault(fault)),
        None => Ok(()),
    }
}

/// Whether no name of a scope is declared twice; else the fault lies at the second.
pub fn once(alloc: Global, names: &[&Name]) -> Binding<()>
    ensures { Binds result (spec.once (map (λ n. n.now) names.now)) }
{
    // Of nearly all lists it is enough to know that their names differ.
    if are_distinct(alloc, names)? {
        return Ok(());
    }
    first_repeated(alloc, names)
}

/// Whether all names differ.
#[tactic(auto)]
fn are_distinct(alloc: Global, names: &[&Name]) -> Result<bool, AllocError>
    ensures { IfOk result (λ told. IsTrue told → spec.once (map (λ n. n.now) names.now) ≡ Ok tt) }
{
    // So few are compared each with each.
    if names.len() <= 12 {
        return Ok(are_few_distinct(names));
    }
    let mut texts = texts(alloc, names)?;
    if hashes_differ(alloc, &texts)? {
        return Ok(true);
    }
    texts.sort_unstable();
    Ok(are_ascending(&texts))
}

/// The bytes of the names.
fn texts<'a>(alloc: Global, names: &[&'a Name]) -> Result<Vec<&'a [u8]>, AllocError>
    ensures { IfOk result (λ texts. bytes_of texts.items ≡ map (λ n. n.now.text) names.now) }
{
    let mut texts = Vec::with_capacity(alloc, names.len())?;
    for name in names {
        texts.push(name.text.as_bytes())?;
    }
    Ok(texts)
}

/// Whether each text is below those after it.
fn are_ascending(texts: &[&[u8]]) -> bool
    ensures { IsTrue result → IsStrictlySortedBy by_lent_bytes texts.now }
{
    texts.is_sorted_by(|text, next| is_below(text, next))
}

fn is_below(text: &[u8], next: &[u8]) -> bool
    ensures { result ≡ is_lt (slice_cmp nat_cmp text.now next.now) }
{
    text.cmp(next) == Ordering::Less
}

/// Whether the name stands in the list.
fn stands_in(names: &[&Name], name: &Name) -> bool
    ensures { result ≡ list_any (λ n. bytes_eq n.now.text name.now.text) names.now }
{
    names
        .iter()
        .any(|other| other.text.as_bytes() == name.text.as_bytes())
}

/// Whether the name differs from all of the list.
#[tactic(auto, using(crate::proofs::Distinct::any_named))]
fn is_new(names: &[&Name], name: &Name) -> bool
    ensures { result ≡ is_none (place_of name.now.text (map (λ n. n.now.text) names.now)) }
{
    !stands_in(names, name)
}

/// Whether each name differs from those before it.
#[tactic(auto, unfolding(crate::specs::Declared::once))]
fn are_few_distinct(names: &[&Name]) -> bool
    ensures { IsTrue result → spec.once (map (λ n. n.now) names.now) ≡ Ok tt }
{
    for (place, name) in names.iter().enumerate() {
        if !is_new(&names[..place], name) {
            return false;
        }
    }
    true
}
