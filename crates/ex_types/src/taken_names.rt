//! Which names of attributes a schema's expressions take so often of what may be of many entities that what is found of them
//! is kept. Nothing but time rests on the choice.

ghost use Rattle.std.specs.Prelude.{◌≡◌, OnOk};

use ex_named::{
    NamedDataType, NamedDomainRule, NamedLocal, NamedSchema, NamedType, NamedUnderlying, TypeName,
};
use ex_typing::{Known, TakenName, push_taken};
use ex_typing_statements::push_taken_of_statements;
use std::alloc::{AllocError, Global};
use std::collections::BTreeMap;

/// So many names are kept at most.
const MOST_NAMES: usize = 64;
/// The tables of all names have so many parts at most.
const MOST_PARTS: usize = 1 << 21;
/// So many attributes taken one of another are kept at most.
const MOST_BEHIND: usize = 4;
/// A type of fewer parts is looked through each time.
const FEWEST_PARTS: usize = 64;
/// So often something is looked at before it is worth a table.
const FEWEST_LOOKS: usize = 1 << 17;
/// So many looks a table has to save for each part of each type.
const WORTH: usize = 8;

fn push_taken_of_rules<'a>(
    names: &mut Vec<TakenName<'a>>,
    list: &'a [NamedDomainRule],
) -> Result<(), AllocError> {
    for rule in list {
        push_taken(names, &rule.condition)?;
    }
    Ok(())
}

fn push_taken_of_locals<'a>(
    names: &mut Vec<TakenName<'a>>,
    list: &'a [NamedLocal],
) -> Result<(), AllocError> {
    for local in list {
        if let Some(value) = &local.value {
            push_taken(names, value)?;
        }
    }
    Ok(())
}

/// Puts the names that declarations of constants, types and entities take behind the others.
fn push_taken_of_declarations<'a>(
    names: &mut Vec<TakenName<'a>>,
    schema: &'a NamedSchema,
) -> Result<(), AllocError> {
    for constant in schema.constants.as_slice() {
        push_taken(names, &constant.value)?;
    }
    for declared in schema.types.as_slice() {
        push_taken_of_rules(names, declared.domain_rules.as_slice())?;
    }
    for entity in schema.entities.as_slice() {
        for derived in entity.derived.as_slice() {
            push_taken(names, &derived.value)?;
        }
        push_taken_of_rules(names, entity.domain_rules.as_slice())?;
    }
    Ok(())
}

/// Puts the names that functions and rules take behind the others.
fn push_taken_of_algorithms<'a>(
    names: &mut Vec<TakenName<'a>>,
    schema: &'a NamedSchema,
) -> Result<(), AllocError> {
    for function in schema.functions.as_slice() {
        push_taken_of_locals(names, function.locals.as_slice())?;
        push_taken_of_statements(names, function.statements.as_slice())?;
    }
    for rule in schema.rules.as_slice() {
        push_taken_of_locals(names, rule.locals.as_slice())?;
        push_taken_of_statements(names, rule.statements.as_slice())?;
        push_taken_of_rules(names, rule.domain_rules.as_slice())?;
    }
    Ok(())
}

/// How often each name is taken.
fn counted<'a>(
    alloc: Global,
    names: &[TakenName<'a>],
) -> Result<BTreeMap<&'a str, usize>, AllocError> {
    let mut counts = BTreeMap::new(alloc);
    for taken in names {
        let count: &mut usize = counts.entry(taken.name)?.or_insert(0);
        *count = count.saturating_add(1);
    }
    Ok(counts)
}

/// The names that the schema takes, as often as it does.
fn taken_names(alloc: Global, schema: &NamedSchema) -> Result<Vec<TakenName<'_>>, AllocError> {
    let mut names = Vec::new(alloc);
    push_taken_of_declarations(&mut names, schema)?;
    push_taken_of_algorithms(&mut names, schema)?;
    Ok(names)
}

/// The pairs of names of which the second is taken of an attribute of the first, each once.
fn pairs<'a>(
    alloc: Global,
    names: &[TakenName<'a>],
) -> Result<Vec<(&'a str, &'a str)>, AllocError> {
    let mut found = Vec::new(alloc);
    for taken in names {
        if let Some(first) = taken.of {
            found.push((first, taken.name))?;
        }
    }
    found.sort()?;
    found.dedup();
    Ok(found)
}

/// Keeps what is found of names in what attributes may be that are kept.
fn keep_pairs(alloc: Global, known: &mut Known, names: &[TakenName<'_>]) -> Result<(), AllocError>
    ensures { OnOk result (known.new ≡ known.old) }
{
    let pairs = pairs(alloc, names)?;
    for _ in 0..MOST_BEHIND {
        for (first, name) in &pairs {
            known.keep_behind(alloc, first, name)?;
        }
    }
    Ok(())
}

/// What stands in this place among what a type is by renaming or selection.
fn part(types: &[NamedType], number: usize, place: usize) -> Option<TypeName> {
    match &types.get(number)?.underlying {
        NamedUnderlying::Select(members) => members.as_slice().get(place).copied(),
        NamedUnderlying::Data(NamedDataType::Named(name)) if place == 0 => Some(*name),
        _ => None,
    }
}

/// A type whose parts are counted: up to this place there are so many.
#[derive(Clone, Copy)]
struct Counting {
    number: usize,
    place: usize,
    count: usize,
}

/// Counts the parts of the types on the stack and of those below them that aren't counted yet.
fn count_parts(
    types: &[NamedType],
    counts: &mut [usize],
    stack: &mut Vec<Counting>,
) -> Result<(), AllocError> {
    // (The stack is empty long before: the bound shows that the walk ends.)
    for _ in 0..u64::MAX {
        let Some(mut at) = stack.pop() else {
            break;
        };
        match part(types, at.number, at.place) {
            Some(TypeName::Defined(number)) if number < counts.len() && counts[number] == 0 => {
                counts[number] = 1;
                stack.push(at)?;
                stack.push(Counting {
                    number,
                    place: 0,
                    count: 0,
                })?;
            }
            Some(name) => {
                at.count = at.count.saturating_add(counted_part(counts, name));
                at.place = at.place.wrapping_add(1);
                stack.push(at)?;
            }
            None => {
                if at.number < counts.len() {
                    counts[at.number] = at.count.saturating_add(1);
                }
            }
        }
    }
    Ok(())
}

fn counted_part(counts: &[usize], name: TypeName) -> usize {
    match name {
        TypeName::Defined(number) => counts.get(number).copied().unwrap_or(1),
        TypeName::Entity(_) => 1,
    }
}

/// How many parts the types have, and how many are looked through for the one with the most, each way to one counted.
fn sizes(alloc: Global, types: &[NamedType]) -> Result<(usize, usize), AllocError> {
    let mut counts: Vec<usize> = vec![in alloc; 0; types.len()]?;
    let mut stack = Vec::new(alloc);
    let (mut all, mut widest): (usize, usize) = (types.len(), 0);
    for (number, declared) in types.iter().enumerate() {
        if let NamedUnderlying::Select(members) = &declared.underlying {
            all = all.saturating_add(members.as_slice().len());
        }
        if counts.get(number).copied() == Some(0) {
            stack.push(Counting {
                number,
                place: 0,
                count: 0,
            })?;
            count_parts(types, &mut counts, &mut stack)?;
        }
        widest = widest.max(counts.get(number).copied().unwrap_or(0));
    }
    Ok((all, widest.min(all)))
}

/// The names that are worth a table, with how often they are taken, in the order of that.
fn worth_keeping<'a>(
    alloc: Global,
    counts: &BTreeMap<&'a str, usize>,
    all: usize,
    widest: usize,
) -> Result<Vec<(usize, &'a str)>, AllocError> {
    let mut found = Vec::new(alloc);
    for (name, count) in counts {
        let looks = count.saturating_mul(widest);
        if looks >= FEWEST_LOOKS && looks / WORTH >= all {
            found.push((*count, *name))?;
        }
    }
    found.sort()?;
    Ok(found)
}

/// Keeps what is found of the names that are taken so often that it is worth it.
pub fn keep_taken(alloc: Global, known: &mut Known, schema: &NamedSchema) -> Result<(), AllocError>
    ensures { OnOk result (known.new ≡ known.old) }
{
    let (all, widest) = sizes(alloc, schema.types.as_slice())?;
    if widest < FEWEST_PARTS {
        return Ok(());
    }
    let names = taken_names(alloc, schema)?;
    let counts = counted(alloc, &names)?;
    let chosen = worth_keeping(alloc, &counts, all, widest)?;
    for (_, name) in chosen
        .iter()
        .rev()
        .take(MOST_NAMES.min(MOST_PARTS / all.max(1)))
    {
        known.keep(alloc, name)?;
    }
    keep_pairs(alloc, known, &names)
}
