//! Whether types take a value, told for several at once.
//!
//! A list at a SELECT may be of several aggregates, whose elements may be SELECTs again. Each element is visited once for the
//! types of the elements of all of them, and each SELECT among these is asked once. What is found is kept in rows, so that the
//! value is built without asking again.

ghost use Rattle.std.specs.Prelude.{◌≡◌, ◌++◌, ◌∷◌, ◌&&◌, [], List, Bool, Some, None, true, map, length, is_some, slice_get, IfOk, IfSome, OnOk};
ghost use Rattle.std.specs.List.{flat_map, list_all};
ghost use Rattle.ex_selects.specs.Ends as ends;
ghost use Rattle.ex_selects.specs.Levels.{AreLevels};
ghost use Rattle.ex_selects.specs.Seen.{seen, seen_target};
ghost use Rattle.p21_values.specs.Taking as taking;
ghost use Rattle.p21_values.specs.Deciding as spec;

use crate::alone::{bare_token, reference};
use crate::candidates::{at, only_candidate};
use ex_selects::{Base, Candidate, DefinedTypes, Level, Target, inside, level_of, levels_of};
use p21_tree::Value as SpelledValue;
use plain_data::Rows;
use std::alloc::{AllocError, Global};
use std::slice;

/// Of each group whether just one of it is taken.
fn verdicts(
    alloc: Global,
    groups: &[Rows<Candidate>],
    taken: &[bool],
) -> Result<Vec<bool>, AllocError>
    ensures { IfOk result (λ found. found.items ≡ map (λ g. is_some (spec.only_candidate g taken.now)) groups.now) }
{
    let mut found = Vec::with_capacity(alloc, groups.len())?;
    for group in groups {
        found.push(only_candidate(group.as_slice(), taken).is_some())?;
    }
    Ok(found)
}

/// Where each is true of both.
#[tactic(auto, using(crate::proofs::Steps::both_turn))]
fn both(alloc: Global, first: &[bool], second: &[bool]) -> Result<Vec<bool>, AllocError>
    requires { length first.now ≡ length second.now }
    ensures { IfOk result (λ found. found.items ≡ spec.both first.now second.now) }
{
    let mut found = Vec::with_capacity(alloc, first.len())?;
    for place in 0..first.len() {
        let is_both = at(first, place) && at(second, place);
        found.push(is_both)?;
    }
    Ok(found)
}

/// Whether a type takes a value that holds no others.
#[tactic(auto, unfolding(crate::specs::Taking::meaning))]
fn takes_alone<'s>(
    alloc: Global,
    types: &DefinedTypes<'s>,
    value: &SpelledValue<'_>,
    target: &Target<'s>,
) -> Result<bool, AllocError>
    ensures { IfOk result (λ takes. takes ≡ spec.takes_alone types.now value.now (seen_target target.now)) }
{
    match value {
        SpelledValue::Unset => Ok(true),
        SpelledValue::Derived | SpelledValue::List(_) | SpelledValue::Typed(_, _) => Ok(false),
        SpelledValue::Reference(name) => Ok(reference(types, *name, &target.base).is_some()),
        _ => Ok(bare_token(alloc, types, value, &target.base)?.is_some()),
    }
}

fn each_alone<'s>(
    alloc: Global,
    types: &DefinedTypes<'s>,
    value: &SpelledValue<'_>,
    targets: &[Target<'s>],
) -> Result<Vec<bool>, AllocError>
    ensures { IfOk result (λ taken. taken.items ≡ map (λ t. spec.takes_alone types.now value.now (seen_target t)) targets.now) }
{
    let mut taken = Vec::with_capacity(alloc, targets.len())?;
    for target in targets {
        taken.push(takes_alone(alloc, types, value, target)?)?;
    }
    Ok(taken)
}

/// Whether a value under the name of a type may be of this one.
fn may_name(
    alloc: Global,
    types: &DefinedTypes<'_>,
    number: usize,
    target: &Target<'_>,
) -> Result<bool, AllocError>
    ensures { IfOk result (λ told. told ≡ spec.may_name types.now (Some number) (seen_target target.now)) }
{
    if target.name == Some(number) {
        return Ok(true);
    }
    match target.base {
        Base::Select(select) => types.chooses(alloc, select, number),
        _ => Ok(false),
    }
}

/// Which types take a value under the name of a type, where that takes it or not.
fn each_named<'s>(
    alloc: Global,
    types: &DefinedTypes<'s>,
    number: usize,
    fits: bool,
    targets: &[Target<'s>],
) -> Result<Vec<bool>, AllocError>
    ensures { IfOk result (λ taken. taken.items ≡ map (λ t. fits && spec.may_name types.now (Some number) (seen_target t)) targets.now) }
{
    let mut taken = Vec::with_capacity(alloc, targets.len())?;
    for target in targets {
        let takes = fits && may_name(alloc, types, number, target)?;
        taken.push(takes)?;
    }
    Ok(taken)
}

/// How deep lists stand in a value. It only says how many levels are found beforehand, so no clause tells it.
#[cycle(depth)]
fn depth(value: &SpelledValue<'_>) -> usize {
    match value {
        SpelledValue::List(values) => depth_of(values.as_slice()).saturating_add(1),
        _ => 0,
    }
}

/// How deep lists stand in the values of a list.
#[cycle(depth)]
pub fn depth_of(values: &[SpelledValue<'_>]) -> usize {
    let mut deepest = 0;
    'values: for value in values {
        deepest = depth(value).max(deepest);
    }
    deepest
}

/// The SELECT that a type is, where a list stands among the values. That only says what is found beforehand, so no clause tells it.
pub fn select_of_lists(values: &[SpelledValue<'_>], target: &Target<'_>) -> Option<usize>
    ensures { IfSome result (λ number. seen target.now.base ≡ ends.Select number) }
{
    match target.base {
        Base::Select(number) => {
            if depth_of(values) == 0 {
                None
            } else {
                Some(number)
            }
        }
        _ => None,
    }
}

/// Which of the types take the value under a keyword, which is the name of this type.
#[cycle(deciding)]
#[tactic(auto, using(crate::proofs::Decided::each_named, crate::proofs::Decided::none_named))]
fn takes_named<'s>(
    alloc: Global,
    types: &DefinedTypes<'s>,
    number: Option<usize>,
    value: &SpelledValue<'_>,
    targets: &[Target<'s>],
) -> Result<Vec<bool>, AllocError>
    ensures { IfOk result (λ taken. taken.items ≡ map (λ t. is_some (taking.named_by types.now (taking.meaning types.now value.now) number (seen_target t))) targets.now) }
{
    let Some(number) = number else {
        return each_named(alloc, types, 0, false, targets);
    };
    let fits = fits(alloc, types, value, &inside(types.types(), number))?;
    each_named(alloc, types, number, fits, targets)
}

/// Whether the type takes the value, which is not `$`.
#[cycle(deciding)]
fn fits<'s>(
    alloc: Global,
    types: &DefinedTypes<'s>,
    value: &SpelledValue<'_>,
    target: &Target<'s>,
) -> Result<bool, AllocError>
    ensures { IfOk result (λ fits. fits ≡ is_some ((taking.meaning types.now value.now).fit (seen_target target.now))) }
{
    match value {
        SpelledValue::Unset => Ok(false),
        _ => {
            let targets = slice::from_ref(target);
            let levels = levels_of(alloc, types, targets, depth(value))?;
            let taken = takes(alloc, types, value, targets, &levels, &mut Vec::new(alloc))?;
            Ok(at(&taken, 0))
        }
    }
}

/// Which of the types take the value. Behind the rows stand then those of the value.
#[cycle(deciding)]
fn takes<'s>(
    alloc: Global,
    types: &DefinedTypes<'s>,
    value: &SpelledValue<'_>,
    targets: &[Target<'s>],
    levels: &[Level<'s>],
    rows: &mut Vec<bool>,
) -> Result<Vec<bool>, AllocError>
    requires { AreLevels types.now targets.now levels.now }
    ensures taken { IfOk result (λ taken. taken.items ≡ map (λ t. spec.takes (taking.meaning types.now value.now) (seen_target t)) targets.now) }
    ensures rows { OnOk result (rows.new.items ≡ rows.old.items ++ spec.rows types.now levels.now value.now) }
{
    match value {
        SpelledValue::List(values) => takes_list(
            alloc,
            types,
            values.as_slice(),
            targets,
            levels,
            rows,
        ),
        SpelledValue::Typed(keyword, value) => {
            let number = types.number(alloc, keyword.as_bytes())?;
            takes_named(alloc, types, number, value.get(), targets)
        }
        _ => each_alone(alloc, types, value, targets),
    }
}

/// Which of the types take the list.
#[cycle(deciding)]
fn takes_list<'s>(
    alloc: Global,
    types: &DefinedTypes<'s>,
    values: &[SpelledValue<'_>],
    targets: &[Target<'s>],
    levels: &[Level<'s>],
    rows: &mut Vec<bool>,
) -> Result<Vec<bool>, AllocError>
    requires { AreLevels types.now targets.now levels.now }
    ensures taken { IfOk result (λ taken. taken.items ≡ map (λ t. is_some (taking.bare_at types.now (taking.of_list types.now (map (taking.meaning types.now) values.now)) (seen t.base))) targets.now) }
    ensures rows { OnOk result (rows.new.items ≡ rows.old.items ++ spec.rows_of_list types.now levels.now values.now) }
{
    match levels.split_first() {
        Some((level, below)) => takes_at(alloc, types, values, level, below, rows),
        None => {
            let level = level_of(alloc, types, targets)?;
            takes_at(alloc, types, values, &level, &[], &mut Vec::new(alloc))
        }
    }
}

/// Of each group of a level whether just one of it takes the list.
#[cycle(deciding)]
fn takes_at<'s>(
    alloc: Global,
    types: &DefinedTypes<'s>,
    values: &[SpelledValue<'_>],
    level: &Level<'s>,
    below: &[Level<'s>],
    rows: &mut Vec<bool>,
) -> Result<Vec<bool>, AllocError>
    requires { AreLevels types.now level.now.targets.items below.now }
    ensures taken { IfOk result (λ taken. taken.items ≡ map (λ g. is_some (spec.only_candidate g (spec.row types.now level.now values.now))) level.now.groups.items) }
    ensures rows { OnOk result (rows.new.items ≡ rows.old.items ++ spec.rows_of_list types.now (level.now ∷ below.now) values.now) }
{
    let mut inner = Vec::new(alloc);
    let taken = take_all(alloc, types, values, &level.targets, below, &mut inner)?;
    rows.extend_from_slice(&taken)?;
    rows.extend_from_slice(&inner)?;
    verdicts(alloc, &level.groups, &taken)
}

/// Which of the types take each of the values.
#[cycle(deciding)]
#[tactic(auto, using(crate::proofs::Decided::narrowed, crate::proofs::Decided::all_true))]
fn take_all<'s>(
    alloc: Global,
    types: &DefinedTypes<'s>,
    values: &[SpelledValue<'_>],
    targets: &[Target<'s>],
    below: &[Level<'s>],
    rows: &mut Vec<bool>,
) -> Result<Vec<bool>, AllocError>
    requires { AreLevels types.now targets.now below.now }
    ensures taken { IfOk result (λ taken. taken.items ≡ map (λ t. spec.takes_each (map (taking.meaning types.now) values.now) (seen_target t)) targets.now) }
    ensures rows { OnOk result (rows.new.items ≡ rows.old.items ++ flat_map (spec.rows types.now below.now) values.now) }
{
    let mut taken = vec![in alloc; true; targets.len()]?;
    'values: for value in values {
        let also = takes(alloc, types, value, targets, below, rows)?;
        taken = both(alloc, &taken, &also)?;
    }
    Ok(taken)
}

/// What is found of a list at a level, and of the lists in it below: rows of which types take the values of each.
pub fn rows_of<'s>(
    alloc: Global,
    types: &DefinedTypes<'s>,
    values: &[SpelledValue<'_>],
    level: &Level<'s>,
    below: &[Level<'s>],
) -> Result<Vec<bool>, AllocError>
    requires { AreLevels types.now level.now.targets.items below.now }
    ensures { IfOk result (λ rows. rows.items ≡ spec.rows_of_list types.now (level.now ∷ below.now) values.now) }
{
    let mut rows = Vec::new(alloc);
    takes_at(alloc, types, values, level, below, &mut rows)?;
    Ok(rows)
}
