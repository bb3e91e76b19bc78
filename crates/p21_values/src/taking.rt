//! What a declared type takes of a value as a file spells it.

ghost use Rattle.std.specs.Prelude.{◌≡◌, ◌∷◌, [], List, map, length, take, drop, slice_get, Some, None, IfOk, IfSome, OnOk};
ghost use Rattle.std.specs.List.{flat_map};
ghost use Rattle.std.specs.Option.{option_map};
ghost use Rattle.rp_value.specs.declared.value.Value.TheVariants as v;
ghost use Rattle.ex_selects.specs.declared.ends.Base.TheVariants as code;
ghost use Rattle.ex_selects.specs.Ends as ends;
ghost use Rattle.ex_selects.specs.Levels.{AreLevels, IsGroup, aggregates, element};
ghost use Rattle.ex_selects.specs.Seen.{seen, seen_target};
ghost use Rattle.p21_values.specs.Deciding as deciding;
ghost use Rattle.p21_values.specs.Taking as spec;

use crate::alone::{Taken, bare_token, reference, under_name};
use crate::candidates::only_candidate;
use crate::deciding::{depth_of, rows_of, select_of_lists};
use crate::rest::Rest;
use ex_selects::{
    Base, Candidate, DefinedTypes, Level, Levels, Target, base_of, inside, level_of, levels_of,
    target_of,
};
use p21_tree::Value as SpelledValue;
use plain_data::Items;
use rp_value::{AggregateKind, Value};
use std::alloc::{AllocError, Global};
use std::slice;

fn aggregate(alloc: Global, kind: AggregateKind, low: i64, items: Option<Items<Value>>) -> Taken
    ensures { IfOk result (λ taken. taken ≡ option_map (λ xs. v.Agg kind (record { low = low; items = xs })) items) }
{
    match items {
        Some(items) => Ok(Some(Value::aggregate(alloc, kind, low, items)?)),
        None => Ok(None),
    }
}

/// What a list at a SELECT may be of, and the lists in it.
fn levels_at<'s>(
    alloc: Global,
    types: &DefinedTypes<'s>,
    values: &[SpelledValue<'_>],
    number: usize,
) -> Result<Levels<'s>, AllocError>
    ensures { IfOk result (λ levels. AreLevels types.now (record { name = None; base = code.Select number } ∷ []) (levels.first ∷ levels.below.items)) }
{
    let select = Target {
        name: None,
        base: Base::Select(number),
    };
    let first = level_of(alloc, types, slice::from_ref(&select))?;
    let below = levels_of(alloc, types, &first.targets, depth_of(values))?;
    Ok(Levels { first, below })
}

/// The elements, where the type takes each.
#[cycle(taking)]
fn elements(
    alloc: Global,
    types: &DefinedTypes<'_>,
    values: &[SpelledValue<'_>],
    target: &Target<'_>,
) -> Result<Option<Items<Value>>, AllocError>
    ensures { IfOk result (λ taken. taken ≡ spec.all_there (map (λ m. spec.place m (seen_target target.now)) (map (spec.meaning types.now) values.now))) }
{
    match select_of_lists(values, target) {
        Some(number) => select_elements(alloc, types, values, target, number),
        None => each_element(alloc, types, values, target),
    }
}

/// The elements, where the SELECT of this number takes each. What the lists among them may be of is found once for all.
#[cycle(taking)]
fn select_elements(
    alloc: Global,
    types: &DefinedTypes<'_>,
    values: &[SpelledValue<'_>],
    target: &Target<'_>,
    number: usize,
) -> Result<Option<Items<Value>>, AllocError>
    requires { seen target.now.base ≡ ends.Select number }
    ensures { IfOk result (λ taken. taken ≡ spec.all_there (map (λ m. spec.place m (seen_target target.now)) (map (spec.meaning types.now) values.now))) }
{
    let levels = levels_at(alloc, types, values, number)?;
    let mut items = Vec::with_capacity(alloc, values.len())?;
    'values: for value in values {
        match select_element(alloc, types, value, target, number, &levels)? {
            Some(item) => items.push(item)?,
            None => return Ok(None),
        }
    }
    Ok(Some(Items::from_vec(items)))
}

/// What the SELECT of this number takes of an element; a list may be of these aggregates.
#[cycle(taking)]
fn select_element<'s>(
    alloc: Global,
    types: &DefinedTypes<'s>,
    value: &SpelledValue<'_>,
    target: &Target<'_>,
    number: usize,
    levels: &Levels<'s>,
) -> Taken
    requires select { seen target.now.base ≡ ends.Select number }
    requires levels { AreLevels types.now (record { name = None; base = code.Select number } ∷ []) (levels.now.first ∷ levels.now.below.items) }
    ensures { IfOk result (λ taken. taken ≡ spec.place (spec.meaning types.now value.now) (seen_target target.now)) }
{
    match value {
        SpelledValue::List(values) => list_by(alloc, types, values.as_slice(), number, levels),
        _ => placed(alloc, types, value, target),
    }
}

/// The elements, where the type takes each.
#[cycle(taking)]
fn each_element(
    alloc: Global,
    types: &DefinedTypes<'_>,
    values: &[SpelledValue<'_>],
    target: &Target<'_>,
) -> Result<Option<Items<Value>>, AllocError>
    ensures { IfOk result (λ taken. taken ≡ spec.all_there (map (λ m. spec.place m (seen_target target.now)) (map (spec.meaning types.now) values.now))) }
{
    let mut items = Vec::with_capacity(alloc, values.len())?;
    'values: for value in values {
        match placed(alloc, types, value, target)? {
            Some(item) => items.push(item)?,
            None => return Ok(None),
        }
    }
    Ok(Some(Items::from_vec(items)))
}

/// What the type of an attribute or an element takes. What holds no other value is read here, without a further call.
#[cycle(taking)]
#[inline(always)]
#[tactic(auto, unfolding(crate::specs::Taking::meaning))]
pub fn placed(
    alloc: Global,
    types: &DefinedTypes<'_>,
    value: &SpelledValue<'_>,
    target: &Target<'_>,
) -> Taken
    ensures { IfOk result (λ taken. taken ≡ spec.place (spec.meaning types.now value.now) (seen_target target.now)) }
{
    match value {
        SpelledValue::Unset => Ok(Some(Value::Indet)),
        SpelledValue::Reference(name) => Ok(reference(types, *name, &target.base)),
        SpelledValue::Derived | SpelledValue::Typed(_, _) | SpelledValue::List(_) => {
            fitting(alloc, types, value, target)
        }
        _ => bare_token(alloc, types, value, &target.base),
    }
}

/// What a type takes.
#[cycle(taking)]
fn fitting(
    alloc: Global,
    types: &DefinedTypes<'_>,
    value: &SpelledValue<'_>,
    target: &Target<'_>,
) -> Taken
    ensures { IfOk result (λ taken. taken ≡ (spec.meaning types.now value.now).fit (seen_target target.now)) }
{
    match value {
        SpelledValue::Unset | SpelledValue::Derived => Ok(None),
        SpelledValue::Reference(name) => Ok(reference(types, *name, &target.base)),
        SpelledValue::Typed(keyword, inner) => {
            let number = types.number(alloc, keyword.as_bytes())?;
            named(alloc, types, number, inner.get(), target)
        }
        SpelledValue::List(values) => bare_list(alloc, types, values.as_slice(), &target.base),
        _ => bare_token(alloc, types, value, &target.base),
    }
}

/// What a type takes of a list without a keyword.
#[cycle(taking)]
fn bare_list(
    alloc: Global,
    types: &DefinedTypes<'_>,
    values: &[SpelledValue<'_>],
    base: &Base<'_>,
) -> Taken
    ensures { IfOk result (λ taken. taken ≡ spec.bare_at types.now (spec.of_list types.now (map (spec.meaning types.now) values.now)) (seen base.now)) }
{
    match base {
        Base::Select(number) => select_list(alloc, types, values, *number),
        Base::Aggregate(kind, low, element) => {
            let target = target_of(types.types(), element);
            let items = elements(alloc, types, values, &target)?;
            aggregate(alloc, *kind, *low, items)
        }
        _ => Ok(None),
    }
}

/// What a SELECT takes of a list without a keyword.
#[cycle(taking)]
fn select_list(
    alloc: Global,
    types: &DefinedTypes<'_>,
    values: &[SpelledValue<'_>],
    number: usize,
) -> Taken
    ensures { IfOk result (λ taken. taken ≡ spec.bare_at types.now (spec.of_list types.now (map (spec.meaning types.now) values.now)) (ends.Select number)) }
{
    let levels = levels_at(alloc, types, values, number)?;
    list_by(alloc, types, values, number, &levels)
}

/// What a SELECT takes of a list without a keyword, which may be of these aggregates.
#[cycle(taking)]
fn list_by<'s>(
    alloc: Global,
    types: &DefinedTypes<'s>,
    values: &[SpelledValue<'_>],
    number: usize,
    levels: &Levels<'s>,
) -> Taken
    requires { AreLevels types.now (record { name = None; base = code.Select number } ∷ []) (levels.now.first ∷ levels.now.below.items) }
    ensures { IfOk result (λ taken. taken ≡ spec.bare_at types.now (spec.of_list types.now (map (spec.meaning types.now) values.now)) (ends.Select number)) }
{
    let level = &levels.first;
    let below = levels.below.as_slice();
    let Some(group) = level.groups.first() else {
        return Ok(None);
    };
    let rows = rows_of(alloc, types, values, level, below)?;
    let base = Base::Select(number);
    let mut rest = Rest::of(&rows);
    list_at(
        alloc,
        types,
        values,
        &base,
        group.as_slice(),
        level,
        below,
        &mut rest,
    )
}

/// What a type takes of a list, which may be of these aggregates, by the rows of which types take its elements.
#[cycle(taking)]
fn list_at<'s>(
    alloc: Global,
    types: &DefinedTypes<'s>,
    values: &[SpelledValue<'_>],
    base: &Base<'s>,
    group: &[Candidate],
    level: &Level<'s>,
    below: &[Level<'s>],
    rest: &mut Rest<'_>,
) -> Taken
    requires group { IsGroup level.now.targets.items group.now (aggregates types.now (seen base.now)) }
    requires below { AreLevels types.now level.now.targets.items below.now }
    requires rows { deciding.StartsWith (deciding.rows_of_list types.now (level.now ∷ below.now) values.now) rest.old }
    ensures taken { IfOk result (λ taken. taken ≡ spec.bare_at types.now (spec.of_list types.now (map (spec.meaning types.now) values.now)) (seen base.now)) }
    ensures rest { IfOk result (λ taken. IfSome taken (λ v. rest.new ≡ drop (length (deciding.rows_of_list types.now (level.now ∷ below.now) values.now)) rest.old)) }
{
    let taken = rest.take(level.targets.as_slice().len());
    let Some(candidate) = only_candidate(group, taken) else {
        return Ok(None);
    };
    match candidate.number {
        Some(number) => {
            let base = base_of(types.types(), number);
            let taken = list_of(
                alloc,
                types,
                values,
                &base,
                candidate.place,
                level,
                below,
                rest,
            )?;
            under_name(alloc, number, taken)
        }
        None => list_of(
            alloc,
            types,
            values,
            base,
            candidate.place,
            level,
            below,
            rest,
        ),
    }
}

/// What an aggregate takes of a list, by the rows; the type of its elements stands at this place.
#[cycle(taking)]
fn list_of<'s>(
    alloc: Global,
    types: &DefinedTypes<'s>,
    values: &[SpelledValue<'_>],
    base: &Base<'s>,
    place: usize,
    level: &Level<'s>,
    below: &[Level<'s>],
    rest: &mut Rest<'_>,
) -> Taken
    requires element { element types.now (seen base.now) ≡ slice_get (map seen_target level.now.targets.items) place }
    requires below { AreLevels types.now level.now.targets.items below.now }
    requires rows { deciding.StartsWith (flat_map (deciding.rows types.now below.now) values.now) rest.old }
    ensures taken { IfOk result (λ taken. taken ≡ spec.of_list types.now (map (spec.meaning types.now) values.now) (seen base.now)) }
    ensures rest { IfOk result (λ taken. IfSome taken (λ v. rest.new ≡ drop (length (flat_map (deciding.rows types.now below.now) values.now)) rest.old)) }
{
    let Base::Aggregate(kind, low, _) = base else {
        return Ok(None);
    };
    let Some(target) = level.targets.get(place) else {
        return Ok(None);
    };
    let items = items_at(alloc, types, values, target, place, level, below, rest)?;
    aggregate(alloc, *kind, *low, items)
}

/// The elements, where the type at this place of a level takes each, by the rows.
#[cycle(taking)]
fn items_at<'s>(
    alloc: Global,
    types: &DefinedTypes<'s>,
    values: &[SpelledValue<'_>],
    target: &Target<'s>,
    place: usize,
    level: &Level<'s>,
    below: &[Level<'s>],
    rest: &mut Rest<'_>,
) -> Result<Option<Items<Value>>, AllocError>
    requires place { slice_get level.now.targets.items place ≡ Some target.now }
    requires below { AreLevels types.now level.now.targets.items below.now }
    requires rows { deciding.StartsWith (flat_map (deciding.rows types.now below.now) values.now) rest.old }
    ensures taken { IfOk result (λ taken. taken ≡ spec.all_there (map (λ m. spec.place m (seen_target target.now)) (map (spec.meaning types.now) values.now))) }
    ensures rest { IfOk result (λ taken. IfSome taken (λ xs. rest.new ≡ drop (length (flat_map (deciding.rows types.now below.now) values.now)) rest.old)) }
{
    match below.split_first() {
        Some((next, further)) => {
            let Some(group) = next.groups.get(place) else {
                return Ok(None);
            };
            elements_at(
                alloc,
                types,
                values,
                target,
                group.as_slice(),
                next,
                further,
                rest,
            )
        }
        None => elements(alloc, types, values, target),
    }
}

/// The elements, where the type takes each, by the rows.
#[cycle(taking)]
fn elements_at<'s>(
    alloc: Global,
    types: &DefinedTypes<'s>,
    values: &[SpelledValue<'_>],
    target: &Target<'s>,
    group: &[Candidate],
    level: &Level<'s>,
    below: &[Level<'s>],
    rest: &mut Rest<'_>,
) -> Result<Option<Items<Value>>, AllocError>
    requires group { IsGroup level.now.targets.items group.now (aggregates types.now (seen target.now.base)) }
    requires below { AreLevels types.now level.now.targets.items below.now }
    requires rows { deciding.StartsWith (flat_map (deciding.rows types.now (level.now ∷ below.now)) values.now) rest.old }
    ensures taken { IfOk result (λ taken. taken ≡ spec.all_there (map (λ m. spec.place m (seen_target target.now)) (map (spec.meaning types.now) values.now))) }
    ensures rest { IfOk result (λ taken. IfSome taken (λ xs. rest.new ≡ drop (length (flat_map (deciding.rows types.now (level.now ∷ below.now)) values.now)) rest.old)) }
{
    let mut items = Vec::with_capacity(alloc, values.len())?;
    'values: for value in values {
        match element_at(alloc, types, value, target, group, level, below, rest)? {
            Some(item) => items.push(item)?,
            None => return Ok(None),
        }
    }
    Ok(Some(Items::from_vec(items)))
}

/// What the type of an element takes, by the rows.
#[cycle(taking)]
fn element_at<'s>(
    alloc: Global,
    types: &DefinedTypes<'s>,
    value: &SpelledValue<'_>,
    target: &Target<'s>,
    group: &[Candidate],
    level: &Level<'s>,
    below: &[Level<'s>],
    rest: &mut Rest<'_>,
) -> Taken
    requires group { IsGroup level.now.targets.items group.now (aggregates types.now (seen target.now.base)) }
    requires below { AreLevels types.now level.now.targets.items below.now }
    requires rows { deciding.StartsWith (deciding.rows types.now (level.now ∷ below.now) value.now) rest.old }
    ensures taken { IfOk result (λ taken. taken ≡ spec.place (spec.meaning types.now value.now) (seen_target target.now)) }
    ensures rest { IfOk result (λ taken. IfSome taken (λ v. rest.new ≡ drop (length (deciding.rows types.now (level.now ∷ below.now) value.now)) rest.old)) }
{
    match value {
        SpelledValue::List(values) => list_at(
            alloc,
            types,
            values.as_slice(),
            &target.base,
            group,
            level,
            below,
            rest,
        ),
        _ => placed(alloc, types, value, target),
    }
}

/// What a type takes of the value under a keyword, which is the name of this type, or of one that a SELECT chooses from.
#[cycle(taking)]
fn named(
    alloc: Global,
    types: &DefinedTypes<'_>,
    number: Option<usize>,
    value: &SpelledValue<'_>,
    target: &Target<'_>,
) -> Taken
    ensures { IfOk result (λ taken. taken ≡ spec.named_by types.now (spec.meaning types.now value.now) number (seen_target target.now)) }
{
    let Some(number) = number else {
        return Ok(None);
    };
    if target.name == Some(number) {
        return fitting(alloc, types, value, &inside(types.types(), number));
    }
    let Base::Select(select) = &target.base else {
        return Ok(None);
    };
    if !types.chooses(alloc, *select, number)? {
        return Ok(None);
    }
    let taken = fitting(alloc, types, value, &inside(types.types(), number))?;
    under_name(alloc, number, taken)
}
