//! The types of the elements of the aggregates that a list may be of, and of the elements of these, level by level.
//!
//! They are found once for all lists of a level, each SELECT among them once.

ghost use Rattle.std.specs.Prelude.{◌≡◌, ◌++◌, ◌∷◌, [], List, Some, map, length, slice_get, MatchOption, IfOk, OnOk, ⊤};
ghost use Rattle.std.specs.Bool.{OnTrue};
ghost use Rattle.std.specs.List.{filter_map};
ghost use Rattle.std.specs.Option.{option_map, option_to_list};
ghost use Rattle.ex_selects.specs.Ends as ends;
ghost use Rattle.ex_selects.specs.Seen.{seen, seen_target};
ghost use Rattle.ex_selects.specs.Levels as spec;

use crate::ends::{Base, Target, base_of, target_of};
use crate::sorts::Class;
use crate::types::DefinedTypes;
use ex_renamings::Renamings;
use plain_data::Rows;
use std::alloc::{AllocError, Global};
use std::collections::BTreeMap;
use std::marker::Model;

/// An aggregate that a list may be of.
#[derive(Clone, Copy)]
pub struct Candidate {
    /// The defined type that it is, where a SELECT chooses it.
    pub number: Option<usize>,
    /// Where the type of its elements stands.
    pub place: usize,
}

/// The types of the elements that several types ask for.
pub struct Level<'s> {
    pub targets: Vec<Target<'s>>,
    /// Of each type that asks the aggregates that a list at it may be of.
    pub groups: Vec<Rows<Candidate>>,
}

impl Drop for Level<'_> {
    fn drop(self) {
        match self {
            Level { targets, groups } => {
                drop(targets);
                drop(groups);
            }
        }
    }
}

/// What lists at types may be of: what the types ask for, and what the lists in these ask for.
pub struct Levels<'s> {
    pub first: Level<'s>,
    pub below: Vec<Level<'s>>,
}

impl Drop for Levels<'_> {
    fn drop(self) {
        match self {
            Levels { first, below } => {
                drop(first);
                drop(below);
            }
        }
    }
}

/// Types, each SELECT with a name once; one that has no name, and what is none, as often as it is put.
#[derive(Drop)]
struct Distinct<'s> {
    targets: Vec<Target<'s>>,
    /// Of a name the place at which a type of this name may stand.
    places: BTreeMap<usize, usize>,
}

impl<'s> Model for Distinct<'s> {
    ghost use Rattle.std.specs.Prelude.{List};
    ghost use Rattle.ex_selects.specs.declared.ends.Target.{Target};

    ghost Value = { List Target };

    ghost view = { λ d. d.targets.items };

    ghost use Rattle.std.specs.Coded.{codes};
    ghost use Rattle.ex_named.specs.contracts.expression.NamedDataType as data_type;
    ghost use Rattle.ex_named.specs.contracts.expression.NamedExpression as expression;

    ghost coded = { Prim.hlevel (codes, data_type.the_row.coded, expression.the_row.coded) };
}

/// Whether it is this SELECT under this name.
fn is_select(target: &Target<'_>, name: usize, number: usize) -> bool
    ensures { OnTrue result (seen_target target.now ≡ record { name = Some name; base = ends.Select number }) }
{
    match target {
        Target {
            name: Some(other),
            base: Base::Select(select),
        } => *other == name && *select == number,
        _ => false,
    }
}

/// Where a type of this name may be looked for. What is found there is tested.
fn note_place(
    places: &mut BTreeMap<usize, usize>,
    name: Option<usize>,
    place: usize,
) -> Result<(), AllocError> {
    if let Some(name) = name {
        places.insert(name, place)?;
    }
    Ok(())
}

impl<'s> Distinct<'s> {
    ghost use Rattle.std.specs.Prelude.{◌≡◌, ⊤, [], Some, map, slice_get, IfOk, OnOk, MatchOption};
    ghost use Rattle.ex_selects.specs.Seen.{seen_target};
    ghost use Rattle.ex_selects.specs.Levels as spec;

    fn new(alloc: Global) -> Distinct<'s>
        ensures { result ≡ [] }
    {
        Distinct {
            targets: Vec::new(alloc),
            places: BTreeMap::new(alloc),
        }
    }

    fn into_targets(self) -> Vec<Target<'s>>
        ensures { result.items ≡ self.entry }
    {
        let Distinct { targets, places: _ } = self;
        targets
    }

    /// The place of a type that is the same, if it is a SELECT with a name that has one.
    #[tactic(auto, using(crate::proofs::Places::seen_at))]
    fn known(&self, target: &Target<'s>) -> Option<usize>
        ensures { MatchOption result ⊤ (λ place. slice_get (map seen_target self.now) place ≡ Some (seen_target target.now)) }
    {
        let Target {
            name: Some(name),
            base: Base::Select(number),
        } = target
        else {
            return None;
        };
        let place = match self.places.get(name) {
            Some(place) => *place,
            None => return None,
        };
        match self.targets.get(place) {
            Some(found) => {
                if is_select(found, *name, *number) {
                    Some(place)
                } else {
                    None
                }
            }
            None => None,
        }
    }

    /// Puts a type behind the others.
    fn push(&mut self, target: Target<'s>) -> Result<usize, AllocError>
        ensures kept { OnOk result (spec.Keeps self.old self.new) }
        ensures there { IfOk result (λ place. slice_get (map seen_target self.new) place ≡ Some (seen_target target.entry)) }
    {
        let place = self.targets.len();
        note_place(&mut self.places, target.name, place)?;
        self.targets.push(target)?;
        Ok(place)
    }

    /// The place of a type, which is put where none is the same.
    fn put(&mut self, target: Target<'s>) -> Result<usize, AllocError>
        ensures kept { OnOk result (spec.Keeps self.old self.new) }
        ensures there { IfOk result (λ place. slice_get (map seen_target self.new) place ≡ Some (seen_target target.entry)) }
    {
        match self.known(&target) {
            Some(place) => Ok(place),
            None => self.push(target),
        }
    }
}

/// The type of an aggregate's elements.
fn element<'s>(types: &Renamings<'s>, base: &Base<'s>) -> Option<Target<'s>>
    ensures { option_map seen_target result ≡ spec.element types.now (seen base.now) }
{
    match base {
        Base::Aggregate(_, _, element) => Some(target_of(types, element)),
        _ => None,
    }
}

/// Adds a type to a group, if it is an aggregate.
fn push_candidate<'s>(
    types: &Renamings<'s>,
    number: Option<usize>,
    base: &Base<'s>,
    targets: &mut Distinct<'s>,
    group: &mut Rows<Candidate>,
) -> Result<(), AllocError>
    ensures kept { OnOk result (spec.Keeps targets.old targets.new) }
    ensures more { (aggregates : List spec.PossibleAggregate) → spec.IsGroup targets.old group.old aggregates → OnOk result (spec.IsGroup targets.new group.new (aggregates ++ option_to_list (spec.aggregate_at types.now (seen base.now) number))) }
{
    match element(types, base) {
        Some(target) => {
            let place = targets.put(target)?;
            group.push(Candidate { number, place })?;
            Ok(())
        }
        None => Ok(()),
    }
}

/// Adds those of the defined types that are aggregates.
fn push_choices<'s>(
    types: &Renamings<'s>,
    numbers: &[usize],
    targets: &mut Distinct<'s>,
    group: &mut Rows<Candidate>,
) -> Result<(), AllocError>
    ensures kept { OnOk result (spec.Keeps targets.old targets.new) }
    ensures more { (aggregates : List spec.PossibleAggregate) → spec.IsGroup targets.old group.old aggregates → OnOk result (spec.IsGroup targets.new group.new (aggregates ++ filter_map (spec.chosen_aggregate types.now) numbers.now)) }
{
    for number in numbers {
        push_candidate(
            types,
            Some(*number),
            &base_of(types, *number),
            targets,
            group,
        )?;
    }
    Ok(())
}

/// Adds what a SELECT chooses from.
fn push_select<'s>(
    alloc: Global,
    types: &DefinedTypes<'s>,
    number: usize,
    targets: &mut Distinct<'s>,
    group: &mut Rows<Candidate>,
) -> Result<(), AllocError>
    ensures kept { OnOk result (spec.Keeps targets.old targets.new) }
    ensures more { (aggregates : List spec.PossibleAggregate) → spec.IsGroup targets.old group.old aggregates → OnOk result (spec.IsGroup targets.new group.new (aggregates ++ spec.aggregates types.now (ends.Select number))) }
{
    match types.kept(Class::Lists, number) {
        Some(lists) => push_choices(types.types(), lists, targets, group),
        None => {
            let choices = types.choices(alloc, number)?;
            push_choices(types.types(), &choices, targets, group)
        }
    }
}

/// Adds the aggregates that a list at a type may be of.
fn push_asked<'s>(
    alloc: Global,
    types: &DefinedTypes<'s>,
    base: &Base<'s>,
    targets: &mut Distinct<'s>,
    group: &mut Rows<Candidate>,
) -> Result<(), AllocError>
    ensures kept { OnOk result (spec.Keeps targets.old targets.new) }
    ensures more { (aggregates : List spec.PossibleAggregate) → spec.IsGroup targets.old group.old aggregates → OnOk result (spec.IsGroup targets.new group.new (aggregates ++ spec.aggregates types.now (seen base.now))) }
{
    match base {
        Base::Select(number) => push_select(alloc, types, *number, targets, group),
        _ => push_candidate(types.types(), None, base, targets, group),
    }
}

/// The aggregates that a list at a type may be of.
fn group_of<'s>(
    alloc: Global,
    types: &DefinedTypes<'s>,
    base: &Base<'s>,
    targets: &mut Distinct<'s>,
) -> Result<Rows<Candidate>, AllocError>
    ensures kept { OnOk result (spec.Keeps targets.old targets.new) }
    ensures group { IfOk result (λ group. spec.IsGroup targets.new group (spec.aggregates types.now (seen base.now))) }
{
    let mut group = Rows::new(alloc);
    push_asked(alloc, types, base, targets, &mut group)?;
    Ok(group)
}

/// What the types ask for.
pub fn level_of<'s>(
    alloc: Global,
    types: &DefinedTypes<'s>,
    asking: &[Target<'s>],
) -> Result<Level<'s>, AllocError>
    ensures { IfOk result (λ level. spec.IsLevel types.now asking.now level) }
{
    let mut targets = Distinct::new(alloc);
    let mut groups = Vec::with_capacity(alloc, asking.len())?;
    for target in asking {
        groups.push(group_of(alloc, types, &target.base, &mut targets)?)?;
    }
    Ok(Level {
        targets: targets.into_targets(),
        groups,
    })
}

/// What the types of the last level ask for.
fn level_below<'s>(
    alloc: Global,
    types: &DefinedTypes<'s>,
    asking: &[Target<'s>],
    levels: &[Level<'s>],
) -> Result<Level<'s>, AllocError>
    ensures { IfOk result (λ level. spec.IsLevel types.now (spec.last_asking asking.now levels.now) level) }
{
    match levels.last() {
        Some(above) => level_of(alloc, types, &above.targets),
        None => level_of(alloc, types, asking),
    }
}

/// So many levels below these types.
pub fn levels_of<'s>(
    alloc: Global,
    types: &DefinedTypes<'s>,
    asking: &[Target<'s>],
    depth: usize,
) -> Result<Vec<Level<'s>>, AllocError>
    ensures { IfOk result (λ levels. spec.AreLevels types.now asking.now levels.items) }
{
    let mut levels = Vec::with_capacity(alloc, depth)?;
    for _ in 0..depth {
        let level = level_below(alloc, types, asking, &levels)?;
        levels.push(level)?;
    }
    Ok(levels)
}
