//! Supertype expressions that can be read: each entity once, and direct subtypes alone.

ghost use Rattle.std.specs.Prelude.{◌≡◌, ◌++◌, [], fold, IfOk};
ghost use Rattle.std.specs.List.{flat_map};
ghost use Rattle.plain_data.specs.Numbers.{is_among};
ghost use Rattle.ex_subtypes.specs.Faults as spec;
ghost use Rattle.ex_subtypes.specs.Legal.{constraints_of};

use crate::family::all_subtypes;
use crate::sets::set_of;
use ex_named::{NamedEntity, NamedSupertype};
use graphs::{is_in, supertypes};
use std::alloc::{AllocError, Global};
use std::collections::BTreeSet;

/// Why a supertype expression can't be read.
#[derive(Clone, Copy, PartialEq, Eq)]
pub enum SubtypeFaultKind {
    /// The entity is named before in the same expression.
    NamedTwice,
    /// The entity is no direct subtype of the one whose expression this is.
    NotDirectSubtype,
}

/// What is wrong with a supertype expression, and where.
#[derive(Clone, Copy, PartialEq, Eq)]
pub struct SubtypeFault {
    /// What is wrong.
    pub kind: SubtypeFaultKind,
    /// The first byte of the name at which it lies.
    pub at: usize,
}

/// An entity that an expression names, and the first byte of the name.
#[derive(Clone, Copy)]
pub struct Mention {
    entity: usize,
    at: usize,
}

/// Puts the entities that an expression names behind the others, in order.
#[cycle(mentions)]
fn push_mentions(found: &mut Vec<Mention>, expression: &NamedSupertype) -> Result<(), AllocError>
    ensures { IfOk result (λ _. found.new.items ≡ found.old.items ++ spec.mentions expression.now) }
{
    match expression {
        NamedSupertype::Entity(entity, at) => push_mention(found, *entity, *at),
        NamedSupertype::OneOf(parts) => push_all(found, parts.as_slice()),
        NamedSupertype::And(parts) => push_all(found, parts.as_slice()),
        NamedSupertype::AndOr(parts) => push_all(found, parts.as_slice()),
    }
}

#[cycle(mentions)]
fn push_all(found: &mut Vec<Mention>, parts: &[NamedSupertype]) -> Result<(), AllocError>
    ensures { IfOk result (λ _. found.new.items ≡ found.old.items ++ flat_map spec.mentions parts.now) }
{
    for part in parts {
        push_mentions(found, part)?;
    }
    Ok(())
}

fn push_mention(found: &mut Vec<Mention>, entity: usize, at: usize) -> Result<(), AllocError>
    ensures { IfOk result (λ _. found.new.items ≡ found.old.items ++ spec.mention entity at) }
{
    found.push(Mention { entity, at })?;
    Ok(())
}

fn is_twice(kind: SubtypeFaultKind) -> bool
    ensures { result ≡ spec.is_twice kind }
{
    match kind {
        SubtypeFaultKind::NamedTwice => true,
        SubtypeFaultKind::NotDirectSubtype => false,
    }
}

/// Whether a fault is told in place of another.
fn is_before(fault: SubtypeFault, other: SubtypeFault) -> bool
    ensures { result ≡ spec.is_before fault other }
{
    fault.at < other.at || (fault.at == other.at && is_twice(fault.kind) && !is_twice(other.kind))
}

/// The first of the faults that were found and of one more.
fn sooner(first: Option<SubtypeFault>, fault: SubtypeFault) -> Option<SubtypeFault>
    ensures { result ≡ spec.sooner first fault }
{
    match first {
        Some(first) if !is_before(fault, first) => Some(first),
        _ => Some(fault),
    }
}

/// The first of the faults that were found and of what is wrong with a mention, where these stand before it.
fn fault_at(
    found: Option<SubtypeFault>,
    subtypes: &BTreeSet<usize>,
    before: &BTreeSet<usize>,
    mention: Mention,
) -> Option<SubtypeFault>
    ensures { result ≡ fold spec.sooner found (spec.faults_at (is_among subtypes.now.keys) before.now.keys mention) }
{
    let at = mention.at;
    if is_in(before, mention.entity) {
        let kind = SubtypeFaultKind::NamedTwice;
        sooner(found, SubtypeFault { kind, at })
    } else if is_in(subtypes, mention.entity) {
        found
    } else {
        let kind = SubtypeFaultKind::NotDirectSubtype;
        sooner(found, SubtypeFault { kind, at })
    }
}

/// The first of the faults that were found and of those of mentions.
fn fault_among(
    alloc: Global,
    found: Option<SubtypeFault>,
    subtypes: &BTreeSet<usize>,
    mentions: &[Mention],
) -> Result<Option<SubtypeFault>, AllocError>
    ensures { IfOk result (λ first. first ≡ fold spec.sooner found (spec.faults_after (is_among subtypes.now.keys) [] mentions.now)) }
{
    let mut first = found;
    let mut before = BTreeSet::new(alloc);
    for mention in mentions {
        first = fault_at(first, subtypes, &before, *mention);
        before.insert(mention.entity)?;
    }
    Ok(first)
}

/// The first of the faults that were found and of those of an expression.
fn expression_fault(
    alloc: Global,
    found: Option<SubtypeFault>,
    subtypes: &BTreeSet<usize>,
    expression: &NamedSupertype,
) -> Result<Option<SubtypeFault>, AllocError>
    ensures { IfOk result (λ first. first ≡ fold spec.sooner found (spec.faults_of (is_among subtypes.now.keys) expression.now)) }
{
    let mut mentions = Vec::new(alloc);
    push_mentions(&mut mentions, expression)?;
    fault_among(alloc, found, subtypes, &mentions)
}

/// The first of the faults that were found and of those of an entity's expressions.
fn entity_fault(
    alloc: Global,
    found: Option<SubtypeFault>,
    subtypes: &BTreeSet<usize>,
    entity: &NamedEntity,
) -> Result<Option<SubtypeFault>, AllocError>
    ensures { IfOk result (λ first. first ≡ fold spec.sooner found (flat_map (spec.faults_of (is_among subtypes.now.keys)) (constraints_of entity.now))) }
{
    match &entity.constraint {
        Some(expression) => expression_fault(alloc, found, subtypes, expression),
        None => Ok(found),
    }
}

/// The fault of least offset of all expressions.
#[tactic(auto, unfolding(crate::specs::Faults::first_fault))]
pub fn first_fault(
    alloc: Global,
    entities: &[NamedEntity],
) -> Result<Option<SubtypeFault>, AllocError>
    ensures { IfOk result (λ first. first ≡ spec.first_fault entities.now) }
{
    let below = all_subtypes(alloc, entities)?;
    let mut first = None;
    for number in 0..entities.len() {
        let subtypes = set_of(alloc, supertypes(&below, number))?;
        first = entity_fault(alloc, first, &subtypes, &entities[number])?;
    }
    Ok(first)
}
