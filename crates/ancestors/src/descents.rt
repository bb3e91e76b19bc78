//! A graph of which it is asked often who stands above whom.

ghost use Rattle.std.specs.Prelude.{◌≡◌, ◌<◌, ℕ, length, MatchOption, IfOk, IfSome};
ghost use Rattle.std.specs.List.Sorted.{IsStrictlyIncreasing};
ghost use Rattle.plain_data.specs.Numbers.{is_among};
ghost use Rattle.graphs.specs.Graphs as graphs;
ghost use Rattle.ancestors.specs.Kept as spec;

use crate::trees::{Trees, member_count, spanned, told_by_trees};
use crate::walks::is_above;
use graphs::supertypes;
use plain_data::Rows;
use std::alloc::{AllocError, Global};
use std::collections::BTreeSet;
use std::marker::Model;

/// A graph of which it is asked often who stands above whom.
#[derive(Drop)]
pub struct Descent {
    trees: Trees,
}

impl Model for Descent {
    ghost use Rattle.std.specs.Prelude.{List, ℕ};
    ghost use Rattle.ancestors.specs.Kept.{IsKept};

    ghost Value = { List (List ℕ) };

    ghost view = { λ d. d.trees.graph.items };

    ghost invariant = { λ d. IsKept d.trees };
}

/// Whether a member's family has a number.
fn is_in(alloc: Global, trees: &Trees, member: usize, number: usize) -> Result<bool, AllocError>
    requires { spec.IsKept trees.now }
    ensures { IfOk result (λ told. told ≡ is_among (graphs.family trees.now.graph.items member) number) }
{
    let count = member_count(trees);
    if member >= count {
        return Ok(false);
    }
    if number >= count {
        return Ok(false);
    }
    if member == number {
        return Ok(true);
    }
    match told_by_trees(trees, member, number) {
        Some(told) => Ok(told),
        None => is_above(alloc, trees, member, number),
    }
}

/// The ancestors of a member among the members, where its family has at most so many.
fn above_within(
    alloc: Global,
    graph: &[Rows<usize>],
    member: usize,
    limit: usize,
) -> Result<Option<BTreeSet<usize>>, AllocError>
    ensures { IfOk result (λ found. MatchOption found (limit < length (graphs.family graph.now member)) (λ above. spec.AreAbove graph.now member above.keys)) }
{
    let mut found = BTreeSet::new(alloc);
    let mut waiting = Vec::from_slice(alloc, supertypes(graph, member))?;
    while let Some(next) = waiting.pop() {
        if next >= graph.len() {
            continue;
        }
        if found.insert(next)? {
            if found.len() > limit {
                return Ok(None);
            }
            waiting.extend_from_slice(supertypes(graph, next))?;
        }
    }
    Ok(Some(found))
}

/// The family of a member, where it has at most so many.
fn all_within(
    alloc: Global,
    graph: &[Rows<usize>],
    member: usize,
    limit: usize,
) -> Result<Option<BTreeSet<usize>>, AllocError>
    ensures { IfOk result (λ found. MatchOption found (limit < length (graphs.family graph.now member)) (λ all. all.keys ≡ graphs.family graph.now member)) }
{
    if member >= graph.len() {
        return Ok(Some(BTreeSet::new(alloc)));
    }
    let Some(mut found) = above_within(alloc, graph, member, limit)? else {
        return Ok(None);
    };
    found.insert(member)?;
    if found.len() > limit {
        return Ok(None);
    }
    Ok(Some(found))
}

/// Whether a number stands in a list.
fn is_listed(numbers: &[usize], number: usize) -> bool
    ensures { result ≡ is_among numbers.now number }
{
    numbers.iter().any(|other| *other == number)
}

/// So many ancestors, or fewer, are few.
const FEW: usize = 16;

/// The ancestors of a member among the members, in any order, where they are few.
fn few_above(
    alloc: Global,
    graph: &[Rows<usize>],
    member: usize,
) -> Result<Option<Vec<usize>>, AllocError>
    ensures { IfOk result (λ found. IfSome found (λ above. spec.AreAbove graph.now member above.items)) }
{
    let mut found = Vec::new(alloc);
    let mut waiting = Vec::from_slice(alloc, supertypes(graph, member))?;
    while let Some(next) = waiting.pop() {
        if next >= graph.len() {
            continue;
        }
        if !is_listed(&found, next) {
            if found.len() >= FEW {
                return Ok(None);
            }
            found.push(next)?;
            waiting.extend_from_slice(supertypes(graph, next))?;
        }
    }
    Ok(Some(found))
}

/// The family of a member, ascending, where it is known to be one and its ancestors are few.
// A set takes memory for each.
fn few(
    alloc: Global,
    graph: &[Rows<usize>],
    member: usize,
) -> Result<Option<Vec<usize>>, AllocError>
    ensures { IfOk result (λ found. IfSome found (λ all. all.items ≡ graphs.family graph.now member)) }
{
    if graph.len() <= member {
        return Ok(None);
    }
    let Some(mut found) = few_above(alloc, graph, member)? else {
        return Ok(None);
    };
    found.push(member)?;
    found.sort_unstable();
    found.dedup();
    Ok(Some(found))
}

/// Whether it is a member, and nobody stands above it.
fn is_alone(graph: &[Rows<usize>], member: usize) -> bool
    ensures { result ≡ spec.is_alone graph.now member }
{
    member < graph.len() && supertypes(graph, member).is_empty()
}

/// The graph once more.
fn copied(alloc: Global, graph: &[Rows<usize>]) -> Result<Vec<Rows<usize>>, AllocError>
    ensures { IfOk result (λ found. found.items ≡ graph.now) }
{
    let mut found = Vec::with_capacity(alloc, graph.len())?;
    for above in graph {
        let above = Vec::from_slice(alloc, above.as_slice())?;
        found.push(Rows::from_vec(above))?;
    }
    Ok(found)
}

impl Descent {
    /// Of this graph, which is kept.
    pub fn of(alloc: Global, graph: Vec<Rows<usize>>) -> Result<Descent, AllocError>
        ensures { IfOk result (λ d. d ≡ graph.items) }
    {
        let trees = spanned(alloc, graph)?;
        Ok(Descent { trees })
    }

    /// Of a graph that somebody else keeps.
    pub fn of_lent(alloc: Global, graph: &[Rows<usize>]) -> Result<Descent, AllocError>
        ensures { IfOk result (λ d. d ≡ graph.now) }
    {
        Descent::of(alloc, copied(alloc, graph)?)
    }

    /// The graph.
    pub fn graph(&self) -> &[Rows<usize>]
        ensures { result.now ≡ self.now }
    {
        &self.trees.graph
    }

    /// Whether a member's family has a number.
    pub fn is_in_family(
        &self,
        alloc: Global,
        member: usize,
        number: usize,
    ) -> Result<bool, AllocError>
        ensures { IfOk result (λ told. told ≡ is_among (graphs.family self.now member) number) }
    {
        is_in(alloc, &self.trees, member, number)
    }

    /// A member's family, ascending, where it has at most so many.
    pub fn family_within(
        &self,
        alloc: Global,
        member: usize,
        limit: usize,
    ) -> Result<Option<Vec<usize>>, AllocError>
        ensures exact { IfOk result (λ found. MatchOption found (limit < length (graphs.family self.now member)) (λ all. all.items ≡ graphs.family self.now member)) }
        ensures ascending { IfOk result (λ found. IfSome found (λ all. IsStrictlyIncreasing all.items)) }
    {
        // Of most it is asked that have nobody above them: these need no set.
        if limit > 0 && is_alone(&self.trees.graph, member) {
            return Ok(Some(Vec::from_slice(alloc, &[member])?));
        }
        if let Some(found) = few(alloc, &self.trees.graph, member)? {
            if found.len() > limit {
                return Ok(None);
            }
            return Ok(Some(found));
        }
        match all_within(alloc, &self.trees.graph, member, limit)? {
            Some(found) => {
                let all: Vec<usize> = found.into_iter().collect(alloc)?;
                Ok(Some(all))
            }
            None => Ok(None),
        }
    }
}
