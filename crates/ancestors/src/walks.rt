//! Walks where the trees don't tell who stands above whom.

ghost use Rattle.std.specs.Prelude.{◌≡◌, ◌<◌, length, MatchOption, IfOk};
ghost use Rattle.graphs.specs.Graphs as graphs;
ghost use Rattle.ancestors.specs.Labels as labelled;
ghost use Rattle.ancestors.specs.Kept as spec;

use crate::trees::{Trees, member_count, told_by_trees};
use graphs::{all_above, is_in, supertypes};
use plain_data::Rows;
use std::alloc::{AllocError, Global};
use std::collections::BTreeSet;

/// The graph in which a walk goes: up, or down.
fn walked(trees: &Trees, is_down: bool) -> &[Rows<usize>]
    ensures { result.now ≡ spec.walked trees.now is_down }
{
    if is_down { &trees.below } else { &trees.graph }
}

/// Whether a walk from one member comes to the other, where the trees tell it.
fn told(trees: &Trees, is_down: bool, from: usize, to: usize) -> Option<bool>
    requires { spec.IsKept trees.now }
    ensures { MatchOption result (Unit {0}) (λ told. told ≡ labelled.is_up (spec.walked trees.now is_down) from to) }
{
    let count = member_count(trees);
    if from >= count {
        return None;
    }
    if to >= count {
        return None;
    }
    if is_down {
        told_by_trees(trees, to, from)
    } else {
        told_by_trees(trees, from, to)
    }
}

/// Whether a walk from one member comes to the other, where so many steps tell it. It goes on where
/// the trees don't tell it.
fn told_within(
    alloc: Global,
    trees: &Trees,
    is_down: bool,
    from: usize,
    to: usize,
    limit: usize,
) -> Result<Option<bool>, AllocError>
    requires { spec.IsKept trees.now }
    ensures { IfOk result (λ found. MatchOption found (Unit {0}) (λ told. told ≡ graphs.is_ancestor (spec.walked trees.now is_down) from to)) }
{
    let graph = walked(trees, is_down);
    let first = supertypes(graph, from);
    if first.len() > limit {
        return Ok(None);
    }
    let mut found = BTreeSet::new(alloc);
    let mut waiting = Vec::from_slice(alloc, first)?;
    for _ in 0..limit {
        let Some(next) = waiting.pop() else {
            return Ok(Some(is_in(&found, to)));
        };
        match told(trees, is_down, next, to) {
            Some(true) => return Ok(Some(true)),
            Some(false) => {}
            None => {
                let list = supertypes(graph, next);
                if list.len() > limit {
                    return Ok(None);
                }
                if found.insert(next)? {
                    waiting.extend_from_slice(list)?;
                }
            }
        }
    }
    Ok(None)
}

/// Whether the second is above the first, where a walk down or a walk up of so many steps tells it.
fn above_within(
    alloc: Global,
    trees: &Trees,
    member: usize,
    above: usize,
    limit: usize,
) -> Result<Option<bool>, AllocError>
    requires kept { spec.IsKept trees.now }
    requires above { above < length trees.now.graph.items }
    ensures { IfOk result (λ found. MatchOption found (Unit {0}) (λ told. told ≡ graphs.is_ancestor trees.now.graph.items member above)) }
{
    let by_down = told_within(alloc, trees, true, above, member, limit)?;
    match by_down {
        Some(told) => Ok(Some(told)),
        None => told_within(alloc, trees, false, member, above, limit),
    }
}

/// Whether the second is above the first: by short walks from each of them, then by longer ones, and
/// at last by all that is above the first.
pub fn is_above(
    alloc: Global,
    trees: &Trees,
    member: usize,
    above: usize,
) -> Result<bool, AllocError>
    requires kept { spec.IsKept trees.now }
    requires above { above < length trees.now.graph.items }
    ensures { IfOk result (λ told. told ≡ graphs.is_ancestor trees.now.graph.items member above) }
{
    for limit in &[16, 256, 4096] {
        if let Some(told) = above_within(alloc, trees, member, above, *limit)? {
            return Ok(told);
        }
    }
    let found = all_above(alloc, &trees.graph, member)?;
    Ok(is_in(&found, above))
}
