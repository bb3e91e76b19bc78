//! A graph with two trees that span it, and what they tell of who stands above whom.

ghost use Rattle.std.specs.Prelude.{◌≡◌, ◌<◌, length, MatchOption, IfOk};
ghost use Rattle.ancestors.specs.Labels as labelled;
ghost use Rattle.ancestors.specs.Kept as spec;

use crate::tested::are_sure;
use crate::told::told_by_labels;
use crate::ways::{Label, labels};
use graphs::{Trace, subtypes, traces};
use plain_data::Rows;
use std::alloc::{AllocError, Global};

/// The labels of a tree, and whether they can be relied on.
#[derive(Drop)]
pub struct Tree {
    pub labels: Vec<Label>,
    pub is_sure: bool,
}

/// A graph, of each member its direct subtypes, and the labels of two trees.
pub struct Trees {
    pub graph: Vec<Rows<usize>>,
    pub below: Vec<Rows<usize>>,
    pub traces: Vec<Trace>,
    pub first: Tree,
    pub second: Tree,
}

impl Drop for Trees {
    fn drop(self) {
        let Trees {
            graph,
            below,
            traces,
            first,
            second,
        } = self;
        drop(graph);
        drop(below);
        drop(traces);
        drop(first);
        drop(second);
    }
}

/// How many members the graph has.
pub fn member_count(trees: &Trees) -> usize
    ensures { result ≡ length trees.now.graph.items }
{
    trees.graph.len()
}

/// The labels of a tree that spans the graph, tested.
fn grown(
    alloc: Global,
    graph: &[Rows<usize>],
    below: &[Rows<usize>],
    traces: &[Trace],
    is_reversed: bool,
) -> Result<Tree, AllocError>
    ensures { IfOk result (λ tree. spec.IsSureTree graph.now traces.now tree) }
{
    let labels = labels(alloc, below, traces, is_reversed)?;
    let is_sure = are_sure(graph, traces, &labels);
    Ok(Tree { labels, is_sure })
}

/// Two trees that span a graph: in the second the last subtypes come first.
pub fn spanned(alloc: Global, graph: Vec<Rows<usize>>) -> Result<Trees, AllocError>
    ensures graph { IfOk result (λ trees. trees.graph.items ≡ graph.items) }
    ensures kept { IfOk result (λ trees. spec.IsKept trees) }
{
    let below = subtypes(alloc, &graph)?;
    let traces = traces(alloc, &graph, &below)?;
    let first = grown(alloc, &graph, &below, &traces, false)?;
    let second = grown(alloc, &graph, &below, &traces, true)?;
    Ok(Trees {
        graph,
        below,
        traces,
        first,
        second,
    })
}

/// What the labels of one tree tell, where they can be relied on.
fn told_by_tree(trees: &Trees, tree: &Tree, member: usize, above: usize) -> Option<bool>
    requires sure { spec.IsSureTree trees.now.graph.items trees.now.traces.items tree.now }
    requires member { member < length trees.now.graph.items }
    requires above { above < length trees.now.graph.items }
    ensures { MatchOption result (Unit {0}) (λ told. told ≡ labelled.is_up trees.now.graph.items member above) }
{
    if tree.is_sure {
        told_by_labels(&trees.graph, &trees.traces, &tree.labels, member, above)
    } else {
        None
    }
}

/// What one tree tells, or else the other.
pub fn told_by_trees(trees: &Trees, member: usize, above: usize) -> Option<bool>
    requires kept { spec.IsKept trees.now }
    requires member { member < length trees.now.graph.items }
    requires above { above < length trees.now.graph.items }
    ensures { MatchOption result (Unit {0}) (λ told. told ≡ labelled.is_up trees.now.graph.items member above) }
{
    match told_by_tree(trees, &trees.first, member, above) {
        Some(told) => Some(told),
        None => told_by_tree(trees, &trees.second, member, above),
    }
}
