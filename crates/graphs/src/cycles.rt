//! Members that are reached from themselves.

ghost use Rattle.std.specs.Prelude.{◌≡◌, ◌<◌, ℕ, zero, length, map, IfOk, IsTrue};
ghost use Rattle.graphs.specs.Graphs as spec;
ghost use Rattle.graphs.specs.Traces as traced;

use crate::below::subtypes;
use crate::reached::{all_above, is_in};
use crate::rings::{are_certain, has_level};
use crate::walks::{Trace, traces};
use plain_data::Rows;
use std::alloc::{AllocError, Global};

/// Whether a member is among its own ancestors.
fn is_own_ancestor(alloc: Global, graph: &[Rows<usize>], member: usize) -> Result<bool, AllocError>
    ensures { IfOk result (λ found. found ≡ spec.is_ancestor graph.now member member) }
{
    let above = all_above(alloc, graph, member)?;
    Ok(is_in(&above, member))
}

/// Whether a member is its own ancestor: by what was found of all, where that is certain, else by a
/// search.
fn mark(
    alloc: Global,
    graph: &[Rows<usize>],
    traces: &[Trace],
    is_certain: bool,
    member: usize,
) -> Result<bool, AllocError>
    requires within { member < length graph.now }
    requires certain { IsTrue is_certain → (m : ℕ) → m < length graph.now → IsTrue (traced.is_certain graph.now traces.now m) }
    ensures { IfOk result (λ found. found ≡ spec.is_ancestor graph.now member member) }
{
    if is_certain {
        Ok(has_level(graph, traces, member))
    } else {
        is_own_ancestor(alloc, graph, member)
    }
}

/// Of each member, whether it is its own ancestor. Its time is that of two walks through the graph.
pub fn cyclic_marks(alloc: Global, graph: &[Rows<usize>]) -> Result<Vec<bool>, AllocError>
    ensures { IfOk result (λ marks. marks.items ≡ map (λ k. spec.is_ancestor graph.now k k) (spec.numbers_from zero (length graph.now))) }
{
    let below = subtypes(alloc, graph)?;
    let traces = traces(alloc, graph, &below)?;
    let is_certain = are_certain(graph, &traces);
    let mut marks = Vec::with_capacity(alloc, graph.len())?;
    for member in 0..graph.len() {
        let marked = mark(alloc, graph, &traces, is_certain, member)?;
        marks.push(marked)?;
    }
    Ok(marks)
}
