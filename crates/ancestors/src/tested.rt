//! What was found of the rings of a graph, which is tested here.

ghost use Rattle.std.specs.Prelude.{◌≡◌, ◌<◌, ℕ, length, IsTrue};
ghost use Rattle.plain_data.specs.Numbers.{is_among};
ghost use Rattle.graphs.specs.Graphs as graphs;
ghost use Rattle.ancestors.specs.Labels as spec;

use crate::ways::{Label, unlabelled};
use graphs::{Trace, are_certain, supertypes, trace_of};
use plain_data::Rows;

/// What was found of a ring.
#[tactic(auto, unfolding(crate::specs::Labels::label_of))]
pub fn label_of(labels: &[Label], root: usize) -> Label
    ensures { result ≡ spec.label_of labels.now root }
{
    match labels.get(root) {
        Some(label) => *label,
        None => unlabelled(root),
    }
}

/// Whether a member's list has this one.
fn lists(graph: &[Rows<usize>], member: usize, above: usize) -> bool
    ensures { result ≡ is_among (graphs.supertypes graph.now member) above }
{
    supertypes(graph, member)
        .iter()
        .any(|found| *found == above)
}

/// Whether the ring above is reached by a step from one of the ring's members.
fn is_joined_up(graph: &[Rows<usize>], traces: &[Trace], labels: &[Label], root: usize) -> bool
    ensures { result ≡ spec.is_joined_up graph.now traces.now labels.now root }
{
    let label = label_of(labels, root);
    trace_of(traces, label.by).root == root
        && trace_of(traces, label.to).root == label.up
        && label.to < graph.len()
        && lists(graph, label.by, label.to)
        && label_of(labels, label.up).depth < label.depth
}

/// Whether the jump is a step up, or the jump of the jump from there.
fn jumps(labels: &[Label], root: usize) -> bool
    ensures { result ≡ spec.jumps labels.now root }
{
    let label = label_of(labels, root);
    let up = label_of(labels, label.up);
    let over = label_of(labels, up.jump);
    label.jump == label.up
        || (up.depth < label.depth && over.depth < label.depth && label.jump == over.jump)
}

/// Whether the ways up from a ring lead to rings above it, if those from all rings do.
fn is_sound(graph: &[Rows<usize>], traces: &[Trace], labels: &[Label], root: usize) -> bool
    ensures { result ≡ spec.is_sound graph.now traces.now labels.now root }
{
    (label_of(labels, root).up == root || is_joined_up(graph, traces, labels, root))
        && jumps(labels, root)
}

/// Whether the range of the second ring holds that of the first.
pub fn is_nested(labels: &[Label], root: usize, above: usize) -> bool
    ensures { result ≡ spec.is_nested labels.now root above }
{
    let own = label_of(labels, root);
    let other = label_of(labels, above);
    other.low <= own.low && own.high <= other.high
}

/// Whether the ranges of a member's supertypes hold its own.
fn nests(graph: &[Rows<usize>], traces: &[Trace], labels: &[Label], member: usize) -> bool
    ensures { result ≡ spec.nests graph.now traces.now labels.now member }
{
    let root = trace_of(traces, member).root;
    supertypes(graph, member).iter().all(|above| is_nested(
        labels,
        root,
        trace_of(traces, *above).root,
    ))
}

fn are_sound(graph: &[Rows<usize>], traces: &[Trace], labels: &[Label]) -> bool
    ensures { IsTrue result → (k : ℕ) → k < length labels.now → IsTrue (spec.is_sound graph.now traces.now labels.now k) }
{
    for root in 0..labels.len() {
        if !is_sound(graph, traces, labels, root) {
            return false;
        }
    }
    true
}

fn all_nest(graph: &[Rows<usize>], traces: &[Trace], labels: &[Label]) -> bool
    ensures { IsTrue result → (m : ℕ) → m < length graph.now → IsTrue (spec.nests graph.now traces.now labels.now m) }
{
    for member in 0..graph.len() {
        if !nests(graph, traces, labels, member) {
            return false;
        }
    }
    true
}

/// Whether what was found can be relied on.
pub fn are_sure(graph: &[Rows<usize>], traces: &[Trace], labels: &[Label]) -> bool
    ensures { IsTrue result → spec.IsSure graph.now traces.now labels.now }
{
    are_certain(graph, traces)
        && are_sound(graph, traces, labels)
        && all_nest(graph, traces, labels)
}
