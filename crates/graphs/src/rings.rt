//! Members that reach one another, by what two walks found of them, which is tested here.

ghost use Rattle.std.specs.Prelude.{◌≡◌, ◌<◌, ℕ, length, IsTrue};
ghost use Rattle.graphs.specs.Traces as spec;

use crate::steps::supertypes;
use crate::walks::{Trace, untraced};
use plain_data::Rows;

/// What was found of a member.
#[tactic(auto, unfolding(crate::specs::Traces::trace_of))]
pub fn trace_of(traces: &[Trace], member: usize) -> Trace
    ensures { result ≡ spec.trace_of traces.now member }
{
    match traces.get(member) {
        Some(trace) => *trace,
        None => untraced(member),
    }
}

/// Whether the two are said to be of one ring.
fn is_level(traces: &[Trace], member: usize, above: usize) -> bool
    ensures { result ≡ spec.is_level traces.now member above }
{
    trace_of(traces, above).root == trace_of(traces, member).root
}

/// Whether a supertype is of the member's ring, or of one that comes later.
fn goes_up(count: usize, traces: &[Trace], member: usize, above: usize) -> bool
    ensures { result ≡ spec.goes_up count traces.now member above }
{
    let root = trace_of(traces, member).root;
    let next = trace_of(traces, above).root;
    (above < count && next == root) || trace_of(traces, root).turn < trace_of(traces, next).turn
}

/// Whether a supertype is of the member's ring and was found before it.
fn leads_on(traces: &[Trace], member: usize, above: usize) -> bool
    ensures { result ≡ spec.leads_on traces.now member above }
{
    let own = trace_of(traces, member);
    let next = trace_of(traces, above);
    next.root == own.root && next.turn < own.turn
}

/// Whether a member's list has this one at the place.
fn is_listed(graph: &[Rows<usize>], member: usize, place: usize, above: usize) -> bool
    ensures { result ≡ spec.is_listed graph.now member place above }
{
    match supertypes(graph, member).get(place) {
        Some(found) => *found == above,
        None => false,
    }
}

/// Whether the one from which the walk up came is of the member's ring and less deep.
fn leads_back(traces: &[Trace], member: usize) -> bool
    ensures { result ≡ spec.leads_back traces.now member }
{
    let own = trace_of(traces, member);
    let before = trace_of(traces, own.from);
    before.root == own.root && before.depth < own.depth
}

/// Whether some supertype leads on to the root.
fn some_leads_on(graph: &[Rows<usize>], traces: &[Trace], member: usize) -> bool
    ensures { result ≡ spec.some_leads_on graph.now traces.now member }
{
    supertypes(graph, member)
        .iter()
        .any(|above| leads_on(traces, member, *above))
}

/// Whether each supertype is of the member's ring, or of one that comes later.
fn all_go_up(graph: &[Rows<usize>], traces: &[Trace], member: usize) -> bool
    ensures { result ≡ spec.all_go_up graph.now traces.now member }
{
    let count = graph.len();
    supertypes(graph, member)
        .iter()
        .all(|above| goes_up(count, traces, member, *above))
}

/// Whether a member is the root of its ring, or is joined to it both ways.
fn is_joined(graph: &[Rows<usize>], traces: &[Trace], member: usize) -> bool
    ensures { result ≡ spec.is_joined graph.now traces.now member }
{
    let own = trace_of(traces, member);
    own.root == member
        || (some_leads_on(graph, traces, member)
            && is_listed(graph, own.from, own.place, member)
            && leads_back(traces, member))
}

/// Whether what was found of a member can be relied on, if that of all members can.
fn is_certain(graph: &[Rows<usize>], traces: &[Trace], member: usize) -> bool
    ensures { result ≡ spec.is_certain graph.now traces.now member }
{
    all_go_up(graph, traces, member) && is_joined(graph, traces, member)
}

/// Whether what was found of the members can be relied on.
pub fn are_certain(graph: &[Rows<usize>], traces: &[Trace]) -> bool
    ensures { IsTrue result → (m : ℕ) → m < length graph.now → IsTrue (spec.is_certain graph.now traces.now m) }
{
    for member in 0..graph.len() {
        if !is_certain(graph, traces, member) {
            return false;
        }
    }
    true
}

/// Whether a supertype is of the member's ring.
pub fn has_level(graph: &[Rows<usize>], traces: &[Trace], member: usize) -> bool
    ensures { result ≡ spec.has_level graph.now traces.now member }
{
    supertypes(graph, member)
        .iter()
        .any(|above| is_level(traces, member, *above))
}
