//! What the labels of a tree tell of who stands above whom.

ghost use Rattle.std.specs.Prelude.{◌≡◌, ◌<◌, ℕ, length, IsTrue, MatchOption};
ghost use Rattle.ancestors.specs.Labels as spec;

use crate::tested::{is_nested, label_of};
use crate::ways::Label;
use graphs::{Trace, trace_of};
use plain_data::Rows;

/// Whether the tree leads up from one ring to the other.
fn leads_up(
    _graph: &[Rows<usize>],
    _traces: &[Trace],
    labels: &[Label],
    from: usize,
    to: usize,
) -> bool
    requires { spec.IsSure _graph.now _traces.now labels.now }
    ensures { IsTrue result → IsTrue (spec.is_up _graph.now from to) }
{
    let depth = label_of(labels, to).depth;
    let mut at = from;
    for _ in 0..u64::MAX {
        if at == to {
            return true;
        }
        let label = label_of(labels, at);
        if label.depth <= depth {
            return false;
        }
        at = if label_of(labels, label.jump).depth < depth {
            label.up
        } else {
            label.jump
        };
    }
    false
}

/// Whether the second is the first or an ancestor of it, where the labels tell it.
pub fn told_by_labels(
    graph: &[Rows<usize>],
    traces: &[Trace],
    labels: &[Label],
    member: usize,
    above: usize,
) -> Option<bool>
    requires sure { spec.IsSure graph.now traces.now labels.now }
    requires member { member < length graph.now }
    requires above { above < length graph.now }
    ensures { MatchOption result (Unit {0}) (λ told. told ≡ spec.is_up graph.now member above) }
{
    let own = trace_of(traces, member).root;
    let other = trace_of(traces, above).root;
    if own == other {
        Some(true)
    } else if !is_nested(labels, own, other) {
        Some(false)
    } else if leads_up(graph, traces, labels, own, other) {
        Some(true)
    } else {
        None
    }
}
