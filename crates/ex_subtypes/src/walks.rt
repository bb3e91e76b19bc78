//! What is taken of a node, by a walk to the places at which entities stand.

ghost use Rattle.std.specs.Prelude.{◌≡◌, ◌<◌, ◌≤◌, ℕ, length, map, take, drop, slice_index_or};
ghost use Rattle.std.specs.List.Sorted.{IsNonDecreasing};
ghost use Rattle.ex_subtypes.specs.declared.choices.Choice.TheVariants.{Nothing};
ghost use Rattle.ex_subtypes.specs.Combinations.{joined};
ghost use Rattle.ex_subtypes.specs.Nodes as spec;
ghost use Rattle.ex_subtypes.specs.Walks.{join_choices};

use crate::choices::{Choice, Connective, by_count, is_neither, with_part};
use crate::nodes::Node;

/// How many parts end before a place.
fn passed(ends: &[usize], place: usize) -> usize
    requires { IsNonDecreasing ends.now }
    ensures within { result ≤ length ends.now }
    ensures before { (k : ℕ) → k < result → slice_index_or ends.now k 0 ≤ place }
{
    ends.partition_point(|end| *end <= place)
}

/// How many of the places come before an end.
fn count_before(places: &[usize], end: usize) -> usize
    requires { IsNonDecreasing places.now }
    ensures within { result ≤ length places.now }
    ensures before { take result places.now ≡ spec.before end places.now }
    ensures behind { drop result places.now ≡ spec.behind end places.now }
{
    places.partition_point(|place| *place < end)
}

/// What is taken of the node, where entities stand at these places of it. Its time is near-linear in the nodes at which
/// they stand and those above them.
#[cycle(walks)]
pub fn taken_at(node: &Node, places: &[usize]) -> Choice
    requires { IsNonDecreasing places.now }
    ensures { result ≡ spec.taken_at node.now places.now }
{
    if places.is_empty() {
        return Choice::Nothing;
    }
    match node {
        Node::Entity => Choice::Combination,
        Node::Joined(way, ends, parts) => {
            taken_of_all(*way, ends.as_slice(), parts.as_slice(), places)
        }
    }
}

/// What is taken of the parts, joined one after the other. Those that have none of the places are passed over.
#[cycle(walks)]
fn taken_of_all(way: Connective, ends: &[usize], parts: &[Node], places: &[usize]) -> Choice
    requires ends { IsNonDecreasing ends.now }
    requires places { IsNonDecreasing places.now }
    ensures { result ≡ joined Nothing (join_choices way) (spec.dealt (map spec.taken_at parts.now) ends.now places.now) }
{
    let many = ends.len().min(parts.len());
    let mut part = 0;
    let mut count = 0;
    let mut left = places;
    'parts: while !left.is_empty() {
        part += passed(&ends[part..], left[0]);
        if part >= many {
            return by_count(way, count, parts.len());
        }
        let (here, others) = left.split_at(count_before(left, ends[part]));
        let choice = taken_at(&parts[part], here);
        if is_neither(choice) {
            return Choice::Neither;
        }
        count = with_part(count, choice);
        part += 1;
        left = others;
    }
    by_count(way, count, parts.len())
}
