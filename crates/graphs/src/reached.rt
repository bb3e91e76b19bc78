//! What is reached from a member.

ghost use Rattle.std.specs.Prelude.{◌≡◌, ℕ, ◌↔◌, IfOk, IsTrue};
ghost use Rattle.std.specs.List.Sorted.{IsStrictlyIncreasing};
ghost use Rattle.plain_data.specs.Numbers.{is_among};
ghost use Rattle.graphs.specs.Graphs as spec;

use crate::steps::supertypes;
use plain_data::Rows;
use std::alloc::{AllocError, Global};
use std::collections::BTreeSet;

/// Whether a number is in the set.
pub fn is_in(set: &BTreeSet<usize>, number: usize) -> bool
    ensures { result ≡ is_among set.now.keys number }
{
    set.contains(&number)
}

/// The numbers of a set, in ascending order.
fn ascending(alloc: Global, set: BTreeSet<usize>) -> Result<Rows<usize>, AllocError>
    ensures same { IfOk result (λ rows. rows ≡ set.keys) }
    ensures rising { IfOk result (λ rows. IsStrictlyIncreasing rows) }
{
    Ok(Rows::from_vec(set.into_iter().collect(alloc)?))
}

/// The ancestors of a member.
pub fn all_above(
    alloc: Global,
    graph: &[Rows<usize>],
    member: usize,
) -> Result<BTreeSet<usize>, AllocError>
    ensures { IfOk result (λ found. (a : ℕ) → IsTrue (is_among found.keys a) ↔ spec.IsAncestor graph.now member a) }
{
    let mut found = BTreeSet::new(alloc);
    let mut waiting = Vec::from_slice(alloc, supertypes(graph, member))?;
    while let Some(next) = waiting.pop() {
        if found.insert(next)? {
            waiting.extend_from_slice(supertypes(graph, next))?;
        }
    }
    Ok(found)
}

/// The ancestors of a member, in ascending order.
pub fn ancestors(
    alloc: Global,
    graph: &[Rows<usize>],
    member: usize,
) -> Result<Rows<usize>, AllocError>
    ensures ascending { IfOk result (λ found. IsStrictlyIncreasing found) }
    ensures exact { IfOk result (λ found. (a : ℕ) → IsTrue (is_among found a) ↔ spec.IsAncestor graph.now member a) }
{
    let above = all_above(alloc, graph, member)?;
    ascending(alloc, above)
}

/// The member and its ancestors, without numbers beyond the graph.
pub fn family(
    alloc: Global,
    graph: &[Rows<usize>],
    member: usize,
) -> Result<BTreeSet<usize>, AllocError>
    ensures { IfOk result (λ found. found.keys ≡ spec.family graph.now member) }
{
    let mut found = all_above(alloc, graph, member)?;
    found.insert(member)?;
    found.split_off(&graph.len())?;
    Ok(found)
}
