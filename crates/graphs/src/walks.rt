//! How the members of a graph hang together, by two walks: up, depth first, and then down from each
//! member in the reverse of the order in which the first walk left them. Nothing is proved of what
//! they find: who uses it tests it.

ghost use Rattle.std.specs.Prelude.{◌≡◌};
ghost use Rattle.graphs.specs.Traces as spec;

use crate::steps::supertypes;
use plain_data::Rows;
use std::alloc::{AllocError, Global};

/// What the walks found of a member.
#[derive(Clone, Copy)]
pub struct Trace {
    /// The one that stands for all members of its ring: the first that the walk up came to.
    pub root: usize,
    /// Its turn in the walk down. A ring comes before those above it, and each member of a ring but
    /// its root after a direct supertype of the same ring.
    pub turn: usize,
    /// How many steps the walk up took to it from where it began.
    pub depth: usize,
    /// The member from which the walk up came to it, and the place in that one's list.
    pub from: usize,
    pub place: usize,
}

/// What isn't a number of a member, a turn or a depth.
pub const NONE: usize = usize::MAX;

/// What is known of a member before the walks, and of a number beyond the graph.
#[tactic(auto, unfolding(crate::specs::Traces::untraced))]
pub fn untraced(member: usize) -> Trace
    ensures { result ≡ spec.untraced member }
{
    Trace {
        root: member,
        turn: NONE,
        depth: NONE,
        from: NONE,
        place: NONE,
    }
}

/// A member whose supertypes are being walked up to, and the place of the next.
#[derive(Clone, Copy)]
struct Frame {
    member: usize,
    next: usize,
}

/// Whether the walk up comes to this member for the first time.
fn enter(traces: &mut Vec<Trace>, member: usize, from: usize, place: usize, depth: usize) -> bool {
    if member >= traces.len() || traces[member].depth != NONE {
        return false;
    }
    traces[member].depth = depth;
    traces[member].from = from;
    traces[member].place = place;
    true
}

/// Walks up from the members of the frames, and puts those that it leaves behind the others.
fn climb(
    graph: &[Rows<usize>],
    frames: &mut Vec<Frame>,
    traces: &mut Vec<Trace>,
    left: &mut Vec<usize>,
) -> Result<(), AllocError> {
    for _ in 0..u64::MAX {
        let Some(Frame { member, next }) = frames.pop() else {
            break;
        };
        match supertypes(graph, member).get(next) {
            Some(above) => {
                frames.push(Frame {
                    member,
                    next: next.wrapping_add(1),
                })?;
                if enter(traces, *above, member, next, frames.len()) {
                    frames.push(Frame {
                        member: *above,
                        next: 0,
                    })?;
                }
            }
            None => {
                left.push(member)?;
            }
        }
    }
    Ok(())
}

/// Walks up from each member, and gives the members in the order in which they were left.
fn walk_up(
    alloc: Global,
    graph: &[Rows<usize>],
    traces: &mut Vec<Trace>,
) -> Result<Vec<usize>, AllocError> {
    let mut left = Vec::new(alloc);
    let mut frames = Vec::new(alloc);
    for member in 0..graph.len() {
        if enter(traces, member, member, 0, 0) {
            frames.push(Frame { member, next: 0 })?;
            climb(graph, &mut frames, traces, &mut left)?;
        }
    }
    Ok(left)
}

/// Whether the walk down comes to this member for the first time.
fn find(traces: &mut Vec<Trace>, member: usize, root: usize, turn: usize) -> bool {
    if member >= traces.len() || traces[member].turn != NONE {
        return false;
    }
    traces[member].root = root;
    traces[member].turn = turn;
    true
}

/// Puts those of the members that the walk down comes to for the first time behind the others.
fn find_all(
    members: &[usize],
    root: usize,
    found: &mut Vec<usize>,
    traces: &mut Vec<Trace>,
) -> Result<(), AllocError> {
    for member in members {
        if find(traces, *member, root, found.len()) {
            found.push(*member)?;
        }
    }
    Ok(())
}

/// Walks down from the members that were left, the last of them first.
fn walk_down(
    alloc: Global,
    below: &[Rows<usize>],
    left: &[usize],
    traces: &mut Vec<Trace>,
) -> Result<(), AllocError> {
    let mut found = Vec::new(alloc);
    let mut at: usize = 0;
    for root in left.iter().rev() {
        find_all(&[*root], *root, &mut found, traces)?;
        for _ in 0..u64::MAX {
            let Some(member) = found.get(at).copied() else {
                break;
            };
            at = at.wrapping_add(1);
            find_all(supertypes(below, member), *root, &mut found, traces)?;
        }
    }
    Ok(())
}

/// What the two walks found of each member. `below` has the members' direct subtypes.
pub fn traces(
    alloc: Global,
    graph: &[Rows<usize>],
    below: &[Rows<usize>],
) -> Result<Vec<Trace>, AllocError> {
    let mut traces = Vec::with_capacity(alloc, graph.len())?;
    for member in 0..graph.len() {
        traces.push(untraced(member))?;
    }
    let left = walk_up(alloc, graph, &mut traces)?;
    walk_down(alloc, below, &left, &mut traces)?;
    Ok(traces)
}
