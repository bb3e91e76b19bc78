//! Labels of rings, by which most questions of who stands above whom are answered without a walk: a
//! tree that spans the graph, with ways up it, and for each ring a range that holds the ranges of
//! those below it. Nothing is proved of what is found here: who uses it tests it.

ghost use Rattle.std.specs.Prelude.{◌≡◌};
ghost use Rattle.ancestors.specs.Labels as spec;

use graphs::{NONE, Trace, supertypes};
use plain_data::Rows;
use std::alloc::{AllocError, Global};

/// What is found of the ring that a member is the root of.
#[derive(Clone, Copy)]
pub struct Label {
    /// The root of the ring above it in the tree, or itself.
    pub up: usize,
    /// A member of the ring, and one of its supertypes, of the ring above.
    pub by: usize,
    pub to: usize,
    /// A root further up in the tree: `up`, or the jump of the jump of `up`.
    pub jump: usize,
    /// How many rings are above it in the tree.
    pub depth: usize,
    /// The range that holds the ranges of the rings below it.
    pub low: usize,
    pub high: usize,
}

/// What is known of a ring before the walk.
#[tactic(auto, unfolding(crate::specs::Labels::unlabelled))]
pub fn unlabelled(root: usize) -> Label
    ensures { result ≡ spec.unlabelled root }
{
    Label {
        up: root,
        by: root,
        to: root,
        jump: root,
        depth: 0,
        low: NONE,
        high: NONE,
    }
}

/// A ring whose subtypes are being walked to: which of its members comes next, by its turn, and the
/// place in that one's list.
#[derive(Clone, Copy)]
struct Frame {
    root: usize,
    turn: usize,
    next: usize,
}

fn root_of(traces: &[Trace], member: usize) -> usize {
    match traces.get(member) {
        Some(trace) => trace.root,
        None => member,
    }
}

fn turn_of(traces: &[Trace], member: usize) -> usize {
    match traces.get(member) {
        Some(trace) => trace.turn,
        None => NONE,
    }
}

fn label_at(labels: &[Label], root: usize) -> Label {
    match labels.get(root) {
        Some(label) => *label,
        None => unlabelled(root),
    }
}

/// The members in the order of their turns.
fn by_turn(alloc: Global, traces: &[Trace]) -> Result<Vec<usize>, AllocError> {
    let mut order = Vec::with_capacity(alloc, traces.len())?;
    for member in 0..traces.len() {
        order.push(member)?;
    }
    for member in 0..traces.len() {
        let turn = traces[member].turn;
        if turn < order.len() {
            order[turn] = member;
        }
    }
    Ok(order)
}

/// The root to jump to from below this one.
fn jump_over(labels: &[Label], up: usize) -> usize {
    let above = label_at(labels, up);
    let jump = label_at(labels, above.jump);
    let further = label_at(labels, jump.jump);
    if above.depth.wrapping_sub(jump.depth) == jump.depth.wrapping_sub(further.depth) {
        jump.jump
    } else {
        up
    }
}

/// Whether the walk comes to this ring for the first time.
fn enter(labels: &mut Vec<Label>, root: usize, label: Label) -> bool {
    if root >= labels.len() || labels[root].low != NONE {
        return false;
    }
    labels[root] = label;
    true
}

/// Makes a ring's range hold this one's.
fn widen(labels: &mut Vec<Label>, root: usize, low: usize) {
    if root < labels.len() && low < labels[root].low {
        labels[root].low = low;
    }
}

/// Leaves a ring, as the so manieth.
fn leave(labels: &mut Vec<Label>, root: usize, count: usize) {
    if root < labels.len() {
        labels[root].high = count;
        let label = labels[root];
        widen(labels, label.up, label.low);
    }
}

/// The element so many from the start, or from the end.
fn element(list: &[usize], next: usize, is_reversed: bool) -> Option<usize> {
    if is_reversed && next < list.len() {
        return list.get(list.len() - 1 - next).copied();
    }
    list.get(next).copied()
}

/// Walks down from the rings of the frames. It gives how many rings were left.
fn descend(
    below: &[Rows<usize>],
    traces: &[Trace],
    order: &[usize],
    frames: &mut Vec<Frame>,
    labels: &mut Vec<Label>,
    is_reversed: bool,
    left: usize,
) -> Result<usize, AllocError> {
    let mut left = left;
    for _ in 0..u64::MAX {
        let Some(Frame { root, turn, next }) = frames.pop() else {
            break;
        };
        let member = order.get(turn).copied().unwrap_or(NONE);
        if root_of(traces, member) != root {
            leave(labels, root, left);
            left = left.wrapping_add(1);
            continue;
        }
        let Some(lower) = element(supertypes(below, member), next, is_reversed) else {
            frames.push(Frame {
                root,
                turn: turn.wrapping_add(1),
                next: 0,
            })?;
            continue;
        };
        frames.push(Frame {
            root,
            turn,
            next: next.wrapping_add(1),
        })?;
        let child = root_of(traces, lower);
        let label = Label {
            up: root,
            by: lower,
            to: member,
            jump: jump_over(labels, root),
            depth: label_at(labels, root).depth.wrapping_add(1),
            low: left,
            high: NONE,
        };
        if enter(labels, child, label) {
            frames.push(Frame {
                root: child,
                turn: turn_of(traces, child),
                next: 0,
            })?;
        } else {
            widen(labels, root, label_at(labels, child).low);
        }
    }
    Ok(left)
}

/// A label for each member; those of roots serve. Another tree is found where the walk takes the last
/// subtype first.
pub fn labels(
    alloc: Global,
    below: &[Rows<usize>],
    traces: &[Trace],
    is_reversed: bool,
) -> Result<Vec<Label>, AllocError> {
    let order = by_turn(alloc, traces)?;
    let mut labels = Vec::with_capacity(alloc, traces.len())?;
    for member in 0..traces.len() {
        labels.push(unlabelled(member))?;
    }
    let mut frames = Vec::new(alloc);
    let mut left: usize = 0;
    for member in order.iter().rev() {
        let root = root_of(traces, *member);
        let mut label = unlabelled(root);
        label.low = left;
        if enter(&mut labels, root, label) {
            frames.push(Frame {
                root,
                turn: turn_of(traces, root),
                next: 0,
            })?;
            left = descend(
                below,
                traces,
                &order,
                &mut frames,
                &mut labels,
                is_reversed,
                left,
            )?;
        }
    }
    Ok(labels)
}
