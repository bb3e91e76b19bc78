//! Which members of a graph lead to a marked one: by a walk from the marked ones, whose result is tested here.

ghost use Rattle.std.specs.Prelude.{◌≡◌, ◌<◌, ℕ, zero, length, map, IfOk, IsTrue};
ghost use Rattle.graphs.specs.Graphs as graphs;
ghost use Rattle.ex_renamings.specs.Leading as spec;

use graphs::{family, subtypes};
use plain_data::Rows;
use std::alloc::{AllocError, Global};
use std::marker::Model;

/// What a member's list has.
fn listed(graph: &[Rows<usize>], member: usize) -> &[usize]
    ensures { result.now ≡ graphs.supertypes graph.now member }
{
    match graph.get(member) {
        Some(list) => list.as_slice(),
        None => &[],
    }
}

/// Whether a member is marked; none is beyond the end.
pub fn is_marked(marks: &[bool], member: usize) -> bool
    ensures { result ≡ spec.is_marked marks.now member }
{
    match marks.get(member) {
        Some(mark) => *mark,
        None => false,
    }
}

/// By how many steps a member leads to a marked one, and one more; 0, where it doesn't.
#[tactic(auto, unfolding(crate::specs::Leading::steps_of))]
fn steps_of(steps: &[usize], member: usize) -> usize
    ensures { result ≡ spec.steps_of steps.now member }
{
    match steps.get(member) {
        Some(count) => *count,
        None => 0,
    }
}

/// Gives those of the members that have no steps so many, and puts them behind the others.
fn reach(
    steps: &mut Vec<usize>,
    found: &mut Vec<usize>,
    members: &[usize],
    count: usize,
) -> Result<(), AllocError> {
    for member in members {
        if *member < steps.len() && steps[*member] == 0 {
            steps[*member] = count;
            found.push(*member)?;
        }
    }
    Ok(())
}

/// By how many steps each member leads to a marked one, as a walk finds it. `below` is the graph turned round.
fn walked(alloc: Global, below: &[Rows<usize>], marks: &[bool]) -> Result<Vec<usize>, AllocError> {
    let mut steps = Vec::with_capacity(alloc, marks.len())?;
    let mut found = Vec::new(alloc);
    for (member, mark) in marks.iter().enumerate() {
        steps.push(usize::from(*mark))?;
        if *mark {
            found.push(member)?;
        }
    }
    let mut at: usize = 0;
    for _ in 0..u64::MAX {
        let Some(member) = found.get(at).copied() else {
            break;
        };
        at = at.wrapping_add(1);
        let count = steps_of(&steps, member).wrapping_add(1);
        reach(&mut steps, &mut found, listed(below, member), count)?;
    }
    Ok(steps)
}

/// Whether one leads to a marked one by fewer steps than the other.
fn leads_on(count: usize, steps: &[usize], member: usize, next: usize) -> bool
    ensures { result ≡ spec.leads_on count steps.now member next }
{
    let further = steps_of(steps, next);
    next < count && 0 < further && further < steps_of(steps, member)
}

/// Whether none that a member's list has leads to a marked one.
fn none_leads(graph: &[Rows<usize>], steps: &[usize], member: usize) -> bool
    ensures { result ≡ spec.none_leads graph.now steps.now member }
{
    listed(graph, member)
        .iter()
        .all(|next| steps_of(steps, *next) == 0)
}

/// Whether some that a member's list has leads to a marked one by fewer steps.
fn some_leads_on(graph: &[Rows<usize>], steps: &[usize], member: usize) -> bool
    ensures { result ≡ spec.some_leads_on graph.now steps.now member }
{
    let count = graph.len();
    listed(graph, member)
        .iter()
        .any(|next| leads_on(count, steps, member, *next))
}

/// Whether a member's steps are right, if those of all others are.
fn is_right(graph: &[Rows<usize>], marks: &[bool], steps: &[usize], member: usize) -> bool
    ensures { result ≡ spec.is_right graph.now marks.now steps.now member }
{
    if steps_of(steps, member) == 0 {
        !is_marked(marks, member) && none_leads(graph, steps, member)
    } else {
        is_marked(marks, member) || some_leads_on(graph, steps, member)
    }
}

/// Whether the members' steps are right.
fn are_right(graph: &[Rows<usize>], marks: &[bool], steps: &[usize]) -> bool
    ensures { IsTrue result → (m : ℕ) → m < length graph.now → IsTrue (spec.is_right graph.now marks.now steps.now m) }
{
    for member in 0..graph.len() {
        if !is_right(graph, marks, steps, member) {
            return false;
        }
    }
    true
}

/// Whether a member leads to a marked one, by a look at all that it leads to.
fn leads(
    alloc: Global,
    graph: &[Rows<usize>],
    marks: &[bool],
    member: usize,
) -> Result<bool, AllocError>
    ensures { IfOk result (λ told. told ≡ spec.leads graph.now marks.now member) }
{
    let members: Vec<usize> = family(alloc, graph, member)?.into_iter().collect(alloc)?;
    Ok(members.iter().any(|other| is_marked(marks, *other)))
}

/// Whether a member leads to a marked one: by its steps, where they are right.
fn told(
    alloc: Global,
    graph: &[Rows<usize>],
    marks: &[bool],
    steps: &[usize],
    are_right: bool,
    member: usize,
) -> Result<bool, AllocError>
    requires within { member < length graph.now }
    requires right { IsTrue are_right → (m : ℕ) → m < length graph.now → IsTrue (spec.is_right graph.now marks.now steps.now m) }
    ensures { IfOk result (λ told. told ≡ spec.leads graph.now marks.now member) }
{
    if are_right {
        Ok(steps_of(steps, member) > 0)
    } else {
        leads(alloc, graph, marks, member)
    }
}

/// A graph, and the same turned round.
#[derive(Drop)]
pub struct Turned<'g> {
    graph: &'g [Rows<usize>],
    below: Vec<Rows<usize>>,
}

impl<'g> Model for Turned<'g> {
    ghost use Rattle.std.specs.Prelude.{List, ℕ};

    ghost Value = { List (List ℕ) };

    ghost view = { λ t. t.graph.now };
}

impl<'g> Turned<'g> {
    pub fn of(alloc: Global, graph: &'g [Rows<usize>]) -> Result<Turned<'g>, AllocError>
        ensures { IfOk result (λ t. t ≡ graph.now) }
    {
        let below = subtypes(alloc, graph)?;
        Ok(Turned { graph, below })
    }

    /// Of each member, whether it or one that it leads to is marked. Its time is that of a walk through the graph.
    pub fn leading(&self, alloc: Global, marks: &[bool]) -> Result<Vec<bool>, AllocError>
        ensures { IfOk result (λ found. found.items ≡ spec.leading self.now marks.now) }
    {
        let steps = walked(alloc, &self.below, marks)?;
        all_told(alloc, self.graph, marks, &steps)
    }
}

/// Of each member, whether it leads to a marked one: by the steps, where they are right.
#[tactic(auto, unfolding(crate::specs::Leading::leading))]
fn all_told(
    alloc: Global,
    graph: &[Rows<usize>],
    marks: &[bool],
    steps: &[usize],
) -> Result<Vec<bool>, AllocError>
    ensures { IfOk result (λ found. found.items ≡ spec.leading graph.now marks.now) }
{
    let are_right = are_right(graph, marks, steps);
    let mut found = Vec::with_capacity(alloc, graph.len())?;
    for member in 0..graph.len() {
        let leads = told(alloc, graph, marks, steps, are_right, member)?;
        found.push(leads)?;
    }
    Ok(found)
}
