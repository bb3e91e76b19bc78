//! Steps of a walk through a graph, whose stack is a list of its own: a chain of members may be
//! longer than the machine's stack is deep.

ghost use Rattle.std.specs.Prelude.{◌≡◌, ◌++◌, map, reverse, IfOk};
ghost use Rattle.graphs.specs.Graphs as spec;

use plain_data::Rows;
use std::alloc::AllocError;

/// The direct supertypes of a member; none beyond the graph.
pub fn supertypes(graph: &[Rows<usize>], member: usize) -> &[usize]
    ensures { result.now ≡ spec.supertypes graph.now member }
{
    match graph.get(member) {
        Some(list) => list.as_slice(),
        None => &[],
    }
}

/// What is still to be done at a member.
#[derive(Clone, Copy)]
pub enum Step {
    /// To go to the members above it first, if it wasn't entered yet.
    Enter(usize),
    /// To give it its place: the members above it were seen to.
    Place(usize),
}

/// Puts on top that these members are entered, the first of them first.
pub fn enter_all(steps: &mut Vec<Step>, members: &[usize]) -> Result<(), AllocError>
    ensures { IfOk result (λ _. steps.new.items ≡ steps.old.items ++ map (λ m. Step.Enter m) (reverse members.now)) }
{
    for member in members.iter().rev() {
        steps.push(Step::Enter(*member))?;
    }
    Ok(())
}
