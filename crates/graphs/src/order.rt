//! The order in which the members above one are told.

ghost use Rattle.std.specs.Prelude.{◌≡◌, IfOk, Some};
ghost use Rattle.graphs.specs.Graphs as spec;

use crate::placed::Placed;
use crate::steps::{Step, enter_all, supertypes};
use plain_data::Rows;
use std::alloc::{AllocError, Global};

/// The members above this one and itself: supertypes first, in the order of the lists, depth first,
/// each once at its first place.
pub fn line(alloc: Global, graph: &[Rows<usize>], member: usize) -> Result<Rows<usize>, AllocError>
    requires { spec.IsAcyclic graph.now }
    ensures { IfOk result (λ order. spec.line graph.now member ≡ Some order) }
{
    let mut order = Placed::new(alloc, graph.len());
    let mut steps = Vec::new(alloc);
    steps.push(Step::Enter(member))?;
    while let Some(step) = steps.pop() {
        match step {
            Step::Enter(next) => {
                if !order.has(next) {
                    steps.push(Step::Place(next))?;
                    enter_all(&mut steps, supertypes(graph, next))?;
                }
            }
            Step::Place(next) => {
                if !order.has(next) {
                    order.push(alloc, next)?;
                }
            }
        }
    }
    Ok(order.into_rows())
}
