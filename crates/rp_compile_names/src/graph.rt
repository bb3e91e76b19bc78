//! The graph of supertypes, and the members of families in a graph.

ghost use Rattle.std.specs.Prelude.{◌≡◌, map, IfOk};
ghost use Rattle.graphs.specs.Graphs as graphs;

use ex_named::NamedEntity;
use graphs::family;
use plain_data::Rows;
use std::alloc::{AllocError, Global};

/// Of each entity its direct supertypes.
pub fn supertypes(alloc: Global, entities: &[NamedEntity]) -> Result<Vec<Rows<usize>>, AllocError>
    ensures { IfOk result (λ graph. graph.items ≡ map (λ e. e.supertypes) entities.now) }
{
    let mut graph = Vec::new(alloc);
    for entity in entities {
        let above = Vec::from_slice(alloc, entity.supertypes.as_slice())?;
        graph.push(Rows::from_vec(above))?;
    }
    Ok(graph)
}

/// A member of a graph and those above it, in ascending order.
pub(crate) fn members_of_family(
    alloc: Global,
    graph: &[Rows<usize>],
    member: usize,
) -> Result<Vec<usize>, AllocError>
    ensures { IfOk result (λ found. found.items ≡ graphs.family graph.now member) }
{
    family(alloc, graph, member)?.into_iter().collect(alloc)
}
