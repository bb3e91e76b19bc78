//! Supertype expressions as nodes, in which an entity is found by its place.

ghost use Rattle.std.specs.Prelude.{◌≡◌, [], ◌∷◌, ◌++◌, length, map, IfOk};
ghost use Rattle.std.specs.List.Sorted.{IsNonDecreasing};
ghost use Rattle.ex_subtypes.specs.declared.nodes.Node.TheVariants as n;
ghost use Rattle.ex_subtypes.specs.Nodes as spec;

use crate::choices::Connective;
use ex_named::NamedSupertype;
use plain_data::Items;
use std::alloc::{AllocError, Global};
use std::marker::Model;

/// Where parts end: of each the place behind its last entity, so that none is less than the one before.
#[derive(Drop)]
pub struct Ends {
    ends: Vec<usize>,
}

impl Model for Ends {
    ghost use Rattle.std.specs.Prelude.{List, ℕ};
    ghost use Rattle.std.specs.List.Sorted.{IsNonDecreasing};

    ghost Value = { List ℕ };

    ghost view = { λ e. e.ends.items };

    ghost invariant = { λ e. IsNonDecreasing e.ends.items };
}

impl Ends {
    fn from_vec(ends: Vec<usize>) -> Ends
        requires { IsNonDecreasing ends.items }
        ensures { result ≡ ends.items }
    {
        Ends { ends }
    }

    pub fn as_slice(&self) -> &[usize]
        ensures same { result.now ≡ self.now }
        ensures rising { IsNonDecreasing self.now }
    {
        &self.ends
    }
}

/// An expression or a part of one. The entities that the whole names have places, counted from 0 in the order of the text.
pub enum Node {
    /// An entity.
    Entity,
    /// Parts, how they are joined, and where they end.
    Joined(Connective, Ends, Items<Node>),
}

impl Drop for Node {
    #[cycle(node_drop)]
    fn drop(self) {
        match self {
            Node::Entity => {}
            Node::Joined(_, ends, parts) => {
                drop(ends);
                drop(parts);
            }
        }
    }
}

fn entity_node(named: &mut Vec<usize>, entity: usize) -> Result<Node, AllocError>
    ensures named { IfOk result (λ _. named.new.items ≡ named.old.items ++ entity ∷ []) }
    ensures node { IfOk result (λ node. node ≡ n.Entity) }
{
    named.push(entity)?;
    Ok(Node::Entity)
}

/// The node of an expression whose entities stand behind those that are named before. They are put behind these.
#[cycle(placing)]
pub fn node_of(
    alloc: Global,
    named: &mut Vec<usize>,
    expression: &NamedSupertype,
) -> Result<Node, AllocError>
    ensures named { IfOk result (λ _. named.new.items ≡ named.old.items ++ (spec.placed expression.now).named) }
    ensures node { IfOk result (λ node. node ≡ (spec.placed expression.now).node (length named.old.items)) }
{
    match expression {
        NamedSupertype::Entity(entity, _) => entity_node(named, *entity),
        NamedSupertype::OneOf(parts) => {
            joined_node(alloc, named, Connective::OneOf, parts.as_slice())
        }
        NamedSupertype::And(parts) => joined_node(alloc, named, Connective::And, parts.as_slice()),
        NamedSupertype::AndOr(parts) => {
            joined_node(alloc, named, Connective::AndOr, parts.as_slice())
        }
    }
}

#[cycle(placing)]
fn joined_node(
    alloc: Global,
    named: &mut Vec<usize>,
    way: Connective,
    parts: &[NamedSupertype],
) -> Result<Node, AllocError>
    ensures named { IfOk result (λ _. named.new.items ≡ named.old.items ++ (spec.several way (map spec.placed parts.now)).named) }
    ensures node { IfOk result (λ node. node ≡ (spec.several way (map spec.placed parts.now)).node (length named.old.items)) }
{
    let mut ends = Vec::with_capacity(alloc, parts.len())?;
    let mut nodes = Vec::with_capacity(alloc, parts.len())?;
    for part in parts {
        nodes.push(node_of(alloc, named, part)?)?;
        ends.push(named.len())?;
    }
    Ok(Node::Joined(way, Ends::from_vec(ends), Items::from_vec(nodes)))
}
