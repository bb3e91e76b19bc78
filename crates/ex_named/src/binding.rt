//! What binding names gives: a tree, or the fault of least offset.

ghost use Rattle.std.specs.Prelude.{◌≡◌, [], Result, Ok, Err, IfOk, OnOk};
ghost use Rattle.ex_named.specs.Outcomes as spec;

use crate::fault::{NameFault, NameFaultKind};
use plain_data::{Failure, Items};
use std::alloc::{AllocError, Global};
use std::marker::Model;

pub type Binding<T> = Result<T, Failure<NameFault>>;

/// The fault of a name at this byte.
pub fn refused<T>(kind: NameFaultKind, at: usize) -> Binding<T>
    ensures { spec.Binds result (spec.refused kind at) }
{
    Err(Failure::Fault(NameFault { kind, at }))
}

/// Of two faults the one of lesser offset; the first, where they lie at one.
fn lesser(first: NameFault, second: NameFault) -> NameFault
    ensures { result ≡ spec.lesser first second }
{
    if second.at < first.at { second } else { first }
}

/// Both trees, or the lesser of their faults.
pub fn both<A: Drop, B: Drop>(first: Binding<A>, second: Binding<B>) -> Binding<(A, B)>
    ensures { (a : spec.Outcome A) → (b : spec.Outcome B) → spec.Binds first a → spec.Binds second b → spec.Binds result (spec.both a b) }
{
    match (first, second) {
        (Ok(first), Ok(second)) => Ok((first, second)),
        (Err(Failure::NoMemory), _) | (_, Err(Failure::NoMemory)) => Err(Failure::NoMemory),
        (Err(Failure::Fault(first)), Err(Failure::Fault(second))) => Err(Failure::Fault(lesser(
            first, second,
        ))),
        (Err(Failure::Fault(fault)), Ok(_)) | (Ok(_), Err(Failure::Fault(fault))) => Err(
            Failure::Fault(fault),
        ),
    }
}

/// The trees of a list that were bound so far, or the least of their faults.
#[derive(Drop)]
pub struct Gathered<T> {
    trees: Vec<T>,
    fault: Option<NameFault>,
}

impl<T> Model for Gathered<T> {
    ghost use Rattle.std.specs.Prelude.{List};
    ghost use Rattle.ex_named.specs.Outcomes.{Outcome, gathered};

    ghost Value = { Outcome (List T) };

    ghost view = { λ g. gathered g.trees.items g.fault };
}

impl<T: Drop> Gathered<T> {
    /// With room for so many, and no more.
    pub fn new(alloc: Global, count: usize) -> Result<Gathered<T>, AllocError>
        ensures { IfOk result (λ gathered. gathered ≡ Ok []) }
    {
        Ok(Gathered {
            trees: Vec::with_capacity(alloc, count)?,
            fault: None,
        })
    }

    /// Puts a tree behind the others, or keeps its fault where none so far is of lesser or equal offset.
    pub fn push(&mut self, next: Binding<T>) -> Binding<()>
        ensures pushed { (o : spec.Outcome T) → spec.Binds next o → OnOk result (self.new ≡ spec.and_one self.old o) }
        ensures memory { spec.IsMemory result }
    {
        match next {
            Ok(tree) => self.trees.push(tree)?,
            Err(Failure::NoMemory) => return Err(Failure::NoMemory),
            Err(Failure::Fault(fault)) => {
                self.fault = Some(match self.fault {
                    Some(first) => lesser(first, fault),
                    None => fault,
                });
            },
        }
        Ok(())
    }

    pub fn finish(self) -> Binding<Items<T>>
        ensures { spec.Binds result self }
    {
        let Gathered { trees, fault } = self;
        match fault {
            Some(fault) => Err(Failure::Fault(fault)),
            None => Ok(Items::from_vec(trees)),
        }
    }
}
