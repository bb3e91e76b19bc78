//! Many kinds, with what tells whether one of an entity is among them.

ghost use Rattle.std.specs.Prelude.{◌≡◌, List, [], ◌∷◌, ◌++◌, OnOk, OnErr, IfOk};
ghost use Rattle.std.specs.List.{list_any};
ghost use Rattle.ex_kinds.specs.declared.kind.ValueKind.{ValueKind};
ghost use Rattle.ex_kinds.specs.Indexed as indexed;
ghost use Rattle.ex_kinds.specs.Kinds as spec;

use crate::kind::{Sort, ValueKind};
use std::alloc::{AllocError, Global};
use std::collections::BTreeSet;
use std::marker::Model;

/// Many kinds. Those of entities, of which there may be as many as a schema has, are found by their numbers.
pub(crate) struct Indexed {
    kinds: Vec<ValueKind>,
    /// The entities of which an instance is one of the kinds.
    entities: BTreeSet<usize>,
}

impl Drop for Indexed {
    fn drop(self) {
        let Indexed { kinds, entities } = self;
        drop(kinds);
        drop(entities);
    }
}

impl Model for Indexed {
    ghost use Rattle.std.specs.Prelude.{List};
    ghost use Rattle.ex_kinds.specs.declared.kind.ValueKind.{ValueKind};
    ghost use Rattle.ex_kinds.specs.Indexed as indexed;

    ghost Value = { List ValueKind };

    ghost view = { λ k. k.kinds.items };

    ghost invariant = { λ k. indexed.AreEntities k.entities.keys k.kinds.items };
}

/// The entity, if this is of an instance of one.
fn entity_of(kind: ValueKind) -> Option<usize>
    ensures { result ≡ indexed.entity_at kind.depth kind.sort }
{
    match kind.sort {
        Sort::Entity(entity) if kind.depth == 0 => Some(entity),
        _ => None,
    }
}

/// Puts the kind's entity, if it is of one, among the entities.
fn note(entities: &mut BTreeSet<usize>, kind: ValueKind) -> Result<(), AllocError>
    ensures ok { (kinds : List ValueKind) → indexed.AreEntities entities.old.keys kinds → OnOk result (indexed.AreEntities entities.new.keys (kinds ++ kind ∷ [])) }
    ensures err { OnErr result (entities.new.keys ≡ entities.old.keys) }
{
    if let Some(entity) = entity_of(kind) {
        entities.insert(entity)?;
    }
    Ok(())
}

/// The entities of the kinds.
fn entities_of(alloc: Global, kinds: &[ValueKind]) -> Result<BTreeSet<usize>, AllocError>
    ensures { IfOk result (λ entities. indexed.AreEntities entities.keys kinds.now) }
{
    let mut entities = BTreeSet::new(alloc);
    for kind in kinds {
        note(&mut entities, *kind)?;
    }
    Ok(entities)
}

impl Indexed {
    /// These kinds.
    pub(crate) fn of(alloc: Global, kinds: &[ValueKind]) -> Result<Indexed, AllocError>
        ensures { IfOk result (λ all. all ≡ kinds.now) }
    {
        let entities = entities_of(alloc, kinds)?;
        let kinds = Vec::from_slice(alloc, kinds)?;
        Ok(Indexed { kinds, entities })
    }

    pub(crate) fn as_slice(&self) -> &[ValueKind]
        ensures { result.now ≡ self.now }
    {
        self.kinds.as_slice()
    }

    pub(crate) fn into_vec(self) -> Vec<ValueKind>
        ensures { result.items ≡ self }
    {
        let Indexed { kinds, entities } = self;
        drop(entities);
        kinds
    }

    /// Whether this kind is one of them.
    pub(crate) fn has(&self, kind: ValueKind) -> bool
        ensures { result ≡ list_any (λ other. spec.same other kind) self.now }
    {
        match entity_of(kind) {
            Some(entity) => self.entities.contains(&entity),
            None => self.kinds.iter().any(|other| *other == kind),
        }
    }

    /// Puts a kind behind the others.
    pub(crate) fn push(&mut self, kind: ValueKind) -> Result<(), AllocError>
        ensures ok { OnOk result (self.new ≡ self.old ++ kind ∷ []) }
        ensures err { OnErr result (self.new ≡ self.old) }
    {
        self.kinds.push(kind)?;
        match note(&mut self.entities, kind) {
            Ok(()) => Ok(()),
            Err(error) => {
                self.kinds.pop();
                Err(error)
            },
        }
    }
}
