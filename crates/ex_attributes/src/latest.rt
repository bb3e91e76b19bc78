//! What an attribute may be: by its latest redeclarations, else by its declaration.

ghost use Rattle.std.specs.Prelude.{◌≡◌, ℕ, ◌==◌, ◌&&◌, ◌||◌, not, [], IfOk, OnOk};
ghost use Rattle.plain_data.specs.Numbers.{is_among};
ghost use Rattle.graphs.specs.Graphs.{family as family_of};
ghost use Rattle.ex_attributes.specs.Attributes as spec;
ghost use Rattle.ex_attributes.specs.Steps.{read};

use crate::attribute::Redeclared;
use crate::attributes::Attributes;
use ex_kinds::{Kinds, TypeFaultKind, Typed, copied, join};
use ex_named::{AttributeMeaning, AttributePlace, AttributeUse};
use std::alloc::{AllocError, Global};
use std::collections::BTreeSet;

/// Whether a number is in the set.
fn is_in(set: &BTreeSet<usize>, number: usize) -> bool
    ensures { result ≡ is_among set.now.keys number }
{
    set.contains(&number)
}

/// Puts what redeclarations allow behind what others do.
pub(crate) fn join_all(kinds: &mut Kinds, all: &[&Redeclared]) -> Result<(), AllocError>
    ensures { OnOk result (kinds.new ≡ spec.all_kinds kinds.old (read all.now)) }
{
    for redeclared in all {
        join(kinds, redeclared.kinds.as_slice())?;
    }
    Ok(())
}

/// What redeclarations allow.
fn all_kinds(alloc: Global, all: &[&Redeclared]) -> Result<Kinds, AllocError>
    ensures { IfOk result (λ kinds. kinds ≡ spec.all_kinds [] (read all.now)) }
{
    let mut kinds = Kinds::new(alloc);
    join_all(&mut kinds, all)?;
    Ok(kinds)
}

impl Attributes {
    /// Puts the entities above one into the set.
    fn insert_above(
        &self,
        alloc: Global,
        set: &mut BTreeSet<usize>,
        entity: usize,
    ) -> Result<(), AllocError>
        ensures { OnOk result ((k : ℕ) → is_among set.new.keys k ≡ (is_among set.old.keys k || (not (entity == k) && is_among (family_of self.now.supertypes entity) k))) }
    {
        let family = self.members(alloc, entity)?;
        for above in &family {
            if *above != entity {
                set.insert(*above)?;
            }
        }
        Ok(())
    }

    /// The entities below which another redeclares.
    fn overridden(&self, alloc: Global, all: &[&Redeclared]) -> Result<BTreeSet<usize>, AllocError>
        ensures { IfOk result (λ found. (k : ℕ) → is_among found.keys k ≡ spec.is_overridden self.now (read all.now) k) }
    {
        let mut found = BTreeSet::new(alloc);
        for redeclared in all {
            self.insert_above(alloc, &mut found, redeclared.entity)?;
        }
        Ok(found)
    }

    /// What the latest of these redeclarations allow.
    fn latest_kinds(&self, alloc: Global, all: &[&Redeclared]) -> Result<Kinds, AllocError>
        ensures { IfOk result (λ kinds. kinds ≡ spec.all_kinds [] (spec.latest self.now (read all.now))) }
    {
        if all.len() == 1 {
            return all_kinds(alloc, all);
        }
        let overridden = self.overridden(alloc, all)?;
        let mut kinds = Kinds::new(alloc);
        for redeclared in all {
            if !is_in(&overridden, redeclared.entity) {
                join(&mut kinds, redeclared.kinds.as_slice())?;
            }
        }
        Ok(kinds)
    }

    /// What the declaration allows.
    fn declared_kinds(&self, alloc: Global, place: AttributePlace) -> Result<Kinds, AllocError>
        ensures { IfOk result (λ kinds. kinds ≡ spec.declared_kinds self.now place) }
    {
        copied(alloc, self.declared().kinds_at(place))
    }

    /// What an attribute may be in an instance of an entity that doesn't redeclare it.
    fn inherited_kinds(
        &self,
        alloc: Global,
        place: AttributePlace,
        entity: usize,
    ) -> Result<Kinds, AllocError>
        ensures { IfOk result (λ kinds. kinds ≡ spec.inherited_kinds self.now place (spec.redeclarations self.now place entity)) }
    {
        let family = self.family(entity);
        let inherited = self.redeclared().by_family(alloc, &family, place)?;
        if inherited.is_empty() {
            self.declared_kinds(alloc, place)
        } else {
            self.latest_kinds(alloc, &inherited)
        }
    }

    /// What the attribute declared there may be in an instance of an entity.
    #[tactic(auto, unfolding(crate::specs::Attributes::kinds_at))]
    pub fn kinds_at(
        &self,
        alloc: Global,
        place: AttributePlace,
        entity: usize,
    ) -> Result<Kinds, AllocError>
        ensures { IfOk result (λ kinds. kinds ≡ spec.kinds_at self.now place entity) }
    {
        if self.redeclared().is_empty() {
            return self.declared_kinds(alloc, place);
        }
        let own = self.redeclared().by(alloc, entity, place)?;
        if own.is_empty() {
            self.inherited_kinds(alloc, place, entity)
        } else {
            all_kinds(alloc, &own)
        }
    }

    /// An attribute of SELF, by its name alone.
    #[tactic(auto, unfolding(crate::specs::Attributes::used))]
    pub fn used(
        &self,
        alloc: Global,
        entity: usize,
        name: &AttributeUse,
    ) -> Result<Typed, AllocError>
        ensures { IfOk result (λ typed. typed ≡ spec.used self.now entity name.now) }
    {
        match name.meaning {
            AttributeMeaning::One(place) => {
                Ok(Typed::fine(self.kinds_at(alloc, place, entity)?))
            }
            AttributeMeaning::Several => {
                Ok(Typed::refused(alloc, TypeFaultKind::Ambiguous, name.at))
            }
        }
    }
}
