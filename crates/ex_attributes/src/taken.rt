//! Attributes by their names.

ghost use Rattle.std.specs.Prelude.{◌≡◌, length, map, IfOk, OnOk};
ghost use Rattle.std.specs.List.{list_any};
ghost use Rattle.graphs.specs.Graphs.{numbers_from};
ghost use Rattle.ex_attributes.specs.Attributes as spec;
ghost use Rattle.ex_attributes.specs.Steps.{read};

use crate::attribute::Attribute;
use crate::attributes::Attributes;
use crate::found::Found;
use crate::latest::join_all;
use ex_kinds::{Kinds, Sort, Typed, ValueKind, join};
use ex_tree::Name;
use std::alloc::{AllocError, Global};

impl Attributes {
    /// The attributes of this name that an entity or one above it declares.
    fn named(&self, alloc: Global, entity: usize, name: &str) -> Result<Vec<&Attribute>, AllocError>
        ensures { IfOk result (λ found. read found.items ≡ spec.named_attributes self.now entity name.now) }
    {
        let family = self.family(entity);
        self.declared().named_in(alloc, &family, name)
    }

    /// Looks for the name in one entity.
    fn look_in(
        &self,
        alloc: Global,
        found: &mut Found,
        entity: usize,
        name: &str,
    ) -> Result<(), AllocError>
        ensures { OnOk result (found.new ≡ spec.with_attributes self.now found.old entity (spec.named_attributes self.now entity name.now)) }
    {
        match self.named(alloc, entity, name)?.as_slice() {
            [] => {}
            [attribute] => {
                let kinds = self.kinds_at(alloc, attribute.place, entity)?;
                join(&mut found.kinds, kinds.as_slice())?;
                found.is_there = true;
            }
            _ => {
                found.is_there = true;
                found.is_ambiguous = true;
            }
        }
        Ok(())
    }

    /// Whether an entity has two attributes of this name.
    fn has_several(&self, alloc: Global, entity: usize, name: &str) -> Result<bool, AllocError>
        ensures { IfOk result (λ told. told ≡ spec.is_several (spec.named_attributes self.now entity name.now)) }
    {
        match self.named(alloc, entity, name)?.as_slice() {
            [_, _, ..] => Ok(true),
            _ => Ok(false),
        }
    }

    /// Whether some entity has two attributes of this name, which have these declarations.
    fn is_ambiguous(
        &self,
        alloc: Global,
        name: &str,
        declarations: &[&Attribute],
    ) -> Result<bool, AllocError>
        requires { read declarations.now ≡ spec.named name.now self.now.declared }
        ensures { IfOk result (λ told. told ≡ spec.is_ambiguous_in_some self.now name.now) }
    {
        if declarations.len() < 2 {
            return Ok(false);
        }
        for entity in 0..self.len() {
            let has_several = self.has_several(alloc, entity, name)?;
            if has_several {
                return Ok(true);
            }
        }
        Ok(false)
    }

    /// Puts what attributes may be in whatever instance behind the others.
    fn join_in_all(
        &self,
        alloc: Global,
        kinds: &mut Kinds,
        declarations: &[&Attribute],
    ) -> Result<(), AllocError>
        ensures { OnOk result (kinds.new ≡ spec.kinds_in_all self.now kinds.old (read declarations.now)) }
    {
        for attribute in declarations {
            join(kinds, attribute.kinds.as_slice())?;
            let all = self.redeclared().of_place(alloc, attribute.place)?;
            join_all(kinds, &all)?;
        }
        Ok(())
    }

    /// Looks for the name in all entities.
    fn look_in_all(&self, alloc: Global, found: &mut Found, name: &str) -> Result<(), AllocError>
        ensures { OnOk result (found.new ≡ spec.with_all self.now name.now found.old (spec.named name.now self.now.declared)) }
    {
        let declarations = self.declared().named(alloc, name)?;
        if declarations.is_empty() {
            return Ok(());
        }
        let is_ambiguous = self.is_ambiguous(alloc, name, &declarations)?;
        self.join_in_all(alloc, &mut found.kinds, &declarations)?;
        found.is_there = true;
        found.is_ambiguous = found.is_ambiguous || is_ambiguous;
        Ok(())
    }

    /// Looks for the name in the entities that an instance of this kind may be of.
    fn look_in_kind(
        &self,
        alloc: Global,
        found: &mut Found,
        kind: ValueKind,
        name: &str,
    ) -> Result<(), AllocError>
        ensures { OnOk result (found.new ≡ spec.found_at self.now name.now found.old kind.depth kind.sort) }
    {
        if kind.depth > 0 {
            return Ok(());
        }
        match kind.sort {
            Sort::Entity(entity) => self.look_in(alloc, found, entity, name),
            Sort::Instance | Sort::Generic => self.look_in_all(alloc, found, name),
            _ => Ok(()),
        }
    }

    /// What is found of the name, when the entities that an instance of these kinds may be of are looked at too.
    pub(crate) fn found_from(
        &self,
        alloc: Global,
        before: Found,
        kinds: &[ValueKind],
        name: &str,
    ) -> Result<Found, AllocError>
        ensures { IfOk result (λ found. found ≡ spec.found_after self.now name.now before kinds.now) }
    {
        let mut found = before;
        for kind in kinds {
            self.look_in_kind(alloc, &mut found, *kind, name)?;
        }
        Ok(found)
    }

    /// What is found of the name among the entities that an instance of these kinds may be of.
    pub(crate) fn found_among(
        &self,
        alloc: Global,
        kinds: &[ValueKind],
        name: &str,
    ) -> Result<Found, AllocError>
        ensures { IfOk result (λ found. found ≡ spec.found_after self.now name.now spec.found_nothing kinds.now) }
    {
        self.found_from(alloc, Found::nothing(alloc), kinds, name)
    }

    /// The attribute of this name of a value of these plain kinds; `dot` is the first byte of the point.
    #[tactic(auto, unfolding(crate::specs::Attributes::taken))]
    pub fn taken(
        &self,
        alloc: Global,
        kinds: &[ValueKind],
        dot: usize,
        name: &Name,
    ) -> Result<Typed, AllocError>
        ensures { IfOk result (λ typed. typed ≡ spec.taken self.now kinds.now dot name.now) }
    {
        let found = self.found_among(alloc, kinds, name.text.as_str())?;
        Ok(found.told(alloc, dot, name.at))
    }
}
