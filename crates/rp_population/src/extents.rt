//! The instances of an entity, in one model after another.

ghost use Rattle.std.specs.Prelude.{◌≡◌, ◌++◌, OnOk};
ghost use Rattle.rp_population.specs.Found as spec;

use crate::attribute::has_number;
use crate::place::{Place, push_place, shared_key};
use ex_layouts::{Dictionary, Layouts, layout_of};
use plain_data::Text;
use rp_content::{Entities, Instance, Instances};
use rp_index::{Indexed, Kind, ascending, few_among};
use rp_rows::rows::Key;
use shared::Shared;
use std::alloc::{AllocError, Global};
use std::collections::BTreeSet;
use std::marker::Model;

/// Whether the entity is one of those.
fn is_sought(entity: Option<usize>, all: &[usize]) -> bool
    ensures { result ≡ spec.is_sought entity all.now }
{
    match entity {
        Some(number) => has_number(all, number),
        None => false,
    }
}

/// Puts these behind the others.
fn push_names(names: &mut Vec<u64>, more: &[u64]) -> Result<(), AllocError>
    ensures { OnOk result (names.new.items ≡ names.old.items ++ more.now) }
{
    names.extend_from_slice(more)
}

/// An entity of a schema, or none, whose instances are told of one model after another.
#[derive(Drop)]
pub struct Extent<'s> {
    layouts: Layouts<'s>,
    entity: Option<usize>,
}

impl<'s> Model for Extent<'s> {
    ghost use Rattle.rp_population.specs.Sought.{SoughtExtent};

    ghost Value = { SoughtExtent };

    ghost view = { λ e. record { schema = e.layouts; entity = e.entity } };

    ghost use Rattle.std.specs.Coded.{codes};
    ghost use Rattle.ex_named.specs.contracts.expression.NamedDataType as data_type;
    ghost use Rattle.ex_named.specs.contracts.expression.NamedExpression as expression;
    ghost use Rattle.ex_named.specs.contracts.statement.NamedStatement as statement;
    ghost use Rattle.ex_named.specs.contracts.declaration.NamedSupertype as supertype;

    ghost coded = { Prim.hlevel (codes, data_type.the_row.coded, expression.the_row.coded, statement.the_row.coded, supertype.the_row.coded) };
}

impl<'s> Extent<'s> {
    ghost use Rattle.std.specs.Prelude.{◌≡◌, ◌++◌, ◌||◌, ℕ, true, IfOk, IfSome, OnOk};
    ghost use Rattle.std.specs.List.{flat_map};
    ghost use Rattle.plain_data.specs.Numbers.{is_among};
    ghost use Rattle.rp_index.specs.Index.{is_in_kind, is_under};
    ghost use Rattle.rp_index.specs.Told.{told_of};
    ghost use Rattle.rp_population.specs.Populations.{places, placed_all};
    ghost use Rattle.ex_layouts.specs.Entities.{entities_of, entity_spelled};
    ghost use Rattle.rp_population.specs.Entities.{extent_of};
    ghost use Rattle.rp_population.specs.Candidates as among;
    ghost use Rattle.rp_population.specs.Found as spec;

    /// The instances of the entity of this name, in either case; none where the schema has no such entity.
    pub fn of(
        alloc: Global,
        schema: &'s Dictionary<'s>,
        name: &Text,
    ) -> Result<Extent<'s>, AllocError>
        ensures { IfOk result (λ e. e ≡ record { schema = schema.now; entity = entity_spelled schema.now name.now }) }
    {
        let entity = schema.entity_spelled(alloc, name.as_str())?;
        let layouts = Layouts::of(alloc, schema)?;
        Ok(Extent { layouts, entity })
    }

    /// Whether an instance of these entities is of the entity.
    #[tactic(auto, using(crate::proofs::Layouts::entities_are))]
    fn is_of(&mut self, alloc: Global, entities: &Entities) -> Result<bool, AllocError>
        ensures same { self.new ≡ self.old }
        ensures told { IfOk result (λ is_of. is_of ≡ spec.is_sought self.old.entity (entities_of self.old.schema entities.now)) }
    {
        if let Some(layout) = self.layouts.known(entities) {
            return Ok(is_sought(self.entity, layout.entities.as_slice()));
        }
        let layout = layout_of(alloc, self.layouts.dictionary(), entities)?;
        let is_of = is_sought(self.entity, layout.entities.as_slice());
        self.layouts.keep(entities, layout)?;
        Ok(is_of)
    }

    /// Puts the place of an instance of a model behind the others, if it is one of those.
    fn push_one(
        &mut self,
        alloc: Global,
        found: &mut Vec<Place>,
        model: &Shared<Key>,
        instance: &Instance,
    ) -> Result<(), AllocError>
        ensures same { self.new ≡ self.old }
        ensures places { OnOk result (found.new.items ≡ found.old.items ++ among.found_in self.old.schema self.old.entity model.now instance.now) }
    {
        if self.is_of(alloc, &instance.entities)? {
            push_place(found, model, instance.name)?;
        }
        Ok(())
    }

    /// Puts the places of those among a model's instances behind the others.
    fn push_all(
        &mut self,
        alloc: Global,
        found: &mut Vec<Place>,
        model: &Shared<Key>,
        instances: &[Instance],
    ) -> Result<(), AllocError>
        ensures same { self.new ≡ self.old }
        ensures places { OnOk result (found.new.items ≡ found.old.items ++ flat_map (among.found_in self.old.schema self.old.entity model.now) instances.now) }
    {
        for instance in instances {
            self.push_one(alloc, found, model, instance)?;
        }
        Ok(())
    }

    /// Puts the place of the instance of a name behind the others, if it is one of those.
    fn push_named(
        &mut self,
        alloc: Global,
        found: &mut Vec<Place>,
        model: &Shared<Key>,
        instances: &Instances,
        name: u64,
    ) -> Result<(), AllocError>
        ensures same { self.new ≡ self.old }
        ensures places { OnOk result (found.new.items ≡ found.old.items ++ told_of (among.found_in self.old.schema self.old.entity model.now) instances.now name) }
    {
        match instances.get(name) {
            Some(instance) => self.push_one(alloc, found, model, instance),
            None => Ok(()),
        }
    }

    /// Puts the places of those among the instances of some names behind the others, in the order of these.
    fn push_each(
        &mut self,
        alloc: Global,
        found: &mut Vec<Place>,
        model: &Shared<Key>,
        instances: &Instances,
        candidates: &BTreeSet<u64>,
    ) -> Result<(), AllocError>
        ensures same { self.new ≡ self.old }
        ensures places { OnOk result (found.new.items ≡ found.old.items ++ flat_map (told_of (among.found_in self.old.schema self.old.entity model.now) instances.now) candidates.now.keys) }
    {
        for name in candidates {
            self.push_named(alloc, found, model, instances, *name)?;
        }
        Ok(())
    }

    /// Puts the places of those among a model's instances behind the others, where only candidates are such.
    fn push_among(
        &mut self,
        alloc: Global,
        found: &mut Vec<Place>,
        model: &Shared<Key>,
        instances: &Instances,
        candidates: &BTreeSet<u64>,
    ) -> Result<(), AllocError>
        requires { among.AreFoundAmong self.old.schema self.old.entity candidates.now.keys instances.now }
        ensures same { self.new ≡ self.old }
        ensures places { OnOk result (found.new.items ≡ found.old.items ++ flat_map (among.found_in self.old.schema self.old.entity model.now) instances.now) }
    {
        // (Both calls promise that what they are asked of is in order.)
        let (_, _) = (instances.ordered(), candidates.len());
        self.push_each(alloc, found, model, instances, candidates)
    }

    /// Whether instances that the entity of this number is written with may be of the entity.
    fn may_have(&mut self, alloc: Global, written: usize) -> Result<bool, AllocError>
        ensures same { self.new ≡ self.old }
        ensures told { IfOk result (λ may. may ≡ among.may_have self.old.schema self.old.entity written) }
    {
        if self.entity == Some(written) {
            return Ok(true);
        }
        self.is_of(alloc, &Entities::Leaf(written))
    }

    /// Puts the names of instances that may be of the entity behind the others, if they are fewer than so many.
    fn push_kind(
        &mut self,
        alloc: Global,
        names: &mut Vec<u64>,
        kind: &Kind,
        most: usize,
    ) -> Result<bool, AllocError>
        ensures same { self.new ≡ self.old }
        ensures all { IfOk result (λ all. all ≡ true → (q : ℕ × ℕ) → among.may_have self.old.schema self.old.entity q.0 ≡ true → (is_in_kind q kind.now || is_among names.old.items q.1) ≡ true → is_among names.new.items q.1 ≡ true) }
    {
        if !self.may_have(alloc, kind.entity)? {
            return Ok(true);
        }
        if kind.names.len() >= most {
            return Ok(false);
        }
        push_names(names, &kind.names)?;
        Ok(true)
    }

    /// The names of instances that may be of the entity, if those under each entity are fewer than so many.
    fn names_in(
        &mut self,
        alloc: Global,
        kinds: &[Kind],
        most: usize,
    ) -> Result<Option<Vec<u64>>, AllocError>
        ensures same { self.new ≡ self.old }
        ensures found { IfOk result (λ found. IfSome found (λ names. (q : ℕ × ℕ) → among.may_have self.old.schema self.old.entity q.0 ≡ true → is_under kinds.now q ≡ true → is_among names.items q.1 ≡ true)) }
    {
        let mut names = Vec::new(alloc);
        for kind in kinds {
            if !self.push_kind(alloc, &mut names, kind, most)? {
                return Ok(None);
            }
        }
        Ok(Some(names))
    }

    /// The names of instances among which all of the entity are, if the model has an index and they are few.
    fn candidates(
        &mut self,
        alloc: Global,
        held: &Indexed,
    ) -> Result<Option<BTreeSet<u64>>, AllocError>
        ensures same { self.new ≡ self.old }
        ensures found { IfOk result (λ found. IfSome found (λ names. among.AreFoundAmong self.old.schema self.old.entity names.keys held.now.content.instances)) }
    {
        let Some(kinds) = held.kinds() else {
            return Ok(None);
        };
        let most = few_among(held.get().content.instances.len());
        let Some(names) = self.names_in(alloc, kinds, most)? else {
            return Ok(None);
        };
        let few = ascending(alloc, names)?;
        Ok(Some(few))
    }

    /// Puts the places of those in a model behind the others, in the order of its instances. They share the model's key.
    fn push_sharing(
        &mut self,
        alloc: Global,
        found: &mut Vec<Place>,
        model: &Shared<Key>,
        held: &Indexed,
    ) -> Result<(), AllocError>
        ensures same { self.new ≡ self.old }
        ensures places { OnOk result (found.new.items ≡ found.old.items ++ places (extent_of self.old.schema self.old.entity (placed_all (record { model = model.now; content = held.now.content })))) }
    {
        let candidates = self.candidates(alloc, held)?;
        let instances = &held.get().content.instances;
        match candidates {
            Some(few) => self.push_among(alloc, found, model, instances, &few),
            None => self.push_all(alloc, found, model, instances.as_slice()),
        }
    }

    /// Puts the places of those in a model behind the others, in the order of its instances.
    pub fn push(
        &mut self,
        alloc: Global,
        found: &mut Vec<Place>,
        model: &Key,
        held: &Indexed,
    ) -> Result<(), AllocError>
        ensures same { self.new ≡ self.old }
        ensures places { OnOk result (found.new.items ≡ found.old.items ++ places (extent_of self.old.schema self.old.entity (placed_all (record { model = model.now; content = held.now.content })))) }
    {
        let model = shared_key(alloc, model)?;
        self.push_sharing(alloc, found, &model, held)
    }
}
