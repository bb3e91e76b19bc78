//! What a model holds, with its index. Contracts see what the model holds, and not the index.

ghost use Rattle.std.specs.Prelude.{◌≡◌, ◌/◌, List, IfOk};
ghost use Rattle.rp_content.specs.declared.link.Link.{Link};
ghost use Rattle.rp_rows.specs.Instances.{placed, dropped};
ghost use Rattle.rp_index.specs.Index.{Covers, IsIndexOf};

use crate::edits::greatest_of;
use crate::index::Index;
use crate::kinds::Kind;
use rp_content::{Content, Instance, Instances, Spare};
use rp_rows::rows::ModelContent;
use std::alloc::{AllocError, Global};
use std::collections::BTreeSet;
use std::marker::Model;

/// From so many instances or links on a model has an index: fewer are sooner walked over.
const LEAST: usize = 64;

/// An answer is told from candidates if they are fewer than one of so many: more are later found one by one than all are walked over.
const SHARE: usize = 16;

/// How many candidates among so many are too many.
pub fn few_among(count: usize) -> usize
    ensures { result ≡ count / 16 }
{
    count / SHARE
}

/// What a model holds, with its index, if it has one.
#[derive(Drop)]
struct Held {
    model: ModelContent,
    index: Option<Index>,
}

/// The same in a block of its own, so that rows which make room for another are small.
#[derive(Drop)]
pub struct Indexed {
    held: Box<Held>,
}

impl Model for Indexed {
    ghost use Rattle.rp_rows.specs.declared.rows.ModelContent.{ModelContent};
    ghost use Rattle.rp_index.specs.Index.{IsIndexOf};

    ghost Value = { ModelContent };

    ghost use Rattle.std.specs.Coded.{codes};
    ghost use Rattle.rp_rows.specs.contracts.rows.ModelContent as content_type;

    ghost coded = { Prim.hlevel (codes, content_type.the_row.coded) };

    ghost view = { λ x. x.held.value.model };

    ghost invariant = { λ x. IsIndexOf x.held.value.model.content x.held.value.index };
}

/// The index of a content, if it is to have one.
pub fn index_of(alloc: Global, content: &Content) -> Result<Option<Index>, AllocError>
    ensures { IfOk result (IsIndexOf content.now) }
{
    let instances = content.instances.as_slice();
    let links = content.links.as_slice();
    if instances.len() < LEAST && links.len() < LEAST {
        return Ok(None);
    }
    let index = Index::of(alloc, instances, links)?;
    Ok(Some(index))
}

/// The index without the instance of this name. It takes no memory.
fn index_without(mut index: Index, instances: &Instances, name: u64) -> Index
    ensures { (links : List Link) → Covers index instances.now links → Covers result (dropped name instances.now) links }
{
    match instances.get(name) {
        Some(instance) => {
            index.remove(instance);
            index
        }
        None => index,
    }
}

/// The index with this instance in place of the one of its name.
fn index_with(
    alloc: Global,
    index: Index,
    instances: &Instances,
    instance: &Instance,
) -> Result<Index, AllocError>
    ensures { IfOk result (λ x. (links : List Link) → Covers index instances.now links → Covers x (placed instance.now instances.now) links) }
{
    let mut index = index_without(index, instances, instance.name);
    index.enter(alloc, instance)?;
    Ok(index)
}

impl Indexed {
    ghost use Rattle.std.specs.Prelude.{◌≡◌, IfOk, IfSome};
    ghost use Rattle.rp_content.specs.Names.{Takes};
    ghost use Rattle.rp_rows.specs.Contents as contents;
    ghost use Rattle.rp_rows.specs.Instances.{with_instance, without_instance};
    ghost use Rattle.rp_index.specs.Index.{IsIndexOf, AreUsersAmong, AreLeadsAmong, AreKindsOf};

    /// What a model holds, without an index.
    pub fn new(alloc: Global, model: ModelContent) -> Result<Indexed, AllocError>
        ensures { IfOk result (λ indexed. indexed ≡ model) }
    {
        let held = Box::new(alloc, Held { model, index: None })?;
        Ok(Indexed { held })
    }

    /// What a model holds, with the index that it is to have.
    pub fn with_index(alloc: Global, model: ModelContent) -> Result<Indexed, AllocError>
        ensures { IfOk result (λ indexed. indexed ≡ model) }
    {
        let index = index_of(alloc, &model.content)?;
        let held = Box::new(alloc, Held { model, index })?;
        Ok(Indexed { held })
    }

    /// What the model holds.
    pub fn get(&self) -> &ModelContent
        ensures { result.now ≡ self.now }
    {
        &self.held.model
    }

    // ---- candidates

    /// Who may refer to one of the names, if the model has an index and they are few among its instances.
    pub fn users_among(
        &self,
        alloc: Global,
        names: &BTreeSet<u64>,
    ) -> Result<Option<BTreeSet<u64>>, AllocError>
        ensures { IfOk result (λ found. IfSome found (λ users. AreUsersAmong names.now.keys users.keys self.now.content.instances)) }
    {
        match &self.held.index {
            Some(index) => {
                let most = few_among(self.held.model.content.instances.len());
                index.users_of(alloc, names, most)
            }
            None => Ok(None),
        }
    }

    /// The places of links that may lead to an instance of this name in some model, if the model has an index and they are few.
    pub fn leads_among(&self, alloc: Global, target: u64) -> Result<Option<Vec<u64>>, AllocError>
        ensures { IfOk result (λ found. IfSome found (λ places. AreLeadsAmong target places.items self.now.content.links)) }
    {
        match &self.held.index {
            Some(index) => {
                let most = few_among(self.held.model.content.links.len()) + 1;
                index.leads_to(alloc, target, most)
            }
            None => Ok(None),
        }
    }

    /// The entities that are written with instances, with the names of these, if the model has an index.
    pub fn kinds(&self) -> Option<&[Kind]>
        ensures { IfSome result (λ kinds. AreKindsOf self.now.content.instances kinds.now) }
    {
        match &self.held.index {
            Some(index) => Some(index.kinds()),
            None => None,
        }
    }

    // ---- changes

    /// The index, or a new one if there is none or it is worn. From then on the model has none, until a change brings one: no answer tells.
    fn take_index(&mut self, alloc: Global) -> Result<Option<Index>, AllocError>
        ensures same { self.new ≡ self.old }
        ensures index { IfOk result (IsIndexOf self.old.content) }
    {
        if let Some(index) = self.held.index.take() {
            if !index.is_worn() {
                return Ok(Some(index));
            }
        }
        index_of(alloc, &self.held.model.content)
    }

    /// The index for when this instance stands under its name. From then on the model has none, until a change brings one.
    pub fn take_index_with(
        &mut self,
        alloc: Global,
        instance: &Instance,
    ) -> Result<Option<Index>, AllocError>
        ensures same { self.new ≡ self.old }
        ensures index { IfOk result (IsIndexOf (with_instance instance.now self.old).content) }
    {
        match self.take_index(alloc)? {
            Some(index) => {
                let index = index_with(alloc, index, &self.held.model.content.instances, instance)?;
                Ok(Some(index))
            }
            None => Ok(None),
        }
    }

    /// The index for when no instance stands under the name. From then on the model has none, until a change brings one.
    pub fn take_index_without(
        &mut self,
        alloc: Global,
        name: u64,
    ) -> Result<Option<Index>, AllocError>
        ensures same { self.new ≡ self.old }
        ensures index { IfOk result (IsIndexOf (without_instance name self.old).content) }
    {
        match self.take_index(alloc)? {
            Some(index) => Ok(Some(index_without(index, &self.held.model.content.instances, name))),
            None => Ok(None),
        }
    }

    /// The instance stands under its name from now on. It takes no memory.
    pub fn place(&mut self, instance: Instance, spare: Spare, index: Option<Index>)
        requires room { Takes spare instance.name self.old.content.instances }
        requires index { IsIndexOf (with_instance instance self.old).content index }
        ensures { self.new ≡ with_instance instance self.old }
    {
        let held = &mut *self.held;
        held.model.greatest = held.model.greatest.max(instance.name);
        held.model.content.instances.put(instance, spare);
        held.index = index;
    }

    /// No instance stands under the name from now on. It takes no memory.
    pub fn drop_instance(&mut self, name: u64, index: Option<Index>)
        requires { IsIndexOf (without_instance name self.old).content index }
        ensures { self.new ≡ without_instance name self.old }
    {
        let held = &mut *self.held;
        held.model.content.instances.drop_instance(name);
        held.index = index;
    }

    /// Another content in place of the former. It takes no memory.
    pub fn refill(&mut self, content: Content, index: Option<Index>)
        requires { IsIndexOf content index }
        ensures { self.new ≡ record self.old { greatest = contents.greatest_of self.old.greatest content; content = content } }
    {
        let held = &mut *self.held;
        held.model.greatest = greatest_of(held.model.greatest, &content);
        held.model.content = content;
        held.index = index;
    }
}
