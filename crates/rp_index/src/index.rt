//! What is kept beside the instances and the links of a model.

ghost use Rattle.std.specs.Prelude.{◌≡◌, IfOk};
ghost use Rattle.std.specs.List.{flat_map};
ghost use Rattle.plain_data.specs.Numbers.{numbered};
ghost use Rattle.rp_index.specs.Pairs.{HasAll};
ghost use Rattle.rp_index.specs.Index as spec;

use crate::kinds::{Kind, enter_kinds, kinds_of, remove_kinds};
use crate::pairs::{Pairs, ascending_seconds_of};
use crate::uses::{all_uses, enter_uses, remove_values};
use rp_content::{Instance, Link};
use std::alloc::{AllocError, Global};
use std::collections::BTreeSet;

/// What is kept beside the instances and the links of a model.
#[derive(Drop)]
pub struct Index {
    /// What is referred to, with who refers to it.
    pub(crate) uses: Pairs,
    /// What links lead to in other models, with the places of the links.
    pub(crate) leads: Pairs,
    /// The entities that are written with instances, with the names of these.
    pub(crate) kinds: Vec<Kind>,
}

fn uses_of(alloc: Global, instances: &[Instance]) -> Result<Pairs, AllocError>
    ensures has { IfOk result (λ uses. HasAll (spec.has uses) (flat_map spec.uses_of instances.now)) }
    ensures order { IfOk result spec.IsInOrder }
{
    let uses = all_uses(alloc, instances)?;
    Pairs::of(alloc, uses)
}

/// Where links lead, in their order.
fn all_leads(alloc: Global, links: &[Link]) -> Result<Vec<(u64, u64)>, AllocError>
    ensures { IfOk result (λ found. found.items ≡ numbered spec.lead links.now) }
{
    let mut found = Vec::new(alloc);
    for (place, link) in links.iter().enumerate() {
        found.push((link.target, place as u64))?;
    }
    Ok(found)
}

fn leads_of(alloc: Global, links: &[Link]) -> Result<Pairs, AllocError>
    ensures has { IfOk result (λ leads. HasAll (spec.has leads) (numbered spec.lead links.now)) }
    ensures order { IfOk result spec.IsInOrder }
{
    let leads = all_leads(alloc, links)?;
    Pairs::of(alloc, leads)
}

impl Index {
    ghost use Rattle.std.specs.Prelude.{◌≡◌, List, true, IfOk, OnOk, IfSome};
    ghost use Rattle.rp_content.specs.declared.instance.Instance.{Instance};
    ghost use Rattle.rp_content.specs.declared.link.Link.{Link};
    ghost use Rattle.rp_rows.specs.Instances.{placed, dropped};
    ghost use Rattle.rp_index.specs.Index.{Covers, AreUsersAmong, AreLeadsAmong, AreKindsOf};

    /// That of these instances and links.
    pub fn of(alloc: Global, instances: &[Instance], links: &[Link]) -> Result<Index, AllocError>
        ensures { IfOk result (λ index. Covers index instances.now links.now) }
    {
        let uses = uses_of(alloc, instances)?;
        let leads = leads_of(alloc, links)?;
        let kinds = kinds_of(alloc, instances)?;
        Ok(Index { uses, leads, kinds })
    }

    /// An instance comes.
    pub fn enter(&mut self, alloc: Global, instance: &Instance) -> Result<(), AllocError>
        ensures { OnOk result ((is : List Instance) (links : List Link) → Covers self.old (dropped instance.now.name is) links → Covers self.new (placed instance.now is) links) }
    {
        enter_uses(alloc, &mut self.uses, instance)?;
        enter_kinds(alloc, &mut self.kinds, instance)?;
        Ok(())
    }

    /// An instance goes. It takes no memory.
    pub fn remove(&mut self, instance: &Instance)
        ensures { (is : List Instance) (links : List Link) → Covers self.old is links → Covers self.new (dropped instance.now.name is) links }
    {
        remove_values(&mut self.uses, instance.name, instance.values.as_slice());
        remove_kinds(&mut self.kinds, instance);
    }

    /// Whether so much is gone that the index is better made anew.
    pub fn is_worn(&self) -> bool {
        self.uses.is_worn()
    }

    /// Who may refer to one of the names, if those that refer to each are fewer than so many.
    pub fn users_of(
        &self,
        alloc: Global,
        names: &BTreeSet<u64>,
        most: usize,
    ) -> Result<Option<BTreeSet<u64>>, AllocError>
        ensures { IfOk result (λ found. IfSome found (λ users. (is : List Instance) (links : List Link) → Covers self.now is links → AreUsersAmong names.now.keys users.keys is)) }
    {
        ascending_seconds_of(alloc, &self.uses, names, most)
    }

    /// The places of links that may lead to an instance of this name in some model, if they are fewer than so many.
    pub fn leads_to(
        &self,
        alloc: Global,
        target: u64,
        most: usize,
    ) -> Result<Option<Vec<u64>>, AllocError>
        ensures { IfOk result (λ found. IfSome found (λ places. (is : List Instance) (links : List Link) → Covers self.now is links → AreLeadsAmong target places.items links)) }
    {
        self.leads.seconds_of(alloc, target, most)
    }

    /// The entities that are written with instances, with the names of these.
    pub fn kinds(&self) -> &[Kind]
        ensures { (is : List Instance) (links : List Link) → Covers self.now is links → AreKindsOf is result.now }
    {
        self.kinds.as_slice()
    }
}
