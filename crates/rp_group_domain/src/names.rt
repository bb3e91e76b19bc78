//! What names in a model stand for in a population.

ghost use Rattle.std.specs.Prelude.{◌≡◌};
ghost use Rattle.std.specs.Ordering.{nat_cmp};
ghost use Rattle.sorted_tables.specs.Table.{IsAscending};
ghost use Rattle.rp_rows.specs.Contents.{link_name};
ghost use Rattle.rp_group_domain.specs.Models as spec;

use crate::models::{CountedModel, PlacedInstance};
use crate::places::place_near;
use crate::targets::targets;
use plain_data::Items;
use rp_content::{Instances, Link};
use sorted_tables::search;
use std::alloc::{AllocError, Global};
use std::marker::Model;

/// The instances of a model and its links, by where they stand and where they lead in a population of so many.
pub(crate) struct Names<'a> {
    instances: &'a Instances,
    /// Where the first of them stands.
    start: usize,
    count: usize,
    links: &'a [Link],
    /// In the order of the links.
    targets: Items<usize>,
}

impl<'a> Drop for Names<'a> {
    fn drop(self) {
        let Names {
            instances: _,
            start: _,
            count: _,
            links: _,
            targets,
        } = self;
        drop(targets);
    }
}

impl<'a> Model for Names<'a> {
    ghost use Rattle.rp_group_domain.specs.Models as spec;
    ghost use Rattle.std.specs.Coded.{codes};
    ghost use Rattle.rp_content.specs.contracts.instance.Instance as instance_type;
    ghost use Rattle.rp_content.specs.contracts.link.Link as link_type;

    ghost Value = { spec.Names };

    ghost coded = { Prim.hlevel (codes, instance_type.the_row.coded, link_type.the_row.coded) };

    ghost view = { λ n. record { instances = n.instances.now; start = n.start; count = n.count; links = n.links.now; targets = n.targets } };

    ghost invariant = { λ n. spec.CanName (record { instances = n.instances.now; start = n.start; count = n.count; links = n.links.now; targets = n.targets }) };
}

/// Where the link of a name stands; behind the last where none has it.
fn link_of(links: &[Link], name: u64) -> usize
    requires { IsAscending nat_cmp link_name links.now }
    ensures { result ≡ spec.link_of links.now name }
{
    match search(links, &name) {
        Ok(place) => place,
        Err(_) => links.len(),
    }
}

impl<'a> Names<'a> {
    ghost use Rattle.std.specs.Prelude.{◌≡◌, ◌<◌, IfOk, IfSome, length, slice_get, take};
    ghost use Rattle.rp_population.specs.Populations.{population as Population};
    ghost use Rattle.rp_group_domain.specs.Models as spec;

    /// Those of the model at a place among some, whose population this is. The target of each link is looked for once.
    pub(crate) fn of(
        alloc: Global,
        models: &[CountedModel<'a>],
        population: &[PlacedInstance<'_>],
        at: usize,
        start: usize,
    ) -> Result<Names<'a>, AllocError>
        requires population { spec.IsPopulation models.now population.now }
        requires at { at < length models.now }
        requires start { start ≡ length (Population (take at models.now)) }
        ensures { IfOk result (λ names. IfSome (slice_get models.now at) (λ m. spec.AreNamesOf population.now m names)) }
    {
        let model = &models[at];
        let content = model.content;
        let links = content.links.as_slice();
        let targets = targets(alloc, population, links)?;
        Ok(Names {
            instances: &content.instances,
            start,
            count: population.len(),
            links,
            targets,
        })
    }

    /// Where the instance stands that has this place among the model's.
    fn own(&self, place: usize) -> usize
        ensures { result ≡ spec.own_at self.now place }
    {
        let count = self.count;
        if place < self.instances.len() {
            self.start + place
        } else {
            count
        }
    }

    /// Where the link of this place leads.
    fn linked(&self, place: usize) -> usize
        ensures { result ≡ spec.linked_at self.now place }
    {
        match self.targets.get(place) {
            Some(target) => *target,
            None => self.count,
        }
    }

    /// Where the instance stands that a name denotes; behind the last of the population where it lacks that. The name is looked for
    /// near a place among the model's instances.
    #[tactic(auto, unfolding(crate::specs::Models::named_at))]
    pub(crate) fn position(&self, near: usize, name: u64) -> u64
        ensures { result ≡ spec.named_at self.now name }
    {
        let own = self.own(place_near(self.instances, near, name));
        let linked = self.linked(link_of(self.links, name));
        own.min(linked) as u64
    }
}
