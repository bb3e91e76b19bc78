//! Where links lead in a population.

ghost use Rattle.std.specs.Prelude.{◌≡◌, IfOk};
ghost use Rattle.sorted_tables.specs.Table.{IsAscending};
ghost use Rattle.rp_population.specs.Populations.{is_at, target_of};
ghost use Rattle.rp_positions.specs.Positions.{place_position};
ghost use Rattle.rp_group_domain.specs.Models as spec;

use crate::models::PlacedInstance;
use plain_data::Items;
use rp_content::Link;
use rp_population::Place;
use sorted_tables::{Row, Sought, search};
use std::alloc::{AllocError, Global};
use std::cmp::Ordering;

impl<'a> Row for PlacedInstance<'a> {
    ghost use Rattle.std.specs.Prelude.{ℕ};
    ghost use Rattle.std.proofs.lemmas.Cmp.{nat_cmp_total, on_total, then_total};
    ghost use Rattle.rp_rows.proofs.Keys.{key_total};
    ghost use Rattle.rp_population.specs.declared.place.Place.{Place};
    ghost use Rattle.rp_group_domain.specs.Models as spec;

    type Key = Place;

    ghost key = { spec.own_place };

    ghost cmp = { spec.place_cmp };

    fn order(&self, other: &PlacedInstance<'a>) -> Ordering {
        let order = self.model.order(other.model);
        order.then(self.instance.name.cmp(&other.instance.name))
    }

    ghost total = { then_total (on_total (λ (p : Place). p.model) key_total) (on_total (λ (p : Place). p.instance) nat_cmp_total) };
}

/// An instance is looked for by a link that leads to it.
impl<'a> Sought<PlacedInstance<'a>> for Link {
    ghost use Rattle.rp_population.specs.Populations.{target_of};

    ghost sought = { target_of };

    fn order_of(&self, instance: &PlacedInstance<'a>) -> Ordering {
        let order = instance.model.order_to(&self.owner, &self.model);
        order.then(instance.instance.name.cmp(&self.target))
    }
}

/// Whether a link leads to the instance.
fn is_target(instance: &PlacedInstance<'_>, link: &Link) -> bool
    ensures { result ≡ is_at (target_of link.now) instance.now }
{
    let model = instance.model;
    model.owner.is(&link.owner)
        && model.name.is(&link.model)
        && link.target == instance.instance.name
}

/// Where the instance stands that a link leads to; behind the last where none does.
fn searched(population: &[PlacedInstance<'_>], link: &Link) -> usize
    requires { IsAscending spec.place_cmp spec.own_place population.now }
    ensures { result ≡ place_position population.now (target_of link.now) }
{
    match search(population, link) {
        Ok(place) => place,
        Err(_) => population.len(),
    }
}

/// The same. It is looked for at a place first.
fn target(population: &[PlacedInstance<'_>], place: usize, link: &Link) -> usize
    requires { IsAscending spec.place_cmp spec.own_place population.now }
    ensures { result ≡ place_position population.now (target_of link.now) }
{
    match population.get(place) {
        Some(instance) if is_target(instance, link) => place,
        _ => searched(population, link),
    }
}

/// Where links lead, in their order.
pub(crate) fn targets(
    alloc: Global,
    population: &[PlacedInstance<'_>],
    links: &[Link],
) -> Result<Items<usize>, AllocError>
    requires { IsAscending spec.place_cmp spec.own_place population.now }
    ensures { IfOk result (λ found. found ≡ spec.targets_of population.now links.now) }
{
    let mut found = Items::from_vec(Vec::with_capacity(alloc, links.len())?);
    // Links often lead to instances that stand next to each other.
    let mut next = 0usize;
    for link in links {
        let place = target(population, next, link);
        found.push(place)?;
        next = place.wrapping_add(1);
    }
    Ok(found)
}
