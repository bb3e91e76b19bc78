//! The names in a model that stand for an instance.

ghost use Rattle.std.specs.Prelude.{◌≡◌, ◌||◌, ◌==◌, ℕ, IfOk, OnOk};
ghost use Rattle.std.specs.List.{list_any};
ghost use Rattle.plain_data.specs.Numbers.{is_among};
ghost use Rattle.rp_index.specs.Index.{AreLeadsAmong};
ghost use Rattle.rp_population.specs.Populations as spec;
ghost use Rattle.rp_population.specs.Candidates as among;
ghost use Rattle.rp_population.specs.Found as found;

use crate::place::Place;
use rp_content::Link;
use rp_index::Indexed;
use rp_rows::rows::Key;
use shared::Shared;
use std::alloc::{AllocError, Global};
use std::collections::BTreeSet;

/// Whether a link leads to the place.
fn leads_to(link: &Link, of: &Place) -> bool
    ensures { result ≡ spec.same_place of.now (spec.target_of link.now) }
{
    let model = of.key();
    link.owner.is(&model.owner) && link.model.is(&model.name) && of.instance == link.target
}

/// The name of the instance itself, in its model.
fn own_name(alloc: Global, of: &Place, model: &Shared<Key>) -> Result<BTreeSet<u64>, AllocError>
    ensures { IfOk result (λ names. (name : ℕ) → is_among names.keys name ≡ spec.same_place of.now (record { model = model.now; instance = name })) }
{
    let mut names = BTreeSet::new(alloc);
    if of.key().is(model.get()) {
        names.insert(of.instance)?;
    }
    Ok(names)
}

/// Puts the name of a link that leads there into the set.
fn insert_leading(names: &mut BTreeSet<u64>, link: &Link, of: &Place) -> Result<(), AllocError>
    ensures { OnOk result ((name : ℕ) → is_among names.new.keys name ≡ (is_among names.old.keys name || spec.links_to name of.now link.now)) }
{
    if leads_to(link, of) {
        names.insert(link.name)?;
    }
    Ok(())
}

/// Puts the names of the links that lead there into the set.
fn insert_all_leading(
    names: &mut BTreeSet<u64>,
    links: &[Link],
    of: &Place,
) -> Result<(), AllocError>
    ensures { OnOk result ((name : ℕ) → is_among names.new.keys name ≡ (is_among names.old.keys name || list_any (spec.links_to name of.now) links.now)) }
{
    for link in links {
        insert_leading(names, link, of)?;
    }
    Ok(())
}

/// Puts the name of the link at a place into the set, if there is one and it leads there.
fn insert_leading_at(
    names: &mut BTreeSet<u64>,
    links: &[Link],
    place: u64,
    of: &Place,
) -> Result<(), AllocError>
    ensures { OnOk result ((name : ℕ) → is_among names.new.keys name ≡ (is_among names.old.keys name || among.passes_at (spec.links_to name of.now) links.now place)) }
{
    match links.get(place as usize) {
        Some(link) => insert_leading(names, link, of),
        None => Ok(()),
    }
}

/// Puts the names of the links at some places into the set, as far as they lead there.
fn insert_each_leading(
    names: &mut BTreeSet<u64>,
    links: &[Link],
    candidates: &[u64],
    of: &Place,
) -> Result<(), AllocError>
    ensures { OnOk result ((name : ℕ) → is_among names.new.keys name ≡ (is_among names.old.keys name || list_any (among.passes_at (spec.links_to name of.now) links.now) candidates.now)) }
{
    for place in candidates {
        insert_leading_at(names, links, *place, of)?;
    }
    Ok(())
}

/// Puts the names of the links that lead there into the set, where only those at some places may.
fn insert_leading_among(
    names: &mut BTreeSet<u64>,
    links: &[Link],
    candidates: &[u64],
    of: &Place,
) -> Result<(), AllocError>
    requires { AreLeadsAmong of.now.instance candidates.now links.now }
    ensures { OnOk result ((name : ℕ) → is_among names.new.keys name ≡ (is_among names.old.keys name || list_any (spec.links_to name of.now) links.now)) }
{
    insert_each_leading(names, links, candidates, of)
}

/// The names that stand for the place in a model that holds this.
pub fn names_of(
    alloc: Global,
    of: &Place,
    model: &Shared<Key>,
    held: &Indexed,
) -> Result<BTreeSet<u64>, AllocError>
    ensures { IfOk result (λ names. found.AreNames of.now model.now held.now.content.links names.keys) }
{
    let mut names = own_name(alloc, of, model)?;
    let links = held.get().content.links.as_slice();
    match held.leads_among(alloc, of.instance)? {
        Some(candidates) => insert_leading_among(&mut names, links, &candidates, of)?,
        None => insert_all_leading(&mut names, links, of)?,
    }
    Ok(names)
}

/// Whether the set has a name.
pub fn has_name(names: &BTreeSet<u64>, name: u64) -> bool
    ensures { result ≡ is_among names.now.keys name }
{
    names.contains(&name)
}
