//! The links of a model: what may be wrong with them.

ghost use Rattle.std.specs.Prelude.{◌≡◌, ℕ, ◌∷◌, IfOk};
ghost use Rattle.std.specs.List.{list_all};
ghost use Rattle.plain_data.specs.Numbers.{is_among};
ghost use Rattle.rp_rows.specs.Rows.{same_key};
ghost use Rattle.rp_rows.specs.Contents as contents;
ghost use Rattle.rp_rows.specs.Contents.{link_names};
ghost use Rattle.rp_plain.specs.Links as of_links;
ghost use Rattle.rp_readers.specs.Told.{told};
ghost use Rattle.rp_file_plans.specs.Links.{AreInOrder};

use itertools::Itertools;
use p21_bind::{DefinedNames, Names};
use plain_data::{Items, Rows, Text};
use rp_content::{Content, Instance, Link};
use rp_plain::messages::{LinkFault, LinkFaultKind, Refusal};
use rp_plans::when;
use rp_readers::Readers;
use rp_rows::limits::MAX_NAME;
use rp_rows::rows::Key;
use std::alloc::{AllocError, Global};

fn has_names(link: &Link) -> bool
    ensures { result ≡ of_links.has_names link.now }
{
    link.name <= MAX_NAME && link.target <= MAX_NAME
}

fn have_names(links: &[Link]) -> bool
    ensures { result ≡ list_all of_links.has_names links.now }
{
    links.iter().all(|link| has_names(link))
}

/// Of links with a number that no request has.
pub fn no_request(links: &[Link]) -> Option<Refusal>
    ensures { result ≡ of_links.no_request links.now }
{
    when(!have_names(links), Refusal::BadRequest)
}

/// The names of the links.
pub fn names_of(alloc: Global, links: &[Link]) -> Result<Vec<u64>, AllocError>
    ensures { IfOk result (λ names. names.items ≡ link_names links.now) }
{
    let mut names = Vec::with_capacity(alloc, links.len())?;
    for link in links {
        names.push(link.name)?;
    }
    Ok(names)
}

/// The links in the order of their names.
pub fn in_order(alloc: Global, links: Rows<Link>) -> Result<Items<Link>, AllocError>
    ensures same { IfOk result (λ ordered. ordered ≡ of_links.links_in_order links) }
    ensures order { IfOk result (λ ordered. AreInOrder ordered) }
{
    let links = links.into_vec().into_iter();
    let sorted = links.sorted_by_key(alloc, |link| link.name)?;
    Ok(Items::from_vec(sorted.collect_vec(alloc)?))
}

/// Whether the name of a link is that of one of the others behind it, all in the order of their names.
fn stands_again(link: &Link, others: &[Link]) -> bool
    requires { AreInOrder (link.now ∷ others.now) }
    ensures { result ≡ is_among (link_names others.now) link.now.name }
{
    match others.first() {
        Some(next) => next.name == link.name,
        None => false,
    }
}

/// Whether the link leads to the model of this key.
fn leads_to(link: &Link, key: &Key) -> bool
    ensures { result ≡ same_key key.now (of_links.target_model link.now) }
{
    link.owner.is(&key.owner) && link.model.is(&key.name)
}

/// What is wrong with the instance that is linked to, where its model is to be of this schema.
fn target_fault(asked: &Readers<'_, '_>, schema: &Text, link: &Link) -> Option<LinkFaultKind>
    ensures { result ≡ of_links.target_fault schema.now link.now.target ((told asked.now).content (of_links.target_model link.now)) }
{
    let Some(model) = asked.content_of(&link.owner, &link.model) else {
        return Some(LinkFaultKind::NotSeen);
    };
    if !model.schema.is(schema) {
        return Some(LinkFaultKind::OtherSchema);
    }
    match model.content.instances.get(link.target) {
        Some(_) => None,
        None => Some(LinkFaultKind::NoInstance),
    }
}

/// The model that links are for, while they are tested.
#[derive(Clone, Copy)]
struct Holder<'a> {
    key: &'a Key,
    schema: &'a Text,
    /// The names of its instances.
    instances: &'a Names,
}

/// What is wrong with a link of the model, behind which the others stand.
fn fault_of(
    asked: &Readers<'_, '_>,
    holder: &Holder<'_>,
    link: &Link,
    others: &[Link],
) -> Option<LinkFaultKind>
    requires { AreInOrder (link.now ∷ others.now) }
    ensures { result ≡ of_links.fault_of (told asked.now) holder.now.key.now holder.now.schema.now holder.now.instances.now (link_names others.now) link.now }
{
    if holder.instances.has(link.name) || stands_again(link, others) {
        return Some(LinkFaultKind::Defined);
    }
    if leads_to(link, holder.key) {
        return Some(LinkFaultKind::Own);
    }
    target_fault(asked, holder.schema, link)
}

/// The fault of the first of the links that has one.
fn first_fault(asked: &Readers<'_, '_>, holder: &Holder<'_>, links: &[Link]) -> Option<LinkFault>
    requires { AreInOrder links.now }
    ensures { result ≡ of_links.first_fault (told asked.now) holder.now.key.now holder.now.schema.now holder.now.instances.now links.now }
{
    for (i, link) in links.iter().enumerate() {
        let others = &links[i + 1..];
        if let Some(kind) = fault_of(asked, holder, link, others) {
            return Some(LinkFault {
                link: link.name,
                kind,
            });
        }
    }
    None
}

/// The names of the instances.
fn instance_names(alloc: Global, instances: &[Instance]) -> Result<Vec<u64>, AllocError>
    ensures { IfOk result (λ names. names.items ≡ contents.names instances.now) }
{
    let mut names = Vec::with_capacity(alloc, instances.len())?;
    for instance in instances {
        names.push(instance.name)?;
    }
    Ok(names)
}

/// The names of the instances, to be searched.
fn names_of_instances(alloc: Global, instances: &[Instance]) -> Result<Names, AllocError>
    ensures { IfOk result (λ names. (n : ℕ) → is_among names n ≡ is_among (contents.names instances.now) n) }
{
    let names = instance_names(alloc, instances)?;
    Ok(Names::of_numbers(names))
}

/// Why the links, which are in order, can't be those of a model of this key and schema that holds the content.
pub fn link_refusal(
    alloc: Global,
    asked: &Readers<'_, '_>,
    key: &Key,
    schema: &Text,
    links: &[Link],
    content: &Content,
) -> Result<Option<Refusal>, AllocError>
    requires { AreInOrder links.now }
    ensures { IfOk result (λ refusal. refusal ≡ of_links.told (of_links.first_fault (told asked.now) key.now schema.now (contents.names content.now.instances) links.now)) }
{
    if links.is_empty() {
        return Ok(None);
    }
    let instances = names_of_instances(alloc, content.instances.as_slice())?;
    let holder = Holder {
        key,
        schema,
        instances: &instances,
    };
    match first_fault(asked, &holder, links) {
        Some(fault) => Ok(Some(Refusal::LinkFault(fault))),
        None => Ok(None),
    }
}
