//! The links of a model.

ghost use Rattle.std.specs.Prelude.{◌≡◌, not, nat_le};
ghost use Rattle.std.specs.List.{list_all};
ghost use Rattle.std.specs.Ordering.{nat_cmp};
ghost use Rattle.plain_data.specs.Numbers.{is_among};
ghost use Rattle.rp_rows.specs.Contents.{names, link_name};
ghost use Rattle.rp_rows.specs.Instances.{max_name};
ghost use Rattle.rp_rows.specs.Names.{is_name};
ghost use Rattle.rp_rows.specs.Rows.{same_key};
ghost use Rattle.rp_plain.specs.Links.{target_model};
ghost use Rattle.rp_plain.specs.Meaning.{has_text};
ghost use Rattle.rp_restored_rows.specs.Tests as spec;
ghost use Rattle.rp_restored_rows.specs.Models as of_models;

use crate::lack::RowLack;
use crate::partners::{PartnerOrder, has};
use plain_data::Text;
use rp_content::{Instances, Link};
use rp_rows::limits::{MAX_LINKS, MAX_NAME};
use rp_rows::names::is_valid_name;
use rp_rows::rows::Key;

fn stands_before(link: &Link, next: &Link) -> bool
    ensures { result ≡ spec.follows nat_cmp link_name link.now next.now }
{
    next.name.cmp(&link.name).is_gt()
}

fn are_in_order(links: &[Link]) -> bool
    ensures { result ≡ spec.ascends nat_cmp link_name links.now }
{
    links.is_sorted_by(|link, next| stands_before(link, next))
}

fn have_owners(partners: &[Text], order: &PartnerOrder, links: &[Link]) -> bool
    ensures { result ≡ list_all (λ l. has_text partners.now l.owner) links.now }
{
    links.iter().all(|link| has(partners, order, &link.owner))
}

fn have_models(links: &[Link]) -> bool
    ensures { result ≡ list_all (λ l. is_name l.model) links.now }
{
    links.iter().all(|link| is_valid_name(&link.model))
}

/// Whether the link leads to the model of this key.
fn leads_to(link: &Link, key: &Key) -> bool
    ensures { result ≡ same_key key.now (target_model link.now) }
{
    link.owner.is(&key.owner) && link.model.is(&key.name)
}

fn lead_away(key: &Key, links: &[Link]) -> bool
    ensures { result ≡ list_all (λ l. not (same_key key.now (target_model l))) links.now }
{
    links.iter().all(|link| !leads_to(link, key))
}

fn have_targets(links: &[Link]) -> bool
    ensures { result ≡ list_all (λ l. nat_le l.target max_name) links.now }
{
    links.iter().all(|link| link.target <= MAX_NAME)
}

fn are_within(greatest: u64, links: &[Link]) -> bool
    ensures { result ≡ list_all (λ l. nat_le l.name greatest) links.now }
{
    links.iter().all(|link| link.name <= greatest)
}

/// What the links lack in the model of this key, whatever its instances are.
pub(crate) fn links_lack(
    partners: &[Text],
    order: &PartnerOrder,
    key: &Key,
    greatest: u64,
    links: &[Link],
) -> Option<RowLack>
    ensures { result ≡ of_models.links_lack partners.now key.now greatest links.now }
{
    if links.len() > MAX_LINKS {
        return Some(RowLack::TooManyLinks);
    }
    if !are_in_order(links) {
        return Some(RowLack::LinksOutOfOrder);
    }
    if !have_owners(partners, order, links) {
        return Some(RowLack::UnknownLinkOwner);
    }
    if !have_models(links) {
        return Some(RowLack::BadLinkModel);
    }
    if !lead_away(key, links) {
        return Some(RowLack::LinkToItself);
    }
    if !have_targets(links) {
        return Some(RowLack::LinkTargetTooLong);
    }
    if !are_within(greatest, links) {
        return Some(RowLack::LinkAboveGreatest);
    }
    None
}

fn is_free(instances: &Instances, link: &Link) -> bool
    ensures { result ≡ not (is_among (names instances.now) link.now.name) }
{
    instances.get(link.name).is_none()
}

/// Whether no instance has the name of a link.
pub(crate) fn are_free(instances: &Instances, links: &[Link]) -> bool
    ensures { result ≡ list_all (λ l. not (is_among (names instances.now) l.name)) links.now }
{
    links.iter().all(|link| is_free(instances, link))
}
