//! What models and groups have in common.

ghost use Rattle.std.specs.Prelude.{◌≡◌, not};
ghost use Rattle.std.specs.List.{list_all};
ghost use Rattle.std.specs.Str.{bytes_eq};
ghost use Rattle.rp_rows.specs.Rows.{text_cmp, grant_key};
ghost use Rattle.rp_plain.specs.Meaning as meaning;
ghost use Rattle.rp_restored_rows.specs.Tests as spec;

use crate::lack::RowLack;
use crate::partners::{PartnerOrder, has};
use plain_data::Text;
use rp_rows::names::is_valid_name;
use rp_rows::rows::{Grant, Key};

fn stands_before(grant: &Grant, next: &Grant) -> bool
    ensures { result ≡ spec.follows text_cmp grant_key grant.now next.now }
{
    next.partner.order(&grant.partner).is_gt()
}

fn are_in_order(grants: &[Grant]) -> bool
    ensures { result ≡ spec.ascends text_cmp grant_key grants.now }
{
    grants.is_sorted_by(|grant, next| stands_before(grant, next))
}

fn have_partners(partners: &[Text], order: &PartnerOrder, grants: &[Grant]) -> bool
    ensures { result ≡ list_all (λ g. meaning.has_text partners.now g.partner) grants.now }
{
    grants
        .iter()
        .all(|grant| has(partners, order, &grant.partner))
}

fn are_others(owner: &Text, grants: &[Grant]) -> bool
    ensures { result ≡ list_all (λ g. not (bytes_eq owner.now g.partner)) grants.now }
{
    grants.iter().all(|grant| !owner.is(&grant.partner))
}

/// What the row of this key with these grants lacks, whatever it holds.
pub(crate) fn row_lack(
    partners: &[Text],
    order: &PartnerOrder,
    key: &Key,
    grants: &[Grant],
) -> Option<RowLack>
    ensures { result ≡ spec.row_lack partners.now key.now grants.now }
{
    if !has(partners, order, &key.owner) {
        return Some(RowLack::UnknownOwner);
    }
    if !is_valid_name(&key.name) {
        return Some(RowLack::BadName);
    }
    if !are_in_order(grants) {
        return Some(RowLack::GrantsOutOfOrder);
    }
    if !have_partners(partners, order, grants) {
        return Some(RowLack::UnknownGrantee);
    }
    if !are_others(&key.owner, grants) {
        return Some(RowLack::GrantToOwner);
    }
    None
}
