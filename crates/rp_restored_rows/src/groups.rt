//! Groups.

ghost use Rattle.std.specs.Prelude.{◌≡◌, Ok, IfOk};
ghost use Rattle.std.specs.List.{list_all};
ghost use Rattle.rp_rows.specs.Names.{is_name};
ghost use Rattle.rp_rows.specs.Rows.{key_cmp, GroupRow};
ghost use Rattle.rp_rows.specs.Listings.{itself};
ghost use Rattle.rp_plain.specs.Meaning.{has_text, has_schema};
ghost use Rattle.rp_plain.specs.Valid.{IsValidGroup};
ghost use Rattle.rp_snapshot_rows.specs.Again.{saved_group};
ghost use Rattle.rp_restored_rows.specs.Tests as spec;
ghost use Rattle.rp_restored_rows.specs.Groups as of_groups;
ghost use Rattle.rp_restored_rows.specs.Groups.{group_of};

use crate::lack::RowLack;
use crate::partners::{PartnerOrder, has};
use crate::rows::row_lack;
use ex_loaded::LoadedSchema;
use plain_data::Text;
use rp_rows::limits::MAX_MEMBERS;
use rp_rows::names::is_valid_name;
use rp_rows::rows::{Grant, Key, Level, Listing};
use rp_snapshot_rows::SavedGroup;

fn is_loaded(schemas: &[LoadedSchema<'_>], name: &Text) -> bool
    ensures { result ≡ has_schema schemas.now name.now }
{
    schemas
        .iter()
        .any(|schema| name.as_str() == schema.checked().name())
}

fn is_to_read(grant: &Grant) -> bool
    ensures { result ≡ of_groups.is_to_read grant.now }
{
    match grant.level {
        Level::Read => true,
        Level::Group | Level::Write => false,
    }
}

fn are_to_read(grants: &[Grant]) -> bool
    ensures { result ≡ list_all of_groups.is_to_read grants.now }
{
    grants.iter().all(|grant| is_to_read(grant))
}

fn stands_before(member: &Key, next: &Key) -> bool
    ensures { result ≡ spec.follows key_cmp itself member.now next.now }
{
    next.order(member).is_gt()
}

fn are_in_order(members: &[Key]) -> bool
    ensures { result ≡ spec.ascends key_cmp itself members.now }
{
    members.is_sorted_by(|member, next| stands_before(member, next))
}

fn have_owners(partners: &[Text], order: &PartnerOrder, members: &[Key]) -> bool
    ensures { result ≡ list_all (λ k. has_text partners.now k.owner) members.now }
{
    members
        .iter()
        .all(|member| has(partners, order, &member.owner))
}

fn have_names(members: &[Key]) -> bool
    ensures { result ≡ list_all (λ k. is_name k.name) members.now }
{
    members.iter().all(|member| is_valid_name(&member.name))
}

/// What the list of a group lacks.
fn listing_lack(
    schemas: &[LoadedSchema<'_>],
    partners: &[Text],
    order: &PartnerOrder,
    listing: &Listing,
) -> Option<RowLack>
    ensures { result ≡ of_groups.listing_lack schemas.now partners.now listing.now }
{
    let members = listing.members.as_slice();
    if !is_loaded(schemas, &listing.schema) {
        return Some(RowLack::UnknownSchema);
    }
    if members.len() > MAX_MEMBERS {
        return Some(RowLack::TooManyMembers);
    }
    if !are_in_order(members) {
        return Some(RowLack::MembersOutOfOrder);
    }
    if !have_owners(partners, order, members) {
        return Some(RowLack::UnknownMemberOwner);
    }
    if !have_names(members) {
        return Some(RowLack::BadMemberName);
    }
    None
}

/// What a group that was read lacks.
fn group_lack(
    schemas: &[LoadedSchema<'_>],
    partners: &[Text],
    order: &PartnerOrder,
    group: &SavedGroup,
) -> Option<RowLack>
    ensures { result ≡ of_groups.group_lack schemas.now partners.now group.now }
{
    let grants = group.grants.as_slice();
    if let Some(lack) = row_lack(partners, order, &group.key, grants) {
        return Some(lack);
    }
    if !are_to_read(grants) {
        return Some(RowLack::GroupLevel);
    }
    listing_lack(schemas, partners, order, &group.listing)
}

/// A group that was read, if a repository of these schemas and partners may have it.
///
/// # Errors
///
/// What it lacks.
pub fn restored_group(
    schemas: &[LoadedSchema<'_>],
    partners: &[Text],
    order: &PartnerOrder,
    group: SavedGroup,
) -> Result<SavedGroup, RowLack>
    ensures valid { IfOk result (λ taken. IsValidGroup schemas.now partners.now (group_of taken)) }
    ensures same { IfOk result (λ taken. taken ≡ group) }
    ensures again { (g : GroupRow) → IsValidGroup schemas.now partners.now g → group ≡ saved_group g → result ≡ Ok group }
{
    match group_lack(schemas, partners, order, &group) {
        None => Ok(group),
        Some(lack) => Err(lack),
    }
}
