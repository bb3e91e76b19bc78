//! Requests on groups.

ghost use Rattle.std.specs.Prelude.{◌≡◌};
ghost use Rattle.serde_json.specs.View.{members_view};
ghost use Rattle.rp_requests.specs.Asks.{create_group_of, delete_group_of, include_of, exclude_of, members_of, extent_of, users_of, validate_of, group_request_for};

use crate::members::{Members, take_group, take_model, take_text};
use rp_plain::messages::Request;
use rp_population::Place;
use shallow_json::has_only_keys;

/// Any that has no list.
pub(crate) fn group_request_for(word: &str, members: Members) -> Option<Request>
    ensures { result ≡ group_request_for word.now (members_view members.entries) }
{
    match word {
        "create_group" => create_group(members),
        "delete_group" => delete_group(members),
        "include" => include(members),
        "exclude" => exclude(members),
        "members" => list_members(members),
        "extent" => extent(members),
        "validate" => validate(members),
        _ => None,
    }
}

fn create_group(mut members: Members) -> Option<Request>
    ensures { result ≡ create_group_of (members_view members.entries) }
{
    if !has_only_keys(&members, &["name", "schema"]) {
        return None;
    }
    let name = take_text(&mut members, "name")?;
    let schema = take_text(&mut members, "schema")?;
    Some(Request::CreateGroup { name, schema })
}

fn delete_group(mut members: Members) -> Option<Request>
    ensures { result ≡ delete_group_of (members_view members.entries) }
{
    if !has_only_keys(&members, &["name"]) {
        return None;
    }
    let name = take_text(&mut members, "name")?;
    Some(Request::DeleteGroup { name })
}

fn include(mut members: Members) -> Option<Request>
    ensures { result ≡ include_of (members_view members.entries) }
{
    if !has_only_keys(&members, &["group", "model", "owner"]) {
        return None;
    }
    let model = take_model(&mut members)?;
    let group = take_text(&mut members, "group")?;
    Some(Request::Include { group, model })
}

fn exclude(mut members: Members) -> Option<Request>
    ensures { result ≡ exclude_of (members_view members.entries) }
{
    if !has_only_keys(&members, &["group", "model", "owner"]) {
        return None;
    }
    let model = take_model(&mut members)?;
    let group = take_text(&mut members, "group")?;
    Some(Request::Exclude { group, model })
}

fn list_members(mut members: Members) -> Option<Request>
    ensures { result ≡ members_of (members_view members.entries) }
{
    if !has_only_keys(&members, &["group", "owner"]) {
        return None;
    }
    let group = take_group(&mut members)?;
    Some(Request::Members { group })
}

fn extent(mut members: Members) -> Option<Request>
    ensures { result ≡ extent_of (members_view members.entries) }
{
    if !has_only_keys(&members, &["group", "owner", "type"]) {
        return None;
    }
    let group = take_group(&mut members)?;
    let entity = take_text(&mut members, "type")?;
    Some(Request::Extent { group, entity })
}

fn validate(mut members: Members) -> Option<Request>
    ensures { result ≡ validate_of (members_view members.entries) }
{
    if !has_only_keys(&members, &["group", "owner"]) {
        return None;
    }
    let group = take_group(&mut members)?;
    Some(Request::Validate { group })
}

/// The place is that of the member `of`.
pub(crate) fn users(place: Option<Place>, mut members: Members) -> Option<Request>
    ensures { result ≡ users_of place (members_view members.entries) }
{
    if !has_only_keys(&members, &["group", "of", "owner", "role"]) {
        return None;
    }
    let of = place?;
    let group = take_group(&mut members)?;
    let role = take_text(&mut members, "role")?;
    Some(Request::Users { group, of, role })
}
