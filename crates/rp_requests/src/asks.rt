//! From bytes to a request.

ghost use Rattle.std.specs.Prelude.{◌≡◌, IfOk, IsErrOf, None, Some};
ghost use Rattle.serde_json.specs.View.{members_view};
ghost use Rattle.rp_requests.specs.Asks.{create_model_of, put_of, export_of, names_of, get_of, add_of, set_of, drop_of, delete_model_of, list_of, schemas_of, check_schema_of, other_request_for, request_for, request_in, asked_with, asked_of};

use crate::grants::{grant, revoke};
use crate::groups::{group_request_for, users};
use crate::lines::{Lists, read_line};
use crate::links::Links;
use crate::members::{Members, take_flag, take_model, take_number, take_text, take_text_if_any};
use plain_data::Text;
use rp_plain::messages::Request;
use shallow_json::has_only_keys;
use std::alloc::Global;

/// A request, and who asks.
#[derive(Drop)]
pub struct RequestLine {
    /// What the bytes say, if they say it; whether there is such a partner isn't known here.
    pub caller: Option<Text>,
    pub request: Request,
}

/// Why bytes give no request.
#[derive(Clone, Copy, PartialEq, Eq)]
pub enum Unread {
    /// The bytes are no request.
    BadRequest,
    NoMemory,
}

/// The request of a line, which stands without its line feed, or of a body. A string of it is copied
/// once, out of the bytes. Lists and objects are passed over, but for links and for a place.
pub fn request_of(alloc: Global, line: &[u8]) -> Result<RequestLine, Unread>
    ensures ok { IfOk result (λ asked. asked_of line.now ≡ Some asked) }
    ensures bad { IsErrOf result Unread.BadRequest → asked_of line.now ≡ None }
{
    match read_line(alloc, line) {
        Ok((members, lists)) => asked_with(lists, members).ok_or(Unread::BadRequest),
        Err(shallow_json::Unread::Invalid) => Err(Unread::BadRequest),
        Err(shallow_json::Unread::NoMemory) => Err(Unread::NoMemory),
    }
}

fn asked_with(lists: Lists, mut members: Members) -> Option<RequestLine>
    ensures { result ≡ asked_with lists (members_view members.entries) }
{
    let caller = take_text_if_any(&mut members, "as")?;
    let request = request_in(lists, members)?;
    Some(RequestLine { caller, request })
}

fn request_in(lists: Lists, mut members: Members) -> Option<Request>
    ensures { result ≡ request_in lists (members_view members.entries) }
{
    let word = take_text(&mut members, "do")?;
    request_for(word.as_str(), lists, members)
}

fn request_for(word: &str, lists: Lists, members: Members) -> Option<Request>
    ensures { result ≡ request_for word.now lists (members_view members.entries) }
{
    match word {
        "put" => put(lists.into_links(), members),
        "users" => users(lists.into_place(), members),
        _ => other_request_for(word, members),
    }
}

/// Any request that has no list.
fn other_request_for(word: &str, members: Members) -> Option<Request>
    ensures { result ≡ other_request_for word.now (members_view members.entries) }
{
    match word {
        "create_model" => create_model(members),
        "export" => export(members),
        "names" => names(members),
        "get" => get(members),
        "add" => add(members),
        "set" => set(members),
        "drop" => drop_instance(members),
        "delete_model" => delete_model(members),
        "list" => list(members),
        "grant" => grant(members),
        "revoke" => revoke(members),
        "schemas" => schemas(members),
        "check_schema" => check_schema(members),
        _ => group_request_for(word, members),
    }
}

fn create_model(mut members: Members) -> Option<Request>
    ensures { result ≡ create_model_of (members_view members.entries) }
{
    if !has_only_keys(&members, &["name", "schema"]) {
        return None;
    }
    let name = take_text(&mut members, "name")?;
    let schema = take_text(&mut members, "schema")?;
    Some(Request::CreateModel { name, schema })
}

fn put(links: Links, mut members: Members) -> Option<Request>
    ensures { result ≡ put_of links (members_view members.entries) }
{
    if !has_only_keys(&members, &["file", "links", "model", "owner"]) {
        return None;
    }
    let links = links?;
    let model = take_model(&mut members)?;
    let file = take_text(&mut members, "file")?;
    Some(Request::Put { model, file, links })
}

fn export(mut members: Members) -> Option<Request>
    ensures { result ≡ export_of (members_view members.entries) }
{
    if !has_only_keys(&members, &["links", "model", "owner"]) {
        return None;
    }
    let links = take_flag(&mut members, "links")?;
    let model = take_model(&mut members)?;
    Some(Request::Export { model, links })
}

fn names(mut members: Members) -> Option<Request>
    ensures { result ≡ names_of (members_view members.entries) }
{
    if !has_only_keys(&members, &["model", "owner"]) {
        return None;
    }
    let model = take_model(&mut members)?;
    Some(Request::Names { model })
}

fn get(mut members: Members) -> Option<Request>
    ensures { result ≡ get_of (members_view members.entries) }
{
    if !has_only_keys(&members, &["instance", "model", "owner"]) {
        return None;
    }
    let instance = take_number(&mut members, "instance")?;
    let model = take_model(&mut members)?;
    Some(Request::Get { model, instance })
}

fn add(mut members: Members) -> Option<Request>
    ensures { result ≡ add_of (members_view members.entries) }
{
    if !has_only_keys(&members, &["model", "owner", "text"]) {
        return None;
    }
    let model = take_model(&mut members)?;
    let text = take_text(&mut members, "text")?;
    Some(Request::Add { model, text })
}

fn set(mut members: Members) -> Option<Request>
    ensures { result ≡ set_of (members_view members.entries) }
{
    if !has_only_keys(&members, &["instance", "model", "owner", "text"]) {
        return None;
    }
    let instance = take_number(&mut members, "instance")?;
    let model = take_model(&mut members)?;
    let text = take_text(&mut members, "text")?;
    Some(Request::Set {
        model,
        instance,
        text,
    })
}

fn drop_instance(mut members: Members) -> Option<Request>
    ensures { result ≡ drop_of (members_view members.entries) }
{
    if !has_only_keys(&members, &["instance", "model", "owner"]) {
        return None;
    }
    let instance = take_number(&mut members, "instance")?;
    let model = take_model(&mut members)?;
    Some(Request::DropInstance { model, instance })
}

fn delete_model(mut members: Members) -> Option<Request>
    ensures { result ≡ delete_model_of (members_view members.entries) }
{
    if !has_only_keys(&members, &["name"]) {
        return None;
    }
    let name = take_text(&mut members, "name")?;
    Some(Request::DeleteModel { name })
}

fn list(members: Members) -> Option<Request>
    ensures { result ≡ list_of (members_view members.entries) }
{
    if !has_only_keys(&members, &[]) {
        return None;
    }
    Some(Request::ListItems)
}

fn schemas(members: Members) -> Option<Request>
    ensures { result ≡ schemas_of (members_view members.entries) }
{
    if has_only_keys(&members, &[]) {
        Some(Request::Schemas)
    } else {
        None
    }
}

fn check_schema(mut members: Members) -> Option<Request>
    ensures { result ≡ check_schema_of (members_view members.entries) }
{
    if !has_only_keys(&members, &["text"]) {
        return None;
    }
    let text = take_text(&mut members, "text")?;
    Some(Request::CheckSchema { text })
}
