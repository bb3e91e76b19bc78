//! Links.

ghost use Rattle.std.specs.Prelude.{◌≡◌, ◌<◌, ◌∷◌, [], ◌++◌, length, None, Some, option_map, option_and_then, IfOk, IsErrOf, OnOk};
ghost use Rattle.json.specs.Json.{value, parse_map};
ghost use Rattle.serde_json.specs.Read.{of_json, converted};
ghost use Rattle.serde_json.specs.View.{view, members_view};
ghost use Rattle.rp_requests.specs.Asks.{link_in, link_of, links_of};
ghost use Rattle.rp_requests.specs.Kept.{with_list, items_read};

use crate::members::{Members, take_model, take_number};
use crate::values::{ITEM_DEPTH, read_unless_list};
use json::Reader;
use plain_data::Rows;
use rp_content::Link;
use rp_rows::rows::Key;
use serde_json::Value;
use shallow_json::{Unread, has_only_keys, read_flat};
use std::alloc::{AllocError, Global};

/// The links of a member: nothing where it is no list of links.
pub(crate) type Links = Option<Rows<Link>>;

/// The next value, or null for a list and for an object, and its links.
pub(crate) fn read_links(alloc: Global, reader: &mut Reader<'_>) -> Result<(Value, Links), Unread>
    ensures ok { IfOk result (λ read. parse_map (with_list links_of) (converted of_json (value 126 reader.old))
        ≡ Some ((view read.0, read.1), reader.new)) }
    ensures shorter { OnOk result (length reader.new < length reader.old) }
    ensures bad { IsErrOf result Unread.Invalid → converted of_json (value 126 reader.old) ≡ None }
{
    match read_unless_list(alloc, reader)? {
        Some(value) => Ok((value, None)),
        None => Ok((Value::Null, read_items(alloc, reader)?)),
    }
}

/// The links that follow the bracket that opens a list. Each item is given back before the next.
fn read_items(alloc: Global, reader: &mut Reader<'_>) -> Result<Links, Unread>
    ensures ok { IfOk result (λ links. parse_map links_of (items_read reader.old) ≡ Some (links, reader.new)) }
    ensures shorter { OnOk result (length reader.new < length reader.old) }
    ensures bad { IsErrOf result Unread.Invalid → items_read reader.old ≡ None }
{
    let mut links = Some(Rows::new(alloc));
    'items: while !reader.take_end_array() {
        let link = link_of(read_flat(alloc, reader, ITEM_DEPTH)?);
        links = with_link(links, link)?;
    }
    Ok(links)
}

/// These links and one more, if all are links.
fn with_link(links: Links, link: Option<Link>) -> Result<Links, AllocError>
    ensures { IfOk result (λ more. more ≡ option_and_then (λ ls. option_map (λ l. ls ++ l ∷ []) link) links) }
{
    let (Some(mut links), Some(link)) = (links, link) else {
        return Ok(None);
    };
    links.push(link)?;
    Ok(Some(links))
}

fn link_of(value: Value) -> Option<Link>
    ensures { result ≡ link_of (view value) }
{
    match value {
        Value::Object(members) => link_in(members),
        _ => None,
    }
}

fn link_in(mut members: Members) -> Option<Link>
    ensures { result ≡ link_in (members_view members.entries) }
{
    if !has_only_keys(&members, &["instance", "model", "name", "owner"]) {
        return None;
    }
    let target = take_number(&mut members, "instance")?;
    let name = take_number(&mut members, "name")?;
    let Key { owner, name: model } = take_model(&mut members)?;
    Some(Link {
        name,
        owner,
        model,
        target,
    })
}
