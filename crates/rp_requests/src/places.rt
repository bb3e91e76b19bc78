//! Places.

ghost use Rattle.std.specs.Prelude.{◌≡◌, ◌<◌, length, None, Some, IfOk, IsErrOf, OnOk};
ghost use Rattle.json.specs.Json.{value, parse_map};
ghost use Rattle.serde_json.specs.Data.{no_items, item};
ghost use Rattle.serde_json.specs.Read.{of_json, converted};
ghost use Rattle.serde_json.specs.View.{view};
ghost use Rattle.rp_requests.specs.Asks.{place_of};
ghost use Rattle.rp_requests.specs.Kept.{with_list, items_read};

use crate::members::{number_of, text_of};
use crate::values::{ITEM_DEPTH, ListItem, next_item, read_unless_list};
use json::Reader;
use rp_population::Place;
use rp_rows::rows::Key;
use serde_json::Value;
use shallow_json::{Unread, skip_items};
use std::alloc::{AllocError, Global};

/// The next value, or null for a list and for an object, and the place that it is.
pub(crate) fn read_place(
    alloc: Global,
    reader: &mut Reader<'_>,
) -> Result<(Value, Option<Place>), Unread>
    ensures ok { IfOk result (λ read. parse_map (with_list place_of) (converted of_json (value 126 reader.old))
        ≡ Some ((view read.0, read.1), reader.new)) }
    ensures shorter { OnOk result (length reader.new < length reader.old) }
    ensures bad { IsErrOf result Unread.Invalid → converted of_json (value 126 reader.old) ≡ None }
{
    match read_unless_list(alloc, reader)? {
        Some(value) => Ok((value, None)),
        None => Ok((Value::Null, read_items(alloc, reader)?)),
    }
}

/// The place that the items are which follow the bracket that opens a list.
fn read_items(alloc: Global, reader: &mut Reader<'_>) -> Result<Option<Place>, Unread>
    ensures ok { IfOk result (λ place. parse_map place_of (items_read reader.old) ≡ Some (place, reader.new)) }
    ensures shorter { OnOk result (length reader.new < length reader.old) }
    ensures bad { IsErrOf result Unread.Invalid → items_read reader.old ≡ None }
{
    let Some(owner) = next_item(alloc, reader)? else {
        return Ok(None);
    };
    let Some(name) = next_item(alloc, reader)? else {
        return Ok(None);
    };
    let Some(instance) = next_item(alloc, reader)? else {
        return Ok(None);
    };
    if next_item(alloc, reader)?.is_some() {
        skip_items(reader, ITEM_DEPTH)?;
        return Ok(None);
    }
    let place = place_of(alloc, owner, name, instance)?;
    Ok(place)
}

fn place_of(
    alloc: Global,
    owner: ListItem,
    name: ListItem,
    instance: ListItem,
) -> Result<Option<Place>, AllocError>
    ensures { IfOk result (λ place. place ≡ place_of (item (view owner.value) (item (view name.value) (item (view instance.value) no_items)))) }
{
    let Some(instance) = number_of(instance.into_value()) else {
        return Ok(None);
    };
    let Some(owner) = text_of(owner.into_value()) else {
        return Ok(None);
    };
    let Some(name) = text_of(name.into_value()) else {
        return Ok(None);
    };
    let place = Place::new(alloc, Key { owner, name }, instance)?;
    Ok(Some(place))
}
