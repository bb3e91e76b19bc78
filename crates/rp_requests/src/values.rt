//! Values that may be lists, and the items of lists.

ghost use Rattle.std.specs.Prelude.{◌≡◌, ◌<◌, ◌∷◌, length, None, Some, IfOk, IsErrOf, OnOk, MatchOption};
ghost use Rattle.json.specs.Json.{value, parse_map};
ghost use Rattle.json.specs.Token.{begin_array};
ghost use Rattle.serde_json.specs.Data.{no_items, item};
ghost use Rattle.serde_json.specs.Read.{of_json, converted};
ghost use Rattle.serde_json.specs.View.{view};
ghost use Rattle.rp_requests.specs.Kept.{seen, items_read, plain_items};

use json::{Invalid, Reader, Token};
use serde_json::Value;
use shallow_json::{Unread, read_member, read_scalar, skip_members};
use std::alloc::Global;

/// How deep lists and objects may nest in a member's items.
pub(crate) const ITEM_DEPTH: usize = 125;

/// An item of a list, with null for a list and for an object.
pub(crate) struct ListItem {
    pub value: Value,
}

// (By hand, so that the sorts of a value are opened here alone and not wherever an item is dropped.)
impl Drop for ListItem {
    fn drop(self) {
        let ListItem { value } = self;
        drop(value);
    }
}

impl ListItem {
    ghost use Rattle.std.specs.Prelude.{◌≡◌};

    pub(crate) fn into_value(self) -> Value
        ensures { result ≡ self.value }
    {
        let ListItem { value } = self;
        value
    }
}

/// Nothing where a list begins, whose opening bracket is taken. Otherwise the next value, or null for
/// an object.
pub(crate) fn read_unless_list(
    alloc: Global,
    reader: &mut Reader<'_>,
) -> Result<Option<Value>, Unread>
    ensures ok { IfOk result (λ read. MatchOption read (reader.old ≡ begin_array ∷ reader.new)
        (λ v. parse_map seen (converted of_json (value 126 reader.old)) ≡ Some ((view v, None), reader.new))) }
    ensures shorter { OnOk result (length reader.new < length reader.old) }
    ensures bad { IsErrOf result Unread.Invalid → converted of_json (value 126 reader.old) ≡ None }
{
    let token = reader.next().ok_or(Invalid)?;
    match token {
        Token::BeginArray => Ok(None),
        Token::BeginObject => {
            skip_members(reader, ITEM_DEPTH)?;
            Ok(Some(Value::Null))
        }
        _ => Ok(Some(read_scalar(alloc, &token)?)),
    }
}

/// The next item of a list, or null for a list and for an object; nothing at the list's end, whose
/// bracket is taken.
pub(crate) fn next_item(alloc: Global, reader: &mut Reader<'_>) -> Result<Option<ListItem>, Unread>
    ensures ok { IfOk result (λ found. MatchOption found (items_read reader.old ≡ Some (no_items, reader.new))
        (λ next. parse_map plain_items (items_read reader.old)
        ≡ parse_map (item (view next.value)) (parse_map plain_items (items_read reader.new)))) }
    ensures shorter { OnOk result (length reader.new < length reader.old) }
    ensures bad { IsErrOf result Unread.Invalid → items_read reader.old ≡ None }
{
    if reader.take_end_array() {
        return Ok(None);
    }
    Ok(Some(ListItem {
        value: read_member(alloc, reader, ITEM_DEPTH)?,
    }))
}
