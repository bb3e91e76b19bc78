//! From a line to its members and lists.

ghost use Rattle.std.specs.Prelude.{◌≡◌, ◌<◌, length, [], None, Some, is_some, option_map, option_and_then, IfOk, IfSome, IsErrOf, OnOk};
ghost use Rattle.json.specs.Json.{value, members, parse_map};
ghost use Rattle.serde_json.specs.Data.{no_members};
ghost use Rattle.serde_json.specs.Find.{as_object, get_member};
ghost use Rattle.serde_json.specs.Read.{of_json, of_members, converted, read as read_json};
ghost use Rattle.serde_json.specs.View.{view, members_view};
ghost use Rattle.rp_requests.specs.Asks.{asked_with, asked_of};
ghost use Rattle.rp_requests.specs.Kept.{kept_at, kept};

use crate::links::{Links, read_links};
use crate::members::Members;
use crate::places::read_place;
use json::{Reader, Scratch};
use plain_data::Rows;
use rp_population::Place;
use serde_json::{Map, Value};
use shallow_json::{Unread, read_member, read_texts, take_begin_object};
use std::alloc::{AllocError, Global};

/// How deep lists and objects may nest in a member.
const DEPTH: usize = 126;

/// From how many bytes on a line is first read as one of strings alone. A short one isn't worth a try that may fail.
const LONG: usize = 4096;

/// What the lists of a line hold.
pub(crate) struct Lists {
    /// Those at `links`.
    pub links: Links,
    /// The one at `of`: nothing where it is no place.
    pub place: Option<Place>,
}

// (By hand, so that links and places are opened here alone and not wherever lists are dropped.)
impl Drop for Lists {
    fn drop(self) {
        let Lists { links, place } = self;
        drop(links);
        drop(place);
    }
}

impl Lists {
    ghost use Rattle.std.specs.Prelude.{◌≡◌};

    pub(crate) fn into_links(self) -> Links
        ensures { result ≡ self.links }
    {
        let Lists { links, place } = self;
        drop(place);
        links
    }

    pub(crate) fn into_place(self) -> Option<Place>
        ensures { result ≡ self.place }
    {
        let Lists { links, place } = self;
        drop(links);
        place
    }
}

/// The members of the object that a line is, with null for each list and each object among them, and
/// its lists. Of equal keys the last one stands.
pub(crate) fn read_line(alloc: Global, line: &[u8]) -> Result<(Members, Lists), Unread>
    ensures ok { IfOk result (λ read. asked_of line.now ≡ asked_with read.1 (members_view read.0.entries)) }
    ensures bad { IsErrOf result Unread.Invalid → asked_of line.now ≡ None }
{
    match simdutf8::compat::from_utf8(line) {
        Ok(text) => read_object(alloc, text),
        Err(_) => Err(Unread::Invalid),
    }
}

/// Whether there is a member of this name.
fn has_member(members: &Members, name: &str) -> bool
    ensures { result ≡ is_some (get_member name.now (members_view members.now.entries)) }
{
    members.contains_key(name)
}

/// The members of the object that a long text is, if they are strings alone, and none stands where a list may.
fn texts_of(alloc: Global, text: &str) -> Result<Option<Members>, AllocError>
    ensures { IfOk result (λ found. IfSome found (λ members. option_map kept (option_and_then as_object (read_json text.now))
        ≡ Some (members_view members.entries, record { links = Some []; place = None }))) }
{
    if text.len() < LONG || !text.ends_with("\"}") {
        return Ok(None);
    }
    let Some(members) = read_texts(alloc, text)? else {
        return Ok(None);
    };
    if has_member(&members, "links") || has_member(&members, "of") {
        return Ok(None);
    }
    Ok(Some(members))
}

/// The members and the lists of the object that a text is.
fn read_object(alloc: Global, text: &str) -> Result<(Members, Lists), Unread>
    ensures ok { IfOk result (λ read. option_map kept (option_and_then as_object (read_json text.now))
        ≡ Some (members_view read.0.entries, read.1)) }
    ensures bad { IsErrOf result Unread.Invalid → option_and_then as_object (read_json text.now) ≡ None }
{
    let Some(members) = texts_of(alloc, text)? else {
        return read_any_object(alloc, text);
    };
    let lists = Lists {
        links: Some(Rows::new(alloc)),
        place: None,
    };
    Ok((members, lists))
}

/// The same, whatever the members are.
fn read_any_object(alloc: Global, text: &str) -> Result<(Members, Lists), Unread>
    ensures ok { IfOk result (λ read. option_map kept (option_and_then as_object (read_json text.now))
        ≡ Some (members_view read.0.entries, read.1)) }
    ensures bad { IsErrOf result Unread.Invalid → option_and_then as_object (read_json text.now) ≡ None }
{
    let mut scratch = Scratch::new(alloc);
    let mut reader = Reader::new(text, &mut scratch)?;
    if !take_begin_object(&mut reader) {
        return Err(Unread::Invalid);
    }
    let read = read_members(alloc, &mut reader)?;
    match reader.next() {
        None => Ok(read),
        Some(_) => Err(Unread::Invalid),
    }
}

/// The members that follow the brace that opens the object, and the lists among them.
fn read_members(alloc: Global, reader: &mut Reader<'_>) -> Result<(Members, Lists), Unread>
    ensures ok { IfOk result (λ read. parse_map kept (converted (λ ms. of_members ms no_members)
        (members (value 126) (length reader.old) reader.old))
        ≡ Some ((members_view read.0.entries, read.1), reader.new)) }
    ensures bad { IsErrOf result Unread.Invalid → converted (λ ms. of_members ms no_members)
        (members (value 126) (length reader.old) reader.old) ≡ None }
{
    let mut found = Map::new(alloc);
    let mut lists = Lists {
        links: Some(Rows::new(alloc)),
        place: None,
    };
    'members: while let Some(name) = reader.next_key()? {
        let key = String::from_str(alloc, name)?;
        let member = read_at(alloc, reader, name, &mut lists)?;
        drop(found.insert(key, member)?);
    }
    Ok((found, lists))
}

/// The member of this name. The lists are those of the last ones at their names.
fn read_at(
    alloc: Global,
    reader: &mut Reader<'_>,
    name: &str,
    lists: &mut Lists,
) -> Result<Value, Unread>
    ensures ok { IfOk result (λ v. parse_map (kept_at name.now lists.old) (converted of_json (value 126 reader.old))
        ≡ Some ((view v, lists.new), reader.new)) }
    ensures shorter { OnOk result (length reader.new < length reader.old) }
    ensures bad { IsErrOf result Unread.Invalid → converted of_json (value 126 reader.old) ≡ None }
{
    match name {
        "links" => {
            let (member, links) = read_links(alloc, reader)?;
            lists.links = links;
            Ok(member)
        }
        "of" => {
            let (member, place) = read_place(alloc, reader)?;
            lists.place = place;
            Ok(member)
        }
        _ => read_member(alloc, reader, DEPTH),
    }
}
