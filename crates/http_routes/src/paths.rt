//! Which request a path is.
ghost use Rattle.std.specs.Prelude.{◌≡◌, ◌&&◌, true, false, codes, MatchOption, Some, None};
ghost use Rattle.std.specs.Str.{bytes_eq};
ghost use Rattle.http_routes.specs.Paths.{ToModel, ToFile, ToGroup, is_named, alone, of_item, of_part, item_at, path_of, place_in, method_of};

use crate::segments::{Segments, segments_of};
use http::Method;

/// A model or a group, as a path names it.
#[derive(Clone, Copy)]
pub struct Item<'p> {
    pub owner: &'p str,
    pub name: &'p str,
}

/// What a path stands for.
#[derive(Clone, Copy)]
pub enum Path<'p> {
    /// `/v1/requests`: the request of the body.
    Requests,
    /// `/v1/schemas`: the names of the schemas.
    Schemas,
    /// `/v1/items`: the groups and the models that the caller sees.
    Items,
    /// `/v1/models/OWNER/NAME`: the names of a model's instances.
    Model(Item<'p>),
    /// `/v1/models/OWNER/NAME/file`: the file of a model, with its links.
    File(Item<'p>),
    /// `/v1/groups/OWNER/NAME`: the models that a group lists.
    Group(Item<'p>),
}

/// A segment that may be an owner or a name.
#[tactic(auto, using(crate::proofs::Cutting::text_is_named, crate::proofs::Cutting::nothing_is_unnamed, crate::proofs::Cutting::no_text_is_unnamed))]
fn named(segment: &[u8]) -> Option<&str>
    ensures { MatchOption result (is_named segment.now ≡ false) (λ text. (text.now ≡ segment.now) × (is_named segment.now ≡ true)) }
{
    if segment.is_empty() {
        return None;
    }
    match str::from_utf8(segment) {
        Ok(text) => Some(text),
        Err(_) => None,
    }
}

/// An owner and a name, where both are texts and neither is empty.
fn item_in<'p>(owner: &'p [u8], name: &'p [u8]) -> Option<Item<'p>>
    ensures { MatchOption result ((is_named owner.now && is_named name.now) ≡ false)
        (λ item. ((is_named owner.now && is_named name.now) ≡ true) × (item.owner.now ≡ owner.now) × (item.name.now ≡ name.now)) }
{
    let owner = named(owner)?;
    let name = named(name)?;
    Some(Item { owner, name })
}

fn model<'p>(owner: &'p [u8], name: &'p [u8]) -> Option<Path<'p>>
    ensures { MatchOption result (item_at ToModel owner.now name.now ≡ None) (λ path. item_at ToModel owner.now name.now ≡ Some (place_in path)) }
{
    match item_in(owner, name) {
        Some(item) => Some(Path::Model(item)),
        None => None,
    }
}

fn file<'p>(owner: &'p [u8], name: &'p [u8]) -> Option<Path<'p>>
    ensures { MatchOption result (item_at ToFile owner.now name.now ≡ None) (λ path. item_at ToFile owner.now name.now ≡ Some (place_in path)) }
{
    match item_in(owner, name) {
        Some(item) => Some(Path::File(item)),
        None => None,
    }
}

fn group<'p>(owner: &'p [u8], name: &'p [u8]) -> Option<Path<'p>>
    ensures { MatchOption result (item_at ToGroup owner.now name.now ≡ None) (λ path. item_at ToGroup owner.now name.now ≡ Some (place_in path)) }
{
    match item_in(owner, name) {
        Some(item) => Some(Path::Group(item)),
        None => None,
    }
}

/// Whether a segment is this word.
fn is(segment: &[u8], word: &[u8]) -> bool
    ensures { result ≡ bytes_eq segment.now word.now }
{
    segment == word
}

fn alone<'p>(word: &[u8]) -> Option<Path<'p>>
    ensures { MatchOption result (alone word.now ≡ None) (λ path. alone word.now ≡ Some (place_in path)) }
{
    if is(word, b"requests") {
        Some(Path::Requests)
    } else if is(word, b"schemas") {
        Some(Path::Schemas)
    } else if is(word, b"items") {
        Some(Path::Items)
    } else {
        None
    }
}

fn of_item<'p>(word: &[u8], owner: &'p [u8], name: &'p [u8]) -> Option<Path<'p>>
    ensures { MatchOption result (of_item word.now owner.now name.now ≡ None) (λ path. of_item word.now owner.now name.now ≡ Some (place_in path)) }
{
    if is(word, b"models") {
        model(owner, name)
    } else if is(word, b"groups") {
        group(owner, name)
    } else {
        None
    }
}

fn of_part<'p>(word: &[u8], owner: &'p [u8], name: &'p [u8], part: &[u8]) -> Option<Path<'p>>
    ensures { MatchOption result (of_part word.now owner.now name.now part.now ≡ None) (λ path. of_part word.now owner.now name.now part.now ≡ Some (place_in path)) }
{
    if is(word, b"models") && is(part, b"file") {
        file(owner, name)
    } else {
        None
    }
}

impl<'p> Path<'p> {
    /// What the target of a head stands for, the whole of which is its path. Nothing in it is decoded.
    pub fn of(target: &'p [u8]) -> Option<Path<'p>>
        ensures { MatchOption result (path_of target.now ≡ None) (λ path. path_of target.now ≡ Some (place_in path)) }
    {
        let front: &[u8] = b"/v1/";
        let rest = target.strip_prefix(front)?;
        match segments_of(rest) {
            Segments::One(word) => alone(word),
            Segments::Three(word, owner, name) => of_item(word, owner, name),
            Segments::Four(word, owner, name, part) => of_part(word, owner, name, part),
            Segments::Other => None,
        }
    }
}

fn is_post(method: &[u8]) -> bool
    ensures { result ≡ bytes_eq method.now (codes "POST") }
{
    method == Method::POST.as_str().as_bytes()
}

fn is_get(method: &[u8]) -> bool
    ensures { result ≡ bytes_eq method.now (codes "GET") }
{
    method == Method::GET.as_str().as_bytes()
}

/// Whether this is the method of the path. Each path has one.
pub fn takes_method(path: &Path<'_>, method: &[u8]) -> bool
    ensures { result ≡ bytes_eq method.now (method_of (place_in path.now)) }
{
    match path {
        Path::Requests => is_post(method),
        Path::Schemas => is_get(method),
        Path::Items => is_get(method),
        Path::Model(_) => is_get(method),
        Path::File(_) => is_get(method),
        Path::Group(_) => is_get(method),
    }
}
