//! Which request a message is.
ghost use Rattle.std.specs.Prelude.{◌≡◌, true, Some, None, IfOk, IfErr, IsErrOf, option_and_then};
ghost use Rattle.rp_rows.specs.Rows.{key_of};
ghost use Rattle.http_messages.specs.Next.{call_of, parts_in};
ghost use Rattle.http_routes.specs.Paths.{ToRequest, place_in};
ghost use Rattle.http_routes.specs.Tokens.{place_among};
ghost use Rattle.rp_messages.specs.Routing.{Goes, Stops, headed, request_at, Asks, Unreadable, Unasked, routed};

use http_messages::{Head, Message};
use http_routes::{Bare, Item, Path, Tokens, takes_method};
use plain_data::Text;
use rp_plain::messages::Request;
use rp_requests::{RequestLine, Unread, request_of};
use rp_rows::rows::Key;
use std::alloc::{AllocError, Global};

/// A partner's request.
#[derive(Drop)]
pub struct Asked {
    /// The place of his token.
    pub partner: usize,
    pub request: Request,
}

/// Why a message asks for nothing.
#[derive(Clone, Copy, PartialEq, Eq)]
pub enum Unrouted {
    /// Its head says so, whatever its body is.
    Head(Bare),
    /// Its body is no request.
    BadRequest,
    NoMemory,
}

/// The place of the caller's token.
fn caller(head: &Head<'_>, tokens: &Tokens) -> Option<usize>
    ensures { result ≡ option_and_then (place_among tokens.now) (parts_in head.now).token }
{
    match head.token {
        Some(token) => tokens.place(token),
        None => None,
    }
}

/// Who asks by which path: what the head of a message decides before its body is there.
///
/// # Errors
///
/// The first that holds: no partner has the token, there is no such path, it has another method.
pub fn route_head<'p>(head: &Head<'p>, tokens: &Tokens) -> Result<(usize, Path<'p>), Bare>
    ensures ok { IfOk result (λ found. headed tokens.now (parts_in head.now) ≡ Goes found.0 (place_in found.1)) }
    ensures err { IfErr result (λ bare. headed tokens.now (parts_in head.now) ≡ Stops bare) }
{
    let Some(partner) = caller(head, tokens) else {
        return Err(Bare::Unauthorized);
    };
    let Some(path) = Path::of(head.target) else {
        return Err(Bare::NotFound);
    };
    if takes_method(&path, head.method) {
        Ok((partner, path))
    } else {
        Err(Bare::MethodNotAllowed)
    }
}

fn key_at(alloc: Global, item: &Item<'_>) -> Result<Key, AllocError>
    ensures { IfOk result (λ key. key ≡ key_of item.now.owner.now item.now.name.now) }
{
    let owner = Text::from_str(alloc, item.owner)?;
    let name = Text::from_str(alloc, item.name)?;
    Ok(Key { owner, name })
}

/// The request of a body, which may not name who asks.
fn request_in(alloc: Global, body: &[u8]) -> Result<Request, Unread>
    ensures ok { IfOk result (λ request. request_at ToRequest body.now ≡ Some request) }
    ensures bad { IsErrOf result Unread.BadRequest → request_at ToRequest body.now ≡ None }
{
    let RequestLine { caller, request } = request_of(alloc, body)?;
    if caller.is_some() {
        drop(request);
        return Err(Unread::BadRequest);
    }
    Ok(request)
}

/// The request of a path, by the body where the path is that of all requests.
fn request_at(alloc: Global, path: &Path<'_>, body: &[u8]) -> Result<Request, Unread>
    ensures ok { IfOk result (λ request. request_at (place_in path.now) body.now ≡ Some request) }
    ensures bad { IsErrOf result Unread.BadRequest → request_at (place_in path.now) body.now ≡ None }
{
    match path {
        Path::Requests => request_in(alloc, body),
        Path::Schemas => Ok(Request::Schemas),
        Path::Items => Ok(Request::ListItems),
        Path::Model(item) => names(alloc, item),
        Path::File(item) => export(alloc, item),
        Path::Group(item) => members(alloc, item),
    }
}

fn names(alloc: Global, item: &Item<'_>) -> Result<Request, Unread>
    ensures ok { IfOk result (λ request. request ≡ Request.Names (key_of item.now.owner.now item.now.name.now)) }
    ensures memory { IfErr result (λ unread. unread ≡ Unread.NoMemory) }
{
    match key_at(alloc, item) {
        Ok(model) => Ok(Request::Names { model }),
        Err(AllocError) => Err(Unread::NoMemory),
    }
}

fn export(alloc: Global, item: &Item<'_>) -> Result<Request, Unread>
    ensures ok { IfOk result (λ request. request ≡ Request.Export (key_of item.now.owner.now item.now.name.now) true) }
    ensures memory { IfErr result (λ unread. unread ≡ Unread.NoMemory) }
{
    match key_at(alloc, item) {
        Ok(model) => Ok(Request::Export { model, links: true }),
        Err(AllocError) => Err(Unread::NoMemory),
    }
}

fn members(alloc: Global, item: &Item<'_>) -> Result<Request, Unread>
    ensures ok { IfOk result (λ request. request ≡ Request.Members (key_of item.now.owner.now item.now.name.now)) }
    ensures memory { IfErr result (λ unread. unread ≡ Unread.NoMemory) }
{
    match key_at(alloc, item) {
        Ok(group) => Ok(Request::Members { group }),
        Err(AllocError) => Err(Unread::NoMemory),
    }
}

/// Which request a message is, and whose. The texts of the request are its own.
///
/// # Errors
///
/// What the head decides; or that the body is no request, or that memory is wanting.
pub fn route(alloc: Global, message: &Message<'_>, tokens: &Tokens) -> Result<Asked, Unrouted>
    ensures ok { IfOk result (λ asked. routed tokens.now (call_of message.now) ≡ Asks asked.partner asked.request) }
    ensures head { (bare : Bare) → IsErrOf result (Unrouted.Head bare) → routed tokens.now (call_of message.now) ≡ Unasked bare }
    ensures bad { IsErrOf result Unrouted.BadRequest → routed tokens.now (call_of message.now) ≡ Unreadable }
{
    let (partner, path) = match route_head(&message.head, tokens) {
        Ok(found) => found,
        Err(bare) => return Err(Unrouted::Head(bare)),
    };
    match request_at(alloc, &path, message.body) {
        Ok(request) => Ok(Asked { partner, request }),
        Err(Unread::BadRequest) => Err(Unrouted::BadRequest),
        Err(Unread::NoMemory) => Err(Unrouted::NoMemory),
    }
}
