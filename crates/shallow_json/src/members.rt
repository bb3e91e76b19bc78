//! Members of objects, and values without what stands within their lists and objects.

ghost use Rattle.std.specs.Prelude.{◌≡◌, ◌<◌, ◌∷◌, false, length, Some, None, IfOk, IsErrOf, OnOk};
ghost use Rattle.std.specs.Bool.{MatchBool};
ghost use Rattle.json.specs.Token.{begin_object};
ghost use Rattle.json.specs.Json.{value, members, parse_map};
ghost use Rattle.json.specs.Reads.{token_of};
ghost use Rattle.serde_json.specs.Data.{no_members};
ghost use Rattle.serde_json.specs.Read.{of_json, of_members, converted};
ghost use Rattle.serde_json.specs.View.{view, members_view};
ghost use Rattle.shallow_json.specs.Passing.{begins_object, scalar_of};
ghost use Rattle.shallow_json.specs.Shallow.{plain, shallow, flat};

use crate::numbers::number_of;
use crate::skip::{skip_items, skip_members};
use json::{Invalid, Reader, Token};
use serde_json::{Map, Value};
use std::alloc::{AllocError, AllocFailed, Global};

/// Why nothing is read.
#[derive(Clone, Copy, Drop, PartialEq, Eq)]
pub enum Unread {
    /// No such JSON stands here.
    Invalid,
    NoMemory,
}

impl From<AllocError> for Unread {
    ghost use Rattle.std.specs.Prelude.{◌≡◌};
    ghost use Rattle.shallow_json.specs.declared.members.Unread.TheVariants.{NoMemory};

    ghost from_gives = { λ _ e. e ≡ NoMemory };

    fn from(_: AllocError) -> Unread {
        Unread::NoMemory
    }
}

impl<T: Drop> From<AllocFailed<T>> for Unread {
    ghost use Rattle.std.specs.Prelude.{◌≡◌};
    ghost use Rattle.shallow_json.specs.declared.members.Unread.TheVariants.{NoMemory};

    ghost from_gives = { λ _ e. e ≡ NoMemory };

    fn from(_: AllocFailed<T>) -> Unread {
        Unread::NoMemory
    }
}

impl From<Invalid> for Unread {
    ghost use Rattle.std.specs.Prelude.{◌≡◌};
    ghost use Rattle.shallow_json.specs.declared.members.Unread.TheVariants.{Invalid};

    ghost from_gives = { λ _ e. e ≡ Invalid };

    fn from(_: Invalid) -> Unread {
        Unread::Invalid
    }
}

/// Takes the brace that opens an object, if it is next; otherwise some other token.
pub fn take_begin_object(reader: &mut Reader<'_>) -> bool
    ensures { MatchBool result (reader.old ≡ begin_object ∷ reader.new)
        (begins_object reader.old ≡ false) }
{
    match reader.next() {
        Some(Token::BeginObject) => true,
        _ => false,
    }
}

/// The members that follow the brace that opens an object, with null for each list and each object
/// among them. Of equal keys the last one stands. Lists and objects may nest `depth` deep in a member.
pub fn read_members(
    alloc: Global,
    reader: &mut Reader<'_>,
    depth: usize,
) -> Result<Map<String, Value>, Unread>
    requires { 0 < depth }
    ensures ok { IfOk result (λ found. parse_map shallow (converted (λ ms. of_members ms no_members)
        (members (value depth) (length reader.old) reader.old))
        ≡ Some (members_view found.entries, reader.new)) }
    ensures shorter { OnOk result (length reader.new < length reader.old) }
    ensures bad { IsErrOf result Unread.Invalid → converted (λ ms. of_members ms no_members)
        (members (value depth) (length reader.old) reader.old) ≡ None }
{
    let mut found = Map::new(alloc);
    'members: while let Some(name) = reader.next_key()? {
        let key = String::from_str(alloc, name)?;
        let member = read_member(alloc, reader, depth)?;
        drop(found.insert(key, member)?);
    }
    Ok(found)
}

/// The next value, or null for a list and for an object.
pub fn read_member(alloc: Global, reader: &mut Reader<'_>, depth: usize) -> Result<Value, Unread>
    requires { 0 < depth }
    ensures ok { IfOk result (λ v. parse_map plain (converted of_json (value depth reader.old))
        ≡ Some (view v, reader.new)) }
    ensures shorter { OnOk result (length reader.new < length reader.old) }
    ensures bad { IsErrOf result Unread.Invalid
        → converted of_json (value depth reader.old) ≡ None }
{
    let token = reader.next().ok_or(Invalid)?;
    match token {
        Token::BeginArray => {
            skip_items(reader, depth - 1)?;
            Ok(Value::Null)
        }
        Token::BeginObject => {
            skip_members(reader, depth - 1)?;
            Ok(Value::Null)
        }
        _ => read_scalar(alloc, &token),
    }
}

/// The next value, with null for each list and each object among its members, or null for a list.
pub fn read_flat(alloc: Global, reader: &mut Reader<'_>, depth: usize) -> Result<Value, Unread>
    requires { 1 < depth }
    ensures ok { IfOk result (λ v. parse_map flat (converted of_json (value depth reader.old))
        ≡ Some (view v, reader.new)) }
    ensures shorter { OnOk result (length reader.new < length reader.old) }
    ensures bad { IsErrOf result Unread.Invalid
        → converted of_json (value depth reader.old) ≡ None }
{
    let token = reader.next().ok_or(Invalid)?;
    match token {
        Token::BeginArray => {
            skip_items(reader, depth - 1)?;
            Ok(Value::Null)
        }
        Token::BeginObject => Ok(Value::Object(read_members(alloc, reader, depth - 1)?)),
        _ => read_scalar(alloc, &token),
    }
}

/// The value of a token that is one by itself.
pub fn read_scalar(alloc: Global, token: &Token<'_>) -> Result<Value, Unread>
    ensures ok { IfOk result (λ v. scalar_of (token_of token.now) ≡ Some (view v)) }
    ensures bad { IsErrOf result Unread.Invalid → scalar_of (token_of token.now) ≡ None }
{
    match token {
        Token::String(text) => Ok(Value::String(String::from_str(alloc, text)?)),
        Token::Number(text) => match number_of(text) {
            Some(number) => Ok(Value::Number(number)),
            None => Err(Unread::Invalid),
        },
        Token::Bool(truth) => Ok(Value::Bool(*truth)),
        Token::Null => Ok(Value::Null),
        _ => Err(Unread::Invalid),
    }
}
