//! The members of a JSON object, taken out one after another.

ghost use Rattle.std.specs.Prelude.{◌≡◌, false, codes, List, ℕ, option_map};
ghost use Rattle.std.specs.Str.{bytes_eq};
ghost use Rattle.serde_json.specs.View.{view, members_view};
ghost use Rattle.serde_json.specs.Find.{get_member, as_str};
ghost use Rattle.rp_requests.specs.Asks.{without, text_in, text_if_any, flag_if_any, number_in, number_of, unless_greater, model_in, group_in};

use plain_data::Text;
use rp_rows::limits::MAX_NAME;
use rp_rows::rows::Key;
use serde_json::{Map, Value};

pub(crate) type Members = Map<String, Value>;

/// Takes out the string at this key. A member that is no string goes too.
pub(crate) fn take_text(members: &mut Members, key: &str) -> Option<Text>
    ensures text { result ≡ text_in key.now (members_view members.old.entries) }
    ensures rest { members_view members.new.entries
        ≡ without key.now (members_view members.old.entries) }
    ensures others { (other : List ℕ) → bytes_eq key.now other ≡ false
        → text_in other (members_view members.new.entries)
        ≡ text_in other (members_view members.old.entries) }
{
    members.remove(key).and_then(text_of)
}

/// Takes out the string at this key, if the key stands there. A member that is no string goes too,
/// and gives nothing.
pub(crate) fn take_text_if_any(members: &mut Members, key: &str) -> Option<Option<Text>>
    ensures text { result ≡ text_if_any (get_member key.now (members_view members.old.entries)) }
    ensures rest { members_view members.new.entries
        ≡ without key.now (members_view members.old.entries) }
{
    text_if_any(members.remove(key))
}

fn text_if_any(member: Option<Value>) -> Option<Option<Text>>
    ensures { result ≡ text_if_any (option_map view member) }
{
    match member {
        Some(value) => Some(Some(text_of(value)?)),
        None => Some(None),
    }
}

pub(crate) fn text_of(value: Value) -> Option<Text>
    ensures { result ≡ as_str (view value) }
{
    match value {
        Value::String(text) => Some(Text::new(text)),
        _ => None,
    }
}

/// Takes out the owner and the name of a model.
pub(crate) fn take_model(members: &mut Members) -> Option<Key>
    ensures model { result ≡ model_in (members_view members.old.entries) }
    ensures others { (other : List ℕ) → bytes_eq (codes "owner") other ≡ false → bytes_eq (codes "model") other ≡ false
        → text_in other (members_view members.new.entries)
        ≡ text_in other (members_view members.old.entries) }
{
    let owner = take_text(members, "owner")?;
    let name = take_text(members, "model")?;
    Some(Key { owner, name })
}

/// Takes out the owner and the name of a group.
pub(crate) fn take_group(members: &mut Members) -> Option<Key>
    ensures group { result ≡ group_in (members_view members.old.entries) }
    ensures others { (other : List ℕ) → bytes_eq (codes "owner") other ≡ false → bytes_eq (codes "group") other ≡ false
        → text_in other (members_view members.new.entries)
        ≡ text_in other (members_view members.old.entries) }
{
    let owner = take_text(members, "owner")?;
    let name = take_text(members, "group")?;
    Some(Key { owner, name })
}

/// Takes out the truth value at this key: false where the key is missing. Another member goes too,
/// and gives nothing.
pub(crate) fn take_flag(members: &mut Members, key: &str) -> Option<bool>
    ensures flag { result ≡ flag_if_any (get_member key.now (members_view members.old.entries)) }
    ensures others { (other : List ℕ) → bytes_eq key.now other ≡ false
        → text_in other (members_view members.new.entries)
        ≡ text_in other (members_view members.old.entries) }
{
    flag_if_any(members.remove(key))
}

fn flag_if_any(member: Option<Value>) -> Option<bool>
    ensures { result ≡ flag_if_any (option_map view member) }
{
    match member {
        Some(Value::Bool(flag)) => Some(flag),
        Some(_) => None,
        None => Some(false),
    }
}

/// Takes out the number at this key. A member that is no number goes too.
pub(crate) fn take_number(members: &mut Members, key: &str) -> Option<u64>
    ensures number { result ≡ number_in key.now (members_view members.old.entries) }
    ensures others { (other : List ℕ) → bytes_eq key.now other ≡ false
        → text_in other (members_view members.new.entries)
        ≡ text_in other (members_view members.old.entries) }
    ensures numbers { (other : List ℕ) → bytes_eq key.now other ≡ false
        → number_in other (members_view members.new.entries)
        ≡ number_in other (members_view members.old.entries) }
{
    members.remove(key).and_then(number_of)
}

/// A whole number that isn't too great.
pub(crate) fn number_of(value: Value) -> Option<u64>
    ensures { result ≡ number_of (view value) }
{
    match value {
        Value::Number(number) => unless_greater(number.as_u64()?),
        _ => None,
    }
}

fn unless_greater(number: u64) -> Option<u64>
    ensures { result ≡ unless_greater number }
{
    if number <= MAX_NAME {
        Some(number)
    } else {
        None
    }
}
