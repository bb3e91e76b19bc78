//! The keys of an object's members.

ghost use Rattle.std.specs.Prelude.{◌≡◌, map, string_bytes};
ghost use Rattle.std.specs.List.{list_all, list_any};
ghost use Rattle.std.specs.Str.{bytes_eq};
ghost use Rattle.std.specs.BTreeMap.{keys as map_keys};
ghost use Rattle.serde_json.specs.View.{members_view};
ghost use Rattle.shallow_json.specs.Keys.{has_only};

use serde_json::{Map, Value};

/// Whether each key is one of these.
pub fn has_only_keys(members: &Map<String, Value>, keys: &[&str]) -> bool
    ensures { result ≡ has_only (map (λ key. key.now) keys.now) (members_view members.now.entries) }
{
    each_is_listed(members, keys)
}

fn each_is_listed(members: &Map<String, Value>, keys: &[&str]) -> bool
    ensures { result ≡ list_all (λ k. list_any (λ key. bytes_eq key.now (string_bytes k)) keys.now) (map_keys members.now) }
{
    members.keys().all(|name| is_listed(name.as_str(), keys))
}

fn is_listed(name: &str, keys: &[&str]) -> bool
    ensures { result ≡ list_any (λ key. bytes_eq key.now name.now) keys.now }
{
    keys.iter().any(|key| *key == name)
}
