//! The configuration: `{"partners":[{"name":"ann","token":"ta"}],"schemas":["t.exp"]}`.
ghost use Rattle.std.specs.Prelude.{◌≡◌, length, Some, None, IfOk, IsErrOf, option_map, option_and_then};
ghost use Rattle.serde_json.specs.Find.{as_str, as_object};
ghost use Rattle.serde_json.specs.View.{view, items_view};
ghost use Rattle.rp_config.specs.Configuration as spec;

use plain_data::{Rows, Text};
use serde_json::Value;
use shallow_json::has_only_keys;
use std::alloc::{AllocError, AllocFailed, Global};

/// The most partners and schemas of a configuration.
pub(crate) const MAX_PARTNERS: usize = 1_000;

pub(crate) const MAX_SCHEMAS: usize = 100;

/// What a configuration says.
#[derive(Drop)]
pub struct Config {
    /// The names of the partners, in their order.
    pub partners: Rows<Text>,
    /// Their tokens, in the same order.
    pub tokens: Rows<Text>,
    /// The paths of the schemas' files, in their order.
    pub schemas: Rows<Text>,
}

/// Why bytes give no configuration.
#[derive(Clone, Copy, PartialEq, Eq, Drop)]
pub enum ConfigFault {
    /// They are none.
    Wrong,
    /// Memory is wanting.
    NoMemory,
}

impl From<AllocError> for ConfigFault {
    ghost use Rattle.std.specs.Prelude.{◌≡◌};
    ghost use Rattle.rp_config.specs.declared.config.ConfigFault.TheVariants.{NoMemory};

    ghost from_gives = { λ _ e. e ≡ NoMemory };

    fn from(_error: AllocError) -> ConfigFault {
        ConfigFault::NoMemory
    }
}

impl<T: Drop> From<AllocFailed<T>> for ConfigFault {
    ghost use Rattle.std.specs.Prelude.{◌≡◌};
    ghost use Rattle.rp_config.specs.declared.config.ConfigFault.TheVariants.{NoMemory};

    ghost from_gives = { λ _ e. e ≡ NoMemory };

    fn from(_error: AllocFailed<T>) -> ConfigFault {
        ConfigFault::NoMemory
    }
}

/// The configuration of a file's bytes. An object has exactly the keys shown above, the strings may be
/// any, and there are at most 1,000 partners and 100 schemas.
pub fn config_of(alloc: Global, bytes: &[u8]) -> Result<Config, ConfigFault>
    ensures ok { IfOk result (λ config. spec.config_of bytes.now ≡ Some config) }
    ensures tokens { IfOk result (λ config. length config.tokens ≡ length config.partners) }
    ensures wrong { IsErrOf result ConfigFault.Wrong → spec.config_of bytes.now ≡ None }
{
    match Value::from_slice(alloc, bytes) {
        Ok(value) => config_in(alloc, &value),
        Err(error) if error.is_memory() => Err(ConfigFault::NoMemory),
        Err(_) => Err(ConfigFault::Wrong),
    }
}

fn config_in(alloc: Global, value: &Value) -> Result<Config, ConfigFault>
    ensures ok { IfOk result (λ config. option_and_then spec.config_in (as_object (view value.now)) ≡ Some config) }
    ensures tokens { IfOk result (λ config. length config.tokens ≡ length config.partners) }
    ensures wrong { IsErrOf result ConfigFault.Wrong → option_and_then spec.config_in (as_object (view value.now)) ≡ None }
{
    let Some(members) = value.as_object() else {
        return Err(ConfigFault::Wrong);
    };
    if !has_only_keys(members, &["partners", "schemas"]) {
        return Err(ConfigFault::Wrong);
    }
    let Some(partners) = value.get("partners").and_then(Value::as_array) else {
        return Err(ConfigFault::Wrong);
    };
    let Some(schemas) = value.get("schemas").and_then(Value::as_array) else {
        return Err(ConfigFault::Wrong);
    };
    let names = names_in(alloc, partners)?;
    let tokens = tokens_in(alloc, partners)?;
    let schemas = paths_in(alloc, schemas)?;
    if names.len() > MAX_PARTNERS || schemas.len() > MAX_SCHEMAS {
        return Err(ConfigFault::Wrong);
    }
    Ok(Config {
        partners: names,
        tokens,
        schemas,
    })
}

fn names_in(alloc: Global, partners: &[Value]) -> Result<Rows<Text>, ConfigFault>
    ensures ok { IfOk result (λ names. spec.each spec.name_of (items_view partners.now) ≡ Some names) }
    ensures len { IfOk result (λ names. length names ≡ length partners.now) }
    ensures wrong { IsErrOf result ConfigFault.Wrong → spec.each spec.name_of (items_view partners.now) ≡ None }
{
    let mut names = Rows::new(alloc);
    for partner in partners {
        let Some(name) = name_in(partner) else {
            return Err(ConfigFault::Wrong);
        };
        names.push(Text::from_str(alloc, name)?)?;
    }
    Ok(names)
}

/// The name of a partner, who has a token too.
fn name_in(partner: &Value) -> Option<&str>
    ensures { option_map (λ name. name.now) result ≡ spec.name_of (view partner.now) }
{
    if !has_only_keys(partner.as_object()?, &["name", "token"]) {
        return None;
    }
    let _token = partner.get("token").and_then(Value::as_str)?;
    partner.get("name").and_then(Value::as_str)
}

fn tokens_in(alloc: Global, partners: &[Value]) -> Result<Rows<Text>, ConfigFault>
    ensures ok { IfOk result (λ tokens. spec.each spec.token_of (items_view partners.now) ≡ Some tokens) }
    ensures len { IfOk result (λ tokens. length tokens ≡ length partners.now) }
    ensures wrong { IsErrOf result ConfigFault.Wrong → spec.each spec.token_of (items_view partners.now) ≡ None }
{
    let mut tokens = Rows::new(alloc);
    for partner in partners {
        let Some(token) = token_in(partner) else {
            return Err(ConfigFault::Wrong);
        };
        tokens.push(Text::from_str(alloc, token)?)?;
    }
    Ok(tokens)
}

/// The token of a partner, who has a name too.
fn token_in(partner: &Value) -> Option<&str>
    ensures { option_map (λ token. token.now) result ≡ spec.token_of (view partner.now) }
{
    if !has_only_keys(partner.as_object()?, &["name", "token"]) {
        return None;
    }
    let _name = partner.get("name").and_then(Value::as_str)?;
    partner.get("token").and_then(Value::as_str)
}

fn paths_in(alloc: Global, schemas: &[Value]) -> Result<Rows<Text>, ConfigFault>
    ensures ok { IfOk result (λ paths. spec.each as_str (items_view schemas.now) ≡ Some paths) }
    ensures wrong { IsErrOf result ConfigFault.Wrong → spec.each as_str (items_view schemas.now) ≡ None }
{
    let mut paths = Rows::new(alloc);
    for schema in schemas {
        let Some(path) = schema.as_str() else {
            return Err(ConfigFault::Wrong);
        };
        paths.push(Text::from_str(alloc, path)?)?;
    }
    Ok(paths)
}
