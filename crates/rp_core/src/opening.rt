//! Why there is no repository of some schemas and partners.

ghost use Rattle.std.specs.Prelude.{◌≡◌, ◌≢◌, Some, None, IfOk, IfErr};
ghost use Rattle.std.specs.List.{list_all};
ghost use Rattle.rp_rows.specs.Names.{is_name};
ghost use Rattle.rp_plain.specs.Opening.{new_fault, has_twice as IsTwice};

use ex_loaded::LoadedSchema;
use plain_data::Text;
use rp_plain::messages::NewFault;
use rp_readers::schemas::names_of;
use rp_rows::names::is_valid_name;
use std::alloc::{AllocError, Global};
use std::collections::BTreeSet;

/// The most schemas and partners of a repository.
const MAX_SCHEMAS: usize = 100;

const MAX_PARTNERS: usize = 1_000;

/// Tests the schemas and partners of a repository that is to be opened.
///
/// # Errors
///
/// The first that holds of `TwoSchemas`, `TwoPartners`, `BadName` and `TooMany`; or `NoMemory`.
pub fn may_open(
    alloc: Global,
    schemas: &[LoadedSchema<'_>],
    partners: &[Text],
) -> Result<(), NewFault>
    ensures ok { IfOk result (λ _. new_fault schemas.now partners.now ≡ None) }
    ensures err { IfErr result (λ fault. fault ≢ NewFault.NoMemory → new_fault schemas.now partners.now ≡ Some fault) }
{
    if has_twice(alloc, &names_of(alloc, schemas)?)? {
        return Err(NewFault::TwoSchemas);
    }
    if has_twice(alloc, partners)? {
        return Err(NewFault::TwoPartners);
    }
    if !are_names(partners) {
        return Err(NewFault::BadName);
    }
    if schemas.len() > MAX_SCHEMAS || partners.len() > MAX_PARTNERS {
        return Err(NewFault::TooMany);
    }
    Ok(())
}

/// Whether a text stands twice among the texts.
fn has_twice(alloc: Global, texts: &[Text]) -> Result<bool, AllocError>
    ensures { IfOk result (λ twice. twice ≡ IsTwice texts.now) }
{
    let mut before = BTreeSet::new(alloc);
    for text in texts {
        if !before.insert(text.as_str())? {
            return Ok(true);
        }
    }
    Ok(false)
}

/// Whether each text is a name.
fn are_names(texts: &[Text]) -> bool
    ensures { result ≡ list_all is_name texts.now }
{
    texts.iter().all(|text| is_valid_name(text))
}
