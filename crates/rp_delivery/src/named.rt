//! The names that a delivery has.
ghost use Rattle.std.specs.Prelude.{◌≡◌, ◌+◌, ◌%◌, [], ◌∷◌, IfOk};
ghost use Rattle.rp_rows.specs.Rows.{key_of};
ghost use Rattle.rp_delivery.specs.Names as spec;

use plain_data::Text;
use rp_rows::rows::Key;
use std::alloc::{AllocError, Global};

/// The partner who delivers.
const PARTNER: &str = "me";

/// His group of all files.
const GROUP: &str = "all";

/// The partners of the repository that a delivery is put into.
pub fn partners(alloc: Global) -> Result<Vec<Text>, AllocError>
    ensures { IfOk result (λ partners. partners.items ≡ spec.me ∷ []) }
{
    let mut partners = Vec::new(alloc);
    partners.push(partner(alloc)?)?;
    Ok(partners)
}

pub(crate) fn partner(alloc: Global) -> Result<Text, AllocError>
    ensures { IfOk result (λ name. name ≡ spec.me) }
{
    Text::from_str(alloc, PARTNER)
}

pub(crate) fn group(alloc: Global) -> Result<Text, AllocError>
    ensures { IfOk result (λ name. name ≡ spec.group_name) }
{
    Text::from_str(alloc, GROUP)
}

/// The group, as whoever sees it names it.
pub(crate) fn group_key(alloc: Global) -> Result<Key, AllocError>
    ensures { IfOk result (λ key. key ≡ key_of spec.me spec.group_name) }
{
    let owner = partner(alloc)?;
    let name = group(alloc)?;
    Ok(Key { owner, name })
}

/// A digit of a number, the last one of it.
fn digit(number: usize) -> char
    ensures { result ≡ 48 + number % 10 }
{
    char::from(b'0' + (number % 10) as u8)
}

/// The name of the model of the file of this number, in two digits.
pub(crate) fn model(alloc: Global, number: usize) -> Result<Text, AllocError>
    ensures { IfOk result (λ name. name ≡ spec.model_name number) }
{
    let mut name = String::new(alloc);
    name.push(digit(number / 10))?;
    name.push(digit(number))?;
    Ok(Text::new(name))
}

/// The model, as whoever sees it names it.
pub(crate) fn model_key(alloc: Global, number: usize) -> Result<Key, AllocError>
    ensures { IfOk result (λ key. key ≡ key_of spec.me (spec.model_name number)) }
{
    let owner = partner(alloc)?;
    let name = model(alloc, number)?;
    Ok(Key { owner, name })
}
