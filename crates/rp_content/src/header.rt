//! The header of an exchange file (ISO 10303-21:2002, 8.2).

ghost use Rattle.std.specs.Prelude.{◌≡◌, IfOk, OnOk, ◌++◌, ◌∷◌, []};
ghost use Rattle.rp_value.specs.declared.value.Value.TheVariants as v;
ghost use Rattle.rp_content.specs.Headers as spec;

use plain_data::{Items, Text};
use rp_value::{AggregateKind, Value};
use std::alloc::{AllocError, Global};

/// What the header says, but for the schema, which is the model's: texts, unset values, and lists of these.
#[derive(Drop)]
pub struct Header {
    /// The 2 values of FILE_DESCRIPTION: a description, and the implementation level.
    pub description: Items<Value>,
    /// The 7 values of FILE_NAME: a name, a time stamp, authors, organizations, a preprocessor, an originating system,
    /// and an authorization.
    pub name: Items<Value>,
}

/// Adds a text.
fn add_text(values: &mut Items<Value>, alloc: Global, text: &str) -> Result<(), AllocError>
    ensures { OnOk result (values.new ≡ values.old ++ v.Str text.now ∷ []) }
{
    let text = Text::from_str(alloc, text)?;
    let text = Value::text(alloc, text)?;
    values.push(text)
}

/// Adds a list of one empty text.
fn add_list(values: &mut Items<Value>, alloc: Global) -> Result<(), AllocError>
    ensures { OnOk result (values.new ≡ values.old ++ spec.empty_texts ∷ []) }
{
    let mut texts = Items::new(alloc);
    add_text(&mut texts, alloc, "")?;
    let texts = Value::aggregate(alloc, AggregateKind::List, 1, texts)?;
    values.push(texts)
}

fn default_description(alloc: Global) -> Result<Items<Value>, AllocError>
    ensures { IfOk result (λ values. values ≡ spec.default_description) }
{
    let mut values = Items::new(alloc);
    add_list(&mut values, alloc)?;
    add_text(&mut values, alloc, "2;1")?;
    Ok(values)
}

fn default_name(alloc: Global) -> Result<Items<Value>, AllocError>
    ensures { IfOk result (λ values. values ≡ spec.default_name) }
{
    let mut values = Items::new(alloc);
    add_text(&mut values, alloc, "")?;
    add_text(&mut values, alloc, "")?;
    add_list(&mut values, alloc)?;
    add_list(&mut values, alloc)?;
    add_text(&mut values, alloc, "")?;
    add_text(&mut values, alloc, "")?;
    add_text(&mut values, alloc, "")?;
    Ok(values)
}

impl Header {
    ghost use Rattle.std.specs.Prelude.{◌≡◌, IfOk};
    ghost use Rattle.rp_content.specs.Headers as spec;

    /// The header of a model that no file has given one: `FILE_DESCRIPTION((''),'2;1')` and
    /// `FILE_NAME('','',(''),(''),'','','')`.
    pub fn new(alloc: Global) -> Result<Header, AllocError>
        ensures { IfOk result (λ header. header ≡ spec.default_header) }
    {
        let description = default_description(alloc)?;
        let name = default_name(alloc)?;
        Ok(Header { description, name })
    }
}
