//! What models hold, as it is told: their canonical text, their links, the names of their instances.

ghost use Rattle.std.specs.Prelude.{◌≡◌, map, IfOk};
ghost use Rattle.rp_plain.specs.Meaning.{schema_of};
ghost use Rattle.rp_plain.specs.Files as of_files;
ghost use Rattle.rp_plain.specs.Lists.{named, names_by};
ghost use Rattle.rp_readers.specs.Told.{told};

use crate::readers::Readers;
use ex_loaded::LoadedSchema;
use p21_write::{type_text, write};
use plain_data::{Rows, Text};
use rp_content::{Instance, Link};
use rp_plain::lists::ListedInstance;
use rp_rows::rows::Key;
use std::alloc::{AllocError, Global};

/// The canonical text of what the model holds, if the partner sees it.
pub fn text_of(alloc: Global, asked: &Readers<'_, '_>, key: &Key) -> Result<Text, AllocError>
    ensures { IfOk result (λ text. text ≡ of_files.text_by (schema_of (told asked.now).schemas ((told asked.now).content key.now)) ((told asked.now).content key.now)) }
{
    let Some(model) = asked.content(key) else {
        return Text::from_str(alloc, "");
    };
    let Some(schema) = asked.schema_named(&model.schema) else {
        return Text::from_str(alloc, "");
    };
    write(alloc, schema.dictionary(), &model.content)
}

/// The links of the model, if the partner sees it.
pub fn links_of<'a>(asked: &Readers<'a, '_>, key: &Key) -> &'a [Link]
    ensures { result.now ≡ of_files.links_of ((told asked.now).content key.now) }
{
    match asked.content(key) {
        Some(model) => model.content.links.as_slice(),
        None => &[],
    }
}

/// The same links.
pub fn copies(alloc: Global, links: &[Link]) -> Result<Rows<Link>, AllocError>
    ensures { IfOk result (λ copies. copies ≡ links.now) }
{
    let mut copies = Rows::new(alloc);
    for link in links {
        copies.push(link.copy(alloc)?)?;
    }
    Ok(copies)
}

/// The names of the instances, with their types.
fn listed_instances(
    alloc: Global,
    schema: &LoadedSchema<'_>,
    instances: &[Instance],
) -> Result<Rows<ListedInstance>, AllocError>
    ensures { IfOk result (λ rows. rows ≡ map (named schema.now) instances.now) }
{
    let mut rows = Vec::with_capacity(alloc, instances.len())?;
    for instance in instances {
        let type_name = type_text(alloc, schema.dictionary(), &instance.entities)?;
        rows.push(ListedInstance {
            name: instance.name,
            type_name,
        })?;
    }
    Ok(Rows::from_vec(rows))
}

/// The names of the instances of the model, with their types, if the partner sees it.
pub fn names_of(
    alloc: Global,
    asked: &Readers<'_, '_>,
    key: &Key,
) -> Result<Rows<ListedInstance>, AllocError>
    ensures { IfOk result (λ rows. rows ≡ names_by (schema_of (told asked.now).schemas ((told asked.now).content key.now)) ((told asked.now).content key.now)) }
{
    let Some(model) = asked.content(key) else {
        return Ok(Rows::new(alloc));
    };
    let Some(schema) = asked.schema_named(&model.schema) else {
        return Ok(Rows::new(alloc));
    };
    listed_instances(alloc, schema, model.content.instances.as_slice())
}
