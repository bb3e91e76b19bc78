//! The file of a model.

ghost use Rattle.std.specs.Prelude.{IfOk, IfSome, ◌≡◌};
ghost use Rattle.rp_rows.specs.Contents.{link_names};
ghost use Rattle.p21_laws.specs.Contents.{IsRead};
ghost use Rattle.rp_restored_rows.specs.Models.{Reads};

use crate::lack::RowLack;
use ex_loaded::LoadedSchema;
use p21_bind::{bind, load};
use p21_read::read_raw;
use plain_data::{Failure, Text};
use rp_content::{Content, Link};
use std::alloc::{AllocError, Global};

/// The names of the links.
fn names_of(alloc: Global, links: &[Link]) -> Result<Vec<u64>, AllocError>
    ensures { IfOk result (λ names. names.items ≡ link_names links.now) }
{
    let mut names = Vec::with_capacity(alloc, links.len())?;
    for link in links {
        names.push(link.name)?;
    }
    Ok(names)
}

/// What the file says, if nothing is wrong with it, read in one pass.
fn loaded<'s>(
    alloc: Global,
    schema: &'s LoadedSchema<'s>,
    name: &Text,
    linked: &[u64],
    file: &[u8],
) -> Result<Option<Content>, AllocError>
    ensures { IfOk result (λ found. IfSome found (λ content. IsRead schema.now linked.now file.now content)) }
{
    load(alloc, schema.dictionary(), name.as_bytes(), linked, file)
}

/// What the file says, or its first fault.
fn bound<'s>(
    alloc: Global,
    schema: &'s LoadedSchema<'s>,
    linked: &[u64],
    file: &[u8],
) -> Result<Content, Failure<RowLack>>
    ensures { Reads schema.now linked.now file.now result }
{
    let raw = match read_raw(alloc, file) {
        Ok(raw) => raw,
        Err(Failure::Fault(fault)) => return Err(Failure::Fault(RowLack::File(fault))),
        Err(Failure::NoMemory) => return Err(Failure::NoMemory),
    };
    match bind(alloc, schema.dictionary(), linked, raw) {
        Ok(content) => Ok(content),
        Err(Failure::Fault(fault)) => Err(Failure::Fault(RowLack::Instance(fault))),
        Err(Failure::NoMemory) => Err(Failure::NoMemory),
    }
}

/// The header and the instances that the file has by the schema of this name, whose instances may refer to these links.
/// Whether the file names the schema isn't asked: the text is compared in the end.
pub(crate) fn read<'s>(
    alloc: Global,
    schema: &'s LoadedSchema<'s>,
    name: &Text,
    links: &[Link],
    file: &[u8],
) -> Result<Content, Failure<RowLack>>
    ensures { Reads schema.now (link_names links.now) file.now result }
{
    let linked = names_of(alloc, links)?;
    // A faulty file is read once more, to tell its fault.
    if let Some(content) = loaded(alloc, schema, name, &linked, file)? {
        return Ok(content);
    }
    bound(alloc, schema, &linked, file)
}
