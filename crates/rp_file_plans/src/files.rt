//! Files that are put into models with their links, and exported.

ghost use Rattle.std.specs.Prelude.{◌≡◌, ◌∷◌, Ok, IfOk, IfSome, option_copied};
ghost use Rattle.p21_grammar.specs.File.{file_of};
ghost use Rattle.rp_rows.specs.Contents as contents;
ghost use Rattle.rp_plain.specs.Meaning.{first_some};
ghost use Rattle.rp_plain.specs.Files as of_files;
ghost use Rattle.rp_plain.specs.Links as of_links;
ghost use Rattle.rp_readers.specs.Told.{told};
ghost use Rattle.rp_file_plans.specs.Files.{cheap_tests, Reads, Fits, Links};
ghost use Rattle.rp_plans.specs.Plans.{Plans};

use crate::links::{in_order, link_refusal, names_of, no_request};
use ex_loaded::LoadedSchema;
use p21_bind::{bind, load};
use p21_read::{is_of_schema, read_raw};
use p21_tree::Raw;
use plain_data::{Failure, Items, Rows, Text};
use rp_content::{Content, Link};
use rp_plain::messages::{Refusal, Reply, Request};
use rp_plans::{Edit, Plan, first, is_no_partner, key_fault, lacks, too_large, unseen, when};
use rp_readers::Readers;
use rp_readers::contents::{copies, links_of, text_of};
use rp_rows::rows::{Key, ModelContent, Right};
use rp_store::Change;
use std::alloc::{AllocError, Global};

/// Why a request that puts a text into a model is refused without a look into the text.
pub fn cheap_fault(asked: &Readers<'_, '_>, key: &Key, file: &Text) -> Option<Refusal>
    ensures { result ≡ first_some (cheap_tests (told asked.now) key.now file.now) }
{
    first(&[
        too_large(file),
        key_fault(key),
        is_no_partner(asked, &key.owner),
        lacks(Right::Writes, asked.model_right(key)),
    ])
}

/// What a file that reads says by the schema, or its first faulty instance.
fn bound<'s>(
    alloc: Global,
    schema: Option<&'s LoadedSchema<'s>>,
    linked: &[u64],
    raw: Raw<'_>,
) -> Result<Content, Refusal>
    ensures { Reads (of_files.bound_by (option_copied schema.entry) linked.now raw.entry) result }
{
    let Some(schema) = schema else {
        return Err(Refusal::UnknownSchema);
    };
    match bind(alloc, schema.dictionary(), linked, raw) {
        Ok(content) => Ok(content),
        Err(Failure::Fault(fault)) => Err(Refusal::InstanceFault(fault)),
        Err(Failure::NoMemory) => Err(AllocError.into()),
    }
}

/// What the file says by the schema of the model that it is for, if nothing is wrong with it.
#[tactic(auto, using(crate::proofs::Loaded::read_loaded))]
fn loaded(
    alloc: Global,
    asked: &Readers<'_, '_>,
    model: &ModelContent,
    linked: &[u64],
    file: &Text,
) -> Result<Option<Content>, AllocError>
    ensures { IfOk result (λ found. IfSome found (λ content. of_files.read_for (told asked.now).schemas model.now linked.now (file_of file.now) ≡ Ok content)) }
{
    match asked.schema_named(&model.schema) {
        Some(schema) => load(
            alloc,
            schema.dictionary(),
            model.schema.as_bytes(),
            linked,
            file.as_bytes(),
        ),
        None => Ok(None),
    }
}

/// What the file says by the schema of the model that it is for, where these names are linked, or why it is refused.
fn read_for(
    alloc: Global,
    asked: &Readers<'_, '_>,
    model: &ModelContent,
    linked: &[u64],
    file: &Text,
) -> Result<Content, Refusal>
    ensures { Reads (of_files.read_for (told asked.now).schemas model.now linked.now (file_of file.now)) result }
{
    // A faulty file is read once more, to tell its fault.
    if let Some(content) = loaded(alloc, asked, model, linked, file)? {
        return Ok(content);
    }
    let raw = match read_raw(alloc, file.as_bytes()) {
        Ok(raw) => raw,
        Err(Failure::Fault(fault)) => return Err(Refusal::FileFault(fault)),
        Err(Failure::NoMemory) => return Err(AllocError.into()),
    };
    if !is_of_schema(alloc, &raw, model.schema.as_bytes())? {
        return Err(Refusal::WrongSchema);
    }
    bound(alloc, asked.schema_named(&model.schema), linked, raw)
}

/// Why a file and links are refused without a look into the file.
fn early_fault(asked: &Readers<'_, '_>, key: &Key, file: &Text, links: &[Link]) -> Option<Refusal>
    ensures { result ≡ first_some (of_links.no_request links.now ∷ cheap_tests (told asked.now) key.now file.now) }
{
    match no_request(links) {
        Some(refusal) => Some(refusal),
        None => cheap_fault(asked, key, file),
    }
}

/// What the file says by the schema of the model, whose instances may refer to these links, or why it is refused.
fn read_linked(
    alloc: Global,
    asked: &Readers<'_, '_>,
    model: &ModelContent,
    links: &[Link],
    file: &Text,
) -> Result<Content, Refusal>
    ensures { Reads (of_files.read_for (told asked.now).schemas model.now (contents.link_names links.now) (file_of file.now)) result }
{
    let linked = names_of(alloc, links)?;
    read_for(alloc, asked, model, &linked, file)
}

/// The links in the order of their names, if a model of this key and schema may have them beside the content.
fn fit_links(
    alloc: Global,
    asked: &Readers<'_, '_>,
    key: &Key,
    schema: &Text,
    links: Rows<Link>,
    content: &Content,
) -> Result<Items<Link>, Refusal>
    ensures { Fits (told asked.now) key.now schema.now links content.now result }
{
    let links = in_order(alloc, links)?;
    match link_refusal(alloc, asked, key, schema, links.as_slice(), content)? {
        Some(refusal) => Err(refusal),
        None => Ok(links),
    }
}

/// What the file says and these links, for the model of this key, or why they are refused.
fn linked_by(
    alloc: Global,
    asked: &Readers<'_, '_>,
    key: &Key,
    model: &ModelContent,
    file: &Text,
    links: Rows<Link>,
) -> Result<Content, Refusal>
    ensures { Links (told asked.now) key.now model.now links (of_files.read_for (told asked.now).schemas model.now (contents.link_names links) (file_of file.now)) result }
{
    let mut content = match read_linked(alloc, asked, model, links.as_slice(), file) {
        Ok(content) => content,
        Err(refusal) => return Err(refusal),
    };
    match fit_links(alloc, asked, key, &model.schema, links, &content) {
        Ok(links) => {
            content.links = links;
            Ok(content)
        }
        Err(refusal) => {
            // (A call, since content that goes out of scope is opened here down to its texts.)
            drop(content);
            Err(refusal)
        }
    }
}

/// A model's content is replaced by that of a file, and its links by these.
pub fn plan_put(
    alloc: Global,
    asked: &Readers<'_, '_>,
    key: Key,
    file: &Text,
    links: Rows<Link>,
) -> Result<Plan, Refusal>
    ensures { Plans (told asked.now) asked.now.caller.now (Request.Put key file.now links) result }
{
    if let Some(refusal) = early_fault(asked, &key, file, links.as_slice()) {
        return Err(refusal);
    }
    let Some(model) = asked.content(&key) else {
        return Err(Refusal::NoSuchItem);
    };
    let content = linked_by(alloc, asked, &key, model, file, links)?;
    let reply = Reply::Stored(content.instances.len());
    let edit = Edit::OfModel(Change::Put(key, content));
    Ok(Plan::of(alloc, reply, edit)?)
}

/// Of a model whose links aren't asked for.
fn has_links(linked: bool, asked: &Readers<'_, '_>, key: &Key) -> Option<Refusal>
    ensures { result ≡ of_files.has_links linked ((told asked.now).content key.now) }
{
    when(!linked && links_of(asked, key).len() > 0, Refusal::HasLinks)
}

/// The file, with the links if they are asked for.
fn exported(alloc: Global, linked: bool, file: Text, links: &[Link]) -> Result<Reply, AllocError>
    ensures { IfOk result (λ reply. reply ≡ of_files.exported linked file links.now) }
{
    if !linked {
        return Ok(Reply::File(file));
    }
    let links = copies(alloc, links)?;
    Ok(Reply::Linked { file, links })
}

/// The canonical text of what a model holds, with its links if they are asked for.
pub fn plan_export(
    alloc: Global,
    asked: &Readers<'_, '_>,
    key: &Key,
    linked: bool,
) -> Result<Plan, Refusal>
    ensures { Plans (told asked.now) asked.now.caller.now (Request.Export key.now linked) result }
{
    let tests = [
        key_fault(key),
        is_no_partner(asked, &key.owner),
        unseen(asked.model_right(key)),
        has_links(linked, asked, key),
    ];
    if let Some(refusal) = first(&tests) {
        return Err(refusal);
    }
    let file = text_of(alloc, asked, key)?;
    Ok(Plan::told(alloc, exported(alloc, linked, file, links_of(asked, key))?))
}
