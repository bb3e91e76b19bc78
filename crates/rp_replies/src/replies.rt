//! From a reply to bytes.

ghost use Rattle.std.specs.Prelude.{◌≡◌, ◌++◌, codes, IfOk, OnOk};
ghost use Rattle.serde_json.specs.Data.{number as data_number, unsigned, string};
ghost use Rattle.rp_json.specs.Written.{list_of};
ghost use Rattle.rp_json.specs.Tokens.{tokens_of};
ghost use Rattle.rp_replies.specs.Replies.{only, instance_data, reply_data, reply_text, line_of_reply};

use crate::lists::{
    write_items_at, write_listed_instances, write_members, write_places, write_texts,
    write_warnings,
};
use crate::refusals::write_refusal;
use crate::reports::write_checks;
use crate::writing::{close, open, place_of_kind};
use ex_check::SchemaFault;
use json::Writer;
use plain_data::Text;
use rp_content::Link;
use rp_json::{number_at, string_at, write_links};
use rp_plain::lists::{Item, ListedInstance, Member};
use rp_plain::messages::{Refusal, Reply};
use rp_plain::reports::ToldReport;
use rp_population::Place;
use std::alloc::{AllocError, Global};

/// The bytes of a reply: JSON without blanks, its keys in byte order.
pub fn reply_bytes(alloc: Global, reply: &Reply) -> Result<Vec<u8>, AllocError>
    ensures { IfOk result (λ bytes. bytes.items ≡ reply_text reply.now) }
{
    let mut out = Writer::new(Vec::with_capacity(alloc, 128)?);
    write_reply(&mut out, reply)?;
    Ok(out.into_inner())
}

/// The bytes of a reply, and a line feed.
pub fn reply_line(alloc: Global, reply: &Reply) -> Result<Vec<u8>, AllocError>
    ensures { IfOk result (λ bytes. bytes.items ≡ line_of_reply reply.now) }
{
    let mut bytes = reply_bytes(alloc, reply)?;
    bytes.push(b'\n')?;
    Ok(bytes)
}

/// The line that says that memory ran out. It needs none.
pub fn no_memory_line() -> &'static [u8]
    ensures { result.now ≡ line_of_reply (Reply.Refused Refusal.NoMemory) }
{
    b"{\"refused\":{\"code\":18,\"name\":\"NoMemory\"}}\n"
}

fn write_reply(out: &mut Writer, reply: &Reply) -> Result<(), AllocError>
    ensures ok { OnOk result (out.new.tokens ≡ out.old.tokens ++ tokens_of (reply_data reply.now)) }
    ensures before { out.new.before ≡ out.old.before }
{
    match reply {
        Reply::Done => write_done(out),
        Reply::Stored(count) => write_stored(out, *count),
        Reply::File(text) => write_text_at(out, "file", text),
        Reply::Linked { file, links } => write_linked(out, file, links.as_slice()),
        Reply::Names(names) => write_names(out, names.as_slice()),
        Reply::Line(text) => write_text_at(out, "text", text),
        Reply::Added(name) => write_number_at(out, "name", *name),
        Reply::Listed { groups, models } => write_listed(out, groups.as_slice(), models.as_slice()),
        Reply::Members(members) => write_listed_members(out, members.as_slice()),
        Reply::Extent(places) => write_places_at(out, "extent", places.as_slice()),
        Reply::Users(places) => write_places_at(out, "users", places.as_slice()),
        Reply::Validated(report) => write_report(out, report),
        Reply::Schemas(names) => write_schemas(out, names.as_slice()),
        Reply::Checked { schema, warnings } => write_checked(out, schema, warnings.as_slice()),
        Reply::Faulty(fault) => write_faulty(out, *fault),
        Reply::Refused(refusal) => write_refused(out, *refusal),
    }
}

fn write_done(out: &mut Writer) -> Result<(), AllocError>
    ensures ok { OnOk result (out.new.tokens ≡ out.old.tokens ++ tokens_of (reply_data Reply.Done)) }
    ensures before { out.new.before ≡ out.old.before }
{
    open(out, "ok")?;
    close(out)
}

fn write_stored(out: &mut Writer, count: usize) -> Result<(), AllocError>
    ensures ok { OnOk result (out.new.tokens ≡ out.old.tokens ++ tokens_of (reply_data (Reply.Stored count))) }
    ensures before { out.new.before ≡ out.old.before }
{
    write_number_at(out, "instances", count as u64)
}

/// What is done, with one number at a key.
fn write_number_at(out: &mut Writer, key: &str, number: u64) -> Result<(), AllocError>
    ensures ok { OnOk result (out.new.tokens ≡ out.old.tokens ++ tokens_of (only (codes "ok") (only key.now (data_number (unsigned number))))) }
    ensures before { out.new.before ≡ out.old.before }
{
    open(out, "ok")?;
    number_at(out, key, number)?;
    close(out)
}

/// What is done, with one text at a key.
fn write_text_at(out: &mut Writer, key: &str, text: &Text) -> Result<(), AllocError>
    ensures ok { OnOk result (out.new.tokens ≡ out.old.tokens ++ tokens_of (only (codes "ok") (only key.now (string text.now)))) }
    ensures before { out.new.before ≡ out.old.before }
{
    open(out, "ok")?;
    string_at(out, key, text.as_str())?;
    close(out)
}

fn write_linked(out: &mut Writer, file: &Text, links: &[Link]) -> Result<(), AllocError>
    ensures ok { OnOk result (out.new.tokens ≡ out.old.tokens ++ tokens_of (reply_data (Reply.Linked file.now links.now))) }
    ensures before { out.new.before ≡ out.old.before }
{
    open(out, "ok")?;
    string_at(out, "file", file.as_str())?;
    out.key("links")?;
    write_links(out, links)?;
    close(out)
}

fn write_names(out: &mut Writer, names: &[ListedInstance]) -> Result<(), AllocError>
    ensures ok { OnOk result (out.new.tokens ≡ out.old.tokens ++ tokens_of (reply_data (Reply.Names names.now))) }
    ensures before { out.new.before ≡ out.old.before }
{
    open(out, "ok")?;
    out.key("names")?;
    write_listed_instances(out, names)?;
    close(out)
}

fn write_listed(out: &mut Writer, groups: &[Item], models: &[Item]) -> Result<(), AllocError>
    ensures ok { OnOk result (out.new.tokens ≡ out.old.tokens ++ tokens_of (reply_data (Reply.Listed groups.now models.now))) }
    ensures before { out.new.before ≡ out.old.before }
{
    open(out, "ok")?;
    write_items_at(out, "groups", groups)?;
    write_items_at(out, "models", models)?;
    close(out)
}

fn write_listed_members(out: &mut Writer, members: &[Member]) -> Result<(), AllocError>
    ensures ok { OnOk result (out.new.tokens ≡ out.old.tokens ++ tokens_of (reply_data (Reply.Members members.now))) }
    ensures before { out.new.before ≡ out.old.before }
{
    open(out, "ok")?;
    out.key("members")?;
    write_members(out, members)?;
    close(out)
}

/// What is done, with places at a key.
fn write_places_at(out: &mut Writer, key: &str, places: &[Place]) -> Result<(), AllocError>
    ensures ok { OnOk result (out.new.tokens ≡ out.old.tokens ++ tokens_of (only (codes "ok") (only key.now (list_of instance_data places.now)))) }
    ensures before { out.new.before ≡ out.old.before }
{
    open(out, "ok")?;
    out.key(key)?;
    write_places(out, places)?;
    close(out)
}

fn write_report(out: &mut Writer, report: &ToldReport) -> Result<(), AllocError>
    ensures ok { OnOk result (out.new.tokens ≡ out.old.tokens ++ tokens_of (reply_data (Reply.Validated report.now))) }
    ensures before { out.new.before ≡ out.old.before }
{
    open(out, "ok")?;
    out.key("checks")?;
    write_checks(out, report.checks.as_slice())?;
    number_at(out, "steps", report.steps as u64)?;
    close(out)
}

fn write_schemas(out: &mut Writer, names: &[Text]) -> Result<(), AllocError>
    ensures ok { OnOk result (out.new.tokens ≡ out.old.tokens ++ tokens_of (reply_data (Reply.Schemas names.now))) }
    ensures before { out.new.before ≡ out.old.before }
{
    open(out, "ok")?;
    out.key("schemas")?;
    write_texts(out, names)?;
    close(out)
}

fn write_checked(out: &mut Writer, schema: &Text, warnings: &[usize]) -> Result<(), AllocError>
    ensures ok { OnOk result (out.new.tokens ≡ out.old.tokens ++ tokens_of (reply_data (Reply.Checked schema.now warnings.now))) }
    ensures before { out.new.before ≡ out.old.before }
{
    open(out, "ok")?;
    string_at(out, "schema", schema.as_str())?;
    out.key("warnings")?;
    write_warnings(out, warnings)?;
    close(out)
}

fn write_faulty(out: &mut Writer, fault: SchemaFault) -> Result<(), AllocError>
    ensures ok { OnOk result (out.new.tokens ≡ out.old.tokens ++ tokens_of (reply_data (Reply.Faulty fault))) }
    ensures before { out.new.before ≡ out.old.before }
{
    open(out, "ok")?;
    out.key("fault")?;
    place_of_kind(out, fault.at(), fault.name())?;
    close(out)
}

fn write_refused(out: &mut Writer, refusal: Refusal) -> Result<(), AllocError>
    ensures ok { OnOk result (out.new.tokens ≡ out.old.tokens ++ tokens_of (reply_data (Reply.Refused refusal))) }
    ensures before { out.new.before ≡ out.old.before }
{
    out.begin_object()?;
    out.key("refused")?;
    write_refusal(out, refusal)?;
    out.end_object()
}
