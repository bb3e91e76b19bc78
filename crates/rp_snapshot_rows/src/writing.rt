//! Rows to tokens.

ghost use Rattle.std.specs.Prelude.{◌≡◌, ◌++◌, OnOk};
ghost use Rattle.rp_snapshot_rows.specs.Written.{model_data, group_data};
ghost use Rattle.rp_json.specs.Tokens.{tokens_of};
ghost use Rattle.rp_snapshot_rows.specs.Tokens.{tail_tokens};

use crate::written_lists::{write_grants, write_group_grants, write_members};
use json::Writer;
use plain_data::Text;
use rp_json::{number_at, string_at, write_links};
use rp_rows::rows::{Grant, Key, Listing, ModelContent};
use std::alloc::AllocError;

/// The name, the owner and the schema of a row, and its end.
fn write_tail(out: &mut Writer, key: &Key, schema: &Text) -> Result<(), AllocError>
    ensures ok { OnOk result (out.new.tokens ≡ out.old.tokens ++ tail_tokens key.now.owner key.now.name schema.now) }
    ensures before { out.new.before ≡ out.old.before }
{
    string_at(out, "name", key.name.as_str())?;
    string_at(out, "owner", key.owner.as_str())?;
    string_at(out, "schema", schema.as_str())?;
    out.end_object()
}

/// The row of a model with these grants, where this is written of the header and the instances that it holds.
pub fn write_model(
    out: &mut Writer,
    file: &str,
    key: &Key,
    model: &ModelContent,
    grants: &[Grant],
) -> Result<(), AllocError>
    ensures ok { OnOk result (out.new.tokens ≡ out.old.tokens ++ tokens_of (model_data file.now (record { owner = key.now.owner; name = key.now.name; holds = model.now; grants = grants.now }))) }
    ensures before { out.new.before ≡ out.old.before }
{
    out.begin_object()?;
    string_at(out, "file", file)?;
    out.key("grants")?;
    write_grants(out, grants)?;
    number_at(out, "greatest", model.greatest)?;
    out.key("links")?;
    write_links(out, model.content.links.as_slice())?;
    write_tail(out, key, &model.schema)
}

/// The row of a group with these grants.
pub fn write_group(
    out: &mut Writer,
    key: &Key,
    group: &Listing,
    grants: &[Grant],
) -> Result<(), AllocError>
    ensures ok { OnOk result (out.new.tokens ≡ out.old.tokens ++ tokens_of (group_data (record { owner = key.now.owner; name = key.now.name; holds = group.now; grants = grants.now }))) }
    ensures before { out.new.before ≡ out.old.before }
{
    out.begin_object()?;
    out.key("grants")?;
    write_group_grants(out, grants)?;
    out.key("members")?;
    write_members(out, group.members.as_slice())?;
    write_tail(out, key, &group.schema)
}
