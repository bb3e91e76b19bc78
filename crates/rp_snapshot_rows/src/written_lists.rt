//! The lists of rows, written.

ghost use Rattle.std.specs.Prelude.{◌≡◌, ◌++◌, OnOk};
ghost use Rattle.rp_json.specs.Written.{list_of};
ghost use Rattle.rp_json.specs.Tokens.{tokens_of};
ghost use Rattle.rp_snapshot_rows.specs.Written.{level_word, grant_data, reader_data, member_data, pair_of};

use json::Writer;
use rp_rows::rows::{Grant, Key, Level};
use std::alloc::AllocError;

fn word_of(level: Level) -> &'static str
    ensures { result.now ≡ level_word level }
{
    match level {
        Level::Read => "read",
        Level::Group => "group",
        Level::Write => "write",
    }
}

/// A list of two texts.
fn write_pair(out: &mut Writer, first: &str, second: &str) -> Result<(), AllocError>
    ensures ok { OnOk result (out.new.tokens ≡ out.old.tokens ++ tokens_of (pair_of first.now second.now)) }
    ensures before { out.new.before ≡ out.old.before }
{
    out.begin_array()?;
    out.string(first)?;
    out.string(second)?;
    out.end_array()
}

/// A grant on a model.
fn write_grant(out: &mut Writer, grant: &Grant) -> Result<(), AllocError>
    ensures ok { OnOk result (out.new.tokens ≡ out.old.tokens ++ tokens_of (grant_data grant.now)) }
    ensures before { out.new.before ≡ out.old.before }
{
    write_pair(out, grant.partner.as_str(), word_of(grant.level))
}

/// A model that a group lists.
fn write_member(out: &mut Writer, member: &Key) -> Result<(), AllocError>
    ensures ok { OnOk result (out.new.tokens ≡ out.old.tokens ++ tokens_of (member_data member.now)) }
    ensures before { out.new.before ≡ out.old.before }
{
    write_pair(out, member.owner.as_str(), member.name.as_str())
}

/// The grants on a model.
pub(crate) fn write_grants(out: &mut Writer, grants: &[Grant]) -> Result<(), AllocError>
    ensures ok { OnOk result (out.new.tokens ≡ out.old.tokens ++ tokens_of (list_of grant_data grants.now)) }
    ensures before { out.new.before ≡ out.old.before }
{
    out.begin_array()?;
    for grant in grants {
        write_grant(out, grant)?;
    }
    out.end_array()
}

/// The grants on a group.
pub(crate) fn write_group_grants(out: &mut Writer, grants: &[Grant]) -> Result<(), AllocError>
    ensures ok { OnOk result (out.new.tokens ≡ out.old.tokens ++ tokens_of (list_of reader_data grants.now)) }
    ensures before { out.new.before ≡ out.old.before }
{
    out.begin_array()?;
    for grant in grants {
        out.string(grant.partner.as_str())?;
    }
    out.end_array()
}

/// The models that a group lists.
pub(crate) fn write_members(out: &mut Writer, members: &[Key]) -> Result<(), AllocError>
    ensures ok { OnOk result (out.new.tokens ≡ out.old.tokens ++ tokens_of (list_of member_data members.now)) }
    ensures before { out.new.before ≡ out.old.before }
{
    out.begin_array()?;
    for member in members {
        write_member(out, member)?;
    }
    out.end_array()
}
