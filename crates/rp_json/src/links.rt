//! Links as an export and a snapshot tell them.

ghost use Rattle.std.specs.Prelude.{◌≡◌, ◌++◌, OnOk};
ghost use Rattle.rp_json.specs.Written.{link_data, list_of};
ghost use Rattle.rp_json.specs.Tokens.{tokens_of};

use crate::members::{number_at, string_at};
use json::Writer;
use rp_content::Link;
use std::alloc::AllocError;

fn write_link(out: &mut Writer, link: &Link) -> Result<(), AllocError>
    ensures ok { OnOk result (out.new.tokens ≡ out.old.tokens ++ tokens_of (link_data link.now)) }
    ensures before { out.new.before ≡ out.old.before }
{
    out.begin_object()?;
    number_at(out, "instance", link.target)?;
    string_at(out, "model", link.model.as_str())?;
    number_at(out, "name", link.name)?;
    string_at(out, "owner", link.owner.as_str())?;
    out.end_object()
}

/// The list of these links.
///
/// # Errors
///
/// Want of memory.
pub fn write_links(out: &mut Writer, links: &[Link]) -> Result<(), AllocError>
    ensures ok { OnOk result (out.new.tokens ≡ out.old.tokens ++ tokens_of (list_of link_data links.now)) }
    ensures before { out.new.before ≡ out.old.before }
{
    out.begin_array()?;
    for link in links {
        write_link(out, link)?;
    }
    out.end_array()
}
