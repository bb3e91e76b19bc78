//! The lists of replies.

ghost use Rattle.std.specs.Prelude.{◌≡◌, ◌∷◌, ◌++◌, OnOk};
ghost use Rattle.json.specs.Token.{key as key_token};
ghost use Rattle.rp_json.specs.Written.{list_of};
ghost use Rattle.rp_json.specs.Tokens.{tokens_of};
ghost use Rattle.rp_replies.specs.Replies.{listed_instance_data, level_word, item_data, member_data, instance_data, warning_data};
ghost use Rattle.serde_json.specs.Data.{string};

use crate::writing::{boolean_at, place_of_kind};
use json::Writer;
use plain_data::Text;
use rp_json::{number_at, string_at};
use rp_plain::lists::{Item, ListedInstance, Member};
use rp_population::Place;
use rp_rows::rows::Right;
use std::alloc::AllocError;

pub(crate) fn write_listed_instances(
    out: &mut Writer,
    names: &[ListedInstance],
) -> Result<(), AllocError>
    ensures ok { OnOk result (out.new.tokens ≡ out.old.tokens ++ tokens_of (list_of listed_instance_data names.now)) }
    ensures before { out.new.before ≡ out.old.before }
{
    out.begin_array()?;
    for named in names {
        write_listed_instance(out, named)?;
    }
    out.end_array()
}

fn write_listed_instance(out: &mut Writer, named: &ListedInstance) -> Result<(), AllocError>
    ensures ok { OnOk result (out.new.tokens ≡ out.old.tokens ++ tokens_of (listed_instance_data named.now)) }
    ensures before { out.new.before ≡ out.old.before }
{
    out.begin_object()?;
    number_at(out, "name", named.name)?;
    string_at(out, "type", named.type_name.as_str())?;
    out.end_object()
}

pub(crate) fn write_items_at(out: &mut Writer, key: &str, items: &[Item]) -> Result<(), AllocError>
    ensures ok { OnOk result (out.new.tokens ≡ out.old.tokens ++ key_token key.now ∷ tokens_of (list_of item_data items.now)) }
    ensures before { out.new.before ≡ out.old.before }
{
    out.key(key)?;
    write_items(out, items)
}

fn write_items(out: &mut Writer, items: &[Item]) -> Result<(), AllocError>
    ensures ok { OnOk result (out.new.tokens ≡ out.old.tokens ++ tokens_of (list_of item_data items.now)) }
    ensures before { out.new.before ≡ out.old.before }
{
    out.begin_array()?;
    for item in items {
        write_item(out, item)?;
    }
    out.end_array()
}

fn write_item(out: &mut Writer, item: &Item) -> Result<(), AllocError>
    ensures ok { OnOk result (out.new.tokens ≡ out.old.tokens ++ tokens_of (item_data item.now)) }
    ensures before { out.new.before ≡ out.old.before }
{
    out.begin_object()?;
    string_at(out, "level", word_of(item.right))?;
    string_at(out, "name", item.name.as_str())?;
    string_at(out, "owner", item.owner.as_str())?;
    string_at(out, "schema", item.schema.as_str())?;
    out.end_object()
}

fn word_of(right: Right) -> &'static str
    ensures { result.now ≡ level_word right }
{
    match right {
        Right::Unseen => "none",
        Right::Reads => "read",
        Right::Groups => "group",
        Right::Writes => "write",
        Right::Owns => "owner",
    }
}

pub(crate) fn write_members(out: &mut Writer, members: &[Member]) -> Result<(), AllocError>
    ensures ok { OnOk result (out.new.tokens ≡ out.old.tokens ++ tokens_of (list_of member_data members.now)) }
    ensures before { out.new.before ≡ out.old.before }
{
    out.begin_array()?;
    for member in members {
        write_member(out, member)?;
    }
    out.end_array()
}

fn write_member(out: &mut Writer, member: &Member) -> Result<(), AllocError>
    ensures ok { OnOk result (out.new.tokens ≡ out.old.tokens ++ tokens_of (member_data member.now)) }
    ensures before { out.new.before ≡ out.old.before }
{
    out.begin_object()?;
    boolean_at(out, "counts", member.counts)?;
    string_at(out, "model", member.model.name.as_str())?;
    string_at(out, "owner", member.model.owner.as_str())?;
    out.end_object()
}

/// The places of instances.
pub(crate) fn write_places(out: &mut Writer, places: &[Place]) -> Result<(), AllocError>
    ensures ok { OnOk result (out.new.tokens ≡ out.old.tokens ++ tokens_of (list_of instance_data places.now)) }
    ensures before { out.new.before ≡ out.old.before }
{
    out.begin_array()?;
    for place in places {
        write_place(out, place)?;
    }
    out.end_array()
}

fn write_place(out: &mut Writer, place: &Place) -> Result<(), AllocError>
    ensures ok { OnOk result (out.new.tokens ≡ out.old.tokens ++ tokens_of (instance_data place.now)) }
    ensures before { out.new.before ≡ out.old.before }
{
    out.begin_array()?;
    let model = place.key();
    out.string(model.owner.as_str())?;
    out.string(model.name.as_str())?;
    out.u64(place.instance)?;
    out.end_array()
}

pub(crate) fn write_texts(out: &mut Writer, texts: &[Text]) -> Result<(), AllocError>
    ensures ok { OnOk result (out.new.tokens ≡ out.old.tokens ++ tokens_of (list_of string texts.now)) }
    ensures before { out.new.before ≡ out.old.before }
{
    out.begin_array()?;
    for text in texts {
        out.string(text.as_str())?;
    }
    out.end_array()
}

/// The places of warnings.
pub(crate) fn write_warnings(out: &mut Writer, warnings: &[usize]) -> Result<(), AllocError>
    ensures ok { OnOk result (out.new.tokens ≡ out.old.tokens ++ tokens_of (list_of warning_data warnings.now)) }
    ensures before { out.new.before ≡ out.old.before }
{
    out.begin_array()?;
    for at in warnings {
        write_warning(out, *at)?;
    }
    out.end_array()
}

fn write_warning(out: &mut Writer, at: usize) -> Result<(), AllocError>
    ensures ok { OnOk result (out.new.tokens ≡ out.old.tokens ++ tokens_of (warning_data at)) }
    ensures before { out.new.before ≡ out.old.before }
{
    place_of_kind(out, at, "SelectInTypeof")
}
