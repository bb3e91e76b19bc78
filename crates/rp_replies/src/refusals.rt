//! Refusals.

ghost use Rattle.std.specs.Prelude.{◌≡◌, ◌++◌, OnOk};
ghost use Rattle.serde_json.specs.Data.{object};
ghost use Rattle.rp_replies.specs.Replies.{file_kind, instance_kind, link_kind, coded, refusal_members};
ghost use Rattle.rp_json.specs.Tokens.{tokens_of};

use json::Writer;
use p21_tree::{FaultKind, FileFault, InstanceFault, InstanceFaultKind};
use rp_json::{number_at, string_at};
use rp_plain::messages::{LinkFault, LinkFaultKind, Refusal};
use std::alloc::AllocError;

pub(crate) fn write_refusal(out: &mut Writer, refusal: Refusal) -> Result<(), AllocError>
    ensures ok { OnOk result (out.new.tokens ≡ out.old.tokens ++ tokens_of (object (refusal_members refusal))) }
    ensures before { out.new.before ≡ out.old.before }
{
    match refusal {
        Refusal::BadRequest => write_coded(out, 1, "BadRequest"),
        Refusal::TooLarge => write_coded(out, 2, "TooLarge"),
        Refusal::BadName => write_coded(out, 3, "BadName"),
        Refusal::UnknownPartner => write_coded(out, 4, "UnknownPartner"),
        Refusal::UnknownSchema => write_coded(out, 5, "UnknownSchema"),
        Refusal::Exists => write_coded(out, 6, "Exists"),
        Refusal::NoSuchItem => write_coded(out, 7, "NoSuchItem"),
        Refusal::NoRight => write_coded(out, 8, "NoRight"),
        Refusal::WrongSchema => write_coded(out, 9, "WrongSchema"),
        Refusal::Membership => write_coded(out, 10, "Membership"),
        Refusal::FileFault(fault) => write_file_fault(out, fault),
        Refusal::InstanceFault(fault) => write_instance_fault(out, fault),
        Refusal::LinkFault(fault) => write_link_fault(out, fault),
        Refusal::NoSuchInstance => write_coded(out, 14, "NoSuchInstance"),
        Refusal::InUse => write_coded(out, 15, "InUse"),
        Refusal::TooMany => write_coded(out, 16, "TooMany"),
        Refusal::HasLinks => write_coded(out, 17, "HasLinks"),
        Refusal::NoMemory => write_coded(out, 18, "NoMemory"),
    }
}

/// A refusal with a code and a name alone.
fn write_coded(out: &mut Writer, code: u64, name: &str) -> Result<(), AllocError>
    ensures ok { OnOk result (out.new.tokens ≡ out.old.tokens ++ tokens_of (object (coded code name.now))) }
    ensures before { out.new.before ≡ out.old.before }
{
    out.begin_object()?;
    number_at(out, "code", code)?;
    string_at(out, "name", name)?;
    out.end_object()
}

fn write_file_fault(out: &mut Writer, fault: FileFault) -> Result<(), AllocError>
    ensures ok { OnOk result (out.new.tokens ≡ out.old.tokens ++ tokens_of (object (refusal_members (Refusal.FileFault fault)))) }
    ensures before { out.new.before ≡ out.old.before }
{
    out.begin_object()?;
    number_at(out, "at", fault.at as u64)?;
    number_at(out, "code", 11)?;
    string_at(out, "kind", word_of_file_fault(fault.kind))?;
    string_at(out, "name", "FileFault")?;
    out.end_object()
}

fn write_instance_fault(out: &mut Writer, fault: InstanceFault) -> Result<(), AllocError>
    ensures ok { OnOk result (out.new.tokens ≡ out.old.tokens ++ tokens_of (object (refusal_members (Refusal.InstanceFault fault)))) }
    ensures before { out.new.before ≡ out.old.before }
{
    out.begin_object()?;
    number_at(out, "code", 12)?;
    number_at(out, "instance", fault.instance)?;
    string_at(out, "kind", word_of_instance_fault(fault.kind))?;
    string_at(out, "name", "InstanceFault")?;
    out.end_object()
}

fn write_link_fault(out: &mut Writer, fault: LinkFault) -> Result<(), AllocError>
    ensures ok { OnOk result (out.new.tokens ≡ out.old.tokens ++ tokens_of (object (refusal_members (Refusal.LinkFault fault)))) }
    ensures before { out.new.before ≡ out.old.before }
{
    out.begin_object()?;
    number_at(out, "code", 13)?;
    string_at(out, "kind", word_of_link_fault(fault.kind))?;
    number_at(out, "link", fault.link)?;
    string_at(out, "name", "LinkFault")?;
    out.end_object()
}

fn word_of_file_fault(kind: FaultKind) -> &'static str
    ensures { result.now ≡ file_kind kind }
{
    match kind {
        FaultKind::Token => "Token",
        FaultKind::Open => "Open",
        FaultKind::Escape => "Escape",
        FaultKind::Page => "Page",
        FaultKind::Code => "Code",
        FaultKind::Utf8 => "Utf8",
        FaultKind::Number => "Number",
        FaultKind::Syntax => "Syntax",
        FaultKind::Sections => "Sections",
        FaultKind::Deep => "Deep",
    }
}

fn word_of_instance_fault(kind: InstanceFaultKind) -> &'static str
    ensures { result.now ≡ instance_kind kind }
{
    match kind {
        InstanceFaultKind::Twice => "Twice",
        InstanceFaultKind::UnknownEntity => "UnknownEntity",
        InstanceFaultKind::IllegalCombination => "IllegalCombination",
        InstanceFaultKind::WrongCount => "WrongCount",
        InstanceFaultKind::NotDerived => "NotDerived",
        InstanceFaultKind::WrongKind => "WrongKind",
        InstanceFaultKind::Undefined => "Undefined",
    }
}

fn word_of_link_fault(kind: LinkFaultKind) -> &'static str
    ensures { result.now ≡ link_kind kind }
{
    match kind {
        LinkFaultKind::Defined => "Defined",
        LinkFaultKind::Own => "Own",
        LinkFaultKind::NotSeen => "NotSeen",
        LinkFaultKind::OtherSchema => "OtherSchema",
        LinkFaultKind::NoInstance => "NoInstance",
    }
}
