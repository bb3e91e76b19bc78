//! What a snapshot lacks that isn't taken, in words.
use rp_config::Shown;
use rp_repo::{
    Lack, Refusal, RefusedRow, Reply, RowKind, RowLack, RowReason, SnapshotLack, reply_bytes,
};
use std::alloc::{AllocError, Global};
use std::{fmt, str};

/// What a snapshot lacks.
#[derive(Clone, Copy, Drop)]
pub struct Lacking<'a> {
    pub lack: &'a SnapshotLack,
    /// The kind of a file's fault, if that is it.
    pub kind: &'a str,
}

impl fmt::Display for Lacking<'_> {
    fn fmt<W: fmt::Write>(&self, f: &mut fmt::Formatter<W>) -> fmt::Result {
        match self.lack {
            SnapshotLack::FirstLine => f.write_str("it doesn't begin with the line STEPREPO 1"),
            SnapshotLack::Utf8(at) => write!(f, "at byte {at}: it isn't UTF-8"),
            SnapshotLack::Form(lack, at) => write_form(f, *lack, *at),
            SnapshotLack::Row(row) => write_row(f, row, self.kind),
            SnapshotLack::Differs(at) => write!(
                f,
                "at byte {at}: it isn't as it would be saved: another order, spelling, blank or byte behind the end"
            ),
        }
    }
}

/// Writes what has to stand where something else does; the byte that was reached may be the one behind that.
fn write_form<W: fmt::Write>(f: &mut fmt::Formatter<W>, lack: Lack, at: usize) -> fmt::Result {
    let wanted = match lack {
        Lack::Form => "a brace, a bracket, the next key, a text or a whole number",
        Lack::Level => "a level (read, group or write)",
    };
    write!(f, "before byte {at}: {wanted} is wanted")
}

/// What a row goes by, behind a blank; nothing where it couldn't be read. Owner and name may be any texts, so they are shown as
/// paths are.
#[derive(Clone, Copy, Drop)]
struct Named<'a>(&'a RefusedRow);

impl fmt::Display for Named<'_> {
    fn fmt<W: fmt::Write>(&self, f: &mut fmt::Formatter<W>) -> fmt::Result {
        match &self.0.key {
            Some(key) => {
                let owner = Shown(key.owner.as_str());
                let name = Shown(key.name.as_str());
                write!(f, " {owner}/{name}")
            }
            None => Ok(()),
        }
    }
}

/// Writes which row isn't taken, and why.
fn write_row<W: fmt::Write>(
    f: &mut fmt::Formatter<W>,
    row: &RefusedRow,
    kind: &str,
) -> fmt::Result {
    let what = match row.kind {
        RowKind::Group => "group",
        RowKind::Model => "model",
    };
    write!(f, "at byte {}, {what}{}: ", row.at, Named(row))?;
    match row.reason {
        RowReason::Form(lack, at) => write_form(f, lack, at),
        RowReason::Lacks(lack) => write_lack(f, lack, kind),
        RowReason::Twice => f.write_str("its owner has another one of this name"),
        RowReason::TooMany => write!(f, "its owner has over 100 {what}s"),
    }
}

/// Writes what a row lacks.
fn write_lack<W: fmt::Write>(f: &mut fmt::Formatter<W>, lack: RowLack, kind: &str) -> fmt::Result {
    let words = match lack {
        RowLack::UnknownOwner => "its owner is no partner",
        RowLack::BadName => "its name isn't 1 to 64 of A-Z a-z 0-9 _ . -",
        RowLack::UnknownSchema => "its schema isn't loaded",
        RowLack::GrantsOutOfOrder => "its grants aren't in the order of partners, each once",
        RowLack::UnknownGrantee => "it is granted to no partner",
        RowLack::GrantToOwner => "it is granted to its owner",
        RowLack::GroupLevel => "it is granted at another level than read",
        RowLack::TooManyMembers => "it has over 50 members",
        RowLack::MembersOutOfOrder =>
            "its members aren't in the order of owner and name, each once",
        RowLack::UnknownMemberOwner => "a member's owner is no partner",
        RowLack::BadMemberName => "a member's name isn't 1 to 64 of A-Z a-z 0-9 _ . -",
        RowLack::GreatestTooLong => "its greatest name has over 18 digits",
        RowLack::TooManyLinks => "it has over 10,000 links",
        RowLack::LinksOutOfOrder => "its links aren't in the order of their names, each once",
        RowLack::UnknownLinkOwner => "a link leads to the model of no partner",
        RowLack::BadLinkModel => {
            "a link leads to a model whose name isn't 1 to 64 of A-Z a-z 0-9 _ . -"
        }
        RowLack::LinkToItself => "a link leads to the model itself",
        RowLack::LinkTargetTooLong => "a link leads to an instance whose name has over 18 digits",
        RowLack::LinkAboveGreatest => "a link's name is above the greatest name",
        RowLack::LinkDefined => "a link has the name of an instance",
        RowLack::TooManyInstances => "it has over 200,000 instances",
        RowLack::InstanceAboveGreatest => "an instance's name is above the greatest name",
        RowLack::File(fault) => return write!(f, "its file: {kind} at byte {} of it", fault.at),
        RowLack::Instance(fault) => {
            return write!(f, "its file: {kind} at instance {}", fault.instance);
        }
    };
    f.write_str(words)
}

/// The kind of a file's fault, by the word that a put of the file would be answered; nothing where something else is wrong.
pub fn kind_of(alloc: Global, lack: &SnapshotLack) -> Result<Option<String>, AllocError> {
    let SnapshotLack::Row(row) = lack else {
        return Ok(None);
    };
    let refusal = match row.reason {
        RowReason::Lacks(RowLack::File(fault)) => Refusal::FileFault(fault),
        RowReason::Lacks(RowLack::Instance(fault)) => Refusal::InstanceFault(fault),
        _ => return Ok(None),
    };
    let reply = reply_bytes(alloc, &Reply::Refused(refusal))?;
    match kind_in(&reply) {
        Some(word) => Ok(Some(String::from_str(alloc, word)?)),
        None => Ok(None),
    }
}

/// The kind that stands in a reply.
fn kind_in(reply: &[u8]) -> Option<&str> {
    let (_, behind) = str::from_utf8(reply).ok()?.split_once("\"kind\":\"")?;
    let (word, _) = behind.split_once('"')?;
    Some(word)
}
