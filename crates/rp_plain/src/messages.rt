//! Requests and their replies.

use crate::lists::{Item, ListedInstance, Member};
use crate::reports::ToldReport;
use ex_check::SchemaFault;
use p21_tree::{FileFault, InstanceFault};
use plain_data::{Rows, Text};
use rp_content::Link;
use rp_population::Place;
use rp_rows::rows::{Key, Level};
use std::alloc::{AllocError, AllocFailed};

/// What a partner asks. A lone name is one of his own.
#[derive(Drop)]
pub enum Request {
    /// An empty model of the caller's.
    CreateModel {
        name: Text,
        /// In either case.
        schema: Text,
    },
    /// Without a model of the caller's.
    DeleteModel {
        name: Text,
    },
    /// The content of a model is replaced by that of a file, and of these links, in any order.
    Put {
        model: Key,
        file: Text,
        links: Rows<Link>,
    },
    /// The canonical text of what a model holds.
    Export {
        model: Key,
        /// With its links.
        links: bool,
    },
    /// The names of a model's instances, with their types.
    Names {
        model: Key,
    },
    /// One instance of a model, as canonical text has it.
    Get {
        model: Key,
        instance: u64,
    },
    /// One instance more of a model, under its greatest name and one.
    Add {
        model: Key,
        /// Its mapping, without name and semicolon.
        text: Text,
    },
    /// Another instance in place of the one of this name.
    Set {
        model: Key,
        instance: u64,
        /// Its mapping, without name and semicolon.
        text: Text,
    },
    /// Without the instance of this name.
    DropInstance {
        model: Key,
        instance: u64,
    },
    /// The groups and the models that the caller sees.
    ListItems,
    /// A partner's level on a model of the caller's.
    GrantModel {
        name: Text,
        to: Text,
        level: Level,
    },
    /// No level of a partner on a model of the caller's.
    RevokeModel {
        name: Text,
        to: Text,
    },
    /// A group of the caller's, without members.
    CreateGroup {
        name: Text,
        /// In either case.
        schema: Text,
    },
    /// Without a group of the caller's.
    DeleteGroup {
        name: Text,
    },
    /// A partner may read a group of the caller's.
    GrantGroup {
        name: Text,
        to: Text,
    },
    /// A partner may not read a group of the caller's.
    RevokeGroup {
        name: Text,
        to: Text,
    },
    /// A group of the caller's lists a model.
    Include {
        group: Text,
        model: Key,
    },
    /// A group of the caller's doesn't list a model.
    Exclude {
        group: Text,
        model: Key,
    },
    /// The models that a group lists, and which of them count.
    Members {
        group: Key,
    },
    /// The instances of an entity in a group's population.
    Extent {
        group: Key,
        /// The entity's name, in either case.
        entity: Text,
    },
    /// The instances of a group's population that use one of them.
    Users {
        group: Key,
        of: Place,
        /// `SCHEMA.ENTITY.ATTRIBUTE`, or nothing for all.
        role: Text,
    },
    /// What the rules of its schema say of a group's population.
    Validate {
        group: Key,
    },
    /// The names of the schemas.
    Schemas,
    /// What there is to tell of an EXPRESS text.
    CheckSchema {
        text: Text,
    },
}

/// What is wrong with a link.
#[derive(Clone, Copy, PartialEq, Eq)]
pub enum LinkFaultKind {
    /// Its name is that of an instance of the file, or of another link.
    Defined,
    /// It leads into the model that it is for.
    Own,
    /// It leads into no model that the caller sees.
    NotSeen,
    /// The model that it leads into is of another schema.
    OtherSchema,
    /// The model that it leads into lacks the instance.
    NoInstance,
}

/// The first link in the order of names that can't stand, and why.
#[derive(Clone, Copy, PartialEq, Eq)]
pub struct LinkFault {
    pub link: u64,
    pub kind: LinkFaultKind,
}

/// Why a request is refused.
#[derive(Clone, Copy, PartialEq, Eq)]
pub enum Refusal {
    BadRequest,
    TooLarge,
    BadName,
    UnknownPartner,
    UnknownSchema,
    Exists,
    NoSuchItem,
    NoRight,
    WrongSchema,
    /// The group lists the model already, or doesn't list the one that it shall not list.
    Membership,
    FileFault(FileFault),
    InstanceFault(InstanceFault),
    LinkFault(LinkFault),
    NoSuchInstance,
    /// Another instance of the model refers to the instance.
    InUse,
    TooMany,
    /// The model has links, and they weren't asked for.
    HasLinks,
    NoMemory,
}

impl From<AllocError> for Refusal {
    ghost use Rattle.std.specs.Prelude.{◌≡◌};
    ghost use Rattle.rp_plain.specs.declared.messages.Refusal.TheVariants.{NoMemory};

    ghost from_gives = { λ _ e. e ≡ NoMemory };

    fn from(_error: AllocError) -> Refusal {
        Refusal::NoMemory
    }
}

impl<T: Drop> From<AllocFailed<T>> for Refusal {
    ghost use Rattle.std.specs.Prelude.{◌≡◌};
    ghost use Rattle.rp_plain.specs.declared.messages.Refusal.TheVariants.{NoMemory};

    ghost from_gives = { λ _ e. e ≡ NoMemory };

    fn from(_error: AllocFailed<T>) -> Refusal {
        Refusal::NoMemory
    }
}

/// What a partner is answered.
pub enum Reply {
    /// The request is done, and there is nothing to tell.
    Done,
    /// So many instances were put.
    Stored(usize),
    /// An exchange file.
    File(Text),
    /// An exchange file, and the links beside it, in the order of their names.
    Linked {
        file: Text,
        links: Rows<Link>,
    },
    Names(Rows<ListedInstance>),
    /// The line of an instance, without its line feed.
    Line(Text),
    /// An instance was added under this name.
    Added(u64),
    /// The groups and the models that the caller sees.
    Listed {
        groups: Rows<Item>,
        models: Rows<Item>,
    },
    /// The models that a group lists, in the order of owner and name.
    Members(Rows<Member>),
    /// The instances of an entity, in the order of their places.
    Extent(Rows<Place>),
    /// The users of an instance, in the order of their places, each as often as it uses it.
    Users(Rows<Place>),
    /// The checks of a population.
    Validated(ToldReport),
    /// The names of the schemas, in byte order.
    Schemas(Rows<Text>),
    /// The text is this schema, with warnings at these bytes.
    Checked {
        schema: Text,
        warnings: Rows<usize>,
    },
    /// The text is no schema: this is its first fault.
    Faulty(SchemaFault),
    Refused(Refusal),
}

// (By hand, so that a reply is opened here alone and not wherever one is dropped.)
impl Drop for Reply {
    fn drop(self) {
        match self {
            Reply::Done
            | Reply::Stored(_)
            | Reply::Added(_)
            | Reply::Faulty(_)
            | Reply::Refused(_) => {}
            Reply::File(text) => drop(text),
            Reply::Line(text) => drop(text),
            Reply::Linked { file, links } => {
                drop(file);
                drop(links);
            }
            Reply::Names(names) => drop(names),
            Reply::Listed { groups, models } => {
                drop(groups);
                drop(models);
            }
            Reply::Members(members) => drop(members),
            Reply::Extent(places) => drop(places),
            Reply::Users(places) => drop(places),
            Reply::Validated(report) => drop(report),
            Reply::Schemas(names) => drop(names),
            Reply::Checked { schema, warnings } => {
                drop(schema);
                drop(warnings);
            }
        }
    }
}

/// Why there is no repository of these schemas and partners.
#[derive(Clone, Copy, PartialEq, Eq)]
pub enum NewFault {
    /// Two schemas have one name.
    TwoSchemas,
    TwoPartners,
    BadName,
    /// More than 100 schemas, or more than 1,000 partners.
    TooMany,
    NoMemory,
}

impl From<AllocError> for NewFault {
    ghost use Rattle.std.specs.Prelude.{◌≡◌};
    ghost use Rattle.rp_plain.specs.declared.messages.NewFault.TheVariants.{NoMemory};

    ghost from_gives = { λ _ e. e ≡ NoMemory };

    fn from(_error: AllocError) -> NewFault {
        NewFault::NoMemory
    }
}

impl<T: Drop> From<AllocFailed<T>> for NewFault {
    ghost use Rattle.std.specs.Prelude.{◌≡◌};
    ghost use Rattle.rp_plain.specs.declared.messages.NewFault.TheVariants.{NoMemory};

    ghost from_gives = { λ _ e. e ≡ NoMemory };

    fn from(_error: AllocFailed<T>) -> NewFault {
        NewFault::NoMemory
    }
}
