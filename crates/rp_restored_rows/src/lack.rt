//! What rows lack.

use p21_tree::{FileFault, InstanceFault};

/// What a row of a snapshot lacks, so that no repository of these schemas and partners has it.
#[derive(Clone, Copy, PartialEq, Eq)]
pub enum RowLack {
    /// Its owner is no partner.
    UnknownOwner,
    BadName,
    /// No schema of its name is loaded.
    UnknownSchema,
    /// Its grants don't stand in the order of partners, each partner's once.
    GrantsOutOfOrder,
    /// It is granted to one that is no partner.
    UnknownGrantee,
    GrantToOwner,
    /// A group is granted at another level than to read.
    GroupLevel,
    TooManyMembers,
    /// Its members don't stand in the order of owner and name, each once.
    MembersOutOfOrder,
    UnknownMemberOwner,
    BadMemberName,
    /// Its greatest name has more than 18 digits.
    GreatestTooLong,
    TooManyLinks,
    /// Its links don't stand in the order of their names, each name once.
    LinksOutOfOrder,
    /// A link leads to a model of one that is no partner.
    UnknownLinkOwner,
    BadLinkModel,
    LinkToItself,
    /// A link leads to an instance whose name has more than 18 digits.
    LinkTargetTooLong,
    /// A link's name is above the greatest.
    LinkAboveGreatest,
    /// A link has the name of an instance.
    LinkDefined,
    TooManyInstances,
    /// An instance's name is above the greatest.
    InstanceAboveGreatest,
    /// What is wrong with the spelling of its file, and at which byte of the file.
    File(FileFault),
    /// The first faulty instance of its file, by the schema.
    Instance(InstanceFault),
}
