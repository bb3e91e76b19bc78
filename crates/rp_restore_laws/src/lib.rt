//! What holds of restoring a repository from its rows, which are put into it one by one.
//!
//! Each function has a law as its contract. `specs/Restoring.antt` says what putting a row is.
#![tactic(auto)]

ghost use Rattle.rp_restore_laws.specs.Laws.{ModelIsEdits, GroupIsEdits, ModelKeepsValid, GroupKeepsValid, RowsGive, RowsMayBeTaken};

/// A row that is put with all its grants is what an edit of what it holds and one for each of its grants make, where no row of
/// its name stands.
pub fn row_is_its_edits()
    ensures model { ModelIsEdits }
    ensures group { GroupIsEdits }
{}

/// A valid row that is new keeps a repository valid, where its owner has room for it.
pub fn restoring_keeps_validity()
    ensures model { ModelKeepsValid }
    ensures group { GroupKeepsValid }
{}

/// The rows of a repository, groups and then models, put one by one in their order into the one that is opened, give it.
pub fn rows_give_repository()
    ensures { RowsGive }
{}

/// Each row of a valid repository may be put in its turn: it is valid and new, and its owner has room for it.
pub fn rows_may_be_put()
    ensures { RowsMayBeTaken }
{}
