//! Why no repository comes of bytes.

ghost use Rattle.std.specs.Prelude.{◌≡◌};
ghost use Rattle.rp_restore.specs.declared.fault.RestoreFault.TheVariants.{NoMemory};
ghost use Rattle.rp_restore.specs.Faults.{of_new, of_lack};

use plain_data::Failure;
use rp_plain::messages::NewFault;
use rp_restored_rows::RowLack;
use rp_rows::rows::Key;
use rp_snapshot_rows::Lack;
use std::alloc::{AllocError, AllocFailed};

/// Why no repository comes of bytes.
#[derive(Drop)]
pub enum RestoreFault {
    /// There is none of these schemas and partners, whatever the bytes are.
    New(NewFault),
    NoMemory,
    /// The bytes are the snapshot of no repository of these schemas and partners.
    BadSnapshot(SnapshotLack),
}

/// What bytes lack, so that they are no snapshot of a repository of these schemas and partners. Each byte that is told is
/// counted from the first of all, which is 0.
pub enum SnapshotLack {
    /// The first line of a snapshot.
    FirstLine,
    /// UTF-8 from this byte on.
    Utf8(usize),
    /// What has to stand around the lists of rows, and the byte that was reached.
    Form(Lack, usize),
    Row(RefusedRow),
    /// The snapshot of the rows that they have is another one, from this byte on.
    Differs(usize),
}

/// A row that isn't taken.
#[derive(Drop)]
pub struct RefusedRow {
    pub kind: RowKind,
    /// Its key, which stands near its end: none where it couldn't be read as a row.
    pub key: Option<Key>,
    /// The byte where it begins.
    pub at: usize,
    pub reason: RowReason,
}

/// What stands in a row.
#[derive(Clone, Copy, PartialEq, Eq)]
pub enum RowKind {
    Group,
    Model,
}

/// Why a row isn't taken.
#[derive(Clone, Copy, PartialEq, Eq)]
pub enum RowReason {
    /// It is no row as one is written: what doesn't stand where it has to, and the byte that was reached.
    Form(Lack, usize),
    Lacks(RowLack),
    /// There is one of its key already.
    Twice,
    /// Its owner has as many as an owner may have.
    TooMany,
}

// (written out, so that it is one call wherever a lack may be dropped)
impl Drop for SnapshotLack {
    fn drop(self) {
        match self {
            SnapshotLack::Row(row) => drop(row),
            SnapshotLack::FirstLine
            | SnapshotLack::Utf8(_)
            | SnapshotLack::Form(_, _)
            | SnapshotLack::Differs(_) => {}
        }
    }
}

impl From<AllocError> for RestoreFault {
    ghost from_gives = { λ _ e. e ≡ NoMemory };

    fn from(_error: AllocError) -> RestoreFault {
        RestoreFault::NoMemory
    }
}

impl<T: Drop> From<AllocFailed<T>> for RestoreFault {
    ghost from_gives = { λ _ e. e ≡ NoMemory };

    fn from(_error: AllocFailed<T>) -> RestoreFault {
        RestoreFault::NoMemory
    }
}

impl From<NewFault> for RestoreFault {
    ghost from_gives = { λ fault e. e ≡ of_new fault };

    fn from(fault: NewFault) -> RestoreFault {
        match fault {
            NewFault::NoMemory => RestoreFault::NoMemory,
            NewFault::TwoSchemas | NewFault::TwoPartners | NewFault::BadName | NewFault::TooMany =>
                RestoreFault::New(fault),
        }
    }
}

impl From<Failure<SnapshotLack>> for RestoreFault {
    ghost from_gives = { λ failure e. e ≡ of_lack failure };

    fn from(failure: Failure<SnapshotLack>) -> RestoreFault {
        match failure {
            Failure::NoMemory => RestoreFault::NoMemory,
            Failure::Fault(lack) => RestoreFault::BadSnapshot(lack),
        }
    }
}
