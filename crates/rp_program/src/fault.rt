//! Why a command ends before its work is done.
use ex_check::CheckFault;
use http_routes::TokenFault;
use plain_data::{Failure, Text};
use rp_files::LoadFault;
use rp_repo::{NewFault, SnapshotLack};
use rp_saved_file::ReplaceFault;
use rp_sockets::ServeFault;
use std::alloc::AllocError;
use std::net::SocketAddr;
use std::{fmt, io};

/// Why there is nothing to work on.
pub enum StartFault {
    /// A file gives nothing.
    Load(LoadFault),
    /// There is no repository of these schemas and partners.
    New(NewFault),
    /// The file of this path is the snapshot of no repository of these schemas and partners.
    Snapshot(Text, SnapshotLack),
    /// The partners' tokens are wrong.
    Tokens(TokenFault),
}

/// Why a command ends before its work is done.
pub enum Fault {
    /// There is nothing to work on, or memory is wanting. Nothing was read of the input, nor written.
    Start(Failure<StartFault>),
    /// A read of the input failed, or it took too many.
    Read,
    /// A write to the output failed.
    Write,
    /// The file of this path isn't taken; why, in words.
    Refused(Text, Text),
    /// The page that is wanted in the file of this path can't be written. All else was.
    Page(Text, io::Error),
    /// The address can't be listened on.
    Listen(SocketAddr, io::Error),
    /// Serving ended before its end.
    Serve(ServeFault),
    /// The snapshot isn't saved: nothing was done yet, or all was and its end is lost.
    Unsaved(Unsaved),
}

/// Why a snapshot isn't saved.
#[derive(Clone, Copy, Drop)]
pub enum Unsaved {
    /// There is no memory for the text of a row.
    NoMemory,
    /// Its file can't be replaced.
    File(ReplaceFault),
}

// (written out, so that each is one call wherever a fault may be dropped)
impl Drop for StartFault {
    fn drop(self) {
        match self {
            StartFault::Load(fault) => drop(fault),
            StartFault::Snapshot(path, lack) => {
                drop(path);
                drop(lack);
            }
            StartFault::New(_) | StartFault::Tokens(_) => {}
        }
    }
}

impl Drop for Fault {
    fn drop(self) {
        match self {
            Fault::Start(failure) => drop(failure),
            Fault::Refused(path, words) => {
                drop(path);
                drop(words);
            }
            Fault::Page(path, _) => drop(path),
            Fault::Read
            | Fault::Write
            | Fault::Listen(_, _)
            | Fault::Serve(_)
            | Fault::Unsaved(_) => {}
        }
    }
}

impl fmt::Display for Unsaved {
    fn fmt<W: fmt::Write>(&self, f: &mut fmt::Formatter<W>) -> fmt::Result {
        match self {
            Unsaved::NoMemory => f.write_str("out of memory"),
            Unsaved::File(fault) => fault.fmt(f),
        }
    }
}

impl From<Failure<LoadFault>> for Fault {
    ghost use Rattle.std.specs.Prelude.{◌≡◌};
    ghost use Rattle.rp_program.specs.declared.fault.Fault.TheVariants.{Start};
    ghost use Rattle.rp_program.specs.Starts.{load_failure};

    ghost from_gives = { λ failure e. e ≡ Start (load_failure failure) };

    fn from(failure: Failure<LoadFault>) -> Fault {
        Fault::Start(failure.map(StartFault::Load))
    }
}

impl From<NewFault> for Fault {
    ghost use Rattle.std.specs.Prelude.{◌≡◌};
    ghost use Rattle.rp_program.specs.declared.fault.Fault.TheVariants.{Start};
    ghost use Rattle.rp_program.specs.Starts.{new_failure};

    ghost from_gives = { λ fault e. e ≡ Start (new_failure fault) };

    fn from(fault: NewFault) -> Fault {
        match fault {
            NewFault::NoMemory => Fault::Start(Failure::NoMemory),
            _ => Fault::Start(Failure::Fault(StartFault::New(fault))),
        }
    }
}

impl From<TokenFault> for Fault {
    ghost use Rattle.std.specs.Prelude.{◌≡◌};
    ghost use Rattle.rp_program.specs.declared.fault.Fault.TheVariants.{Start};
    ghost use Rattle.rp_program.specs.Starts.{bad_tokens};

    ghost from_gives = { λ fault e. e ≡ Start (bad_tokens fault) };

    fn from(fault: TokenFault) -> Fault {
        Fault::Start(Failure::Fault(StartFault::Tokens(fault)))
    }
}

impl From<AllocError> for Fault {
    ghost use Rattle.std.specs.Prelude.{◌≡◌};
    ghost use Rattle.plain_data.specs.declared.failure.Failure.TheVariants.{NoMemory};
    ghost use Rattle.rp_program.specs.declared.fault.Fault.TheVariants.{Start};

    ghost from_gives = { λ error e. e ≡ Start NoMemory };

    fn from(_error: AllocError) -> Fault {
        Fault::Start(Failure::NoMemory)
    }
}

impl From<CheckFault> for Fault {
    ghost use Rattle.std.specs.Prelude.{◌≡◌};
    ghost use Rattle.rp_program.specs.Starts.{check_fault};

    ghost from_gives = { λ fault e. e ≡ check_fault fault };

    fn from(fault: CheckFault) -> Fault {
        match fault {
            CheckFault::NoMemory => Fault::Start(Failure::NoMemory),
            CheckFault::WriteFault => Fault::Write,
        }
    }
}
