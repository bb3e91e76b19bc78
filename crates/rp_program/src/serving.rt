//! The connections of an address, answered by the repository that a command starts with, and what it comes to saved.
ghost use Rattle.std.specs.Prelude.{◌≡◌, ◌≤◌, ⊤, length, Err, IsSome, OnErr, option_copied};
ghost use Rattle.std.specs.declared.net.socket_addr.SocketAddr.{SocketAddr};
ghost use Rattle.plain_data.specs.declared.failure.Failure.TheVariants.{NoMemory};
ghost use Rattle.rp_http.specs.Turns.{Leaves};
ghost use Rattle.rp_program.specs.Starts.{Starts, FailsAt, FailsBy};
ghost use Rattle.rp_program.specs.Served.{ServesFrom, Serves, IsServed};

use crate::ending::Done;
use crate::fault::{Fault, Unsaved};
use crate::keeping::SnapshotKeeper;
use crate::opening::{Given, begin_with, open};
use crate::saving::{Snapshots, begin, save_at};
use http_routes::Tokens;
use plain_data::Failure;
use rp_config::Loaded;
use rp_files::Folder;
use rp_repo::Repository;
use rp_saved_file::FilePlaces;
use rp_sockets::{Ends, Listening, ServeFault};
use std::alloc::Global;
use std::fs::Files;
use std::io::{Eprint, Input};
use std::mem;
use std::net::{Net, SocketAddr};
use std::time::Clock;

/// Serves the connections of an address, by the repository of the partners and schemas that the configuration in the file of this
/// path names, and then saves it; where it serves any number of connections, also in the meantime. It begins empty, or as a
/// snapshot says. Once it listens it says so on standard error. The process is to end then: what the repository holds isn't let
/// go of.
pub fn serve<D: Folder, R: Net + Clock + Input + Eprint + Files>(
    alloc: Global,
    folder: &D,
    path: &str,
    snapshots: Snapshots<'_>,
    rt: &R,
    address: SocketAddr,
    ends: Ends,
) -> Result<Done, Fault>
    // However it ends, a run of messages of its partners is all that happened to the repository. Where there is none, the fault
    // is the first that there is.
    ensures { IsServed (FailsAt (D.files folder.now) path.now (option_copied snapshots.entry.load))
        (ServesFrom (D.files folder.now) path.now (option_copied snapshots.entry.load)) (option_copied snapshots.entry.save) address result }
{
    let (loaded, given) = begin_with(alloc, folder, path, snapshots.load)?;
    serve_loaded(alloc, loaded, given, snapshots.save, rt, address, ends)
}

/// The same, with what was loaded and the snapshot that is given.
fn serve_loaded<R: Net + Clock + Input + Eprint + Files>(
    alloc: Global,
    loaded: Loaded,
    given: Option<Given<'_>>,
    save: Option<&str>,
    rt: &R,
    address: SocketAddr,
    ends: Ends,
) -> Result<Done, Fault>
    requires { length loaded.tokens ≤ length loaded.partners }
    ensures { IsServed (λ why. FailsBy why (λ fault. Starts loaded given.entry (Err fault))) (Serves loaded given.entry) (option_copied save.entry) address result }
{
    let Loaded {
        partners,
        tokens,
        schemas,
    } = loaded;
    let (mut repository, tokens) = open(alloc, schemas.as_slice(), partners, tokens, given)?;
    let ended = serve_at(alloc, &mut repository, &tokens, save, rt, address, ends);
    repository.is_valid();
    // The process ends, and all of its memory goes with it. To give that back value by value would take long.
    mem::forget(repository);
    mem::forget(schemas);
    ended
}

/// Listens at an address, serves its connections, and saves what they lead to in the file of this path, if there is one.
fn serve_at<R: Net + Clock + Input + Eprint + Files>(
    alloc: Global,
    repository: &mut Repository<'_>,
    tokens: &Tokens,
    save: Option<&str>,
    rt: &R,
    address: SocketAddr,
    ends: Ends,
) -> Result<Done, Fault>
    requires few { length tokens.now ≤ length repository.old.content.partners }
    ensures run { Leaves tokens.now repository.old.content repository.new.content }
    ensures ended { IsServed (λ why. why ≡ NoMemory) ⊤ (option_copied save.entry) address result }
{
    let listening = match Listening::bind(rt, address) {
        Ok(listening) => listening,
        Err(error) => return Err(Fault::Listen(address, error)),
    };
    match try_place(alloc, rt, save) {
        Ok(()) => {}
        Err(Unsaved::NoMemory) => return Err(Fault::Start(Failure::NoMemory)),
        Err(unsaved) => return Err(Fault::Unsaved(unsaved)),
    }
    tell(rt, listening.address());
    let mut keeper = SnapshotKeeper::new(rt, meanwhile(save, ends), repository);
    let ended = listening.serve(rt, alloc, repository, tokens, ends, &mut keeper);
    at_end(alloc, repository, save, rt, ended)
}

/// The file that is saved in while connections are served: that of the path, where any number of them may come.
fn meanwhile(save: Option<&str>, ends: Ends) -> Option<&str> {
    match ends.connections {
        Some(_) => None,
        None => save,
    }
}

/// Begins to replace the file of this path and lets go of it, so that a wrong place is told before any work is done.
fn try_place<R: Files>(alloc: Global, rt: &R, save: Option<&str>) -> Result<(), Unsaved>
    ensures { OnErr result (IsSome (option_copied save.entry)) }
{
    if let Some(path) = save {
        begin(alloc, &mut FilePlaces::new(rt), path)?.give_up();
    }
    Ok(())
}

/// Saves in the file of this path, if there is one, where serving came to its end.
fn at_end<R: Files>(
    alloc: Global,
    repository: &Repository<'_>,
    save: Option<&str>,
    rt: &R,
    ended: Result<(), Failure<ServeFault>>,
) -> Result<Done, Fault>
    ensures { (address : SocketAddr) → IsServed (λ why. why ≡ NoMemory) ⊤ (option_copied save.entry) address result }
{
    match ended {
        Ok(()) => {}
        Err(Failure::NoMemory) => return Err(Fault::Start(Failure::NoMemory)),
        Err(Failure::Fault(fault)) => return Err(Fault::Serve(fault)),
    }
    let Some(path) = save else {
        return Ok(Done::Served);
    };
    match save_at(alloc, rt, path, repository) {
        Ok(()) => Ok(Done::Served),
        Err(unsaved) => Err(Fault::Unsaved(unsaved)),
    }
}

/// Says at which address connections may come.
fn tell<R: Eprint>(rt: &R, address: SocketAddr) {
    let _ = eprintln!(rt; "rp_server: listening on {address}");
}
