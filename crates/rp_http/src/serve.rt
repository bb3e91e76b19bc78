//! One connection over a reader and a writer that wait.
ghost use Rattle.std.specs.Prelude.{◌≡◌, ◌≢◌, ◌≤◌, ◌⊎◌, ℕ, List, [], Option, true, length, OnOk, OnErr, IsErrOf};
ghost use Rattle.rp_plain.specs.Plain.{Plain};
ghost use Rattle.rp_http.specs.Bytes.{owed_in};
ghost use Rattle.rp_http.specs.Runs.{RunsOut, IsWholeRun, IsReadRun, IsCutRun};
ghost use Rattle.rp_http.specs.Serving.{IsServed};
ghost use Rattle.rp_http.specs.declared.connection.Phase.TheVariants.{Sends, Wants};

use crate::connection::Connection;
use crate::workspace::Workspace;
use http_routes::Tokens;
use rp_io::{DeviceFault, Sink, Source};
use rp_repo::Repository;
use std::alloc::Global;

/// Why a connection ended before its end.
#[derive(Clone, Copy, PartialEq, Eq)]
pub enum ServeFault {
    /// A read failed, or 1,000,000 reads were made and one more is wanted.
    ReadFault,
    WriteFault,
    /// Nothing was read.
    NoMemory,
}

/// Sends all that is still to be sent.
fn send_all<W: Sink>(connection: &mut Connection, writer: &mut W) -> Result<(), DeviceFault>
    ensures served { (tokens : List (List ℕ)) (start now : Plain) (input known before : Option (List ℕ)) →
        IsServed tokens start now input known before (W.contents writer.old) connection.old →
        IsServed tokens start now input known before (W.contents writer.new) connection.new }
    ensures cut { OnErr result ((tokens : List (List ℕ)) (start now : Plain) (input known before : Option (List ℕ)) →
        IsServed tokens start now input known before (W.contents writer.old) connection.old →
        IsCutRun tokens start now input before (W.contents writer.new)) }
    ensures out { OnOk result (owed_in connection.new.outbox ≡ []) }
    ensures phase { OnOk result (connection.new.phase ≢ Sends true) }
    ensures stays { connection.old.phase ≢ Sends true → connection.new.phase ≡ connection.old.phase }
    ensures wants { connection.new.phase ≡ Wants → connection.old.phase ≡ Wants }
    ensures inbox { connection.new.inbox ≡ connection.old.inbox }
    ensures reads { connection.new.reads ≡ connection.old.reads }
    ensures same { OnOk result (W.write_failures writer.new ≡ W.write_failures writer.old) }
    ensures err { OnErr result (W.write_failures writer.new ≢ W.write_failures writer.old) }
{
    while connection.owes() {
        connection.send(writer)?;
    }
    connection.settle();
    Ok(())
}

/// Answers each message of the reader, in whatever pieces they come, and writes each answer before the next message is
/// handled. `Ok` says that the connection was closed as HTTP has it, or that the input has ended.
pub fn serve_connection<R: Source, W: Sink>(
    alloc: Global,
    repository: &mut Repository<'_>,
    tokens: &Tokens,
    reader: &mut R,
    writer: &mut W,
) -> Result<(), ServeFault>
    requires { length tokens.now ≤ length repository.old.content.partners }
    ensures whole { OnOk result (IsWholeRun tokens.now repository.old.content repository.new.content (R.remaining reader.old) (W.contents writer.old) (W.contents writer.new)) }
    ensures first { IsErrOf result ServeFault.ReadFault →
        IsReadRun tokens.now repository.old.content repository.new.content (R.remaining reader.old) (R.remaining reader.new) (W.contents writer.old) (W.contents writer.new) }
    ensures read_failed { IsErrOf result ServeFault.ReadFault →
        (R.read_failures reader.new ≢ R.read_failures reader.old) ⊎ RunsOut (R.reads_made reader.old) (R.reads_made reader.new) (R.remaining reader.old) }
    ensures cut { IsErrOf result ServeFault.WriteFault →
        IsCutRun tokens.now repository.old.content repository.new.content (R.remaining reader.old) (W.contents writer.old) (W.contents writer.new) }
    ensures write_failed { IsErrOf result ServeFault.WriteFault → W.write_failures writer.new ≢ W.write_failures writer.old }
    ensures memory { IsErrOf result ServeFault.NoMemory → (repository.new ≡ repository.old) × (reader.new ≡ reader.old) × (writer.new ≡ writer.old) }
{
    let Ok(mut workspace) = Workspace::new(alloc) else {
        return Err(ServeFault::NoMemory);
    };
    let Ok(mut connection) = Connection::new(alloc) else {
        return Err(ServeFault::NoMemory);
    };
    'turns: loop {
        connection.turn(alloc, repository, tokens, &mut workspace);
        let Ok(()) = send_all(&mut connection, writer) else {
            return Err(ServeFault::WriteFault);
        };
        if connection.is_last() {
            return Ok(());
        }
        if connection.wants() {
            match connection.read(&mut workspace, reader) {
                Ok(count) => {
                    if count == 0 {
                        return Ok(());
                    }
                }
                Err(DeviceFault) => return Err(ServeFault::ReadFault),
            }
        }
    }
}
