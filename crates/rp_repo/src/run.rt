//! All lines of a reader.
ghost use Rattle.std.specs.Prelude.{◌≡◌, ◌≢◌, ◌⊎◌, ℕ, List, IfOk, IsErrOf, OnOk, OnErr, is_ok};
ghost use Rattle.rp_io.specs.Lines.{Holds};
ghost use Rattle.rp_io.specs.Held.{unread, RunsOut};
ghost use Rattle.rp_plain.specs.Valid.{IsValid};
ghost use Rattle.rp_repo.specs.LineRuns.{max_reads, Serves, IsWholeRun, IsFirstRun, IsCutRun};

use crate::answer::answer;
use crate::repository::Repository;
use rp_io::{Chunk, DeviceFault, Room, Sink, Source, Taken, next_line, write_all};
use rp_replies::no_memory_line;
use std::alloc::{AllocError, Global};

/// Why a run ended before its input.
#[derive(Clone, Copy, PartialEq, Eq)]
pub enum RunFault {
    ReadFault,
    WriteFault,
}

/// The most reads of a run.
const READS: u32 = 4_294_967_295;

/// Answers one line, and writes the reply. The line's memory is given back.
fn serve<W: Sink>(
    alloc: Global,
    repository: &mut Repository<'_>,
    writer: &mut W,
    room: Room,
    kept: Vec<u8>,
) -> Result<(), DeviceFault>
    ensures served { (line : List ℕ) → Holds room kept.items line →
        Serves repository.old.content repository.new.content (W.contents writer.old) (W.contents writer.new) line (is_ok result) }
    ensures ok { OnOk result (W.write_failures writer.new ≡ W.write_failures writer.old) }
    ensures err { OnErr result (W.write_failures writer.new ≢ W.write_failures writer.old) }
{
    match answer(alloc, repository, room, kept) {
        Ok(bytes) => write_all(writer, &bytes),
        Err(AllocError) => write_all(writer, no_memory_line()),
    }
}

/// Answers each line of the reader, and writes each reply before the next line is handled.
/// Answers the number of lines.
///
/// A line is a request in JSON, and its reply is a line of JSON. A last line without its line feed
/// counts. Of a line over 16 MiB the rest is skipped. A line that names no partner in `as` is a bad
/// request.
pub fn run_lines<R: Source, W: Sink>(
    alloc: Global,
    repository: &mut Repository<'_>,
    reader: &mut R,
    writer: &mut W,
) -> Result<u64, RunFault>
    // All that was written are the replies of a run over all lines.
    ensures whole { IfOk result (λ n. IsWholeRun repository.old.content repository.new.content (R.remaining reader.old) (W.contents writer.old) (W.contents writer.new) n) }

    // After a read that failed, the replies to the lines before it are written whole.
    ensures first { IsErrOf result RunFault.ReadFault →
        IsFirstRun repository.old.content repository.new.content (R.remaining reader.old) (W.contents writer.old) (W.contents writer.new) }
    ensures read_failed { IsErrOf result RunFault.ReadFault →
        (R.read_failures reader.new ≢ R.read_failures reader.old)
        ⊎ RunsOut (unread max_reads) (R.reads_made reader.old) (R.reads_made reader.new) (R.remaining reader.old) }

    // After a write that failed, they are but for the last.
    ensures cut { IsErrOf result RunFault.WriteFault →
        IsCutRun repository.old.content repository.new.content (R.remaining reader.old) (W.contents writer.old) (W.contents writer.new) }
    ensures write_failed { IsErrOf result RunFault.WriteFault → W.write_failures writer.new ≢ W.write_failures writer.old }

    // However it ended.
    ensures valid { IsValid repository.new.content }
{
    let mut chunk = Chunk::new(READS);
    let mut count = 0u64;
    'lines: loop {
        repository.is_valid();
        let mut line = Vec::new(alloc);
        let Ok(taken) = next_line(&mut chunk, reader, &mut line) else {
            return Err(RunFault::ReadFault);
        };
        let Taken::Line(room) = taken else {
            return Ok(count);
        };
        if serve(alloc, repository, writer, room, line).is_err() {
            repository.is_valid();
            return Err(RunFault::WriteFault);
        }
        count += 1;
    }
}
