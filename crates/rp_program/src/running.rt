//! All lines of an input, answered by the repository that a command starts with, and what it comes to saved.
ghost use Rattle.std.specs.Prelude.{◌≡◌, None, Some, Ok, option_copied};
ghost use Rattle.plain_data.specs.declared.failure.Failure.TheVariants.{NoMemory};
ghost use Rattle.rp_program.specs.Starts.{IsStart, Starts, FailsAt, FailsBy};
ghost use Rattle.rp_program.specs.Runs.{RunsFrom, IsBatched, IsRun, seen};
ghost use Rattle.rp_program.specs.Saved.{part_view, seen_file};

use crate::ending::Done;
use crate::fault::{Fault, Unsaved};
use crate::opening::{Given, begin_with, open};
use crate::saving::{NotSaved, Snapshots, begin, save_in};
use plain_data::Failure;
use rp_config::Loaded;
use rp_files::Folder;
use rp_repo::{Repository, RunFault, Sink, Source, run_lines};
use rp_saved_file::{Left, Places};
use std::alloc::Global;
use std::mem;

/// How a batch ended, and what is left of the file that it began to replace, if it began one.
#[derive(Drop)]
pub struct Batched<P> {
    pub ended: Result<Done, Fault>,
    pub left: Option<Left<P>>,
}

impl<P> Batched<P> {
    /// It ended so, and began to replace no file.
    fn without_file(ended: Result<Done, Fault>) -> Batched<P>
        ensures ended { result.ended ≡ ended }
        ensures none { result.left ≡ None }
    {
        Batched { ended, left: None }
    }

    /// It ended so, and this is left of the file.
    fn with_file(ended: Result<Done, Fault>, left: Left<P>) -> Batched<P>
        ensures ended { result.ended ≡ ended }
        ensures left { result.left ≡ Some left }
    {
        Batched {
            ended,
            left: Some(left),
        }
    }
}

/// Answers all lines of the reader, by the repository of the partners and schemas that the configuration in the file of
/// this path names, and then saves it. It begins empty, or as a snapshot says. The process is to end then: what the repository
/// holds isn't let go of.
pub fn batch<D: Folder, F: Places, R: Source, W: Sink>(
    alloc: Global,
    folder: &D,
    path: &str,
    snapshots: Snapshots<'_>,
    files: &mut F,
    reader: &mut R,
    writer: &mut W,
) -> Batched<F::Part>
    // It answers all lines by the repository that it starts with, and saves what they lead to. Where there is none, the fault is the
    // first that there is. After another fault nothing is saved, and a save fails only where a call on the files did, or memory is
    // wanting.
    ensures { IsBatched (FailsAt (D.files folder.now) path.now (option_copied snapshots.entry.load))
        (RunsFrom (IsStart (D.files folder.now) path.now (option_copied snapshots.entry.load)))
        (seen R.remaining R.read_failures R.reads_made W.contents W.write_failures reader.old reader.new writer.old writer.new)
        (seen_file (part_view F.Part.path F.Part.contents F.Part.failures F.Part.may_leave F.Part.left_since F.Part.could_leave)
        (F.begun files.old) (F.begun files.new) (F.failures files.old) (F.failures files.new) (option_copied snapshots.entry.save) result.left) result.ended }
{
    match begin_with(alloc, folder, path, snapshots.load) {
        Ok((loaded, given)) => {
            run_loaded(alloc, loaded, given, files, snapshots.save, reader, writer)
        }
        Err(fault) => Batched::without_file(Err(fault)),
    }
}

/// The same, with what was loaded and the snapshot that is given.
fn run_loaded<F: Places, R: Source, W: Sink>(
    alloc: Global,
    loaded: Loaded,
    given: Option<Given<'_>>,
    files: &mut F,
    save: Option<&str>,
    reader: &mut R,
    writer: &mut W,
) -> Batched<F::Part>
    ensures { IsBatched (λ why. FailsBy why (λ fault. Starts loaded given.entry (Err fault))) (RunsFrom (λ r. Starts loaded given.entry (Ok r)))
        (seen R.remaining R.read_failures R.reads_made W.contents W.write_failures reader.old reader.new writer.old writer.new)
        (seen_file (part_view F.Part.path F.Part.contents F.Part.failures F.Part.may_leave F.Part.left_since F.Part.could_leave)
        (F.begun files.old) (F.begun files.new) (F.failures files.old) (F.failures files.new) (option_copied save.entry) result.left) result.ended }
{
    let Loaded {
        partners,
        tokens,
        schemas,
    } = loaded;
    let (mut repository, _tokens) = match open(alloc, schemas.as_slice(), partners, tokens, given) {
        Ok(opened) => opened,
        Err(fault) => return Batched::without_file(Err(fault)),
    };
    let batched = run_and_save(alloc, &mut repository, files, save, reader, writer);
    repository.is_valid();
    // The process ends, and all of its memory goes with it. To give that back value by value would take long.
    mem::forget(repository);
    mem::forget(schemas);
    batched
}

/// Answers all lines, and saves what they lead to in the file of this path, if there is one. It begins to replace that before.
fn run_and_save<F: Places, R: Source, W: Sink>(
    alloc: Global,
    repository: &mut Repository<'_>,
    files: &mut F,
    save: Option<&str>,
    reader: &mut R,
    writer: &mut W,
) -> Batched<F::Part>
    ensures { IsBatched (λ why. why ≡ NoMemory) (λ Told. Told repository.old.content repository.new.content)
        (seen R.remaining R.read_failures R.reads_made W.contents W.write_failures reader.old reader.new writer.old writer.new)
        (seen_file (part_view F.Part.path F.Part.contents F.Part.failures F.Part.may_leave F.Part.left_since F.Part.could_leave)
        (F.begun files.old) (F.begun files.new) (F.failures files.old) (F.failures files.new) (option_copied save.entry) result.left) result.ended }
{
    let Some(path) = save else {
        return Batched::without_file(run(alloc, repository, reader, writer));
    };
    let replacement = match begin(alloc, files, path) {
        Ok(begun) => begun,
        Err(Unsaved::NoMemory) => {
            return Batched::without_file(Err(Fault::Start(Failure::NoMemory)));
        }
        Err(unsaved) => return Batched::without_file(Err(Fault::Unsaved(unsaved))),
    };
    match run(alloc, repository, reader, writer) {
        Ok(done) => match save_in(alloc, repository, replacement) {
            Ok(left) => Batched::with_file(Ok(done), left),
            Err(NotSaved { why, left }) => Batched::with_file(Err(Fault::Unsaved(why)), left),
        },
        Err(fault) => Batched::with_file(Err(fault), replacement.give_up()),
    }
}

/// Answers all lines.
fn run<R: Source, W: Sink>(
    alloc: Global,
    repository: &mut Repository<'_>,
    reader: &mut R,
    writer: &mut W,
) -> Result<Done, Fault>
    ensures { IsRun repository.old.content repository.new.content
        (seen R.remaining R.read_failures R.reads_made W.contents W.write_failures reader.old reader.new writer.old writer.new) result }
{
    match run_lines(alloc, repository, reader, writer) {
        Ok(lines) => Ok(Done::Answered(lines)),
        Err(RunFault::ReadFault) => Err(Fault::Read),
        Err(RunFault::WriteFault) => Err(Fault::Write),
    }
}
