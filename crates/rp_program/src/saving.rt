//! The snapshot of a repository takes the place of a file.
ghost use Rattle.std.specs.Prelude.{◌≡◌, ◌≢◌, IfOk, IfErr, MatchResult, OnOk, OnErr, IsErrOf};
ghost use Rattle.std.specs.Io.KnownBytes.{Appends};
ghost use Rattle.rp_saved_file.specs.declared.fault.ReplaceFault.{ReplaceFault};
ghost use Rattle.rp_saved_file.specs.Counts.{BeginsOne};
ghost use Rattle.rp_saved_file.specs.Crashes.{file_of, LeavesOnly, LeavesNoMore, LeavesOldOr};
ghost use Rattle.rp_saved_file.specs.Failures.{failures_of, IsNew};
ghost use Rattle.rp_snapshots.specs.Snapshots.{snapshot_of};
ghost use Rattle.rp_program.specs.Saved.{part_view, IsSaved, IsUnsaved};

use crate::aimed::{Aim, Aimed};
use crate::fault::Unsaved;
use plain_data::Failure;
use rp_repo::{Repository, SaveFault};
use rp_saved_file::{FilePlaces, Left, NotReplaced, Part, Places, Replacement};
use std::alloc::Global;
use std::fs::Files;
use std::marker::Brand;

/// The files of snapshots, by their paths.
#[derive(Clone, Copy, Drop)]
pub struct Snapshots<'a> {
    /// The repository begins as this one says.
    pub load: Option<&'a str>,
    /// This one is replaced by what the repository comes to.
    pub save: Option<&'a str>,
}

/// Begins to replace the file of this path by a snapshot.
pub(crate) fn begin<F: Places>(
    alloc: Global,
    files: &mut F,
    path: &str,
) -> Result<Replacement<F::Part>, Unsaved>
    ensures new { IfOk result (λ begun. IsNew (F.Part.contents begun.part) begun.failed (F.Part.failures begun.part)) }
    ensures path { IfOk result (λ begun. F.Part.path begun.part ≡ path.now) }
    ensures one { OnOk result (BeginsOne (F.begun files.old) (F.begun files.new)) }
    ensures none { OnErr result (F.begun files.new ≡ F.begun files.old) }
    ensures err { (fault : ReplaceFault) → IsErrOf result (Unsaved.File fault) → F.failures files.new ≢ F.failures files.old }
{
    match files.begin(alloc, path) {
        Ok(begun) => Ok(begun),
        Err(Failure::NoMemory) => Err(Unsaved::NoMemory),
        Err(Failure::Fault(fault)) => Err(Unsaved::File(fault)),
    }
}

/// A snapshot that isn't saved: why, and what is left of the file beside that of its path.
#[derive(Drop)]
pub(crate) struct NotSaved<P> {
    pub why: Unsaved,
    pub left: Left<P>,
}

/// Writes the snapshot of a repository into a replacement, and gives that back.
fn written<P: Part + Drop, A: Aim>(
    alloc: Global,
    repository: &Repository<'_>,
    replacement: Replacement<P>,
) -> (Result<(), SaveFault>, Replacement<P>)
    requires { P.path replacement.part ≡ A.path }
    ensures path { P.path result.1.part ≡ A.path }
    ensures whole { OnOk result.0 (Appends (P.contents replacement.part) (P.contents result.1.part) (snapshot_of repository.now.content)) }
    ensures failed { IsErrOf result.0 SaveFault.WriteFault → failures_of result.1.failed ≢ failures_of replacement.failed }
{
    let mut aimed: Aimed<P, A> = Aimed::new(replacement);
    let ended = repository.save(alloc, &mut aimed);
    (ended, aimed.into_replacement())
}

/// Writes the snapshot of a repository, and has it take the place of the file. One model's text is held at a time.
pub(crate) fn save_in<P: Part + Drop>(
    alloc: Global,
    repository: &Repository<'_>,
    replacement: Replacement<P>,
) -> Result<Left<P>, NotSaved<P>>
    requires { IsNew (P.contents replacement.part) replacement.failed (P.failures replacement.part) }
    ensures saved { IfOk result (λ left. IsSaved (part_view P.path P.contents P.failures P.may_leave P.left_since P.could_leave)
        (P.path replacement.part) (snapshot_of repository.now.content) left.part) }
    ensures unsaved { IfErr result (λ unsaved. IsUnsaved (part_view P.path P.contents P.failures P.may_leave P.left_since P.could_leave)
        (P.path replacement.part) (snapshot_of repository.now.content) unsaved.why unsaved.left.part) }
{
    let (ended, replacement) = written::<P, Brand>(alloc, repository, replacement);
    match ended {
        Ok(()) => finished(replacement),
        Err(SaveFault::NoMemory) => Err(NotSaved {
            why: Unsaved::NoMemory,
            left: replacement.give_up(),
        }),
        // That fails too, and tells why the write did.
        Err(SaveFault::WriteFault) => finished(replacement),
    }
}

/// Has what was written take the place of the file.
fn finished<P: Part + Drop>(replacement: Replacement<P>) -> Result<Left<P>, NotSaved<P>>
    ensures none { OnOk result (failures_of replacement.failed ≡ 0) }
    ensures whole { IfOk result (λ left. LeavesOnly (file_of (P.contents replacement.part)) (P.may_leave left.part)) }
    ensures ever { IfOk result (λ left. ∥ LeavesOldOr (file_of (P.contents replacement.part)) (P.could_leave (P.path replacement.part)) (P.left_since left.part 0) ∥₁) }
    ensures path { MatchResult result (λ left. P.path left.part ≡ P.path replacement.part) (λ unsaved. P.path unsaved.left.part ≡ P.path replacement.part) }
    ensures failed { IfErr result (λ unsaved. ((fault : ReplaceFault) × (unsaved.why ≡ Unsaved.File fault)) × (P.failures unsaved.left.part ≢ 0)) }
    ensures unwritten { failures_of replacement.failed ≢ 0 →
        IfErr result (λ unsaved. ∥ LeavesNoMore (P.could_leave (P.path replacement.part)) (P.left_since unsaved.left.part 0) ∥₁) }
    ensures given_up { IfErr result (λ unsaved. ∥ LeavesOldOr (file_of (P.contents replacement.part)) (P.could_leave (P.path replacement.part)) (P.left_since unsaved.left.part 0) ∥₁) }
{
    match replacement.finish() {
        Ok(left) => Ok(left),
        Err(NotReplaced { fault, left }) => Err(NotSaved {
            why: Unsaved::File(fault),
            left,
        }),
    }
}

/// Saves a repository in the file of this path.
pub(crate) fn save_at<R: Files>(
    alloc: Global,
    files: &R,
    path: &str,
    repository: &Repository<'_>,
) -> Result<(), Unsaved> {
    let replacement = begin(alloc, &mut FilePlaces::new(files), path)?;
    match save_in(alloc, repository, replacement) {
        Ok(left) => {
            drop(left);
            Ok(())
        }
        Err(NotSaved { why, left }) => {
            drop(left);
            Err(why)
        }
    }
}
