//! The bytes of a file that is replaced, and the steps by which it is.
ghost use Rattle.std.specs.Prelude.{◌≡◌, ◌≢◌, ◌<◌, ◌≤◌, length, IfOk, IfErr, MatchResult, OnOk, OnErr};
ghost use Rattle.std.specs.Option.{ForSome};
ghost use Rattle.std.specs.Io.KnownBytes.{WriteAppends};
ghost use Rattle.rp_saved_file.specs.Counts.{Fails};
ghost use Rattle.rp_saved_file.specs.Crashes.{file_of, LeavesOnly, LeavesNoMore, LeavesOldOr, Meanwhile};
ghost use Rattle.std.specs.String.{string_bytes};
ghost use Rattle.rp_saved_file.specs.Failures.{failures_of};
ghost use Rattle.rp_saved_file.specs.Names.{IsBeside};

use crate::fault::ReplaceFault;
use crate::file_part::FilePart;
use crate::part::Part;
use plain_data::Failure;
use rp_io::{DeviceFault, Sink};
use std::alloc::Global;
use std::fs::Files;
use std::io;

/// A file that is being replaced. The new bytes go into a file beside it.
///
/// Who lets go of it without [`finish`](Replacement::finish) leaves the file as it was, and none beside it.
pub struct Replacement<P: Part> {
    part: P,
    failed: Option<Failed>,
    // A write that failed is a call on the file beside it that did.
    ghost told: { ForSome failed (λ _. P.failures part ≢ 0) },
    // Whatever was written, a crash at any moment till now left what one could leave before.
    ghost kept: { ∥ LeavesNoMore (P.could_leave (P.path part)) (P.left_since part 0) ∥₁ },
}

/// Writes that failed: how many but for the first, and why the last one did.
#[derive(Clone, Copy)]
struct Failed {
    more: u64,
    error: io::Error,
}

impl<P: Part + Drop> Drop for Replacement<P> {
    fn drop(self) {
        let Replacement {
            mut part,
            failed: _,
        } = self;
        part.remove();
    }
}

impl<R: Files + Drop> Replacement<FilePart<R>> {
    /// Begins to replace the file of this path, or to make it where there is none.
    pub fn begin(
        alloc: Global,
        files: R,
        path: &str,
    ) -> Result<Replacement<FilePart<R>>, Failure<ReplaceFault>>
        ensures names { IfOk result (λ begun. IsBeside path.now (string_bytes begun.part.path) (string_bytes begun.part.beside)) }
        ensures none { IfOk result (λ begun. failures_of begun.failed ≡ 0) }
        ensures sound { IfOk result (λ begun. begun.part.failures ≡ 0) }
    {
        Ok(Replacement::new(FilePart::make(alloc, files, path)?))
    }
}

impl<P: Part + Drop> Replacement<P> {
    /// A replacement by what was just made.
    pub fn new(part: P) -> Replacement<P>
        requires { LeavesNoMore (P.could_leave (P.path part)) (P.left_since part 0) }
        ensures part { result.part ≡ part }
        ensures none { failures_of result.failed ≡ 0 }
    {
        Replacement { part, failed: None }
    }

    /// Puts all that was written in the place of the file. Where a write failed, this fails and tells why.
    pub fn finish(self) -> Result<Left<P>, NotReplaced<P>>
        ensures none { OnOk result (failures_of self.failed ≡ 0) }
        // From then on a crash leaves all of the new bytes.
        ensures whole { IfOk result (λ left. LeavesOnly (file_of (P.contents self.part)) (P.may_leave left.part)) }
        // A crash at any moment till then, from the beginning on, left what one could leave before, or all of the new bytes.
        ensures ever { IfOk result (λ left. ∥ LeavesOldOr (file_of (P.contents self.part)) (P.could_leave (P.path self.part)) (P.left_since left.part 0) ∥₁) }
        // It gives up only where a call on the file beside it failed. A crash at any moment till then left the same; but where a
        // write failed, nothing but what one could leave before.
        ensures failed { IfErr result (λ unmade. P.failures unmade.left.part ≢ 0) }
        ensures step { failures_of self.failed ≡ 0 → IfErr result (λ unmade. Fails (P.failures self.part) (P.failures unmade.left.part)) }
        ensures unwritten { failures_of self.failed ≢ 0 → IfErr result (λ unmade. ∥ LeavesNoMore (P.could_leave (P.path self.part)) (P.left_since unmade.left.part 0) ∥₁) }
        ensures given_up { IfErr result (λ unmade. ∥ LeavesOldOr (file_of (P.contents self.part)) (P.could_leave (P.path self.part)) (P.left_since unmade.left.part 0) ∥₁) }
        ensures path { MatchResult result (λ left. P.path left.part ≡ P.path self.part) (λ unmade. P.path unmade.left.part ≡ P.path self.part) }
        ensures sound { IfOk result (λ left. P.failures left.part ≡ P.failures self.part) }
    {
        let Replacement { mut part, failed } = self;
        if let Some(failed) = failed {
            part.remove();
            return Err(NotReplaced::new(ReplaceFault::Write(failed.error), part));
        }
        match take_place(&mut part) {
            Ok(()) => Ok(Left { part }),
            Err(fault) => {
                part.remove();
                Err(NotReplaced::new(fault, part))
            }
        }
    }

    /// Leaves the file as it was, and none beside it.
    pub fn give_up(self) -> Left<P>
        // A crash at any moment till then left what one could leave before.
        ensures kept { ∥ LeavesNoMore (P.could_leave (P.path self.part)) (P.left_since result.part 0) ∥₁ }
        ensures path { P.path result.part ≡ P.path self.part }
        ensures same { P.failures result.part ≡ P.failures self.part }
    {
        let Replacement {
            part: mut beside,
            failed: _,
        } = self;
        beside.remove();
        Left { part: beside }
    }
}

/// What is left of a replacement, for contracts to tell what a crash leaves of the file.
#[derive(Drop)]
pub struct Left<P> {
    part: P,
}

/// A file that isn't replaced, and why.
#[derive(Drop)]
pub struct NotReplaced<P> {
    pub fault: ReplaceFault,
    pub left: Left<P>,
}

impl<P> NotReplaced<P> {
    fn new(fault: ReplaceFault, part: P) -> NotReplaced<P>
        ensures { result.left.part ≡ part }
    {
        NotReplaced {
            fault,
            left: Left { part },
        }
    }
}

/// Has a file take the place of the one that it stands beside.
pub fn take_place<P: Part>(part: &mut P) -> Result<(), ReplaceFault>
    // From then on a crash leaves all of the new bytes.
    ensures whole { OnOk result (LeavesOnly (file_of (P.contents part.old)) (P.may_leave part.new)) }
    // It gives up only where a step fails.
    ensures ok { OnOk result (P.failures part.new ≡ P.failures part.old) }
    ensures err { OnErr result (Fails (P.failures part.old) (P.failures part.new)) }
    ensures path { P.path part.new ≡ P.path part.old }
    // A crash at any moment leaves what one could leave before, or all of the new bytes.
    ensures meanwhile { Meanwhile P.moment P.left_since P.may_leave part.old part.new (file_of (P.contents part.old)) }
{
    part.sync()?;
    part.rename()?;
    part.settle()
}

impl<P: Part> Sink for Replacement<P> {
    ghost contents = { λ r. P.contents r.part };

    ghost write_failures = { λ r. failures_of r.failed };

    fn write(&mut self, buf: &[u8]) -> Result<usize, DeviceFault>
        ensures bound { IfOk result (λ n. n ≤ length buf.now) }
        ensures some { IfOk result (λ n. 0 < length buf.now → 0 < n) }
        ensures bytes { WriteAppends (P.contents self.old.part) (P.contents self.new.part) result buf.now }
        ensures ok { OnOk result (failures_of self.new.failed ≡ failures_of self.old.failed) }
        ensures err { OnErr result (failures_of self.new.failed ≢ failures_of self.old.failed) }
        // It is still to take the same place.
        ensures path { P.path self.new.part ≡ P.path self.old.part }
    {
        match self.part.write(buf) {
            Ok(count) => Ok(count),
            Err(error) => {
                let more = match self.failed {
                    Some(failed) => failed.more.wrapping_add(1),
                    None => 0,
                };
                self.failed = Some(Failed { more, error });
                Err(DeviceFault)
            }
        }
    }
}
