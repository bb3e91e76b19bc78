//! A file beside another that is to take its place, and what a crash leaves there.
ghost use Rattle.std.specs.Prelude.{◌≡◌, ◌<◌, ◌≤◌, ℕ, List, length, Option, IfOk, OnOk, OnErr};
ghost use Rattle.std.specs.Io.KnownBytes.{WriteAppends};
ghost use Rattle.rp_saved_file.specs.Crashes.{Place, file_of, LeavesOnly, LeavesNoMore, LeavesOldOr, Elapses};
ghost use Rattle.rp_saved_file.specs.Counts.{Fails};

use crate::fault::ReplaceFault;
use std::io;

/// A file beside another, which is to take its place.
///
/// What this crate promises of a crash it promises of any such file of which these laws hold; the one of `rename` is that a file
/// whose bytes are on the disk is renamed whole or not at all. Of [`FilePart`](crate::FilePart) nothing is known, but no code here can tell one from
/// another.
pub trait Part {
    /// What a crash could leave in the place of a path before any of this began.
    ghost could_leave: { List ℕ → Place → Type 0 };

    /// The path of the place. No call changes it.
    ghost path: { Self → List ℕ };

    /// The bytes that were written into it, where they are known.
    ghost contents: { Self → Option (List ℕ) };

    /// Those of its bytes that are on the disk, where they are known.
    ghost synced: { Self → Option (List ℕ) };

    /// What stands in the place, where this is known.
    ghost seen: { Self → Option Place };

    /// What a crash at this moment may leave in the place.
    ghost may_leave: { Self → Place → Type 0 };

    /// The moment, as a number that doesn't fall.
    ghost moment: { Self → ℕ };

    /// What a crash at some moment from that one on might have left in the place, during a call or between two.
    ghost left_since: { Self → ℕ → Place → Type 0 };

    /// A count that a failed call changes, and nothing else. It is 0 only where none failed.
    ghost failures: { Self → ℕ };

    /// Takes a front of `bytes` and answers how many it has, or fails and takes none. A write that takes none of some bytes has failed.
    fn write(&mut self, bytes: &[u8]) -> io::Result<usize>
        ensures bound { IfOk result (λ n. n ≤ length bytes.now) }
        ensures some { IfOk result (λ n. 0 < length bytes.now → 0 < n) }
        ensures bytes { WriteAppends (contents self.old) (contents self.new) result bytes.now }
        ensures path { path self.new ≡ path self.old }
        ensures ok { OnOk result (failures self.new ≡ failures self.old) }
        ensures err { OnErr result (Fails (failures self.old) (failures self.new)) }
        ensures crash { LeavesNoMore (may_leave self.old) (may_leave self.new) }
        ensures time { Elapses (moment self.old) (moment self.new) (left_since self.old) (left_since self.new) (may_leave self.new) };

    /// Has all that was written on the disk.
    fn sync(&mut self) -> Result<(), ReplaceFault>
        ensures synced { OnOk result (synced self.new ≡ contents self.new) }
        ensures same { contents self.new ≡ contents self.old }
        ensures path { path self.new ≡ path self.old }
        ensures ok { OnOk result (failures self.new ≡ failures self.old) }
        ensures err { OnErr result (Fails (failures self.old) (failures self.new)) }
        ensures crash { LeavesNoMore (may_leave self.old) (may_leave self.new) }
        ensures time { Elapses (moment self.old) (moment self.new) (left_since self.old) (left_since self.new) (may_leave self.new) };

    /// Puts it in the place of the other. All that was written is on the disk.
    fn rename(&mut self) -> Result<(), ReplaceFault>
        requires { synced self.old ≡ contents self.old }
        ensures stands { OnOk result (seen self.new ≡ file_of (contents self.old)) }
        ensures path { path self.new ≡ path self.old }
        ensures ok { OnOk result (failures self.new ≡ failures self.old) }
        ensures err { OnErr result (Fails (failures self.old) (failures self.new)) }
        ensures crash { LeavesOldOr (file_of (contents self.old)) (may_leave self.old) (may_leave self.new) }
        ensures time { Elapses (moment self.old) (moment self.new) (left_since self.old) (left_since self.new) (may_leave self.new) };

    /// Has what stands in the place on the disk, under its name.
    fn settle(&mut self) -> Result<(), ReplaceFault>
        ensures durable { OnOk result (LeavesOnly (seen self.old) (may_leave self.new)) }
        ensures path { path self.new ≡ path self.old }
        ensures ok { OnOk result (failures self.new ≡ failures self.old) }
        ensures err { OnErr result (Fails (failures self.old) (failures self.new)) }
        ensures crash { LeavesNoMore (may_leave self.old) (may_leave self.new) }
        ensures time { Elapses (moment self.old) (moment self.new) (left_since self.old) (left_since self.new) (may_leave self.new) };

    /// Removes it, if it still stands beside the other. It tells of no failure.
    fn remove(&mut self)
        ensures path { path self.new ≡ path self.old }
        ensures same { failures self.new ≡ failures self.old }
        ensures crash { LeavesNoMore (may_leave self.old) (may_leave self.new) }
        ensures time { Elapses (moment self.old) (moment self.new) (left_since self.old) (left_since self.new) (may_leave self.new) };

    /// What a crash may leave now counts.
    ghost counts_now: { (part : Self) (then : ℕ) (place : Place) → then ≤ moment part → may_leave part place → left_since part then place };

    /// Nothing else counts from now on.
    ghost only_now: { (part : Self) (place : Place) → left_since part (moment part) place → may_leave part place };
}
