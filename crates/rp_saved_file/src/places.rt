//! Places of files, by their paths.
ghost use Rattle.std.specs.Prelude.{◌≡◌, ◌≢◌, ℕ, List, IfOk, OnOk, OnErr, IsErrOf};
ghost use Rattle.plain_data.specs.declared.failure.Failure.TheVariants.{Fault, NoMemory};
ghost use Rattle.rp_saved_file.specs.declared.fault.ReplaceFault.{ReplaceFault};
ghost use Rattle.rp_saved_file.specs.Counts.{BeginsOne};
ghost use Rattle.rp_saved_file.specs.Failures.{IsNew};

use crate::fault::ReplaceFault;
use crate::file_part::FilePart;
use crate::part::Part;
use crate::replacing::Replacement;
use plain_data::Failure;
use std::alloc::Global;
use std::fs::Files;

/// Places of files, each of which can be replaced.
pub trait Places {
    /// A file beside one of them.
    type Part: Part + Drop;

    /// How many replacements were begun.
    ghost begun: { Self → ℕ };

    /// A count that a failed `begin` changes where memory isn't wanting, and nothing else.
    ghost failures: { Self → ℕ };

    /// Begins to replace the file of this path, or to make it where there is none.
    fn begin(
        &mut self,
        alloc: Global,
        path: &str,
    ) -> Result<Replacement<Self::Part>, Failure<ReplaceFault>>
        ensures new { IfOk result (λ begun. IsNew (Self.Part.contents begun.part) begun.failed (Self.Part.failures begun.part)) }
        ensures path { IfOk result (λ begun. Self.Part.path begun.part ≡ path.now) }
        ensures one { OnOk result (BeginsOne (begun self.old) (begun self.new)) }
        ensures none { OnErr result (begun self.new ≡ begun self.old) }
        ensures ok { OnOk result (failures self.new ≡ failures self.old) }
        ensures wanting { IsErrOf result NoMemory → failures self.new ≡ failures self.old }
        ensures err { (fault : ReplaceFault) → IsErrOf result (Fault fault) → failures self.new ≢ failures self.old };
}

/// The files of `std`, with a count of the replacements that were begun and one of those that couldn't be. Nothing else is known of
/// them.
#[derive(Drop)]
pub struct FilePlaces<'r, R> {
    files: &'r R,
    begun: u64,
    failures: u64,
}

impl<'r, R: Files> FilePlaces<'r, R> {
    /// Nothing is begun yet.
    pub fn new(files: &'r R) -> FilePlaces<'r, R>
        ensures { result.files.now ≡ files.now }
    {
        FilePlaces {
            files,
            begun: 0,
            failures: 0,
        }
    }
}

impl<'r, R: Files> Places for FilePlaces<'r, R> {
    type Part = FilePart<&'r R>;

    ghost begun = { λ places. places.begun };

    ghost failures = { λ places. places.failures };

    fn begin(
        &mut self,
        alloc: Global,
        path: &str,
    ) -> Result<Replacement<FilePart<&'r R>>, Failure<ReplaceFault>> {
        match Replacement::begin(alloc, self.files, path) {
            Ok(replacement) => {
                self.begun = self.begun.wrapping_add(1);
                Ok(replacement)
            }
            Err(Failure::NoMemory) => Err(Failure::NoMemory),
            Err(Failure::Fault(fault)) => {
                self.failures = self.failures.wrapping_add(1);
                Err(Failure::Fault(fault))
            }
        }
    }
}
