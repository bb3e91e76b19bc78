//! A replacement of which contracts know the path, whatever writes to it.
ghost use Rattle.std.specs.Prelude.{◌≡◌, ℕ, List, []};
ghost use Rattle.rp_saved_file.specs.Failures.{failures_of};

use rp_io::{DeviceFault, Sink};
use rp_saved_file::{Part, Replacement};
use std::marker::{Brand, PhantomData};

/// The path of the place that a file is to take. Contracts alone know it.
pub(crate) trait Aim {
    ghost path: { List ℕ };
}

impl Aim for Brand {
    ghost path = { [] };
}

/// A replacement of the file of this path. It stays one in the hands of what writes to any `Sink`, of which nothing else is known.
pub(crate) struct Aimed<P: Part, A: Aim> {
    replacement: Replacement<P>,
    aim: PhantomData<A>,
    ghost there: { P.path replacement.part ≡ A.path },
}

impl<P: Part, A: Aim> Aimed<P, A> {
    pub(crate) fn new(replacement: Replacement<P>) -> Aimed<P, A>
        requires { P.path replacement.part ≡ A.path }
        ensures { result.replacement ≡ replacement }
    {
        Aimed {
            replacement,
            aim: PhantomData,
        }
    }

    pub(crate) fn into_replacement(self) -> Replacement<P>
        ensures same { result ≡ self.replacement }
        ensures there { P.path result.part ≡ A.path }
    {
        let Aimed {
            replacement,
            aim: _,
        } = self;
        replacement
    }
}

impl<P: Part, A: Aim> Sink for Aimed<P, A> {
    ghost contents = { λ aimed. P.contents aimed.replacement.part };

    ghost write_failures = { λ aimed. failures_of aimed.replacement.failed };

    fn write(&mut self, buf: &[u8]) -> Result<usize, DeviceFault> {
        self.replacement.write(buf)
    }
}
