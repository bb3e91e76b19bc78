//! Which verdicts occur.

use rp_meaning::Verdict;

/// Whether each verdict but TRUE occurs among some evaluations.
#[derive(Clone, Copy)]
pub(crate) struct Verdicts {
    pub(crate) violating: bool,
    pub(crate) limited: bool,
    pub(crate) not_run: bool,
    pub(crate) unknown: bool,
}

impl Verdicts {
    ghost use Rattle.std.specs.Prelude.{◌≡◌, []};
    ghost use Rattle.rp_rules.specs.Endings.{verdicts_of, with_verdict};

    /// Of no evaluation.
    pub(crate) fn none() -> Verdicts
        ensures { result ≡ verdicts_of [] }
    {
        Verdicts {
            violating: false,
            limited: false,
            not_run: false,
            unknown: false,
        }
    }

    /// With one more.
    pub(crate) fn with(self, verdict: Verdict) -> Verdicts
        ensures { result ≡ with_verdict self verdict }
    {
        Verdicts {
            violating: self.violating || verdict == Verdict::False,
            limited: self.limited || verdict == Verdict::Limit,
            not_run: self.not_run || verdict == Verdict::NotRun,
            unknown: self.unknown || verdict == Verdict::Unknown,
        }
    }
}
