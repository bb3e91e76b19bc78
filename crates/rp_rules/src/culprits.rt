//! The culprits of a check.

ghost use Rattle.std.specs.Prelude.{◌≡◌, ◌++◌, OnOk, not, List};
ghost use Rattle.rp_meaning.specs.Sequence as sequence;
ghost use Rattle.rp_rules.specs.Tallies as spec;

use crate::verdicts::Verdicts;
use plain_data::Items;
use rp_meaning::{Check, Constraint, Culprit, Verdict};
use std::alloc::{AllocError, Global};

/// The culprits so far of each verdict but TRUE, in the order of the population.
pub(crate) struct Culprits {
    pub(crate) violating: Items<Culprit>,
    pub(crate) limited: Items<Culprit>,
    pub(crate) not_run: Items<Culprit>,
    pub(crate) unknown: Items<Culprit>,
}

impl Drop for Culprits {
    fn drop(self) {
        let Culprits {
            violating,
            limited,
            not_run,
            unknown,
        } = self;
        drop(violating);
        drop(limited);
        drop(not_run);
        drop(unknown);
    }
}

/// Adds one, if it is one.
pub(crate) fn push_if(
    list: &mut Items<Culprit>,
    is_one: bool,
    culprit: Culprit,
) -> Result<(), AllocError>
    ensures { OnOk result (list.new ≡ list.old ++ spec.listed is_one culprit) }
{
    if is_one { list.push(culprit) } else { Ok(()) }
}

fn has_one(list: &Items<Culprit>) -> bool
    ensures { result ≡ not (sequence.is_empty list.now) }
{
    match list.as_slice() {
        [] => false,
        [_, ..] => true,
    }
}

impl Culprits {
    ghost use Rattle.std.specs.Prelude.{◌≡◌, OnOk};
    ghost use Rattle.rp_meaning.specs.Sequence as sequence;
    ghost use Rattle.rp_rules.specs.Tallies as spec;

    pub(crate) fn none(alloc: Global) -> Culprits
        ensures { result ≡ spec.no_culprits }
    {
        Culprits {
            violating: Items::new(alloc),
            limited: Items::new(alloc),
            not_run: Items::new(alloc),
            unknown: Items::new(alloc),
        }
    }

    /// Adds one to the culprits of each of these verdicts.
    pub(crate) fn add(&mut self, culprit: Culprit, verdicts: Verdicts) -> Result<(), AllocError>
        ensures { OnOk result (self.new ≡ spec.with_culprit self.old culprit verdicts) }
    {
        push_if(&mut self.violating, verdicts.violating, culprit)?;
        push_if(&mut self.limited, verdicts.limited, culprit)?;
        push_if(&mut self.not_run, verdicts.not_run, culprit)?;
        push_if(&mut self.unknown, verdicts.unknown, culprit)
    }

    /// The first of FALSE, LIMIT, NOT_RUN and UNKNOWN that has a culprit.
    fn verdict(&self) -> Verdict
        ensures { result ≡ sequence.first_verdict self.now.violating self.now.limited self.now.not_run self.now.unknown }
    {
        if has_one(&self.violating) {
            Verdict::False
        } else if has_one(&self.limited) {
            Verdict::Limit
        } else if has_one(&self.not_run) {
            Verdict::NotRun
        } else if has_one(&self.unknown) {
            Verdict::Unknown
        } else {
            Verdict::True
        }
    }

    /// What came of a check with these.
    pub(crate) fn into_check(self, constraint: Constraint) -> Check
        ensures { result ≡ spec.check_with constraint self }
    {
        let verdict = self.verdict();
        let Culprits {
            violating,
            limited,
            not_run,
            unknown,
        } = self;
        Check {
            constraint,
            verdict,
            violating,
            limited,
            not_run,
            unknown,
        }
    }
}
