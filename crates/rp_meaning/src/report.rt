//! The report of a validation.

use ex_named::AttributePlace;
use plain_data::Items;

/// What is checked.
#[derive(Clone, Copy, PartialEq, Eq)]
pub enum Constraint {
    /// That what is not OPTIONAL is set.
    Unset,
    /// Bounds, widths, and what may not stand twice.
    Bounds,
    /// That references lead to instances of the population that their declarations allow.
    Reference,
    /// A defined type, and the place in its WHERE clause.
    Type(usize, usize),
    /// An entity, and the place in its WHERE clause.
    Where(usize, usize),
    /// An entity, and the place in its UNIQUE clause.
    Unique(usize, usize),
    /// The bounds of an inverse attribute: an entity, and the place in its INVERSE clause.
    Inverse(usize, usize),
    /// A rule, and the place in its WHERE clause.
    Rule(usize, usize),
}

#[derive(Clone, Copy, PartialEq, Eq)]
pub enum Verdict {
    True,
    False,
    Unknown,
    /// The evaluation took more steps, or nested more bodies, than it may.
    Limit,
    /// The evaluation was not begun.
    NotRun,
}

/// An instance by its place in the population, and, where it is asked of values, the attribute that has the value.
#[derive(Clone, Copy, PartialEq, Eq)]
pub struct Culprit {
    pub instance: usize,
    pub attribute: Option<AttributePlace>,
}

/// What came of a check, and the culprits of each verdict but TRUE, each list in the order of the population.
pub struct Check {
    pub constraint: Constraint,
    pub verdict: Verdict,
    pub violating: Items<Culprit>,
    pub limited: Items<Culprit>,
    pub not_run: Items<Culprit>,
    pub unknown: Items<Culprit>,
}

/// The checks in their order, and the steps that they took.
#[derive(Drop)]
pub struct Report {
    pub checks: Items<Check>,
    pub steps: usize,
}

impl Drop for Check {
    fn drop(self) {
        let Check {
            constraint: _,
            verdict: _,
            violating,
            limited,
            not_run,
            unknown,
        } = self;
        drop(violating);
        drop(limited);
        drop(not_run);
        drop(unknown);
    }
}
