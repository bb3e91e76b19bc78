//! What is told of a validation: its checks by names, and who violates them by their places.

use plain_data::{Rows, Text};
use rp_meaning::Verdict;
use rp_rows::rows::Key;
use shared::Shared;

/// What is checked.
#[derive(Clone, Copy, PartialEq, Eq)]
pub enum CheckKind {
    /// That what is not OPTIONAL is set.
    Unset,
    /// Bounds, widths, and what may not stand twice.
    Bounds,
    /// Where references lead.
    Reference,
    /// A WHERE clause of a defined type.
    Type,
    /// A WHERE clause of an entity.
    Where,
    Unique,
    /// The bounds of an inverse attribute.
    Inverse,
    /// A WHERE clause of a rule.
    Rule,
}

/// A rule of a schema by its names, which are in upper case.
#[derive(Drop)]
pub struct RuleName {
    /// The defined type, the entity or the rule that has it.
    pub of: Text,
    /// Its label, or the name of the inverse attribute; without a label `#` and its number in its clause, from 1.
    pub rule: Text,
}

/// An instance by its place, and, where values are checked, the attribute that has the value.
#[derive(Drop)]
pub struct ToldCulprit {
    pub model: Shared<Key>,
    pub instance: u64,
    /// `ENTITY.ATTRIBUTE`, by the entity that declares it.
    pub attribute: Option<Shared<Text>>,
}

/// What came of a check, and the culprits of each verdict but TRUE, each list in the order of the population.
pub struct ToldCheck {
    pub kind: CheckKind,
    /// None where all attributes are checked.
    pub rule: Option<RuleName>,
    pub verdict: Verdict,
    pub violating: Rows<ToldCulprit>,
    pub limited: Rows<ToldCulprit>,
    pub not_run: Rows<ToldCulprit>,
    pub unknown: Rows<ToldCulprit>,
}

/// The checks in their order, and the steps that they took.
#[derive(Drop)]
pub struct ToldReport {
    pub checks: Rows<ToldCheck>,
    pub steps: usize,
}

impl Drop for ToldCheck {
    fn drop(self) {
        let ToldCheck {
            kind: _,
            rule,
            verdict: _,
            violating,
            limited,
            not_run,
            unknown,
        } = self;
        drop(rule);
        drop(violating);
        drop(limited);
        drop(not_run);
        drop(unknown);
    }
}
