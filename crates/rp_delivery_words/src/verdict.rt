//! The verdict on all files, in words.
use rp_meaning::Verdict;
use rp_plain::reports::ToldReport;
use std::alloc::{AllocError, Global};

/// How many checks have which verdict.
#[derive(Clone, Copy)]
struct Counts {
    kept: usize,
    violated: usize,
    limited: usize,
    not_run: usize,
    unknown: usize,
}

impl Counts {
    fn nothing() -> Counts {
        Counts {
            kept: 0,
            violated: 0,
            limited: 0,
            not_run: 0,
            unknown: 0,
        }
    }

    /// With one check more.
    fn with(self, verdict: Verdict) -> Counts {
        match verdict {
            Verdict::True => Counts {
                kept: self.kept.saturating_add(1),
                ..self
            },
            Verdict::False => Counts {
                violated: self.violated.saturating_add(1),
                ..self
            },
            Verdict::Limit => Counts {
                limited: self.limited.saturating_add(1),
                ..self
            },
            Verdict::NotRun => Counts {
                not_run: self.not_run.saturating_add(1),
                ..self
            },
            Verdict::Unknown => Counts {
                unknown: self.unknown.saturating_add(1),
                ..self
            },
        }
    }

    /// The verdict that these come to.
    fn worst(self) -> Verdict {
        if self.violated > 0 {
            Verdict::False
        } else if self.limited > 0 {
            Verdict::Limit
        } else if self.not_run > 0 {
            Verdict::NotRun
        } else if self.unknown > 0 {
            Verdict::Unknown
        } else {
            Verdict::True
        }
    }

    /// What these verdicts come to, in words.
    fn words(self) -> &'static str {
        match self.worst() {
            Verdict::True => "Kept: ",
            Verdict::False => "Violated: ",
            Verdict::Limit | Verdict::NotRun => "Not decided: ",
            Verdict::Unknown => "Not violated, as far as can be told: ",
        }
    }
}

fn counts_of(report: &ToldReport) -> Counts {
    let mut counts = Counts::nothing();
    for check in report.checks.as_slice() {
        counts = counts.with(check.verdict);
    }
    counts
}

/// The verdict that those of all checks come to.
pub(crate) fn verdict_of(report: &ToldReport) -> Verdict {
    counts_of(report).worst()
}

/// The verdict in one line, with how many checks have which.
pub fn verdict_line(alloc: Global, report: &ToldReport) -> Result<String, AllocError> {
    let counts = counts_of(report);
    let all = report.checks.len();
    let words = counts.words();
    if counts.kept == all {
        return format!(in alloc; "{words}all {all} checks are TRUE.\n");
    }
    let mut line = String::from_str(alloc, words)?;
    push_count(alloc, &mut line, counts.violated, "FALSE, ")?;
    push_count(alloc, &mut line, counts.limited, "LIMIT, ")?;
    push_count(alloc, &mut line, counts.not_run, "NOT_RUN, ")?;
    push_count(alloc, &mut line, counts.unknown, "UNKNOWN, ")?;
    let rest = format!(in alloc; "{} TRUE of {all} checks.\n", counts.kept)?;
    line.push_str(rest.as_str())?;
    Ok(line)
}

/// Puts a number with a word behind a text, unless it is 0.
fn push_count(alloc: Global, out: &mut String, count: usize, word: &str) -> Result<(), AllocError> {
    if count == 0 {
        return Ok(());
    }
    let words = format!(in alloc; "{count} {word}")?;
    out.push_str(words.as_str())
}
