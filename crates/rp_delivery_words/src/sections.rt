//! The checks of a page: first which aren't TRUE, then each of these with its culprits, at last those that are TRUE.
use crate::culprits::{lists_of, write_lists};
use crate::escaped::Escaped;
use crate::page::ReportPage;
use crate::words::{heading_of, together_of, word_of_kind, word_of_verdict};
use rp_meaning::Verdict;
use rp_plain::reports::{CheckKind, ToldCheck, ToldReport};
use std::fmt;

/// The verdicts of which checks are told one by one, those first that a reader looks for.
const TOLD: [Verdict; 4] = [
    Verdict::False,
    Verdict::Limit,
    Verdict::NotRun,
    Verdict::Unknown,
];

/// A check by its kind and the names of its rule.
#[derive(Clone, Copy, Drop)]
struct Named<'a>(&'a ToldCheck);

impl fmt::Display for Named<'_> {
    fn fmt<W: fmt::Write>(&self, f: &mut fmt::Formatter<W>) -> fmt::Result {
        f.write_str(word_of_kind(self.0.kind))?;
        match &self.0.rule {
            Some(rule) => {
                let (of, rule) = (Escaped(rule.of.as_str()), Escaped(rule.rule.as_str()));
                write!(f, " {of} {rule}")
            }
            None => Ok(()),
        }
    }
}

/// Whether all checks are TRUE.
fn are_all_true(report: &ToldReport) -> bool {
    report
        .checks
        .as_slice()
        .iter()
        .all(|check| check.verdict == Verdict::True)
}

/// Which checks aren't TRUE, each with the place of its section.
pub(crate) fn write_contents<W: fmt::Write>(
    f: &mut fmt::Formatter<W>,
    report: &ToldReport,
) -> fmt::Result {
    if are_all_true(report) {
        return Ok(());
    }
    f.write_str("<h2>Checks that aren't TRUE</h2>\n<table class=\"checks\">\n")?;
    for verdict in TOLD {
        for (place, check) in report.checks.as_slice().iter().enumerate() {
            if check.verdict == verdict {
                write_entry(f, place, check)?;
            }
        }
    }
    f.write_str("</table>\n")
}

fn write_entry<W: fmt::Write>(
    f: &mut fmt::Formatter<W>,
    place: usize,
    check: &ToldCheck,
) -> fmt::Result {
    let verdict = word_of_verdict(check.verdict);
    let named = Named(check);
    write!(
        f,
        "<tr><td class=\"{verdict}\">{verdict}</td><td><a href=\"#check-{place}\">{named}</a></td><td>"
    )?;
    write_counts(f, check)?;
    f.write_str("</td></tr>\n")
}

/// How many culprits a check has, by their verdicts.
fn write_counts<W: fmt::Write>(f: &mut fmt::Formatter<W>, check: &ToldCheck) -> fmt::Result {
    if check.kind == CheckKind::Rule {
        return write!(f, "{}", Escaped(together_of(check.verdict)));
    }
    let mut before = "";
    for (verdict, culprits) in lists_of(check) {
        if !culprits.is_empty() {
            let (heading, count) = (Escaped(heading_of(verdict)), culprits.len());
            write!(f, "{before}{heading}: {count}")?;
            before = ", ";
        }
    }
    Ok(())
}

/// Each check that isn't TRUE, with its rule and its culprits.
pub(crate) fn write_sections<W: fmt::Write>(
    f: &mut fmt::Formatter<W>,
    page: &ReportPage<'_>,
) -> fmt::Result {
    for verdict in TOLD {
        for (place, check) in page.report().checks.as_slice().iter().enumerate() {
            if check.verdict == verdict {
                write_section(f, page, place, check)?;
            }
        }
    }
    Ok(())
}

fn write_section<W: fmt::Write>(
    f: &mut fmt::Formatter<W>,
    page: &ReportPage<'_>,
    place: usize,
    check: &ToldCheck,
) -> fmt::Result {
    let verdict = word_of_verdict(check.verdict);
    let named = Named(check);
    write!(
        f,
        "<section id=\"check-{place}\">\n<h2><span class=\"{verdict}\">{verdict}</span> {named}</h2>\n"
    )?;
    let rule = page.rule(place).trim_end();
    if !rule.is_empty() {
        write!(f, "<pre>{}</pre>\n", Escaped(rule))?;
    }
    if check.kind == CheckKind::Rule {
        write!(f, "<h3>{}</h3>\n", Escaped(together_of(check.verdict)))?;
    } else {
        write_lists(f, page, check)?;
    }
    f.write_str("</section>\n")
}

/// Which checks are TRUE, behind a line that tells how many.
pub(crate) fn write_kept<W: fmt::Write>(
    f: &mut fmt::Formatter<W>,
    report: &ToldReport,
) -> fmt::Result {
    let all = report.checks.as_slice();
    let count = all
        .iter()
        .filter(|check| check.verdict == Verdict::True)
        .count();
    write!(f, "<h2>Checks that are TRUE: {count}</h2>\n")?;
    if count == 0 {
        return Ok(());
    }
    f.write_str("<details><summary>show</summary>\n<ul class=\"TRUE\">\n")?;
    for check in all {
        if check.verdict == Verdict::True {
            write!(f, "<li>{}</li>\n", Named(check))?;
        }
    }
    f.write_str("</ul>\n</details>\n")
}
