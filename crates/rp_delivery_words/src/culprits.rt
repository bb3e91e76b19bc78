//! The culprits of a page.
use crate::escaped::Escaped;
use crate::marks::{front, place_of};
use crate::page::ReportPage;
use crate::put::PutFile;
use crate::words::heading_of;
use rp_meaning::Verdict;
use rp_plain::reports::{ToldCheck, ToldCulprit};
use source_texts::{Definition, instance_text};
use std::fmt;

/// How many culprits of a verdict are shown before others, which are folded.
const SHOWN: usize = 50;

/// How many bytes of an instance are shown, about.
const INSTANCE: usize = 400;

/// The culprits of a check by their verdicts, those that violate the rule first.
pub(crate) fn lists_of(check: &ToldCheck) -> [(Verdict, &[ToldCulprit]); 4] {
    [
        (Verdict::False, check.violating.as_slice()),
        (Verdict::Limit, check.limited.as_slice()),
        (Verdict::NotRun, check.not_run.as_slice()),
        (Verdict::Unknown, check.unknown.as_slice()),
    ]
}

/// All culprits of a check.
pub(crate) fn write_lists<W: fmt::Write>(
    f: &mut fmt::Formatter<W>,
    page: &ReportPage<'_>,
    check: &ToldCheck,
) -> fmt::Result {
    for (verdict, culprits) in lists_of(check) {
        write_list(f, page, verdict, culprits)?;
    }
    Ok(())
}

/// The culprits of one verdict.
fn write_list<W: fmt::Write>(
    f: &mut fmt::Formatter<W>,
    page: &ReportPage<'_>,
    verdict: Verdict,
    culprits: &[ToldCulprit],
) -> fmt::Result {
    if culprits.is_empty() {
        return Ok(());
    }
    let (heading, count) = (Escaped(heading_of(verdict)), culprits.len());
    write!(f, "<h3>{heading}: {count}</h3>\n")?;
    let shown = front(culprits, SHOWN);
    write_rows(f, page, shown)?;
    let folded = culprits.get(shown.len()..).unwrap_or(&[]);
    if folded.is_empty() {
        return Ok(());
    }
    write!(f, "<details><summary>and {} more</summary>\n", folded.len())?;
    write_rows(f, page, folded)?;
    f.write_str("</details>\n")
}

fn write_rows<W: fmt::Write>(
    f: &mut fmt::Formatter<W>,
    page: &ReportPage<'_>,
    culprits: &[ToldCulprit],
) -> fmt::Result {
    f.write_str("<table class=\"culprits\">\n")?;
    for culprit in culprits {
        write_culprit(f, page, culprit)?;
    }
    f.write_str("</table>\n")
}

/// The file of a culprit, its line, its text and its attribute.
fn write_culprit<W: fmt::Write>(
    f: &mut fmt::Formatter<W>,
    page: &ReportPage<'_>,
    culprit: &ToldCulprit,
) -> fmt::Result {
    let place = place_of(culprit.model.get());
    let Some(file) = page.files().get(place) else {
        return Ok(());
    };
    write!(f, "<tr><td>{}</td>", Escaped(file.path))?;
    let found = match page.marks(place) {
        Some(marks) => marks.definition(culprit.instance),
        None => None,
    };
    if let Some(found) = found {
        write_instance(f, file, culprit.instance, found)?;
    }
    if let Some(attribute) = &culprit.attribute {
        write!(f, "<td>{}</td>", Escaped(attribute.get().as_str()))?;
    }
    f.write_str("</tr>\n")
}

/// The line of an instance and its text, as its file has it.
fn write_instance<W: fmt::Write>(
    f: &mut fmt::Formatter<W>,
    file: &PutFile<'_>,
    name: u64,
    found: Definition,
) -> fmt::Result {
    let (text, is_whole) = instance_text(file.text.as_str(), found.behind, INSTANCE);
    let cut = if is_whole { "" } else { " .." };
    write!(
        f,
        "<td class=\"line\">line {}</td><td><code>#{name}={}{cut}</code></td>",
        found.line,
        Escaped(text)
    )
}
