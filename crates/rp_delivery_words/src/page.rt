//! What is told of a delivery as a page of HTML: one file without scripts, by which nothing else is fetched. Whatever stands in files,
//! schemas and paths is escaped.
use crate::escaped::Escaped;
use crate::marks::{Marks, marks_of};
use crate::put::PutFile;
use crate::refused::refused_line;
use crate::rule_texts::RuleTexts;
use crate::sections::{write_contents, write_kept, write_sections};
use crate::told::SchemaText;
use crate::verdict::{verdict_line, verdict_of};
use crate::words::word_of_verdict;
use rp_meaning::Verdict;
use rp_plain::reports::ToldReport;
use std::alloc::{AllocError, Global};
use std::fmt;

/// How a page begins, up to its title. It may have styles, and else nothing that isn't text.
const FRONT: &str = "\
<!DOCTYPE html>
<html lang=\"en\">
<head>
<meta charset=\"utf-8\">
<meta http-equiv=\"Content-Security-Policy\" content=\"default-src 'none'; style-src 'unsafe-inline'\">
<meta name=\"viewport\" content=\"width=device-width, initial-scale=1\">
";

/// What stands between the title and what is told.
const STYLE: &str = "\
<style>
:root { color-scheme: light dark; }
body { font: 1rem/1.5 system-ui, sans-serif; max-width: 75rem; margin: 2rem auto; padding: 0 1rem; overflow-wrap: anywhere; }
h1 { font-size: 1.5rem; border-left: 0.5rem solid; padding-left: 0.75rem; }
h2 { font-size: 1.2rem; margin-top: 2rem; }
h3 { font-size: 1rem; font-weight: normal; margin: 0.5rem 0; }
table { border-collapse: collapse; }
td { border-top: 1px solid #8884; padding: 0.2rem 1.5rem 0.2rem 0; vertical-align: top; white-space: pre-wrap; }
td:last-child { overflow-wrap: break-word; }
td.line, .checks td:first-child { white-space: nowrap; }
pre, code { font: 0.9rem/1.4 ui-monospace, monospace; white-space: pre-wrap; overflow-wrap: anywhere; unicode-bidi: isolate; }
pre { border-left: 0.2rem solid #8884; padding-left: 0.75rem; }
summary { cursor: pointer; }
.TRUE { color: light-dark(#17692d, #7ed491); }
.FALSE { color: light-dark(#b3131c, #ff8f8a); }
.UNKNOWN, .LIMIT, .NOT_RUN { color: light-dark(#8a5200, #f0b64a); }
@media (max-width: 45rem) {
  table, tbody, tr, .culprits td:nth-child(n+3) { display: block; }
  tr { border-top: 1px solid #8884; padding: 0.3rem 0; }
  td { display: inline; border: 0; padding: 0 0.5rem 0 0; }
}
</style>
</head>
<body>
";

const END: &str = "\
</body>
</html>
";

/// The page of files that were put and validated.
#[derive(Drop)]
pub struct ReportPage<'a> {
    schema: &'a str,
    files: &'a [PutFile<'a>],
    report: &'a ToldReport,
    marks: Vec<Marks>,
    /// Of each check the text of its rule, where it isn't TRUE and has one.
    rules: Vec<String>,
    line: String,
}

impl<'a> ReportPage<'a> {
    pub(crate) fn report(&self) -> &'a ToldReport {
        self.report
    }

    pub(crate) fn files(&self) -> &'a [PutFile<'a>] {
        self.files
    }

    /// Where culprits of the file at a place are defined.
    pub(crate) fn marks(&self, place: usize) -> Option<&Marks> {
        self.marks.get(place)
    }

    /// The text of the rule of the check at a place.
    pub(crate) fn rule(&self, place: usize) -> &str {
        match self.rules.get(place) {
            Some(rule) => rule.as_str(),
            None => "",
        }
    }
}

impl fmt::Display for ReportPage<'_> {
    fn fmt<W: fmt::Write>(&self, f: &mut fmt::Formatter<W>) -> fmt::Result {
        write_front(f, verdict_of(self.report), self.line.as_str())?;
        write_contents(f, self.report)?;
        write_files(f, self.schema, self.files)?;
        write_sections(f, self)?;
        write_kept(f, self.report)?;
        f.write_str(END)
    }
}

/// The page of files that were put and validated: of each check all culprits.
pub fn report_page<'a>(
    alloc: Global,
    schema: SchemaText<'a>,
    files: &'a [PutFile<'a>],
    report: &'a ToldReport,
) -> Result<ReportPage<'a>, AllocError> {
    let marks = marks_of(alloc, files, report, usize::MAX)?;
    let rules = rules_of(alloc, schema.text, report)?;
    let line = verdict_line(alloc, report)?;
    Ok(ReportPage {
        schema: schema.name,
        files,
        report,
        marks,
        rules,
        line,
    })
}

/// The texts of the rules that aren't TRUE, by the places of their checks.
fn rules_of(alloc: Global, schema: &[u8], report: &ToldReport) -> Result<Vec<String>, AllocError> {
    let texts = RuleTexts::of(alloc, schema)?;
    let mut rules = Vec::new(alloc);
    for check in report.checks.as_slice() {
        let mut rule = String::new(alloc);
        if check.verdict != Verdict::True {
            texts.push(&mut rule, "", check)?;
        }
        rules.push(rule)?;
    }
    Ok(rules)
}

/// The page of files that were put, and of the one behind them, which is refused.
#[derive(Drop)]
pub struct RefusedPage<'a> {
    schema: &'a str,
    files: &'a [PutFile<'a>],
    path: &'a str,
    words: &'a str,
    lines: &'a str,
    line: String,
}

impl fmt::Display for RefusedPage<'_> {
    fn fmt<W: fmt::Write>(&self, f: &mut fmt::Formatter<W>) -> fmt::Result {
        write_front(f, Verdict::False, self.line.as_str())?;
        let (path, words) = (Escaped(self.path), Escaped(self.words));
        write!(f, "<p class=\"fault\">{path}: {words}</p>\n")?;
        if !self.lines.is_empty() {
            write!(f, "<pre>\n{}</pre>\n", Escaped(self.lines))?;
        }
        if !self.files.is_empty() {
            write_files(f, self.schema, self.files)?;
        }
        f.write_str(END)
    }
}

/// The page of files that were put and of the one behind them, which is refused so, with the lines of its fault.
pub fn refused_page<'a>(
    alloc: Global,
    schema: &'a str,
    files: &'a [PutFile<'a>],
    path: &'a str,
    words: &'a str,
    lines: &'a str,
) -> Result<RefusedPage<'a>, AllocError> {
    let line = refused_line(alloc, path)?;
    Ok(RefusedPage {
        schema,
        files,
        path,
        words,
        lines,
        line,
    })
}

/// The page up to its heading, which is this line.
fn write_front<W: fmt::Write>(
    f: &mut fmt::Formatter<W>,
    verdict: Verdict,
    line: &str,
) -> fmt::Result {
    let line = Escaped(line.trim_end());
    write!(f, "{FRONT}<title>{line}</title>\n{STYLE}")?;
    let class = word_of_verdict(verdict);
    write!(f, "<h1 class=\"{class}\">{line}</h1>\n")
}

/// The files that were put.
fn write_files<W: fmt::Write>(
    f: &mut fmt::Formatter<W>,
    schema: &str,
    files: &[PutFile<'_>],
) -> fmt::Result {
    write!(
        f,
        "<h2>Files, by the schema {}</h2>\n<table class=\"files\">\n",
        Escaped(schema)
    )?;
    for file in files {
        write!(
            f,
            "<tr><td>{}</td><td>{} {}</td></tr>\n",
            Escaped(file.path),
            file.instances,
            file.noun()
        )?;
    }
    f.write_str("</table>\n")
}
