//! What is told of files that were validated.
use crate::checks::{Sources, push_check};
use crate::marks::marks_of;
use crate::put::{PutFile, push_files};
use crate::rule_texts::RuleTexts;
use crate::verdict::verdict_line;
use rp_plain::reports::ToldReport;
use std::alloc::{AllocError, Global};

/// A schema by its name, with its text.
#[derive(Clone, Copy)]
pub struct SchemaText<'t> {
    pub name: &'t str,
    pub text: &'t [u8],
}

/// Puts the files, what came of each check and the verdict behind a text.
fn push_report(
    alloc: Global,
    out: &mut String,
    sources: &Sources<'_, '_, '_>,
    schema: &str,
    report: &ToldReport,
) -> Result<(), AllocError> {
    push_files(alloc, out, sources.files, schema)?;
    out.push('\n')?;
    for check in report.checks.as_slice() {
        push_check(alloc, out, sources, check)?;
    }
    out.push('\n')?;
    out.push_str(verdict_line(alloc, report)?.as_str())
}

/// What is told of files that were put and validated: of each check so many culprits.
pub fn report_text(
    alloc: Global,
    schema: SchemaText<'_>,
    files: &[PutFile<'_>],
    report: &ToldReport,
    most: usize,
) -> Result<String, AllocError> {
    let marks = marks_of(alloc, files, report, most)?;
    let rules = RuleTexts::of(alloc, schema.text)?;
    let sources = Sources {
        rules,
        files,
        marks,
        most,
    };
    let mut out = String::new(alloc);
    push_report(alloc, &mut out, &sources, schema.name, report)?;
    Ok(out)
}
