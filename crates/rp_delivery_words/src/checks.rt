//! What is told of a check.
use crate::marks::{Marks, front, place_of};
use crate::put::PutFile;
use crate::rule_texts::RuleTexts;
use crate::words::{heading_of, together_of, word_of_kind, word_of_verdict};
use rp_meaning::Verdict;
use rp_plain::reports::{CheckKind, ToldCheck, ToldCulprit};
use source_texts::{push_keywords, push_path};
use std::alloc::{AllocError, Global};

/// What stands before the lines below a check.
const MARGIN: &str = "         ";

/// What a check is told by.
#[derive(Drop)]
pub(crate) struct Sources<'s, 'f, 'p> {
    pub rules: RuleTexts<'s>,
    pub files: &'f [PutFile<'p>],
    pub marks: Vec<Marks>,
    /// How many culprits are told of a check.
    pub most: usize,
}

/// Puts a check behind a text; of one that isn't TRUE with the text of its rule and its culprits.
pub(crate) fn push_check(
    alloc: Global,
    out: &mut String,
    sources: &Sources<'_, '_, '_>,
    check: &ToldCheck,
) -> Result<(), AllocError> {
    push_head(alloc, out, check)?;
    if check.verdict == Verdict::True {
        return Ok(());
    }
    sources.rules.push(out, MARGIN, check)?;
    if check.kind == CheckKind::Rule {
        return push_together(alloc, out, check.verdict);
    }
    push_lists(alloc, out, sources, check)
}

/// The verdict, the check and the names of its rule.
fn push_head(alloc: Global, out: &mut String, check: &ToldCheck) -> Result<(), AllocError> {
    let head = format!(in alloc;
        "{:<9}{}",
        word_of_verdict(check.verdict),
        word_of_kind(check.kind)
    )?;
    out.push_str(head.as_str())?;
    if let Some(rule) = &check.rule {
        out.push(' ')?;
        out.push_str(rule.of.as_str())?;
        out.push(' ')?;
        out.push_str(rule.rule.as_str())?;
    }
    out.push('\n')
}

/// What the verdict says of a rule over all instances.
fn push_together(alloc: Global, out: &mut String, verdict: Verdict) -> Result<(), AllocError> {
    let line = format!(in alloc; "{MARGIN}{}\n", together_of(verdict))?;
    out.push_str(line.as_str())
}

/// The culprits by their verdicts, those that violate the rule first.
fn push_lists(
    alloc: Global,
    out: &mut String,
    sources: &Sources<'_, '_, '_>,
    check: &ToldCheck,
) -> Result<(), AllocError> {
    let most = sources.most;
    let left = push_list(
        alloc,
        out,
        sources,
        Verdict::False,
        check.violating.as_slice(),
        most,
    )?;
    let left = push_list(
        alloc,
        out,
        sources,
        Verdict::Limit,
        check.limited.as_slice(),
        left,
    )?;
    let left = push_list(
        alloc,
        out,
        sources,
        Verdict::NotRun,
        check.not_run.as_slice(),
        left,
    )?;
    push_list(
        alloc,
        out,
        sources,
        Verdict::Unknown,
        check.unknown.as_slice(),
        left,
    )?;
    Ok(())
}

/// The culprits of one verdict, as many as may be told. Answers how many more may be.
fn push_list(
    alloc: Global,
    out: &mut String,
    sources: &Sources<'_, '_, '_>,
    verdict: Verdict,
    culprits: &[ToldCulprit],
    left: usize,
) -> Result<usize, AllocError> {
    if culprits.is_empty() {
        return Ok(left);
    }
    let heading = heading_of(verdict);
    let line = format!(in alloc; "{MARGIN}{heading}: {}\n", culprits.len())?;
    out.push_str(line.as_str())?;
    let told = front(culprits, left);
    for culprit in told {
        push_culprit(alloc, out, sources, culprit)?;
    }
    let more = culprits.len().saturating_sub(told.len());
    if more > 0 {
        let line = format!(in alloc; "{MARGIN}  and {more} more (--all shows them)\n")?;
        out.push_str(line.as_str())?;
    }
    Ok(left.saturating_sub(told.len()))
}

/// The file, the line and the name of a culprit, with its keywords and its attribute.
fn push_culprit(
    alloc: Global,
    out: &mut String,
    sources: &Sources<'_, '_, '_>,
    culprit: &ToldCulprit,
) -> Result<(), AllocError> {
    let place = place_of(culprit.model.get());
    let Some(file) = sources.files.get(place) else {
        return Ok(());
    };
    out.push_str(MARGIN)?;
    out.push_str("  ")?;
    push_path(alloc, out, file.path)?;
    let found = match sources.marks.get(place) {
        Some(marks) => marks.definition(culprit.instance),
        None => None,
    };
    if let Some(found) = found {
        let name = format!(in alloc; " line {}: #{}=", found.line, culprit.instance)?;
        out.push_str(name.as_str())?;
        push_keywords(out, file.text.as_bytes().get(found.behind..).unwrap_or(&[]))?;
    }
    if let Some(attribute) = &culprit.attribute {
        out.push_str(", ")?;
        out.push_str(attribute.get().as_str())?;
    }
    out.push('\n')
}
