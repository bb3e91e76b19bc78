//! The words for verdicts and for what is checked.
use rp_meaning::Verdict;
use rp_plain::reports::CheckKind;

/// A verdict.
pub(crate) fn word_of_verdict(verdict: Verdict) -> &'static str {
    match verdict {
        Verdict::True => "TRUE",
        Verdict::False => "FALSE",
        Verdict::Unknown => "UNKNOWN",
        Verdict::Limit => "LIMIT",
        Verdict::NotRun => "NOT_RUN",
    }
}

/// What is checked.
pub(crate) fn word_of_kind(kind: CheckKind) -> &'static str {
    match kind {
        CheckKind::Unset => "unset",
        CheckKind::Bounds => "bounds",
        CheckKind::Reference => "reference",
        CheckKind::Type => "type",
        CheckKind::Where => "where",
        CheckKind::Unique => "unique",
        CheckKind::Inverse => "inverse",
        CheckKind::Rule => "rule",
    }
}

/// What a verdict says of culprits.
pub(crate) fn heading_of(verdict: Verdict) -> &'static str {
    match verdict {
        Verdict::True => "kept",
        Verdict::False => "violated",
        Verdict::Unknown => "can't be told",
        Verdict::Limit => "not decided within the limit of steps",
        Verdict::NotRun => "not begun for want of steps",
    }
}

/// What a verdict says of a rule over all instances.
pub(crate) fn together_of(verdict: Verdict) -> &'static str {
    match verdict {
        Verdict::False => "violated by all files together",
        Verdict::Unknown => "can't be told of all files together",
        _ => heading_of(verdict),
    }
}
