//! The reports of validations.

ghost use Rattle.std.specs.Prelude.{◌≡◌, [], ◌∷◌, ◌++◌, codes, option_copied, OnOk};
ghost use Rattle.json.specs.Token.{begin_object, key as key_token, string as string_token};
ghost use Rattle.rp_json.specs.Written.{list_of};
ghost use Rattle.rp_json.specs.Tokens.{tokens_of};
ghost use Rattle.rp_replies.specs.Replies.{check_word, verdict_word, culprit_data, check_data};
ghost use Rattle.rp_replies.specs.Tokens.{culprits_tokens, rule_tokens, text_tokens};

use json::Writer;
use plain_data::Text;
use rp_json::string_at;
use rp_meaning::Verdict;
use rp_plain::reports::{CheckKind, RuleName, ToldCheck, ToldCulprit};
use shared::Shared;
use std::alloc::AllocError;

/// The checks of a report.
pub(crate) fn write_checks(out: &mut Writer, checks: &[ToldCheck]) -> Result<(), AllocError>
    ensures ok { OnOk result (out.new.tokens ≡ out.old.tokens ++ tokens_of (list_of check_data checks.now)) }
    ensures before { out.new.before ≡ out.old.before }
{
    out.begin_array()?;
    for check in checks {
        write_check(out, check)?;
    }
    out.end_array()
}

fn write_check(out: &mut Writer, check: &ToldCheck) -> Result<(), AllocError>
    ensures ok { OnOk result (out.new.tokens ≡ out.old.tokens ++ tokens_of (check_data check.now)) }
    ensures before { out.new.before ≡ out.old.before }
{
    out.begin_object()?;
    string_at(out, "check", word_of_kind(check.kind))?;
    write_violations(out, check)?;
    write_rule(out, check.rule.as_ref())?;
    write_culprits(out, "unknown", check.unknown.as_slice())?;
    string_at(out, "verdict", word_of_verdict(check.verdict))?;
    out.end_object()
}

/// The culprits of all verdicts but UNKNOWN.
fn write_violations(out: &mut Writer, check: &ToldCheck) -> Result<(), AllocError>
    ensures ok { OnOk result (out.new.tokens ≡ out.old.tokens ++ (culprits_tokens (codes "false") check.now.violating ++ culprits_tokens (codes "limit") check.now.limited ++ culprits_tokens (codes "not_run") check.now.not_run)) }
    ensures before { out.new.before ≡ out.old.before }
{
    write_culprits(out, "false", check.violating.as_slice())?;
    write_culprits(out, "limit", check.limited.as_slice())?;
    write_culprits(out, "not_run", check.not_run.as_slice())
}

/// What declares a rule and what it is called there, if it is one.
fn write_rule(out: &mut Writer, rule: Option<&RuleName>) -> Result<(), AllocError>
    ensures ok { OnOk result (out.new.tokens ≡ out.old.tokens ++ rule_tokens (option_copied rule.entry)) }
    ensures before { out.new.before ≡ out.old.before }
{
    match rule {
        None => Ok(()),
        Some(rule) => {
            string_at(out, "of", rule.of.as_str())?;
            string_at(out, "rule", rule.rule.as_str())
        }
    }
}

/// Culprits at a key, if there are any.
fn write_culprits(out: &mut Writer, key: &str, culprits: &[ToldCulprit]) -> Result<(), AllocError>
    ensures ok { OnOk result (out.new.tokens ≡ out.old.tokens ++ culprits_tokens key.now culprits.now) }
    ensures before { out.new.before ≡ out.old.before }
{
    if culprits.is_empty() {
        return Ok(());
    }
    out.key(key)?;
    write_each(out, culprits)
}

fn write_each(out: &mut Writer, culprits: &[ToldCulprit]) -> Result<(), AllocError>
    ensures ok { OnOk result (out.new.tokens ≡ out.old.tokens ++ tokens_of (list_of culprit_data culprits.now)) }
    ensures before { out.new.before ≡ out.old.before }
{
    out.begin_array()?;
    for culprit in culprits {
        write_culprit(out, culprit)?;
    }
    out.end_array()
}

/// A place, and the attribute behind it, if one is told.
fn write_culprit(out: &mut Writer, culprit: &ToldCulprit) -> Result<(), AllocError>
    ensures ok { OnOk result (out.new.tokens ≡ out.old.tokens ++ tokens_of (culprit_data culprit.now)) }
    ensures before { out.new.before ≡ out.old.before }
{
    let model = culprit.model.get();
    out.begin_array()?;
    out.string(model.owner.as_str())?;
    out.string(model.name.as_str())?;
    out.u64(culprit.instance)?;
    write_text(out, culprit.attribute.as_ref())?;
    out.end_array()
}

/// A text, if there is one.
fn write_text(out: &mut Writer, text: Option<&Shared<Text>>) -> Result<(), AllocError>
    ensures ok { OnOk result (out.new.tokens ≡ out.old.tokens ++ text_tokens (option_copied text.entry)) }
    ensures before { out.new.before ≡ out.old.before }
{
    match text {
        None => Ok(()),
        Some(text) => out.string(text.get().as_str()),
    }
}

fn word_of_kind(kind: CheckKind) -> &'static str
    ensures { result.now ≡ check_word kind }
{
    match kind {
        CheckKind::Unset => "unset",
        CheckKind::Bounds => "bounds",
        CheckKind::Reference => "reference",
        CheckKind::Type => "type",
        CheckKind::Where => "where",
        CheckKind::Unique => "unique",
        CheckKind::Inverse => "inverse",
        CheckKind::Rule => "rule",
    }
}

fn word_of_verdict(verdict: Verdict) -> &'static str
    ensures { result.now ≡ verdict_word verdict }
{
    match verdict {
        Verdict::True => "TRUE",
        Verdict::False => "FALSE",
        Verdict::Unknown => "UNKNOWN",
        Verdict::Limit => "LIMIT",
        Verdict::NotRun => "NOT_RUN",
    }
}
