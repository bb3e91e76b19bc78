//! The texts of rules, as their schema has them.
use ex_lex::{Failure, TokenList, tokens};
use rp_plain::reports::{CheckKind, RuleName, ToldCheck};
use source_texts::{Clause, push_rule, rule_of};
use std::alloc::{AllocError, Global};

/// A schema's text, and its tokens, if it has any.
#[derive(Drop)]
pub(crate) struct RuleTexts<'s> {
    text: &'s [u8],
    tokens: Option<TokenList<'s>>,
}

impl<'s> RuleTexts<'s> {
    pub(crate) fn of(alloc: Global, text: &'s [u8]) -> Result<RuleTexts<'s>, AllocError> {
        let tokens = match tokens(alloc, text) {
            Ok(found) => Some(found),
            Err(Failure::Fault(_)) => None,
            Err(Failure::NoMemory) => return Err(AllocError),
        };
        Ok(RuleTexts { text, tokens })
    }

    /// Puts the text of the check's rule behind another, in lines behind this margin. Nothing where it has none of its own.
    pub(crate) fn push(
        &self,
        out: &mut String,
        margin: &str,
        check: &ToldCheck,
    ) -> Result<(), AllocError> {
        match (clause_of(check.kind), &check.rule) {
            (Some(clause), Some(rule)) => self.push_named(out, margin, clause, rule),
            _ => Ok(()),
        }
    }

    fn push_named(
        &self,
        out: &mut String,
        margin: &str,
        clause: Clause,
        rule: &RuleName,
    ) -> Result<(), AllocError> {
        let Some(tokens) = &self.tokens else {
            return Ok(());
        };
        match rule_of(
            tokens.as_slice(),
            clause,
            rule.of.as_str(),
            rule.rule.as_str(),
        ) {
            Some(tokens) => push_rule(out, margin, self.text, tokens),
            None => Ok(()),
        }
    }
}

/// The clause of a schema that has the rules of a check, if it has any.
fn clause_of(kind: CheckKind) -> Option<Clause> {
    match kind {
        CheckKind::Unset | CheckKind::Bounds | CheckKind::Reference => None,
        CheckKind::Type => Some(Clause::Type),
        CheckKind::Where => Some(Clause::Entity),
        CheckKind::Unique => Some(Clause::Unique),
        CheckKind::Inverse => Some(Clause::Inverse),
        CheckKind::Rule => Some(Clause::Rule),
    }
}
