//! The lines that tell answers.

use crate::answers::Answer;
use crate::values::{Names, write_text, write_texts, write_value};
use ex_named::NamedDomainRule;
use ex_types::CheckedSchema;
use itoa::Buffer;
use plain_data::Items;
use rp_meaning::{Outcome, Rule};
use std::alloc::{AllocError, Global};

/// `LIMIT OWNER.LABEL ` for the condition at a place of the WHERE clause of an owner of this name; for one without a label `#` and its
/// number there, from 1.
fn write_clause(
    out: &mut Vec<u8>,
    limit: usize,
    owner: &str,
    conditions: &[NamedDomainRule],
    place: usize,
) -> Result<(), AllocError> {
    write_texts(out, &[Buffer::new().format(limit), " ", owner])?;
    match conditions.get(place) {
        Some(
            NamedDomainRule {
                label: Some(label),
                condition: _,
            },
        ) => write_texts(out, &[".", label.text.as_str(), " "]),
        _ => {
            let number = place.saturating_add(1);
            write_texts(out, &[".#", Buffer::new().format(number), " "])
        }
    }
}

/// `LIMIT OWNER.LABEL `
fn write_front(
    out: &mut Vec<u8>,
    limit: usize,
    schema: &CheckedSchema,
    condition: Rule,
) -> Result<(), AllocError> {
    match condition {
        Rule::Entity(number, place) => match schema.entities().get(number) {
            Some(it) => {
                let conditions = it.domain_rules.as_slice();
                write_clause(out, limit, it.name.text.as_str(), conditions, place)
            }
            None => Ok(()),
        },
        Rule::Global(number, place) => match schema.rules().get(number) {
            Some(it) => {
                let conditions = it.domain_rules.as_slice();
                write_clause(out, limit, it.name.text.as_str(), conditions, place)
            }
            None => Ok(()),
        },
        _ => Ok(()),
    }
}

/// `VALUE STEPS`, or `LIMIT`, and the end of the line
fn write_outcome(out: &mut Vec<u8>, names: Names<'_>, outcome: &Outcome) -> Result<(), AllocError> {
    match outcome {
        Outcome::Value(value, steps) => {
            write_value(out, names, value)?;
            write_texts(out, &[" ", Buffer::new().format(*steps), "\n"])
        }
        Outcome::Limit => write_text(out, "LIMIT\n"),
    }
}

/// `LIMIT OWNER.LABEL SELF VALUE STEPS`, or `LIMIT OWNER.LABEL SELF LIMIT`
fn write_line(
    out: &mut Vec<u8>,
    names: Names<'_>,
    schema: &CheckedSchema,
    answer: &Answer,
) -> Result<(), AllocError> {
    write_front(out, answer.limit, schema, answer.condition)?;
    write_value(out, names, &answer.itself)?;
    write_text(out, " ")?;
    write_outcome(out, names, &answer.outcome)
}

/// `KEPT n`
pub(crate) fn write_kept(out: &mut Vec<u8>, kept: usize) -> Result<(), AllocError> {
    write_texts(out, &["KEPT ", Buffer::new().format(kept), "\n"])
}

/// A line for each answer.
pub(crate) fn lines(
    alloc: Global,
    names: Names<'_>,
    schema: &CheckedSchema,
    answers: &Items<Answer>,
) -> Result<Vec<u8>, AllocError> {
    let mut out = Vec::new(alloc);
    for answer in answers.as_slice() {
        write_line(&mut out, names, schema, answer)?;
    }
    Ok(out)
}
