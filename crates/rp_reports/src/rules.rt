//! The names of rules.

ghost use Rattle.std.specs.Prelude.{◌≡◌, ◌+◌, ◌∷◌, ◌<◌, decimal, option_copied, IfOk};
ghost use Rattle.rp_meaning.specs.declared.report.Constraint.TheVariants as c;
ghost use Rattle.rp_plain.specs.Reports as spec;

use ex_named::{NamedDomainRule, NamedInverse, NamedUniqueRule};
use ex_tree::Name;
use ex_types::CheckedSchema;
use plain_data::Text;
use rp_meaning::Constraint;
use rp_plain::reports::{CheckKind, RuleName};
use sqlite_items::at;
use std::alloc::{AllocError, Global};

pub(crate) fn kind_of(constraint: Constraint) -> CheckKind
    ensures { result ≡ spec.kind_of constraint }
{
    match constraint {
        Constraint::Unset => CheckKind::Unset,
        Constraint::Bounds => CheckKind::Bounds,
        Constraint::Reference => CheckKind::Reference,
        Constraint::Type(_, _) => CheckKind::Type,
        Constraint::Where(_, _) => CheckKind::Where,
        Constraint::Unique(_, _) => CheckKind::Unique,
        Constraint::Inverse(_, _) => CheckKind::Inverse,
        Constraint::Rule(_, _) => CheckKind::Rule,
    }
}

/// `#` and a number.
fn numbered(alloc: Global, number: usize) -> Result<Text, AllocError>
    ensures { IfOk result (λ text. text ≡ 35 ∷ decimal number) }
{
    Ok(Text::new(format!(in alloc; "#{number}")?))
}

/// What a rule at a place of its clause is called.
fn label_text(alloc: Global, label: Option<&Name>, place: usize) -> Result<Text, AllocError>
    requires { place < usize.MAX }
    ensures { IfOk result (λ text. text ≡ spec.label_text (option_copied label.entry) place) }
{
    match label {
        Some(label) => Text::from_str(alloc, label.text.as_str()),
        None => numbered(alloc, place + 1),
    }
}

fn domain_label(
    alloc: Global,
    rules: &[NamedDomainRule],
    place: usize,
) -> Result<Option<Text>, AllocError>
    ensures { IfOk result (λ label. label ≡ spec.domain_label rules.now place) }
{
    match at(rules, place) {
        None => Ok(None),
        Some(rule) => Ok(Some(label_text(alloc, rule.label.as_ref(), place)?)),
    }
}

fn unique_label(
    alloc: Global,
    rules: &[NamedUniqueRule],
    place: usize,
) -> Result<Option<Text>, AllocError>
    ensures { IfOk result (λ label. label ≡ spec.unique_label rules.now place) }
{
    match at(rules, place) {
        None => Ok(None),
        Some(rule) => Ok(Some(label_text(alloc, rule.label.as_ref(), place)?)),
    }
}

fn inverse_label(
    alloc: Global,
    inverse: &[NamedInverse],
    place: usize,
) -> Result<Option<Text>, AllocError>
    ensures { IfOk result (λ label. label ≡ spec.inverse_label inverse.now place) }
{
    match at(inverse, place) {
        None => Ok(None),
        Some(attribute) => Ok(Some(Text::from_str(alloc, attribute.name.text.as_str())?)),
    }
}

/// What declares a rule, and its label there.
fn named_rule(alloc: Global, of: &Name, label: Option<Text>) -> Result<Option<RuleName>, AllocError>
    ensures { IfOk result (λ name. name ≡ spec.named_rule of.now label) }
{
    match label {
        None => Ok(None),
        Some(rule) => {
            let of = Text::from_str(alloc, of.text.as_str())?;
            Ok(Some(RuleName { of, rule }))
        }
    }
}

fn rule_of_type(
    alloc: Global,
    schema: &CheckedSchema,
    number: usize,
    place: usize,
) -> Result<Option<RuleName>, AllocError>
    ensures { IfOk result (λ name. name ≡ spec.rule_of schema.now (c.Type number place)) }
{
    match at(schema.types(), number) {
        None => Ok(None),
        Some(declared) => {
            let label = domain_label(alloc, declared.domain_rules.as_slice(), place)?;
            named_rule(alloc, &declared.name, label)
        }
    }
}

fn rule_of_entity(
    alloc: Global,
    schema: &CheckedSchema,
    number: usize,
    place: usize,
) -> Result<Option<RuleName>, AllocError>
    ensures { IfOk result (λ name. name ≡ spec.rule_of schema.now (c.Where number place)) }
{
    match at(schema.entities(), number) {
        None => Ok(None),
        Some(entity) => {
            let label = domain_label(alloc, entity.domain_rules.as_slice(), place)?;
            named_rule(alloc, &entity.name, label)
        }
    }
}

fn unique_rule(
    alloc: Global,
    schema: &CheckedSchema,
    number: usize,
    place: usize,
) -> Result<Option<RuleName>, AllocError>
    ensures { IfOk result (λ name. name ≡ spec.rule_of schema.now (c.Unique number place)) }
{
    match at(schema.entities(), number) {
        None => Ok(None),
        Some(entity) => {
            let label = unique_label(alloc, entity.unique_rules.as_slice(), place)?;
            named_rule(alloc, &entity.name, label)
        }
    }
}

fn inverse_rule(
    alloc: Global,
    schema: &CheckedSchema,
    number: usize,
    place: usize,
) -> Result<Option<RuleName>, AllocError>
    ensures { IfOk result (λ name. name ≡ spec.rule_of schema.now (c.Inverse number place)) }
{
    match at(schema.entities(), number) {
        None => Ok(None),
        Some(entity) => {
            let label = inverse_label(alloc, entity.inverse.as_slice(), place)?;
            named_rule(alloc, &entity.name, label)
        }
    }
}

fn global_rule(
    alloc: Global,
    schema: &CheckedSchema,
    number: usize,
    place: usize,
) -> Result<Option<RuleName>, AllocError>
    ensures { IfOk result (λ name. name ≡ spec.rule_of schema.now (c.Rule number place)) }
{
    match at(schema.rules(), number) {
        None => Ok(None),
        Some(rule) => {
            let label = domain_label(alloc, rule.domain_rules.as_slice(), place)?;
            named_rule(alloc, &rule.name, label)
        }
    }
}

/// The names of what is checked; none where all attributes are.
pub(crate) fn rule_of(
    alloc: Global,
    schema: &CheckedSchema,
    constraint: Constraint,
) -> Result<Option<RuleName>, AllocError>
    ensures { IfOk result (λ name. name ≡ spec.rule_of schema.now constraint) }
{
    match constraint {
        Constraint::Unset | Constraint::Bounds | Constraint::Reference => Ok(None),
        Constraint::Type(number, place) => rule_of_type(alloc, schema, number, place),
        Constraint::Where(number, place) => rule_of_entity(alloc, schema, number, place),
        Constraint::Unique(number, place) => unique_rule(alloc, schema, number, place),
        Constraint::Inverse(number, place) => inverse_rule(alloc, schema, number, place),
        Constraint::Rule(number, place) => global_rule(alloc, schema, number, place),
    }
}
