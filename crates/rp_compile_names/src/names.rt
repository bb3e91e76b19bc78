//! The names of what a schema declares.

ghost use Rattle.std.specs.Prelude.{◌≡◌, map, IfOk};
ghost use Rattle.ex_types.specs.Checked.{entity_names as names_of_entities, type_names as names_of_types};
ghost use Rattle.rp_meaning.specs.CompiledNames as spec;

use ex_named::{NamedEntity, NamedRule, NamedType};
use plain_data::Text;
use std::alloc::{AllocError, Global};

/// `FIRST.SECOND`
pub fn joined(alloc: Global, first: &str, second: &str) -> Result<Text, AllocError>
    ensures { IfOk result (λ text. text ≡ spec.joined first.now second.now) }
{
    let mut text = String::from_str(alloc, first)?;
    text.push_str(".")?;
    text.push_str(second)?;
    Ok(Text::new(text))
}

pub(crate) fn type_names(alloc: Global, types: &[NamedType]) -> Result<Vec<&str>, AllocError>
    ensures { IfOk result (λ names. map (λ n. n.now) names.items ≡ names_of_types types.now) }
{
    let mut names = Vec::new(alloc);
    for declared in types {
        names.push(declared.name.text.as_str())?;
    }
    Ok(names)
}

pub(crate) fn entity_names(alloc: Global, entities: &[NamedEntity]) -> Result<Vec<&str>, AllocError>
    ensures { IfOk result (λ names. map (λ n. n.now) names.items ≡ names_of_entities entities.now) }
{
    let mut names = Vec::new(alloc);
    for entity in entities {
        names.push(entity.name.text.as_str())?;
    }
    Ok(names)
}

pub(crate) fn rule_names(alloc: Global, rules: &[NamedRule]) -> Result<Vec<&str>, AllocError>
    ensures { IfOk result (λ names. map (λ n. n.now) names.items ≡ map (λ x. x.name.text) rules.now) }
{
    let mut names = Vec::new(alloc);
    for rule in rules {
        names.push(rule.name.text.as_str())?;
    }
    Ok(names)
}
