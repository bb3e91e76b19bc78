//! Defined types.

ghost use Rattle.std.specs.Prelude.{◌≡◌, IfOk};
ghost use Rattle.ex_types.specs.Declarations as spec;

use crate::rules::domain_rules;
use ex_kinds::{Sort, TypeFault, either, kinds_of_one};
use ex_named::NamedType;
use ex_typing::{Known, TypingScope};
use std::alloc::{AllocError, Global};

/// SELF is of the type.
#[tactic(auto, unfolding(crate::specs::Declarations::defined_type))]
fn defined_type(
    alloc: Global,
    schema: &Known,
    number: usize,
    declared: &NamedType,
) -> Result<Option<TypeFault>, AllocError>
    ensures { IfOk result (λ told. told ≡ spec.defined_type schema.now number declared.now) }
{
    let itself = kinds_of_one(alloc, Sort::Defined(number))?;
    let scope = TypingScope::new(alloc, None, itself.as_slice(), &[], &[]);
    domain_rules(alloc, schema, &scope, declared.domain_rules.as_slice())
}

/// The fault that is told of defined types.
pub fn all_types(
    alloc: Global,
    schema: &Known,
    types: &[NamedType],
) -> Result<Option<TypeFault>, AllocError>
    ensures { IfOk result (λ told. told ≡ spec.told_numbered (spec.defined_type schema.now) types.now) }
{
    let mut found = None;
    for (number, declared) in types.iter().enumerate() {
        let told = defined_type(alloc, schema, number, declared)?;
        found = either(found, told);
    }
    Ok(found)
}
