//! All that a schema declares.

ghost use Rattle.std.specs.Prelude.{◌≡◌, IfOk};
ghost use Rattle.ex_types.specs.Declarations as spec;

use crate::algorithms::{all_functions, all_rules};
use crate::constants::all_constants;
use crate::defined_types::all_types;
use crate::entities::all_entities;
use ex_kinds::{TypeFault, either};
use ex_named::NamedSchema;
use ex_typing::Known;
use std::alloc::{AllocError, Global};

/// The fault that is told of a schema's declarations: the one of least offset.
#[tactic(auto, unfolding(crate::specs::Declarations::declarations))]
pub fn fault_of(
    alloc: Global,
    known: &Known,
    schema: &NamedSchema,
) -> Result<Option<TypeFault>, AllocError>
    ensures { IfOk result (λ told. told ≡ spec.declarations known.now schema.now) }
{
    let constants = all_constants(alloc, known, schema.constants.as_slice())?;
    let types = all_types(alloc, known, schema.types.as_slice())?;
    let entities = all_entities(alloc, known, schema.entities.as_slice())?;
    let functions = all_functions(alloc, known, schema.functions.as_slice())?;
    let rules = all_rules(alloc, known, schema.rules.as_slice())?;
    let algorithms = either(functions, rules);
    Ok(either(either(constants, types), either(entities, algorithms)))
}
