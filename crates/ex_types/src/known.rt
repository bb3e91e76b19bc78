//! What a schema's declarations say of kinds.

ghost use Rattle.std.specs.Prelude.{◌≡◌, IfOk, map};
ghost use Rattle.ex_kinds.specs.Kinds.{of_type};
ghost use Rattle.ex_types.specs.Declarations as spec;

use crate::taken_names::keep_taken;
use crate::variables::parameters;
use ex_attributes::Attributes;
use ex_kinds::{Kinds, Types, kinds_of};
use ex_named::{NamedConstant, NamedFunction, NamedSchema};
use ex_typing::{Known, Signature};
use plain_data::Rows;
use std::alloc::{AllocError, Global};

/// What the constants may be.
fn constant_kinds(alloc: Global, constants: &[NamedConstant]) -> Result<Rows<Kinds>, AllocError>
    ensures { IfOk result (λ found. found ≡ map (λ c. of_type c.data_type) constants.now) }
{
    let mut found = Rows::new(alloc);
    for constant in constants {
        found.push(kinds_of(alloc, &constant.data_type)?)?;
    }
    Ok(found)
}

fn signature(alloc: Global, function: &NamedFunction) -> Result<Signature, AllocError>
    ensures { IfOk result (λ found. found ≡ spec.signature function.now) }
{
    let parameters = parameters(alloc, function.parameters.as_slice())?;
    let result_kinds = kinds_of(alloc, &function.result)?;
    Ok(Signature {
        parameters,
        result: result_kinds,
    })
}

/// What the functions take and give.
fn signatures(alloc: Global, functions: &[NamedFunction]) -> Result<Rows<Signature>, AllocError>
    ensures { IfOk result (λ found. found ≡ map spec.signature functions.now) }
{
    let mut found = Rows::new(alloc);
    for function in functions {
        found.push(signature(alloc, function)?)?;
    }
    Ok(found)
}

/// What the declarations of a schema say of kinds.
#[tactic(auto, unfolding(crate::specs::Declarations::known))]
pub fn known(alloc: Global, schema: &NamedSchema) -> Result<Known, AllocError>
    ensures { IfOk result (λ known. known ≡ spec.known schema.now) }
{
    let types = Types::of(alloc, schema.types.as_slice())?;
    let attributes = Attributes::of(alloc, schema.entities.as_slice())?;
    let constants = constant_kinds(alloc, schema.constants.as_slice())?;
    let functions = signatures(alloc, schema.functions.as_slice())?;
    let mut known = Known::new(alloc, types, attributes, constants, functions);
    keep_taken(alloc, &mut known, schema)?;
    Ok(known)
}
