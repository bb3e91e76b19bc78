//! Constants.

ghost use Rattle.std.specs.Prelude.{◌≡◌, IfOk};
ghost use Rattle.ex_types.specs.Declarations as spec;

use ex_kinds::{TypeFault, either, kinds_of};
use ex_named::NamedConstant;
use ex_typing::{Known, TypingScope};
use ex_typing_statements::assigned;
use std::alloc::{AllocError, Global};

/// The value fits the declared type.
#[tactic(auto, unfolding(crate::specs::Declarations::constant))]
fn constant(
    alloc: Global,
    schema: &Known,
    constant: &NamedConstant,
) -> Result<Option<TypeFault>, AllocError>
    ensures { IfOk result (λ told. told ≡ spec.constant schema.now constant.now) }
{
    let kinds = kinds_of(alloc, &constant.data_type)?;
    let scope = TypingScope::new(alloc, None, &[], &[], &[]);
    assigned(
        alloc,
        schema,
        &scope,
        kinds.as_slice(),
        constant.name.at,
        &constant.value,
    )
}

/// The fault that is told of constants.
pub fn all_constants(
    alloc: Global,
    schema: &Known,
    constants: &[NamedConstant],
) -> Result<Option<TypeFault>, AllocError>
    ensures { IfOk result (λ told. told ≡ spec.told (spec.constant schema.now) constants.now) }
{
    let mut found = None;
    for each in constants {
        let told = constant(alloc, schema, each)?;
        found = either(found, told);
    }
    Ok(found)
}
