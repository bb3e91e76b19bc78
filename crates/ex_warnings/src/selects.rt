//! The names of the types that are SELECTs.

ghost use Rattle.std.specs.Prelude.{◌≡◌, IfOk};
ghost use Rattle.ex_warnings.specs.Selects as spec;

use ex_named::NamedType;
use ex_renamings::Renamings;
use name_tables::NameTable;
use std::alloc::{AllocError, Global};

/// The names of the types that are SELECTs.
#[tactic(auto, unfolding(crate::specs::Selects::select_names))]
pub(crate) fn select_names<'a>(
    alloc: Global,
    types: &'a [NamedType],
) -> Result<NameTable<'a>, AllocError>
    ensures { IfOk result (λ names. names ≡ spec.select_names types.now) }
{
    let renamings = Renamings::of(alloc, types)?;
    let mut names = NameTable::new(alloc);
    for (number, declared) in types.iter().enumerate() {
        if renamings.is_select(number) {
            names.push(declared.name.text.as_bytes())?;
        }
    }
    Ok(names)
}
