//! Constants.

ghost use Rattle.std.specs.Prelude.{◌≡◌, []};
ghost use Rattle.ex_named.specs.Outcomes.{Binds};
ghost use Rattle.ex_bind_algorithms.specs.Algorithms as spec;

use crate::variables::frame_of;
use ancestors::Family;
use ex_bind::{copy_name, data_type, expression};
use ex_named::{Binding, NamedConstant, both};
use ex_scopes::{Declarations, Scope};
use ex_tree::Constant;
use name_tables::SortedNames;
use std::alloc::Global;
use std::collections::BTreeSet;

/// A constant with its names bound. Its value stands in the schema's own scope.
pub fn constant(
    alloc: Global,
    declarations: &Declarations<'_>,
    constant: &Constant,
) -> Binding<NamedConstant>
    ensures { Binds result (spec.constant declarations.now constant.now) }
{
    let no_variables = frame_of(alloc, &[])?;
    constant_over(alloc, declarations, &no_variables, constant)
}

#[tactic(auto, unfolding(crate::specs::Algorithms::constant))]
fn constant_over(
    alloc: Global,
    declarations: &Declarations<'_>,
    no_variables: &SortedNames<'_>,
    constant: &Constant,
) -> Binding<NamedConstant>
    requires { no_variables.now ≡ [] }
    ensures { Binds result (spec.constant declarations.now constant.now) }
{
    let none = BTreeSet::new(alloc);
    let nobody = Family::nobody();
    let scope = Scope::new(alloc, no_variables, false, &nobody, &none);
    let data_type = data_type(alloc, declarations, &constant.data_type);
    let value = expression(alloc, declarations, &scope, &constant.value);
    let (data_type, value) = both(data_type, value)?;
    Ok(NamedConstant {
        name: copy_name(alloc, &constant.name)?,
        data_type,
        value,
    })
}
