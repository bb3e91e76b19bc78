//! Functions.

ghost use Rattle.std.specs.Prelude.{◌≡◌, [], ◌++◌, false, map, IfOk};
ghost use Rattle.ex_named.specs.Outcomes.{Binds};
ghost use Rattle.ex_bind_algorithms.specs.Algorithms as spec;

use crate::variables::{
    frame_of, local_variables, parameters, push_local_names, push_parameter_names,
};
use ancestors::Family;
use ex_bind::{copy_name, data_type};
use ex_bind_statements::statements;
use ex_declarations::once;
use ex_named::{Binding, NamedFunction, both};
use ex_scopes::{Declarations, Scope};
use ex_tree::{Function, Name};
use name_tables::SortedNames;
use std::alloc::{AllocError, Global};
use std::collections::BTreeSet;

/// A function with its names bound. Its parameters and locals are one scope.
#[tactic(auto, unfolding(crate::specs::Algorithms::named_function))]
pub fn named_function(
    alloc: Global,
    declarations: &Declarations<'_>,
    function: &Function,
) -> Binding<NamedFunction>
    ensures { Binds result (spec.named_function declarations.now function.now) }
{
    let names = function_names(alloc, function)?;
    let frame = frame_of(alloc, &names)?;
    let once = once(alloc, &names);
    let found = function_over(alloc, declarations, &frame, function);
    let ((), found) = both(once, found)?;
    Ok(found)
}

fn function_names<'a>(alloc: Global, function: &'a Function) -> Result<Vec<&'a Name>, AllocError>
    ensures { IfOk result (λ names. map (λ n. n.now) names.items ≡ spec.parameter_names function.now.head.parameters ++ spec.local_names function.now.locals) }
{
    let mut names = Vec::new(alloc);
    push_parameter_names(&mut names, function.head.parameters.as_slice())?;
    push_local_names(&mut names, function.locals.as_slice())?;
    Ok(names)
}

/// A function whose variables are these.
fn function_over(
    alloc: Global,
    declarations: &Declarations<'_>,
    frame: &SortedNames<'_>,
    function: &Function,
) -> Binding<NamedFunction>
    ensures { Binds result (spec.function_in declarations.now (record { nested = []; frame = frame.now; has_self = false; family = []; populations = [] }) function.now) }
{
    let none = BTreeSet::new(alloc);
    let nobody = Family::nobody();
    let scope = Scope::new(alloc, frame, false, &nobody, &none);
    function_in(alloc, declarations, &scope, function)
}

#[tactic(auto, unfolding(crate::specs::Algorithms::function_in))]
fn function_in(
    alloc: Global,
    declarations: &Declarations<'_>,
    scope: &Scope<'_>,
    function: &Function,
) -> Binding<NamedFunction>
    ensures { Binds result (spec.function_in declarations.now scope.now function.now) }
{
    let head = &function.head;
    let parameters = parameters(alloc, declarations, head.parameters.as_slice());
    let data_type = data_type(alloc, declarations, &head.result);
    let locals = local_variables(alloc, declarations, scope, function.locals.as_slice());
    let statements = statements(alloc, declarations, scope, function.statements.as_slice());
    let heads = both(parameters, data_type);
    let bodies = both(locals, statements);
    let ((parameters, data_type), (locals, statements)) = both(heads, bodies)?;
    Ok(NamedFunction {
        name: copy_name(alloc, &head.name)?,
        parameters,
        result: data_type,
        locals,
        statements,
    })
}
