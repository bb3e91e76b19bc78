//! The names that a schema's own scope declares.

ghost use Rattle.std.specs.Prelude.{◌≡◌, ◌+◌, ◌<◌, ◌^◌, map, IfOk};
ghost use Rattle.ex_declarations.specs.Declared as spec;
ghost use Rattle.ex_declarations.specs.Steps.{rows_of};

use ex_named::Declared;
use ex_tree::{Declaration, Name, Schema};
use std::alloc::{AllocError, Global};

/// The number, which is then one greater.
fn next(count: &mut usize) -> usize
    requires { count.old < 2 ^ 63 }
    ensures number { result ≡ count.old }
    ensures greater { count.new ≡ count.old + 1 }
{
    let number = *count;
    *count = number + 1;
    number
}

/// The names that a schema's own scope declares, in the order of the text, each with what it declares.
pub(crate) fn own_names<'a>(
    alloc: Global,
    schema: &'a Schema,
) -> Result<Vec<(&'a Name, Declared)>, AllocError>
    ensures { IfOk result (λ found. rows_of found.items ≡ spec.declared_names schema.now) }
{
    let mut rows = Vec::new(alloc);
    for (number, constant) in schema.constants.as_slice().iter().enumerate() {
        rows.push((&constant.name, Declared::Constant(number)))?;
    }
    let (mut types, mut entities, mut functions, mut rules) = (0, 0, 0, 0);
    for declaration in schema.declarations.as_slice() {
        rows.push(match declaration {
            Declaration::Entity(entity) => {
                (&entity.head.name, Declared::Entity(next(&mut entities)))
            },
            Declaration::Function(function) => {
                (
                    &function.head.name,
                    Declared::Function(next(&mut functions)),
                )
            },
            Declaration::Rule(rule) => (&rule.head.name, Declared::Rule(next(&mut rules))),
            Declaration::Type(declared) => (&declared.name, Declared::Type(next(&mut types))),
        })?;
    }
    Ok(rows)
}

/// The names that a schema's own scope declares, in the order of the text.
pub fn declared_names<'a>(alloc: Global, schema: &'a Schema) -> Result<Vec<&'a Name>, AllocError>
    ensures { IfOk result (λ found. map (λ n. n.now) found.items ≡ map (λ r. r.0) (spec.declared_names schema.now)) }
{
    let rows = own_names(alloc, schema)?;
    let mut names = Vec::with_capacity(alloc, rows.len())?;
    for (name, _) in &rows {
        names.push(*name)?;
    }
    Ok(names)
}
