//! What governs a REPEAT.

ghost use Rattle.std.specs.Prelude.{◌≡◌, IfOk};
ghost use Rattle.std.specs.Option.{option_map};
ghost use Rattle.ex_typing_statements.specs.Statements.{in_turn};
ghost use Rattle.rp_meaning.specs.CompiledExpressions as expressions;
ghost use Rattle.rp_compile_trees.specs.Parts as spec;

use crate::declared::Declared;
use crate::made::both;
use crate::trees::expression;
use ex_named::{NamedExpression, NamedIncrement, NamedRepeatControl};
use ex_typing::TypingScope;
use plain_data::Boxed;
use rp_code::{Control, Expression, Increment};
use std::alloc::{AllocError, Global};

/// An expression that may be left out.
fn optional(
    alloc: Global,
    schema: &Declared<'_>,
    scope: &TypingScope<'_>,
    tree: &Option<NamedExpression>,
) -> Result<Option<Expression>, AllocError>
    ensures { IfOk result (λ found. found ≡ option_map (expressions.expression schema.now scope.now) tree.now) }
{
    match tree {
        Some(tree) => Ok(Some(expression(alloc, schema, scope, tree)?)),
        None => Ok(None),
    }
}

fn increment(
    alloc: Global,
    schema: &Declared<'_>,
    scope: &TypingScope<'_>,
    tree: &NamedIncrement,
) -> Result<Increment, AllocError>
    ensures { IfOk result (λ found. found ≡ spec.increment schema.now scope.now tree.now) }
{
    let ends = both(
        expression(alloc, schema, scope, &tree.first),
        expression(alloc, schema, scope, &tree.last),
    );
    let ((first, last), step) = both(ends, optional(alloc, schema, scope, &tree.step))?;
    Ok(Increment { first, last, step })
}

fn optional_increment(
    alloc: Global,
    schema: &Declared<'_>,
    scope: &TypingScope<'_>,
    tree: &Option<NamedIncrement>,
) -> Result<Option<Increment>, AllocError>
    ensures { IfOk result (λ found. found ≡ option_map (spec.increment schema.now scope.now) tree.now) }
{
    match tree {
        Some(tree) => Ok(Some(increment(alloc, schema, scope, tree)?)),
        None => Ok(None),
    }
}

/// What governs a REPEAT in this scope, whose turns stand in the second one.
pub(crate) fn control(
    alloc: Global,
    schema: &Declared<'_>,
    scope: &TypingScope<'_>,
    turn: &TypingScope<'_>,
    tree: &NamedRepeatControl,
) -> Result<Boxed<Control>, AllocError>
    requires { turn.now ≡ in_turn scope.now tree.now.increment }
    ensures { IfOk result (λ found. found ≡ spec.control schema.now scope.now tree.now) }
{
    let conditions = both(
        optional(alloc, schema, turn, &tree.while_condition),
        optional(alloc, schema, turn, &tree.until_condition),
    );
    let increment = optional_increment(alloc, schema, scope, &tree.increment);
    let (increment, (while_condition, until_condition)) = both(increment, conditions)?;
    let control = Control {
        increment,
        while_condition,
        until_condition,
    };
    Boxed::new(alloc, control)
}
