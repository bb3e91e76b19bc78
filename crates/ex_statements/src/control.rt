//! What governs the turns of a REPEAT.

ghost use Rattle.std.specs.Prelude.{◌≡◌};
ghost use Rattle.text_forms.specs.Reads.{Reads, Takes, Keeps};
ghost use Rattle.ex_tree.specs.declared.kind.TokenKind.TheVariants as k;
ghost use Rattle.ex_forms.specs.Input.{optional, sees};
ghost use Rattle.ex_statements.specs.Statements as spec;

use ex_expressions::{expression, simple_expression};
use ex_forms::{Cursor, Read, TokenKind, name};
use ex_tree::{Expression, Increment, RepeatControl};
use std::alloc::Global;

/// What follows BY, if it stands next.
#[tactic(auto, unfolding(crate::specs::Statements::increment))]
fn increment(alloc: Global, cursor: &mut Cursor<'_>, levels: u8) -> Read<Option<Expression>>
    ensures reads { Reads (optional (sees k.By) (spec.increment levels) cursor.old) result cursor.new }
    ensures keeps { Keeps result cursor.old cursor.new }
{
    if !cursor.sees(TokenKind::By) {
        return Ok(None);
    }
    cursor.expect(TokenKind::By)?;
    Ok(Some(simple_expression(alloc, cursor, levels)?))
}

#[tactic(auto, unfolding(crate::specs::Statements::increment_control))]
fn increment_control(alloc: Global, cursor: &mut Cursor<'_>, levels: u8) -> Read<Increment>
    ensures reads { Reads (spec.increment_control levels cursor.old) result cursor.new }
    ensures takes { Takes result cursor.old cursor.new }
{
    let variable = name(alloc, cursor)?;
    cursor.expect(TokenKind::Becomes)?;
    let first = simple_expression(alloc, cursor, levels)?;
    cursor.expect(TokenKind::To)?;
    let last = simple_expression(alloc, cursor, levels)?;
    let step = increment(alloc, cursor, levels)?;
    Ok(Increment {
        variable,
        first,
        last,
        step,
    })
}

/// An increment control, if one begins here.
fn increment_option(alloc: Global, cursor: &mut Cursor<'_>, levels: u8) -> Read<Option<Increment>>
    ensures reads { Reads (optional (sees k.Identifier) (spec.increment_control levels) cursor.old) result cursor.new }
    ensures keeps { Keeps result cursor.old cursor.new }
{
    if !cursor.sees(TokenKind::Identifier) {
        return Ok(None);
    }
    Ok(Some(increment_control(alloc, cursor, levels)?))
}

/// The condition after this word, if it stands next.
#[tactic(auto, unfolding(crate::specs::Statements::condition))]
fn condition(
    alloc: Global,
    cursor: &mut Cursor<'_>,
    word: TokenKind,
    levels: u8,
) -> Read<Option<Expression>>
    ensures reads { Reads (optional (sees word) (spec.condition word levels) cursor.old) result cursor.new }
    ensures keeps { Keeps result cursor.old cursor.new }
{
    if !cursor.sees(word) {
        return Ok(None);
    }
    cursor.expect(word)?;
    Ok(Some(expression(alloc, cursor, levels)?))
}

#[tactic(auto, unfolding(crate::specs::Statements::repeat_control))]
pub fn repeat_control(alloc: Global, cursor: &mut Cursor<'_>, levels: u8) -> Read<RepeatControl>
    ensures reads { Reads (spec.repeat_control levels cursor.old) result cursor.new }
    ensures keeps { Keeps result cursor.old cursor.new }
{
    let increment = increment_option(alloc, cursor, levels)?;
    let while_condition = condition(alloc, cursor, TokenKind::While, levels)?;
    let until_condition = condition(alloc, cursor, TokenKind::Until, levels)?;
    Ok(RepeatControl {
        increment,
        while_condition,
        until_condition,
    })
}
