//! Statements that hold no others.

ghost use Rattle.std.specs.Prelude.{◌≡◌};
ghost use Rattle.text_forms.specs.Reads.{Reads, Takes};
ghost use Rattle.ex_statements.specs.Statements as spec;

use ex_expressions::expression;
use ex_forms::{Cursor, Read, TokenKind, name};
use ex_tree::Statement;
use std::alloc::Global;

#[tactic(auto, unfolding(crate::specs::Statements::assignment_stmt))]
pub fn assignment(alloc: Global, cursor: &mut Cursor<'_>, levels: u8) -> Read<Statement>
    ensures reads { Reads (spec.assignment_stmt levels cursor.old) result cursor.new }
    ensures takes { Takes result cursor.old cursor.new }
{
    let variable = name(alloc, cursor)?;
    cursor.expect(TokenKind::Becomes)?;
    let value = expression(alloc, cursor, levels)?;
    cursor.expect(TokenKind::Semicolon)?;
    Ok(Statement::Assignment(variable, value))
}

#[tactic(auto, unfolding(crate::specs::Statements::escape_stmt))]
pub fn escape(cursor: &mut Cursor<'_>) -> Read<Statement>
    ensures reads { Reads (spec.escape_stmt cursor.old) result cursor.new }
    ensures takes { Takes result cursor.old cursor.new }
{
    cursor.expect(TokenKind::Escape)?;
    cursor.expect(TokenKind::Semicolon)?;
    Ok(Statement::Escape)
}

#[tactic(auto, unfolding(crate::specs::Statements::null_stmt))]
pub fn null(cursor: &mut Cursor<'_>) -> Read<Statement>
    ensures reads { Reads (spec.null_stmt cursor.old) result cursor.new }
    ensures takes { Takes result cursor.old cursor.new }
{
    cursor.expect(TokenKind::Semicolon)?;
    Ok(Statement::Null)
}

#[tactic(auto, unfolding(crate::specs::Statements::return_stmt))]
pub fn return_value(alloc: Global, cursor: &mut Cursor<'_>, levels: u8) -> Read<Statement>
    ensures reads { Reads (spec.return_stmt levels cursor.old) result cursor.new }
    ensures takes { Takes result cursor.old cursor.new }
{
    let at = cursor.expect(TokenKind::Return)?.at;
    cursor.enter(levels, TokenKind::OpenParenthesis)?;
    let value = expression(alloc, cursor, levels - 1)?;
    cursor.expect(TokenKind::CloseParenthesis)?;
    cursor.expect(TokenKind::Semicolon)?;
    Ok(Statement::Return(at, value))
}

#[tactic(auto, unfolding(crate::specs::Statements::skip_stmt))]
pub fn skip(cursor: &mut Cursor<'_>) -> Read<Statement>
    ensures reads { Reads (spec.skip_stmt cursor.old) result cursor.new }
    ensures takes { Takes result cursor.old cursor.new }
{
    cursor.expect(TokenKind::Skip)?;
    cursor.expect(TokenKind::Semicolon)?;
    Ok(Statement::Skip)
}
