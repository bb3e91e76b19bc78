//! Operands, and the unary operators before them.

ghost use Rattle.std.specs.Prelude.{◌≡◌, ◌<◌, IsOk};
ghost use Rattle.text_forms.specs.Reads.{Reads, Takes, Keeps};
ghost use Rattle.ex_expressions.specs.Expressions as spec;
ghost use Rattle.ex_expressions.specs.Nests.{NestsBoth};
ghost use Rattle.ex_expressions.specs.Queries as queries;

use crate::grammar::Grammar;
use crate::literals::signed_real;
use crate::operators::{interval_operator, unary_operator};
use ex_forms::{Cursor, Read, TokenKind, name};
use ex_tree::{Expression, Interval, IntervalOperator, Query};
use plain_data::{Boxed, Failure, Items};
use std::alloc::Global;

fn begins_sign(cursor: &Cursor<'_>) -> bool
    ensures { result ≡ spec.begins_sign cursor.now }
{
    cursor.sees(TokenKind::Plus) || cursor.sees(TokenKind::Minus)
}

fn begins_signed_real(cursor: &Cursor<'_>) -> bool
    ensures { result ≡ spec.begins_signed_real cursor.now }
{
    begins_sign(cursor) && cursor.sees_second(TokenKind::RealLiteral)
}

/// `<` or `<=`, and where it stands.
#[tactic(auto, unfolding(crate::specs::Expressions::interval_op))]
fn interval_op(cursor: &mut Cursor<'_>) -> Read<(IntervalOperator, usize)>
    ensures reads { Reads (spec.interval_op cursor.old) result cursor.new }
    ensures takes { Takes result cursor.old cursor.new }
{
    let kind = cursor.kind();
    let Some(operator) = interval_operator(kind) else {
        return Err(Failure::Fault(cursor.refusal()));
    };
    let token = cursor.expect(kind)?;
    Ok((operator, token.at))
}

/// `QUERY(`, and the first byte of its word.
#[tactic(auto, unfolding(crate::specs::Queries::query_word))]
fn query_word(cursor: &mut Cursor<'_>, levels: u8) -> Read<usize>
    ensures reads { Reads (queries.query_word levels cursor.old) result cursor.new }
    ensures takes { Takes result cursor.old cursor.new }
    ensures deeper { IsOk result → 0 < levels }
{
    let word = cursor.expect(TokenKind::Query)?;
    cursor.enter(levels, TokenKind::OpenParenthesis)?;
    Ok(word.at)
}

impl<
    E: Fn(Global, &mut Cursor<'_>, u8) -> Read<Expression>,
    S: Fn(Global, &mut Cursor<'_>, u8) -> Read<Expression>,
> Grammar<E, S> {
    #[tactic(auto, unfolding(crate::specs::Expressions::parenthesized))]
    fn parenthesized(&self, cursor: &mut Cursor<'_>) -> Read<Expression>
        requires { NestsBoth self.now.levels (E.pre self.now.expression) (E.post self.now.expression) (S.pre self.now.simple_expression) (S.post self.now.simple_expression) }
        ensures reads { Reads (spec.parenthesized self.now.levels (spec.below self.now.levels) cursor.old) result cursor.new }
        ensures takes { Takes result cursor.old cursor.new }
    {
        cursor.enter(self.levels, TokenKind::OpenParenthesis)?;
        let inside = self.inner(cursor)?;
        cursor.expect(TokenKind::CloseParenthesis)?;
        Ok(inside)
    }

    #[tactic(auto, unfolding(crate::specs::Expressions::operand))]
    fn operand(&self, cursor: &mut Cursor<'_>) -> Read<Expression>
        requires { NestsBoth self.now.levels (E.pre self.now.expression) (E.post self.now.expression) (S.pre self.now.simple_expression) (S.post self.now.simple_expression) }
        ensures reads { Reads (spec.operand self.now.levels (spec.below self.now.levels) cursor.old) result cursor.new }
        ensures takes { Takes result cursor.old cursor.new }
    {
        if cursor.sees(TokenKind::OpenParenthesis) {
            self.parenthesized(cursor)
        } else {
            self.primary(cursor)
        }
    }

    /// What a unary operator stands before: a sign there is that of a real.
    #[tactic(auto, unfolding(crate::specs::Expressions::unary_operand))]
    fn unary_operand(&self, cursor: &mut Cursor<'_>) -> Read<Expression>
        requires { NestsBoth self.now.levels (E.pre self.now.expression) (E.post self.now.expression) (S.pre self.now.simple_expression) (S.post self.now.simple_expression) }
        ensures reads { Reads (spec.unary_operand self.now.levels (spec.below self.now.levels) cursor.old) result cursor.new }
        ensures takes { Takes result cursor.old cursor.new }
    {
        if begins_sign(cursor) {
            Ok(Expression::Literal(signed_real(cursor)?))
        } else {
            self.operand(cursor)
        }
    }

    /// An operand, with a unary operator or without.
    #[tactic(auto, unfolding(crate::specs::Expressions::unary))]
    fn unary(&self, cursor: &mut Cursor<'_>) -> Read<Expression>
        requires { NestsBoth self.now.levels (E.pre self.now.expression) (E.post self.now.expression) (S.pre self.now.simple_expression) (S.post self.now.simple_expression) }
        ensures reads { Reads (spec.unary self.now.levels (spec.below self.now.levels) cursor.old) result cursor.new }
        ensures takes { Takes result cursor.old cursor.new }
    {
        let kind = cursor.kind();
        let Some(operator) = unary_operator(kind) else {
            return self.operand(cursor);
        };
        let token = cursor.expect(kind)?;
        let right = self.unary_operand(cursor)?;
        Ok(Expression::Unary(operator, token.at, Boxed::new(self.alloc, right)?))
    }

    #[tactic(auto, unfolding(crate::specs::Expressions::signed))]
    fn signed(&self, cursor: &mut Cursor<'_>) -> Read<Expression>
        requires { NestsBoth self.now.levels (E.pre self.now.expression) (E.post self.now.expression) (S.pre self.now.simple_expression) (S.post self.now.simple_expression) }
        ensures reads { Reads (spec.signed self.now.levels (spec.below self.now.levels) cursor.old) result cursor.new }
        ensures takes { Takes result cursor.old cursor.new }
    {
        if begins_signed_real(cursor) {
            Ok(Expression::Literal(signed_real(cursor)?))
        } else {
            self.unary(cursor)
        }
    }

    fn elements(&self, cursor: &mut Cursor<'_>) -> Read<Items<Expression>>
        requires nests { NestsBoth self.now.levels (E.pre self.now.expression) (E.post self.now.expression) (S.pre self.now.simple_expression) (S.post self.now.simple_expression) }
        requires deeper { 0 < self.now.levels }
        ensures reads { Reads (spec.elements self.now.levels (spec.below self.now.levels) cursor.old) result cursor.new }
        ensures keeps { Keeps result cursor.old cursor.new }
    {
        if cursor.sees(TokenKind::CloseBracket) {
            Ok(Items::new(self.alloc))
        } else {
            self.inner_list(cursor)
        }
    }

    /// `[`, no element or more, and `]`
    #[tactic(auto, unfolding(crate::specs::Expressions::aggregate_initializer))]
    fn aggregate_initializer(&self, cursor: &mut Cursor<'_>) -> Read<Expression>
        requires { NestsBoth self.now.levels (E.pre self.now.expression) (E.post self.now.expression) (S.pre self.now.simple_expression) (S.post self.now.simple_expression) }
        ensures reads { Reads (spec.aggregate_initializer self.now.levels (spec.below self.now.levels) cursor.old) result cursor.new }
        ensures takes { Takes result cursor.old cursor.new }
    {
        cursor.enter(self.levels, TokenKind::OpenBracket)?;
        let found = self.elements(cursor)?;
        cursor.expect(TokenKind::CloseBracket)?;
        Ok(Expression::Initializer(found))
    }

    /// `{ low < item <= high }`
    #[tactic(auto, unfolding(crate::specs::Expressions::interval))]
    fn interval(&self, cursor: &mut Cursor<'_>) -> Read<Expression>
        requires { NestsBoth self.now.levels (E.pre self.now.expression) (E.post self.now.expression) (S.pre self.now.simple_expression) (S.post self.now.simple_expression) }
        ensures reads { Reads (spec.interval self.now.levels (spec.below self.now.levels) cursor.old) result cursor.new }
        ensures takes { Takes result cursor.old cursor.new }
    {
        cursor.enter(self.levels, TokenKind::OpenBrace)?;
        let low = self.inner_simple(cursor)?;
        let (low_operator, low_at) = interval_op(cursor)?;
        let item = self.inner_simple(cursor)?;
        let (high_operator, high_at) = interval_op(cursor)?;
        let high = self.inner_simple(cursor)?;
        cursor.expect(TokenKind::CloseBrace)?;
        let interval = Interval {
            low,
            low_operator,
            low_at,
            item,
            high_operator,
            high_at,
            high,
        };
        Ok(Expression::Interval(Boxed::new(self.alloc, interval)?))
    }

    /// `QUERY(variable <* source | condition)`
    #[tactic(auto, unfolding(crate::specs::Expressions::query_expression, crate::specs::Queries::query_word))]
    fn query_expression(&self, cursor: &mut Cursor<'_>) -> Read<Expression>
        requires { NestsBoth self.now.levels (E.pre self.now.expression) (E.post self.now.expression) (S.pre self.now.simple_expression) (S.post self.now.simple_expression) }
        ensures reads { Reads (spec.query_expression self.now.levels (spec.below self.now.levels) cursor.old) result cursor.new }
        ensures takes { Takes result cursor.old cursor.new }
    {
        let at = query_word(cursor, self.levels)?;
        let variable = name(self.alloc, cursor)?;
        cursor.expect(TokenKind::QuerySource)?;
        let source = self.inner_simple(cursor)?;
        cursor.expect(TokenKind::Bar)?;
        let condition = self.inner(cursor)?;
        cursor.expect(TokenKind::CloseParenthesis)?;
        let query = Query {
            at,
            variable,
            source,
            condition,
        };
        Ok(Expression::Query(Boxed::new(self.alloc, query)?))
    }

    #[tactic(auto, unfolding(crate::specs::Expressions::simple_factor))]
    pub fn simple_factor(&self, cursor: &mut Cursor<'_>) -> Read<Expression>
        requires { NestsBoth self.now.levels (E.pre self.now.expression) (E.post self.now.expression) (S.pre self.now.simple_expression) (S.post self.now.simple_expression) }
        ensures reads { Reads (spec.simple_factor self.now.levels (spec.below self.now.levels) cursor.old) result cursor.new }
        ensures takes { Takes result cursor.old cursor.new }
    {
        match cursor.kind() {
            TokenKind::OpenBracket => self.aggregate_initializer(cursor),
            TokenKind::OpenBrace => self.interval(cursor),
            TokenKind::Query => self.query_expression(cursor),
            _ => self.signed(cursor),
        }
    }
}
