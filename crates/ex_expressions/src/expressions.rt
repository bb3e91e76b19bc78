//! Expressions, by how tightly their operators bind.

ghost use Rattle.std.specs.Prelude.{◌≡◌};
ghost use Rattle.text_forms.specs.Reads.{Reads, Takes};
ghost use Rattle.ex_expressions.specs.Expressions as spec;
ghost use Rattle.ex_expressions.specs.Nests.{NestsBoth};

use crate::grammar::Grammar;
use crate::operators::{Rank, chain, once};
use ex_forms::{Begins, Cursor, Form, Read, TokenKind};
use ex_tree::Expression;
use std::alloc::Global;

impl<
    E: Fn(Global, &mut Cursor<'_>, u8) -> Read<Expression>,
    S: Fn(Global, &mut Cursor<'_>, u8) -> Read<Expression>,
> Grammar<E, S> {
    fn factor(&self, cursor: &mut Cursor<'_>) -> Read<Expression>
        requires { NestsBoth self.now.levels (E.pre self.now.expression) (E.post self.now.expression) (S.pre self.now.simple_expression) (S.post self.now.simple_expression) }
        ensures reads { Reads (spec.factor self.now.levels (spec.below self.now.levels) cursor.old) result cursor.new }
        ensures takes { Takes result cursor.old cursor.new }
    {
        once(self.alloc, cursor, Rank::Powering, &SimpleFactor(self))
    }

    fn term(&self, cursor: &mut Cursor<'_>) -> Read<Expression>
        requires { NestsBoth self.now.levels (E.pre self.now.expression) (E.post self.now.expression) (S.pre self.now.simple_expression) (S.post self.now.simple_expression) }
        ensures reads { Reads (spec.term self.now.levels (spec.below self.now.levels) cursor.old) result cursor.new }
        ensures takes { Takes result cursor.old cursor.new }
    {
        chain(self.alloc, cursor, Rank::Multiplying, &Factor(self))
    }

    fn simple_expression(&self, cursor: &mut Cursor<'_>) -> Read<Expression>
        requires { NestsBoth self.now.levels (E.pre self.now.expression) (E.post self.now.expression) (S.pre self.now.simple_expression) (S.post self.now.simple_expression) }
        ensures reads { Reads (spec.simple_expression_with self.now.levels (spec.below self.now.levels) cursor.old) result cursor.new }
        ensures takes { Takes result cursor.old cursor.new }
    {
        chain(self.alloc, cursor, Rank::Adding, &Term(self))
    }

    fn expression(&self, cursor: &mut Cursor<'_>) -> Read<Expression>
        requires { NestsBoth self.now.levels (E.pre self.now.expression) (E.post self.now.expression) (S.pre self.now.simple_expression) (S.post self.now.simple_expression) }
        ensures reads { Reads (spec.expression_with self.now.levels (spec.below self.now.levels) cursor.old) result cursor.new }
        ensures takes { Takes result cursor.old cursor.new }
    {
        once(self.alloc, cursor, Rank::Relating, &Simple(self))
    }
}

#[derive(Drop)]
struct SimpleFactor<'g, E, S>(&'g Grammar<E, S>);

impl<
    't,
    E: Fn(Global, &mut Cursor<'_>, u8) -> Read<Expression>,
    S: Fn(Global, &mut Cursor<'_>, u8) -> Read<Expression>,
> Form<Cursor<'t>> for SimpleFactor<'_, E, S> {
    type Tree = Expression;

    ghost form = { λ f. spec.simple_factor f.0.now.levels (spec.below f.0.now.levels) };

    ghost can_read = { λ f. NestsBoth f.0.now.levels (E.pre f.0.now.expression) (E.post f.0.now.expression) (S.pre f.0.now.simple_expression) (S.post f.0.now.simple_expression) };

    fn read(&self, _alloc: Global, cursor: &mut Cursor<'t>) -> Read<Expression> {
        self.0.simple_factor(cursor)
    }
}

#[derive(Drop)]
struct Factor<'g, E, S>(&'g Grammar<E, S>);

impl<
    't,
    E: Fn(Global, &mut Cursor<'_>, u8) -> Read<Expression>,
    S: Fn(Global, &mut Cursor<'_>, u8) -> Read<Expression>,
> Form<Cursor<'t>> for Factor<'_, E, S> {
    type Tree = Expression;

    ghost form = { λ f. spec.factor f.0.now.levels (spec.below f.0.now.levels) };

    ghost can_read = { λ f. NestsBoth f.0.now.levels (E.pre f.0.now.expression) (E.post f.0.now.expression) (S.pre f.0.now.simple_expression) (S.post f.0.now.simple_expression) };

    fn read(&self, _alloc: Global, cursor: &mut Cursor<'t>) -> Read<Expression> {
        self.0.factor(cursor)
    }
}

#[derive(Drop)]
struct Term<'g, E, S>(&'g Grammar<E, S>);

impl<
    't,
    E: Fn(Global, &mut Cursor<'_>, u8) -> Read<Expression>,
    S: Fn(Global, &mut Cursor<'_>, u8) -> Read<Expression>,
> Form<Cursor<'t>> for Term<'_, E, S> {
    type Tree = Expression;

    ghost form = { λ f. spec.term f.0.now.levels (spec.below f.0.now.levels) };

    ghost can_read = { λ f. NestsBoth f.0.now.levels (E.pre f.0.now.expression) (E.post f.0.now.expression) (S.pre f.0.now.simple_expression) (S.post f.0.now.simple_expression) };

    fn read(&self, _alloc: Global, cursor: &mut Cursor<'t>) -> Read<Expression> {
        self.0.term(cursor)
    }
}

#[derive(Drop)]
struct Simple<'g, E, S>(&'g Grammar<E, S>);

impl<
    't,
    E: Fn(Global, &mut Cursor<'_>, u8) -> Read<Expression>,
    S: Fn(Global, &mut Cursor<'_>, u8) -> Read<Expression>,
> Form<Cursor<'t>> for Simple<'_, E, S> {
    type Tree = Expression;

    ghost form = { λ f. spec.simple_expression_with f.0.now.levels (spec.below f.0.now.levels) };

    ghost can_read = { λ f. NestsBoth f.0.now.levels (E.pre f.0.now.expression) (E.post f.0.now.expression) (S.pre f.0.now.simple_expression) (S.post f.0.now.simple_expression) };

    fn read(&self, _alloc: Global, cursor: &mut Cursor<'t>) -> Read<Expression> {
        self.0.simple_expression(cursor)
    }
}

/// An expression, where so many levels of nesting are left.
#[cycle(levels)]
pub fn expression(alloc: Global, cursor: &mut Cursor<'_>, levels: u8) -> Read<Expression>
    ensures reads { Reads (spec.expression levels cursor.old) result cursor.new }
    ensures takes { Takes result cursor.old cursor.new }
{
    Grammar {
        alloc,
        levels,
        expression,
        simple_expression,
    }
    .expression(cursor)
}

/// A simple expression, where so many levels of nesting are left.
#[cycle(levels)]
pub fn simple_expression(alloc: Global, cursor: &mut Cursor<'_>, levels: u8) -> Read<Expression>
    ensures reads { Reads (spec.simple_expression levels cursor.old) result cursor.new }
    ensures takes { Takes result cursor.old cursor.new }
{
    Grammar {
        alloc,
        levels,
        expression,
        simple_expression,
    }
    .simple_expression(cursor)
}

/// Whether the next token begins an expression.
#[tactic(auto, unfolding(crate::specs::Expressions::begins_expression))]
pub fn begins_expression(cursor: &Cursor<'_>) -> bool
    ensures { result ≡ spec.begins_expression cursor.now }
{
    const FIRST_TOKENS: [TokenKind; 30] = [
        TokenKind::Identifier,
        TokenKind::IntegerLiteral,
        TokenKind::RealLiteral,
        TokenKind::SimpleStringLiteral,
        TokenKind::EncodedStringLiteral,
        TokenKind::BinaryLiteral,
        TokenKind::True,
        TokenKind::False,
        TokenKind::Unknown,
        TokenKind::Itself,
        TokenKind::QuestionMark,
        TokenKind::OpenParenthesis,
        TokenKind::OpenBracket,
        TokenKind::OpenBrace,
        TokenKind::Query,
        TokenKind::Plus,
        TokenKind::Minus,
        TokenKind::Not,
        TokenKind::Abs,
        TokenKind::BLength,
        TokenKind::Exists,
        TokenKind::HiIndex,
        TokenKind::Length,
        TokenKind::LoIndex,
        TokenKind::Nvl,
        TokenKind::Odd,
        TokenKind::SizeOf,
        TokenKind::TypeOf,
        TokenKind::UsedIn,
        TokenKind::ValueIn,
    ];
    FIRST_TOKENS.iter().any(|first| cursor.sees(*first))
}

/// An expression, where so many levels of nesting are left.
#[derive(Clone, Copy)]
pub struct ExpressionForm {
    pub levels: u8,
}

impl<'t> Form<Cursor<'t>> for ExpressionForm {
    type Tree = Expression;

    ghost form = { λ f. spec.expression f.levels };

    ghost can_read = { λ f. Unit {0} };

    fn read(&self, alloc: Global, cursor: &mut Cursor<'t>) -> Read<Expression> {
        expression(alloc, cursor, self.levels)
    }
}

impl<'t> Begins<Cursor<'t>> for ExpressionForm {
    ghost begins = { λ f. spec.begins_expression };

    fn begins(&self, cursor: &Cursor<'t>) -> bool {
        begins_expression(cursor)
    }
}
