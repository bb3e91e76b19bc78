//! What SUPERTYPE OF says of an entity's subtypes (ISO 10303-11:1994, 9.2.5). The expression in parentheses is a
//! parameter, so that each form is proved by itself.

ghost use Rattle.std.specs.Prelude.{◌≡◌, ◌<◌};
ghost use Rattle.text_forms.specs.Reads.{Reads, Takes};
ghost use Rattle.ex_forms.specs.Nests.{Nests};
ghost use Rattle.ex_declaration_syntax.specs.Supertypes as spec;

use ex_forms::{Cursor, Form, Read, name, separated};
use ex_tree::{SupertypeExpression, TokenKind};
use plain_data::{Failure, Items};
use std::alloc::Global;

/// Operands of AND; one that is alone is itself the expression.
fn and_of(mut operands: Items<SupertypeExpression>) -> SupertypeExpression
    ensures { result ≡ spec.joined SupertypeExpression.And operands }
{
    if operands.len() == 1 {
        if let Some(operand) = operands.pop() {
            return operand;
        }
    }
    SupertypeExpression::And(operands)
}

/// Operands of ANDOR; one that is alone is itself the expression.
fn and_or_of(mut operands: Items<SupertypeExpression>) -> SupertypeExpression
    ensures { result ≡ spec.joined SupertypeExpression.AndOr operands }
{
    if operands.len() == 1 {
        if let Some(operand) = operands.pop() {
            return operand;
        }
    }
    SupertypeExpression::AndOr(operands)
}

/// Reads supertype expressions where so many levels are left.
#[derive(Clone, Copy)]
pub struct Supertypes<E> {
    alloc: Global,
    levels: u8,
    /// Reads an expression, where so many levels are left.
    inner: E,
}

impl<E: Fn(Global, &mut Cursor<'_>, u8) -> Read<SupertypeExpression>> Supertypes<E> {
    /// The expression one level down.
    fn inner(&self, cursor: &mut Cursor<'_>) -> Read<SupertypeExpression>
        requires nests { Nests SupertypeExpression self.now.levels (spec.below self.now.levels) (E.pre self.now.inner) (E.post self.now.inner) }
        requires deeper { 0 < self.now.levels }
        ensures reads { Reads (spec.below self.now.levels cursor.old) result cursor.new }
        ensures takes { Takes result cursor.old cursor.new }
    {
        (self.inner)(self.alloc, cursor, self.levels - 1)
    }

    #[tactic(auto, unfolding(crate::specs::Supertypes::one_of))]
    fn one_of(&self, cursor: &mut Cursor<'_>) -> Read<SupertypeExpression>
        requires { Nests SupertypeExpression self.now.levels (spec.below self.now.levels) (E.pre self.now.inner) (E.post self.now.inner) }
        ensures reads { Reads (spec.one_of self.now.levels (spec.below self.now.levels) cursor.old) result cursor.new }
        ensures takes { Takes result cursor.old cursor.new }
    {
        cursor.expect(TokenKind::OneOf)?;
        cursor.enter(self.levels, TokenKind::OpenParenthesis)?;
        let parts = separated(self.alloc, cursor, TokenKind::Comma, &Inner(self))?;
        cursor.expect(TokenKind::CloseParenthesis)?;
        Ok(SupertypeExpression::OneOf(parts))
    }

    #[tactic(auto, unfolding(crate::specs::Supertypes::parenthesized))]
    fn parenthesized(&self, cursor: &mut Cursor<'_>) -> Read<SupertypeExpression>
        requires { Nests SupertypeExpression self.now.levels (spec.below self.now.levels) (E.pre self.now.inner) (E.post self.now.inner) }
        ensures reads { Reads (spec.parenthesized self.now.levels (spec.below self.now.levels) cursor.old) result cursor.new }
        ensures takes { Takes result cursor.old cursor.new }
    {
        cursor.enter(self.levels, TokenKind::OpenParenthesis)?;
        let expression = self.inner(cursor)?;
        cursor.expect(TokenKind::CloseParenthesis)?;
        Ok(expression)
    }

    #[tactic(auto, unfolding(crate::specs::Supertypes::supertype_term))]
    fn supertype_term(&self, cursor: &mut Cursor<'_>) -> Read<SupertypeExpression>
        requires { Nests SupertypeExpression self.now.levels (spec.below self.now.levels) (E.pre self.now.inner) (E.post self.now.inner) }
        ensures reads { Reads (spec.supertype_term self.now.levels (spec.below self.now.levels) cursor.old) result cursor.new }
        ensures takes { Takes result cursor.old cursor.new }
    {
        match cursor.kind() {
            TokenKind::Identifier => Ok(SupertypeExpression::Entity(name(self.alloc, cursor)?)),
            TokenKind::OneOf => self.one_of(cursor),
            TokenKind::OpenParenthesis => self.parenthesized(cursor),
            _ => Err(Failure::Fault(cursor.refusal())),
        }
    }

    #[tactic(auto, unfolding(crate::specs::Supertypes::supertype_factor))]
    fn supertype_factor(&self, cursor: &mut Cursor<'_>) -> Read<SupertypeExpression>
        requires { Nests SupertypeExpression self.now.levels (spec.below self.now.levels) (E.pre self.now.inner) (E.post self.now.inner) }
        ensures reads { Reads (spec.supertype_factor self.now.levels (spec.below self.now.levels) cursor.old) result cursor.new }
        ensures takes { Takes result cursor.old cursor.new }
    {
        let operands = separated(self.alloc, cursor, TokenKind::And, &Term(self))?;
        Ok(and_of(operands))
    }

    #[tactic(auto, unfolding(crate::specs::Supertypes::supertype_expression_over))]
    pub fn expression(&self, cursor: &mut Cursor<'_>) -> Read<SupertypeExpression>
        requires { Nests SupertypeExpression self.now.levels (spec.below self.now.levels) (E.pre self.now.inner) (E.post self.now.inner) }
        ensures reads { Reads (spec.supertype_expression_over self.now.levels (spec.below self.now.levels) cursor.old) result cursor.new }
        ensures takes { Takes result cursor.old cursor.new }
    {
        let operands = separated(self.alloc, cursor, TokenKind::AndOr, &Factor(self))?;
        Ok(and_or_of(operands))
    }
}

#[derive(Drop)]
struct Inner<'s, E>(&'s Supertypes<E>);

impl<'t, E: Fn(Global, &mut Cursor<'_>, u8) -> Read<SupertypeExpression>> Form<Cursor<'t>>
    for Inner<'_, E> {
    ghost use Rattle.ex_tree.specs.declared.declaration.SupertypeExpression.{SupertypeExpression};

    type Tree = SupertypeExpression;

    ghost form = { λ f. spec.below f.0.now.levels };

    ghost can_read = { λ f. (0 < f.0.now.levels) × Nests SupertypeExpression f.0.now.levels (spec.below f.0.now.levels) (E.pre f.0.now.inner) (E.post f.0.now.inner) };

    fn read(&self, _alloc: Global, cursor: &mut Cursor<'t>) -> Read<SupertypeExpression> {
        self.0.inner(cursor)
    }
}

#[derive(Drop)]
struct Term<'s, E>(&'s Supertypes<E>);

impl<'t, E: Fn(Global, &mut Cursor<'_>, u8) -> Read<SupertypeExpression>> Form<Cursor<'t>>
    for Term<'_, E> {
    ghost use Rattle.ex_tree.specs.declared.declaration.SupertypeExpression.{SupertypeExpression};

    type Tree = SupertypeExpression;

    ghost form = { λ f. spec.supertype_term f.0.now.levels (spec.below f.0.now.levels) };

    ghost can_read = { λ f. Nests SupertypeExpression f.0.now.levels (spec.below f.0.now.levels) (E.pre f.0.now.inner) (E.post f.0.now.inner) };

    fn read(&self, _alloc: Global, cursor: &mut Cursor<'t>) -> Read<SupertypeExpression> {
        self.0.supertype_term(cursor)
    }
}

#[derive(Drop)]
struct Factor<'s, E>(&'s Supertypes<E>);

impl<'t, E: Fn(Global, &mut Cursor<'_>, u8) -> Read<SupertypeExpression>> Form<Cursor<'t>>
    for Factor<'_, E> {
    ghost use Rattle.ex_tree.specs.declared.declaration.SupertypeExpression.{SupertypeExpression};

    type Tree = SupertypeExpression;

    ghost form = { λ f. spec.supertype_factor f.0.now.levels (spec.below f.0.now.levels) };

    ghost can_read = { λ f. Nests SupertypeExpression f.0.now.levels (spec.below f.0.now.levels) (E.pre f.0.now.inner) (E.post f.0.now.inner) };

    fn read(&self, _alloc: Global, cursor: &mut Cursor<'t>) -> Read<SupertypeExpression> {
        self.0.supertype_factor(cursor)
    }
}

/// What the subtypes exclude and join, where so many levels are left.
pub(crate) fn supertype_expression(
    alloc: Global,
    cursor: &mut Cursor<'_>,
    levels: u8,
) -> Read<SupertypeExpression>
    ensures reads { Reads (spec.supertype_expression levels cursor.old) result cursor.new }
    ensures takes { Takes result cursor.old cursor.new }
{
    Supertypes {
        alloc,
        levels,
        inner: supertype_expression,
    }
    .expression(cursor)
}
