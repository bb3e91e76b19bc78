//! Primaries: what takes qualifiers, and the qualifiers.

ghost use Rattle.std.specs.Prelude.{◌≡◌, ◌<◌, IfOk};
ghost use Rattle.text_forms.specs.Reads.{Reads, Takes};
ghost use Rattle.ex_tree.specs.declared.kind.TokenKind.TheVariants as k;
ghost use Rattle.ex_forms.specs.Input as input;
ghost use Rattle.ex_expressions.specs.Expressions as spec;
ghost use Rattle.ex_expressions.specs.Nests.{NestsBoth};

use crate::grammar::Grammar;
use crate::literals::{begins_literal, literal};
use ex_forms::{Begins, Cursor, Form, Read, TokenKind, many, name, optional};
use ex_tree::{BuiltInFunction, Expression, Qualifier};
use plain_data::{Boxed, Failure, Items};
use std::alloc::{AllocError, Global};

fn built_in_function(kind: TokenKind) -> Option<BuiltInFunction>
    ensures { result ≡ spec.built_in_function kind }
{
    match kind {
        TokenKind::Abs => Some(BuiltInFunction::Abs),
        TokenKind::BLength => Some(BuiltInFunction::BLength),
        TokenKind::Exists => Some(BuiltInFunction::Exists),
        TokenKind::HiIndex => Some(BuiltInFunction::HiIndex),
        TokenKind::Length => Some(BuiltInFunction::Length),
        TokenKind::LoIndex => Some(BuiltInFunction::LoIndex),
        TokenKind::Nvl => Some(BuiltInFunction::Nvl),
        TokenKind::Odd => Some(BuiltInFunction::Odd),
        TokenKind::SizeOf => Some(BuiltInFunction::SizeOf),
        TokenKind::TypeOf => Some(BuiltInFunction::TypeOf),
        TokenKind::UsedIn => Some(BuiltInFunction::UsedIn),
        TokenKind::ValueIn => Some(BuiltInFunction::ValueIn),
        _ => None,
    }
}

fn begins_qualifier(cursor: &Cursor<'_>) -> bool
    ensures { result ≡ spec.begins_qualifier cursor.now }
{
    cursor.sees(TokenKind::Point)
        || cursor.sees(TokenKind::Backslash)
        || cursor.sees(TokenKind::OpenBracket)
}

/// `.attribute`
#[tactic(auto, unfolding(crate::specs::Expressions::attribute_qualifier))]
fn attribute_qualifier(alloc: Global, cursor: &mut Cursor<'_>) -> Read<Qualifier>
    ensures reads { Reads (spec.attribute_qualifier cursor.old) result cursor.new }
    ensures takes { Takes result cursor.old cursor.new }
{
    let point = cursor.expect(TokenKind::Point)?;
    Ok(Qualifier::Attribute(point.at, name(alloc, cursor)?))
}

/// `\entity`
#[tactic(auto, unfolding(crate::specs::Expressions::group_qualifier))]
fn group_qualifier(alloc: Global, cursor: &mut Cursor<'_>) -> Read<Qualifier>
    ensures reads { Reads (spec.group_qualifier cursor.old) result cursor.new }
    ensures takes { Takes result cursor.old cursor.new }
{
    let backslash = cursor.expect(TokenKind::Backslash)?;
    Ok(Qualifier::Group(backslash.at, name(alloc, cursor)?))
}

fn indexed(
    alloc: Global,
    at: usize,
    first: Expression,
    last: Option<Expression>,
) -> Result<Qualifier, AllocError>
    ensures { IfOk result (λ q. q ≡ spec.indexed at first last) }
{
    Ok(match last {
        Some(last) => Qualifier::Range(at, Boxed::new(alloc, first)?, Boxed::new(alloc, last)?),
        None => Qualifier::Index(at, first),
    })
}

fn qualified(
    alloc: Global,
    base: Expression,
    qualifiers: Items<Qualifier>,
) -> Result<Expression, AllocError>
    ensures { IfOk result (λ e. e ≡ spec.qualified base qualifiers) }
{
    if qualifiers.is_empty() {
        return Ok(base);
    }
    Ok(Expression::Qualified(Boxed::new(alloc, base)?, qualifiers))
}

impl<
    E: Fn(Global, &mut Cursor<'_>, u8) -> Read<Expression>,
    S: Fn(Global, &mut Cursor<'_>, u8) -> Read<Expression>,
> Grammar<E, S> {
    #[tactic(auto, unfolding(crate::specs::Expressions::index_2))]
    fn index_2(&self, cursor: &mut Cursor<'_>) -> Read<Expression>
        requires nests { NestsBoth self.now.levels (E.pre self.now.expression) (E.post self.now.expression) (S.pre self.now.simple_expression) (S.post self.now.simple_expression) }
        requires deeper { 0 < self.now.levels }
        ensures reads { Reads (spec.index_2 self.now.levels (spec.below self.now.levels) cursor.old) result cursor.new }
        ensures takes { Takes result cursor.old cursor.new }
    {
        cursor.expect(TokenKind::Colon)?;
        self.inner_simple(cursor)
    }

    /// `[index]` or `[first:last]`
    #[tactic(auto, unfolding(crate::specs::Expressions::index_qualifier))]
    fn index_qualifier(&self, cursor: &mut Cursor<'_>) -> Read<Qualifier>
        requires { NestsBoth self.now.levels (E.pre self.now.expression) (E.post self.now.expression) (S.pre self.now.simple_expression) (S.post self.now.simple_expression) }
        ensures reads { Reads (spec.index_qualifier self.now.levels (spec.below self.now.levels) cursor.old) result cursor.new }
        ensures takes { Takes result cursor.old cursor.new }
    {
        let bracket = cursor.enter(self.levels, TokenKind::OpenBracket)?;
        let first = self.inner_simple(cursor)?;
        let last = optional(self.alloc, cursor, &Index2(self))?;
        cursor.expect(TokenKind::CloseBracket)?;
        Ok(indexed(self.alloc, bracket.at, first, last)?)
    }

    #[tactic(auto, unfolding(crate::specs::Expressions::qualifier))]
    fn qualifier(&self, cursor: &mut Cursor<'_>) -> Read<Qualifier>
        requires { NestsBoth self.now.levels (E.pre self.now.expression) (E.post self.now.expression) (S.pre self.now.simple_expression) (S.post self.now.simple_expression) }
        ensures reads { Reads (spec.qualifier self.now.levels (spec.below self.now.levels) cursor.old) result cursor.new }
        ensures takes { Takes result cursor.old cursor.new }
    {
        match cursor.kind() {
            TokenKind::Point => attribute_qualifier(self.alloc, cursor),
            TokenKind::Backslash => group_qualifier(self.alloc, cursor),
            TokenKind::OpenBracket => self.index_qualifier(cursor),
            _ => Err(Failure::Fault(cursor.refusal())),
        }
    }

    /// `(`, one parameter or more, and `)`
    #[tactic(auto, unfolding(crate::specs::Expressions::actual_parameter_list))]
    fn actual_parameter_list(&self, cursor: &mut Cursor<'_>) -> Read<Items<Expression>>
        requires { NestsBoth self.now.levels (E.pre self.now.expression) (E.post self.now.expression) (S.pre self.now.simple_expression) (S.post self.now.simple_expression) }
        ensures reads { Reads (spec.actual_parameter_list self.now.levels (spec.below self.now.levels) cursor.old) result cursor.new }
        ensures takes { Takes result cursor.old cursor.new }
    {
        cursor.enter(self.levels, TokenKind::OpenParenthesis)?;
        let parameters = self.inner_list(cursor)?;
        cursor.expect(TokenKind::CloseParenthesis)?;
        Ok(parameters)
    }

    /// A name, or a call of a function of the schema.
    #[tactic(auto, unfolding(crate::specs::Expressions::named))]
    fn named(&self, cursor: &mut Cursor<'_>) -> Read<Expression>
        requires { NestsBoth self.now.levels (E.pre self.now.expression) (E.post self.now.expression) (S.pre self.now.simple_expression) (S.post self.now.simple_expression) }
        ensures reads { Reads (spec.named self.now.levels (spec.below self.now.levels) cursor.old) result cursor.new }
        ensures takes { Takes result cursor.old cursor.new }
    {
        let called = name(self.alloc, cursor)?;
        if cursor.sees(TokenKind::OpenParenthesis) {
            Ok(Expression::Call(called, self.actual_parameter_list(cursor)?))
        } else {
            Ok(Expression::Name(called))
        }
    }

    /// A function of the language, with a list of parameters or without.
    #[tactic(auto, unfolding(crate::specs::Expressions::built_in_call))]
    fn built_in_call(&self, cursor: &mut Cursor<'_>) -> Read<Expression>
        requires { NestsBoth self.now.levels (E.pre self.now.expression) (E.post self.now.expression) (S.pre self.now.simple_expression) (S.post self.now.simple_expression) }
        ensures reads { Reads (spec.built_in_call self.now.levels (spec.below self.now.levels) cursor.old) result cursor.new }
        ensures takes { Takes result cursor.old cursor.new }
    {
        let kind = cursor.kind();
        let Some(function) = built_in_function(kind) else {
            return Err(Failure::Fault(cursor.refusal()));
        };
        let word = cursor.expect(kind)?;
        let parameters = if cursor.sees(TokenKind::OpenParenthesis) {
            self.actual_parameter_list(cursor)?
        } else {
            Items::new(self.alloc)
        };
        Ok(Expression::BuiltIn(function, word.at, parameters))
    }

    #[tactic(auto, unfolding(crate::specs::Expressions::qualifiable_factor))]
    fn qualifiable_factor(&self, cursor: &mut Cursor<'_>) -> Read<Expression>
        requires { NestsBoth self.now.levels (E.pre self.now.expression) (E.post self.now.expression) (S.pre self.now.simple_expression) (S.post self.now.simple_expression) }
        ensures reads { Reads (spec.qualifiable_factor self.now.levels (spec.below self.now.levels) cursor.old) result cursor.new }
        ensures takes { Takes result cursor.old cursor.new }
    {
        match cursor.kind() {
            TokenKind::Identifier => self.named(cursor),
            TokenKind::Itself => Ok(Expression::Itself(cursor.expect(TokenKind::Itself)?.at)),
            TokenKind::QuestionMark => {
                cursor.expect(TokenKind::QuestionMark)?;
                Ok(Expression::Indeterminate)
            }
            _ => self.built_in_call(cursor),
        }
    }

    #[tactic(auto, unfolding(crate::specs::Expressions::qualified_factor))]
    fn qualified_factor(&self, cursor: &mut Cursor<'_>) -> Read<Expression>
        requires { NestsBoth self.now.levels (E.pre self.now.expression) (E.post self.now.expression) (S.pre self.now.simple_expression) (S.post self.now.simple_expression) }
        ensures reads { Reads (spec.qualified_factor self.now.levels (spec.below self.now.levels) cursor.old) result cursor.new }
        ensures takes { Takes result cursor.old cursor.new }
    {
        let base = self.qualifiable_factor(cursor)?;
        let qualifiers = many(self.alloc, cursor, &QualifierForm(self))?;
        Ok(qualified(self.alloc, base, qualifiers)?)
    }

    #[tactic(auto, unfolding(crate::specs::Expressions::primary))]
    pub fn primary(&self, cursor: &mut Cursor<'_>) -> Read<Expression>
        requires { NestsBoth self.now.levels (E.pre self.now.expression) (E.post self.now.expression) (S.pre self.now.simple_expression) (S.post self.now.simple_expression) }
        ensures reads { Reads (spec.primary self.now.levels (spec.below self.now.levels) cursor.old) result cursor.new }
        ensures takes { Takes result cursor.old cursor.new }
    {
        if begins_literal(cursor) {
            Ok(Expression::Literal(literal(self.alloc, cursor)?))
        } else {
            self.qualified_factor(cursor)
        }
    }
}

#[derive(Drop)]
struct Index2<'g, E, S>(&'g Grammar<E, S>);

impl<
    't,
    E: Fn(Global, &mut Cursor<'_>, u8) -> Read<Expression>,
    S: Fn(Global, &mut Cursor<'_>, u8) -> Read<Expression>,
> Form<Cursor<'t>> for Index2<'_, E, S> {
    type Tree = Expression;

    ghost form = { λ f. spec.index_2 f.0.now.levels (spec.below f.0.now.levels) };

    ghost can_read = { λ f. (0 < f.0.now.levels) × NestsBoth f.0.now.levels (E.pre f.0.now.expression) (E.post f.0.now.expression) (S.pre f.0.now.simple_expression) (S.post f.0.now.simple_expression) };

    fn read(&self, _alloc: Global, cursor: &mut Cursor<'t>) -> Read<Expression> {
        self.0.index_2(cursor)
    }
}

impl<'t, E, S> Begins<Cursor<'t>> for Index2<'_, E, S> {
    ghost begins = { λ f. input.sees k.Colon };

    fn begins(&self, cursor: &Cursor<'t>) -> bool {
        cursor.sees(TokenKind::Colon)
    }
}

#[derive(Drop)]
struct QualifierForm<'g, E, S>(&'g Grammar<E, S>);

impl<
    't,
    E: Fn(Global, &mut Cursor<'_>, u8) -> Read<Expression>,
    S: Fn(Global, &mut Cursor<'_>, u8) -> Read<Expression>,
> Form<Cursor<'t>> for QualifierForm<'_, E, S> {
    type Tree = Qualifier;

    ghost form = { λ f. spec.qualifier f.0.now.levels (spec.below f.0.now.levels) };

    ghost can_read = { λ f. NestsBoth f.0.now.levels (E.pre f.0.now.expression) (E.post f.0.now.expression) (S.pre f.0.now.simple_expression) (S.post f.0.now.simple_expression) };

    fn read(&self, _alloc: Global, cursor: &mut Cursor<'t>) -> Read<Qualifier> {
        self.0.qualifier(cursor)
    }
}

impl<'t, E, S> Begins<Cursor<'t>> for QualifierForm<'_, E, S> {
    ghost begins = { λ f. spec.begins_qualifier };

    fn begins(&self, cursor: &Cursor<'t>) -> bool {
        begins_qualifier(cursor)
    }
}
