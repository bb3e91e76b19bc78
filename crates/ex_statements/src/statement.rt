//! One method for each form of statement. What reads a statement one level down is a parameter, so that each method is
//! proved by itself.

ghost use Rattle.std.specs.Prelude.{◌≡◌, ◌<◌, true};
ghost use Rattle.text_forms.specs.Reads.{Reads, Takes, Keeps};
ghost use Rattle.ex_tree.specs.declared.kind.TokenKind.TheVariants as k;
ghost use Rattle.ex_forms.specs.Input.{optional, sees};
ghost use Rattle.ex_statements.specs.Nests.{Nests};
ghost use Rattle.ex_statements.specs.Statements as spec;

use crate::control::repeat_control;
use crate::place::{Place, begins_statement};
use crate::simple::{assignment, escape, null, return_value, skip};
use ex_expressions::{ExpressionForm, begins_expression, expression};
use ex_forms::{Begins, Cursor, Form, Read, TokenKind, many, separated, some};
use ex_tree::{Case, CaseAction, Statement};
use plain_data::{Boxed, Failure, Items};
use std::alloc::Global;

/// Where a statement stands, and what reads one that stands in it.
#[derive(Clone, Copy)]
pub struct Level<S> {
    alloc: Global,
    /// How many levels of nesting are left.
    levels: u8,
    place: Place,
    inner: S,
}

impl<S: Fn(Global, &mut Cursor<'_>, u8, Place) -> Read<Statement>> Level<S> {
    /// A statement one level down.
    fn inner_statement(&self, cursor: &mut Cursor<'_>, place: Place) -> Read<Statement>
        requires nests { Nests self.now.levels (S.pre self.now.inner) (S.post self.now.inner) }
        requires deeper { 0 < self.now.levels }
        ensures reads { Reads (spec.below self.now.levels place cursor.old) result cursor.new }
        ensures takes { Takes result cursor.old cursor.new }
    {
        (self.inner)(self.alloc, cursor, self.levels - 1, place)
    }

    /// One statement or more, one level down.
    fn inner_statements(&self, cursor: &mut Cursor<'_>, place: Place) -> Read<Items<Statement>>
        requires nests { Nests self.now.levels (S.pre self.now.inner) (S.post self.now.inner) }
        requires deeper { 0 < self.now.levels }
        ensures reads { Reads (spec.inner_statements self.now.place self.now.levels (spec.below self.now.levels) place cursor.old) result cursor.new }
        ensures takes { Takes result cursor.old cursor.new }
    {
        some(self.alloc, cursor, &Inner { level: self, place })
    }

    #[tactic(auto, unfolding(crate::specs::Statements::case_action))]
    fn case_action(&self, cursor: &mut Cursor<'_>) -> Read<CaseAction>
        requires nests { Nests self.now.levels (S.pre self.now.inner) (S.post self.now.inner) }
        requires deeper { 0 < self.now.levels }
        ensures reads { Reads (spec.case_action self.now.place self.now.levels (spec.below self.now.levels) cursor.old) result cursor.new }
        ensures takes { Takes result cursor.old cursor.new }
    {
        let label = ExpressionForm {
            levels: self.levels - 1,
        };
        let labels = separated(self.alloc, cursor, TokenKind::Comma, &label)?;
        cursor.expect(TokenKind::Colon)?;
        let statement = self.inner_statement(cursor, self.place)?;
        Ok(CaseAction { labels, statement })
    }

    /// The statement after OTHERWISE, if it stands next.
    #[tactic(auto, unfolding(crate::specs::Statements::otherwise_action))]
    fn otherwise(&self, cursor: &mut Cursor<'_>) -> Read<Option<Boxed<Statement>>>
        requires nests { Nests self.now.levels (S.pre self.now.inner) (S.post self.now.inner) }
        requires deeper { 0 < self.now.levels }
        ensures reads { Reads (optional (sees k.Otherwise) (spec.otherwise_action self.now.place self.now.levels (spec.below self.now.levels)) cursor.old) result cursor.new }
        ensures keeps { Keeps result cursor.old cursor.new }
    {
        if !cursor.sees(TokenKind::Otherwise) {
            return Ok(None);
        }
        cursor.expect(TokenKind::Otherwise)?;
        cursor.expect(TokenKind::Colon)?;
        let statement = self.inner_statement(cursor, self.place)?;
        Ok(Some(Boxed::new(self.alloc, statement)?))
    }

    #[tactic(auto, unfolding(crate::specs::Statements::case_stmt))]
    fn case(&self, cursor: &mut Cursor<'_>) -> Read<Statement>
        requires { Nests self.now.levels (S.pre self.now.inner) (S.post self.now.inner) }
        ensures reads { Reads (spec.case_stmt self.now.place self.now.levels (spec.below self.now.levels) cursor.old) result cursor.new }
        ensures takes { Takes result cursor.old cursor.new }
    {
        let at = cursor.enter(self.levels, TokenKind::Case)?.at;
        let selector = expression(self.alloc, cursor, self.levels - 1)?;
        cursor.expect(TokenKind::Of)?;
        let actions = many(self.alloc, cursor, &Action { level: self })?;
        let otherwise = self.otherwise(cursor)?;
        cursor.expect(TokenKind::EndCase)?;
        cursor.expect(TokenKind::Semicolon)?;
        let case = Case {
            at,
            selector,
            actions,
            otherwise,
        };
        Ok(Statement::Case(Boxed::new(self.alloc, case)?))
    }

    #[tactic(auto, unfolding(crate::specs::Statements::compound_stmt))]
    fn compound(&self, cursor: &mut Cursor<'_>) -> Read<Statement>
        requires { Nests self.now.levels (S.pre self.now.inner) (S.post self.now.inner) }
        ensures reads { Reads (spec.compound_stmt self.now.place self.now.levels (spec.below self.now.levels) cursor.old) result cursor.new }
        ensures takes { Takes result cursor.old cursor.new }
    {
        cursor.enter(self.levels, TokenKind::Begin)?;
        let found = self.inner_statements(cursor, self.place)?;
        cursor.expect(TokenKind::End)?;
        cursor.expect(TokenKind::Semicolon)?;
        Ok(Statement::Compound(found))
    }

    /// The statements after ELSE: none where it is not there.
    #[tactic(auto, unfolding(crate::specs::Statements::alternative))]
    fn alternative(&self, cursor: &mut Cursor<'_>) -> Read<Items<Statement>>
        requires nests { Nests self.now.levels (S.pre self.now.inner) (S.post self.now.inner) }
        requires deeper { 0 < self.now.levels }
        ensures reads { Reads (spec.alternative self.now.place self.now.levels (spec.below self.now.levels) cursor.old) result cursor.new }
        ensures keeps { Keeps result cursor.old cursor.new }
    {
        if cursor.eat(TokenKind::Else) {
            self.inner_statements(cursor, self.place)
        } else {
            Ok(Items::new(self.alloc))
        }
    }

    #[tactic(auto, unfolding(crate::specs::Statements::if_stmt))]
    fn conditional(&self, cursor: &mut Cursor<'_>) -> Read<Statement>
        requires { Nests self.now.levels (S.pre self.now.inner) (S.post self.now.inner) }
        ensures reads { Reads (spec.if_stmt self.now.place self.now.levels (spec.below self.now.levels) cursor.old) result cursor.new }
        ensures takes { Takes result cursor.old cursor.new }
    {
        cursor.enter(self.levels, TokenKind::If)?;
        let condition = expression(self.alloc, cursor, self.levels - 1)?;
        cursor.expect(TokenKind::Then)?;
        let then_part = self.inner_statements(cursor, self.place)?;
        let else_part = self.alternative(cursor)?;
        cursor.expect(TokenKind::EndIf)?;
        cursor.expect(TokenKind::Semicolon)?;
        Ok(Statement::If(condition, then_part, else_part))
    }

    /// What follows the control of a REPEAT: its statements.
    #[tactic(auto, unfolding(crate::specs::Statements::repeat_body))]
    fn repeat_body(&self, cursor: &mut Cursor<'_>) -> Read<Items<Statement>>
        requires nests { Nests self.now.levels (S.pre self.now.inner) (S.post self.now.inner) }
        requires deeper { 0 < self.now.levels }
        ensures reads { Reads (spec.repeat_body self.now.place self.now.levels (spec.below self.now.levels) cursor.old) result cursor.new }
        ensures takes { Takes result cursor.old cursor.new }
    {
        cursor.expect(TokenKind::Semicolon)?;
        let place = Place {
            in_repeat: true,
            ..self.place
        };
        let found = self.inner_statements(cursor, place)?;
        cursor.expect(TokenKind::EndRepeat)?;
        cursor.expect(TokenKind::Semicolon)?;
        Ok(found)
    }

    #[tactic(auto, unfolding(crate::specs::Statements::repeat_stmt))]
    fn repeat(&self, cursor: &mut Cursor<'_>) -> Read<Statement>
        requires { Nests self.now.levels (S.pre self.now.inner) (S.post self.now.inner) }
        ensures reads { Reads (spec.repeat_stmt self.now.place self.now.levels (spec.below self.now.levels) cursor.old) result cursor.new }
        ensures takes { Takes result cursor.old cursor.new }
    {
        cursor.enter(self.levels, TokenKind::Repeat)?;
        let control = repeat_control(self.alloc, cursor, self.levels - 1)?;
        let found = self.repeat_body(cursor)?;
        Ok(Statement::Repeat(Boxed::new(self.alloc, control)?, found))
    }

    #[tactic(auto, unfolding(crate::specs::Statements::stmt))]
    fn statement(&self, cursor: &mut Cursor<'_>) -> Read<Statement>
        requires { Nests self.now.levels (S.pre self.now.inner) (S.post self.now.inner) }
        ensures reads { Reads (spec.stmt self.now.place self.now.levels (spec.below self.now.levels) cursor.old) result cursor.new }
        ensures takes { Takes result cursor.old cursor.new }
    {
        match cursor.kind() {
            TokenKind::Identifier => assignment(self.alloc, cursor, self.levels),
            TokenKind::Case => self.case(cursor),
            TokenKind::Begin => self.compound(cursor),
            TokenKind::Escape if self.place.in_repeat => escape(cursor),
            TokenKind::If => self.conditional(cursor),
            TokenKind::Semicolon => null(cursor),
            TokenKind::Repeat => self.repeat(cursor),
            TokenKind::Return if self.place.in_function => return_value(
                self.alloc,
                cursor,
                self.levels,
            ),
            TokenKind::Skip if self.place.in_repeat => skip(cursor),
            _ => Err(Failure::Fault(cursor.refusal())),
        }
    }
}

/// A statement one level down.
#[derive(Drop)]
struct Inner<'l, S> {
    level: &'l Level<S>,
    place: Place,
}

impl<'t, S: Fn(Global, &mut Cursor<'_>, u8, Place) -> Read<Statement>> Form<Cursor<'t>>
    for Inner<'_, S> {
    type Tree = Statement;

    ghost form = { λ f. spec.below f.level.now.levels f.place };

    ghost can_read = { λ f. (0 < f.level.now.levels) × Nests f.level.now.levels (S.pre f.level.now.inner) (S.post f.level.now.inner) };

    fn read(&self, _alloc: Global, cursor: &mut Cursor<'t>) -> Read<Statement> {
        self.level.inner_statement(cursor, self.place)
    }
}

impl<'t, S> Begins<Cursor<'t>> for Inner<'_, S> {
    ghost begins = { λ f. spec.begins_statement f.place };

    fn begins(&self, cursor: &Cursor<'t>) -> bool {
        begins_statement(cursor, self.place)
    }
}

/// Labels of a CASE and their statement.
#[derive(Drop)]
struct Action<'l, S> {
    level: &'l Level<S>,
}

impl<'t, S: Fn(Global, &mut Cursor<'_>, u8, Place) -> Read<Statement>> Form<Cursor<'t>>
    for Action<'_, S> {
    type Tree = CaseAction;

    ghost form = { λ f. spec.case_action f.level.now.place f.level.now.levels (spec.below f.level.now.levels) };

    ghost can_read = { λ f. (0 < f.level.now.levels) × Nests f.level.now.levels (S.pre f.level.now.inner) (S.post f.level.now.inner) };

    fn read(&self, _alloc: Global, cursor: &mut Cursor<'t>) -> Read<CaseAction> {
        self.level.case_action(cursor)
    }
}

impl<'t, S> Begins<Cursor<'t>> for Action<'_, S> {
    ghost use Rattle.ex_expressions.specs.Expressions.{begins_expression};

    ghost begins = { λ f. begins_expression };

    fn begins(&self, cursor: &Cursor<'t>) -> bool {
        begins_expression(cursor)
    }
}

/// A statement at this place, where so many levels of nesting are left.
#[cycle(levels)]
fn statement(alloc: Global, cursor: &mut Cursor<'_>, levels: u8, place: Place) -> Read<Statement>
    ensures reads { Reads (spec.statement_at levels place cursor.old) result cursor.new }
    ensures takes { Takes result cursor.old cursor.new }
{
    Level {
        alloc,
        levels,
        place,
        inner: statement,
    }
    .statement(cursor)
}

/// A statement at a place, where so many levels are left.
#[derive(Drop)]
struct Outer {
    levels: u8,
    place: Place,
}

impl<'t> Form<Cursor<'t>> for Outer {
    type Tree = Statement;

    ghost form = { λ f. spec.statement_at f.levels f.place };

    ghost can_read = { λ f. Unit {0} };

    fn read(&self, alloc: Global, cursor: &mut Cursor<'t>) -> Read<Statement> {
        statement(alloc, cursor, self.levels, self.place)
    }
}

impl<'t> Begins<Cursor<'t>> for Outer {
    ghost begins = { λ f. spec.begins_statement f.place };

    fn begins(&self, cursor: &Cursor<'t>) -> bool {
        begins_statement(cursor, self.place)
    }
}

/// One statement or more at this place, where so many levels of nesting are left.
#[tactic(auto, unfolding(crate::specs::Statements::statements))]
pub fn statements(
    alloc: Global,
    cursor: &mut Cursor<'_>,
    levels: u8,
    place: Place,
) -> Read<Items<Statement>>
    ensures reads { Reads (spec.statements place levels cursor.old) result cursor.new }
    ensures takes { Takes result cursor.old cursor.new }
{
    some(alloc, cursor, &Outer { levels, place })
}
