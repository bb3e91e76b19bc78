//! What the forms that nest have in common. They are parameters, so that each form is proved by itself.

ghost use Rattle.std.specs.Prelude.{◌≡◌, ◌<◌};
ghost use Rattle.text_forms.specs.Reads.{Reads, Takes};
ghost use Rattle.ex_forms.specs.Input as input;
ghost use Rattle.ex_tree.specs.declared.kind.TokenKind.TheVariants as k;
ghost use Rattle.ex_expressions.specs.Expressions as spec;
ghost use Rattle.ex_expressions.specs.Nests.{NestsBoth};

use ex_forms::{Cursor, Form, Read, TokenKind, separated};
use ex_tree::Expression;
use plain_data::Items;
use std::alloc::Global;

#[derive(Clone, Copy)]
pub struct Grammar<E, S> {
    pub alloc: Global,
    /// How many levels are left.
    pub levels: u8,
    pub expression: E,
    pub simple_expression: S,
}

impl<
    E: Fn(Global, &mut Cursor<'_>, u8) -> Read<Expression>,
    S: Fn(Global, &mut Cursor<'_>, u8) -> Read<Expression>,
> Grammar<E, S> {
    /// An expression one level down.
    pub fn inner(&self, cursor: &mut Cursor<'_>) -> Read<Expression>
        requires nests { NestsBoth self.now.levels (E.pre self.now.expression) (E.post self.now.expression) (S.pre self.now.simple_expression) (S.post self.now.simple_expression) }
        requires deeper { 0 < self.now.levels }
        ensures reads { Reads ((spec.below self.now.levels).expression cursor.old) result cursor.new }
        ensures takes { Takes result cursor.old cursor.new }
    {
        (self.expression)(self.alloc, cursor, self.levels - 1)
    }

    /// A simple expression one level down.
    pub fn inner_simple(&self, cursor: &mut Cursor<'_>) -> Read<Expression>
        requires nests { NestsBoth self.now.levels (E.pre self.now.expression) (E.post self.now.expression) (S.pre self.now.simple_expression) (S.post self.now.simple_expression) }
        requires deeper { 0 < self.now.levels }
        ensures reads { Reads ((spec.below self.now.levels).simple_expression cursor.old) result cursor.new }
        ensures takes { Takes result cursor.old cursor.new }
    {
        (self.simple_expression)(self.alloc, cursor, self.levels - 1)
    }

    /// Expressions one level down, with commas between.
    pub fn inner_list(&self, cursor: &mut Cursor<'_>) -> Read<Items<Expression>>
        requires nests { NestsBoth self.now.levels (E.pre self.now.expression) (E.post self.now.expression) (S.pre self.now.simple_expression) (S.post self.now.simple_expression) }
        requires deeper { 0 < self.now.levels }
        ensures reads { Reads (input.separated k.Comma (spec.below self.now.levels).expression cursor.old) result cursor.new }
        ensures takes { Takes result cursor.old cursor.new }
    {
        separated(self.alloc, cursor, TokenKind::Comma, &Inner(self))
    }
}

#[derive(Drop)]
struct Inner<'g, E, S>(&'g Grammar<E, S>);

impl<
    't,
    E: Fn(Global, &mut Cursor<'_>, u8) -> Read<Expression>,
    S: Fn(Global, &mut Cursor<'_>, u8) -> Read<Expression>,
> Form<Cursor<'t>> for Inner<'_, E, S> {
    type Tree = Expression;

    ghost form = { λ f. (spec.below f.0.now.levels).expression };

    ghost can_read = { λ f. (0 < f.0.now.levels) × NestsBoth f.0.now.levels (E.pre f.0.now.expression) (E.post f.0.now.expression) (S.pre f.0.now.simple_expression) (S.post f.0.now.simple_expression) };

    fn read(&self, _alloc: Global, cursor: &mut Cursor<'t>) -> Read<Expression> {
        self.0.inner(cursor)
    }
}
