//! What an expression or a statement stands in.

ghost use Rattle.std.specs.Prelude.{◌≡◌, [], ◌∷◌, ◌++◌, IfOk, slice_index_or};
ghost use Rattle.ex_typing.specs.Expressions as spec;

use crate::known::kinds_at;
use ex_kinds::{Kinds, ValueKind};
use std::alloc::{AllocError, Global};
use std::marker::Model;

/// What an expression or a statement stands in: the entity at hand, what SELF may be, what the variables may be, and what
/// the function at hand gives.
#[derive(Drop)]
pub struct TypingScope<'a> {
    entity: Option<usize>,
    itself: &'a [ValueKind],
    /// Of parameters and locals, which are the first slots.
    frame: &'a [Kinds],
    /// Of the variables of REPEAT and QUERY that are open, from the outermost.
    nested: Vec<&'a [ValueKind]>,
    result: &'a [ValueKind],
}

impl<'a> Model for TypingScope<'a> {
    ghost use Rattle.std.specs.Prelude.{map, ◌++◌};
    ghost use Rattle.ex_typing.specs.Expressions as spec;

    ghost Value = { spec.TypingScope };

    ghost view = { λ s. record { entity = s.entity; itself = s.itself.now; variables = s.frame.now ++ map (λ v. v.now) s.nested.items; result = s.result.now } };
}

impl<'a> TypingScope<'a> {
    /// With no variable of REPEAT or QUERY open.
    pub fn new(
        alloc: Global,
        entity: Option<usize>,
        itself: &'a [ValueKind],
        frame: &'a [Kinds],
        result_kinds: &'a [ValueKind],
    ) -> TypingScope<'a>
        ensures { result ≡ record { entity = entity; itself = itself.now; variables = frame.now; result = result_kinds.now } }
    {
        TypingScope {
            entity,
            itself,
            frame,
            nested: Vec::new(alloc),
            result: result_kinds,
        }
    }

    /// The same with one variable more, open within this scope.
    pub fn within(
        &self,
        alloc: Global,
        variable: &'a [ValueKind],
    ) -> Result<TypingScope<'a>, AllocError>
        ensures { IfOk result (λ s. s ≡ spec.within self.now variable.now) }
    {
        Ok(TypingScope {
            entity: self.entity,
            itself: self.itself,
            frame: self.frame,
            nested: one_more(alloc, &self.nested, variable)?,
            result: self.result,
        })
    }

    /// What the variable of a slot may be.
    pub fn variable(&self, slot: usize) -> &[ValueKind]
        ensures { result.now ≡ slice_index_or self.now.variables slot [] }
    {
        if slot < self.frame.len() {
            return kinds_at(self.frame, slot);
        }
        match self.nested.get(slot - self.frame.len()) {
            Some(kinds) => kinds,
            None => &[],
        }
    }

    /// What the function at hand gives.
    pub fn result(&self) -> &[ValueKind]
        ensures { result.now ≡ self.now.result }
    {
        self.result
    }

    pub(crate) fn itself(&self) -> &[ValueKind]
        ensures { result.now ≡ self.now.itself }
    {
        self.itself
    }

    pub(crate) fn entity(&self) -> Option<usize>
        ensures { result ≡ self.now.entity }
    {
        self.entity
    }
}

/// These, and one more behind them.
fn one_more<'a>(
    alloc: Global,
    others: &[&'a [ValueKind]],
    last: &'a [ValueKind],
) -> Result<Vec<&'a [ValueKind]>, AllocError>
    ensures { IfOk result (λ found. found.items ≡ others.now ++ last.entry ∷ []) }
{
    let mut found = Vec::with_capacity(alloc, others.len() + 1)?;
    found.extend_from_slice(others)?;
    found.push(last)?;
    Ok(found)
}
