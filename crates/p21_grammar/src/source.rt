//! The tokens of instances, with room for the lists that are being read.

ghost use Rattle.std.specs.Prelude.{◌≡◌, [], IfOk, OnOk};
ghost use Rattle.text_forms.specs.Forms as forms;
ghost use Rattle.text_forms.specs.Forms.{turns};
ghost use Rattle.text_forms.specs.Reads.{ReadsAs, Takes};
ghost use Rattle.p21_lexemes.specs.Tokens as spec;

use p21_lexemes::{TokenKind, Tokens};
use p21_tree::{FileFault, Instance, Record, Value};
use plain_data::{Failure, Items};
use std::alloc::{AllocError, Global};
use std::marker::Model;
use text_forms::TokenSource;

/// What is left of a file's tokens. Lists are short and many: where instances aren't kept, each list is read into the room
/// that another one left.
#[derive(Drop)]
pub struct Source<'t> {
    pub tokens: Tokens<'t>,
    rooms: Vec<Items<Value<'t>>>,
}

impl<'t> Model for Source<'t> {
    ghost use Rattle.p21_lexemes.specs.Tokens.{Lexemes};

    ghost Value = { Lexemes };

    ghost view = { λ s. s.tokens };
}

/// A list without values, with room for one: most have no more.
fn room_for_one<'t>(alloc: Global) -> Result<Items<Value<'t>>, AllocError>
    ensures { IfOk result (λ room. room ≡ []) }
{
    Ok(Items::from_vec(Vec::with_capacity(alloc, 1)?))
}

impl<'t> Source<'t> {
    ghost use Rattle.std.specs.Prelude.{◌≡◌, [], IfOk, OnOk};

    /// These tokens, without any room so far.
    pub fn new(alloc: Global, tokens: Tokens<'t>) -> Source<'t>
        ensures { result ≡ tokens.entry }
    {
        Source {
            tokens,
            rooms: Vec::new(alloc),
        }
    }

    /// The tokens that are left.
    pub fn into_tokens(self) -> Tokens<'t>
        ensures { result ≡ self.entry }
    {
        let Source { tokens, rooms } = self;
        drop(rooms);
        tokens
    }

    /// A list without values, in room that another one left if there is any.
    pub(crate) fn room(&mut self, alloc: Global) -> Result<Items<Value<'t>>, AllocError>
        ensures empty { IfOk result (λ room. room ≡ []) }
        ensures tokens { self.new ≡ self.old }
    {
        match self.rooms.pop() {
            Some(room) if room.is_empty() => Ok(room),
            _ => room_for_one(alloc),
        }
    }

    /// Leaves the room of a list that isn't needed any more to others.
    fn leave(&mut self, mut list: Items<Value<'t>>) -> Result<(), AllocError>
        ensures { self.new ≡ self.old }
    {
        'values: while let Some(value) = list.pop() {
            drop(value.into_list());
        }
        self.rooms.push(list)?;
        Ok(())
    }

    /// Leaves the room of a list and of the lists in it to others.
    fn leave_lists(&mut self, mut list: Items<Value<'t>>) -> Result<(), AllocError>
        ensures { self.new ≡ self.old }
    {
        'values: while let Some(value) = list.pop() {
            if let Some(values) = value.into_list() {
                self.leave(values)?;
            }
        }
        self.rooms.push(list)?;
        Ok(())
    }

    /// Leaves the room of an instance that isn't needed any more to others.
    pub fn leave_instance(&mut self, instance: Instance<'t>) -> Result<(), AllocError>
        ensures { self.new ≡ self.old }
    {
        let Instance { name: _, mapping } = instance;
        match mapping.into_internal() {
            Some(Record { keyword: _, values }) => self.leave_lists(values),
            None => Ok(()),
        }
    }
}

impl<'t> TokenSource for Source<'t> {
    type Kind = TokenKind;

    type Token = &'t [u8];

    type Fault = FileFault;

    ghost turns = { turns };

    ghost use Rattle.std.specs.Prelude.{List, ℕ};

    ghost Seen = { List ℕ };

    ghost seen = { λ text. text.now };

    ghost sees = { spec.sees };

    ghost expect = { spec.expect };

    fn sees(&self, kind: TokenKind) -> bool {
        self.tokens.sees(kind)
    }

    fn expect(&mut self, kind: TokenKind) -> Result<&'t [u8], Failure<FileFault>> {
        self.tokens.expect(kind)
    }
}
