//! The answer that is on its way out.
ghost use Rattle.std.specs.Prelude.{◌≡◌, ◌≤◌, ◌++◌, length, drop, []};
ghost use Rattle.rp_http.specs.Bytes.{first_in, rest_in, text_in, owed_in, last_of};

use crate::answers::AnswerBytes;
use rp_repo::release;
use std::marker::Model;
use std::mem::replace;

/// What is still to be sent of an answer.
#[derive(Drop)]
pub(crate) struct Outbox {
    bytes: AnswerBytes,
    /// How many bytes of the first block are still to be sent.
    left: usize,
}

impl Model for Outbox {
    ghost use Rattle.std.specs.Prelude.{◌≡◌, ◌≤◌, [], length};
    ghost use Rattle.rp_http.specs.Bytes.{Owed, first_in, rest_in, last_of};

    ghost Value = { Owed };

    ghost view = { λ o. record { first = last_of o.left (first_in o.bytes); rest = rest_in o.bytes } };

    ghost invariant = { λ o. (o.left ≤ length (first_in o.bytes)) × (o.left ≡ 0 → rest_in o.bytes ≡ []) };
}

/// The first block of an answer.
fn first_block(bytes: &AnswerBytes) -> &[u8]
    ensures { result.now ≡ first_in bytes.now }
{
    match bytes {
        AnswerBytes::Fixed(bytes) => bytes,
        AnswerBytes::Joined(bytes) => bytes,
        AnswerBytes::Parted(head, _) => head,
    }
}

/// What is left of an answer whose first block is sent.
fn second_block(bytes: AnswerBytes) -> AnswerBytes
    ensures first { first_in result ≡ rest_in bytes }
    ensures rest { rest_in result ≡ [] }
{
    match bytes {
        AnswerBytes::Parted(head, body) => {
            release(head);
            AnswerBytes::Joined(body)
        }
        bytes => {
            bytes.release();
            AnswerBytes::Fixed(b"")
        }
    }
}

/// Goes on to the second block where the first is sent. The memory of a block that is sent is given back.
fn move_on(bytes: &mut AnswerBytes, left: &mut usize)
    requires { left.old ≤ length (first_in bytes.old) }
    ensures place { left.new ≤ length (first_in bytes.new) }
    ensures settled { left.new ≡ 0 → rest_in bytes.new ≡ [] }
    ensures same { last_of left.new (first_in bytes.new) ++ rest_in bytes.new ≡ last_of left.old (first_in bytes.old) ++ rest_in bytes.old }
{
    if *left == 0 {
        let before = replace(bytes, AnswerBytes::Fixed(b""));
        *bytes = second_block(before);
        *left = first_block(bytes).len();
    }
}

impl Outbox {
    ghost use Rattle.std.specs.Prelude.{◌<◌, true, false};

    /// Nothing is to be sent.
    pub(crate) fn new() -> Outbox
        ensures { owed_in result ≡ [] }
    {
        Outbox {
            bytes: AnswerBytes::Fixed(b""),
            left: 0,
        }
    }

    /// What the next write is given: not empty where something is still to be sent.
    pub(crate) fn next(&self) -> &[u8]
        ensures first { result.now ≡ self.now.first }
        ensures some { result.now ≡ [] → owed_in self.now ≡ [] }
    {
        let block = first_block(&self.bytes);
        &block[block.len() - self.left..]
    }

    pub(crate) fn is_empty(&self) -> bool
        ensures empty { result ≡ true → owed_in self.now ≡ [] }
        ensures some { result ≡ false → 0 < length self.now.first }
    {
        self.next().is_empty()
    }

    /// So many bytes were sent.
    pub(crate) fn advance(&mut self, count: usize)
        requires { count ≤ length self.old.first }
        ensures { owed_in self.new ≡ drop count (owed_in self.old) }
    {
        self.left -= count;
        move_on(&mut self.bytes, &mut self.left);
    }

    /// Takes an answer in place of the one before.
    pub(crate) fn put(&mut self, bytes: AnswerBytes)
        ensures { owed_in self.new ≡ text_in bytes }
    {
        let before = replace(&mut self.bytes, bytes);
        self.left = first_block(&self.bytes).len();
        before.release();
        move_on(&mut self.bytes, &mut self.left);
    }
}
