//! What came by a connection behind the messages that were answered.
ghost use Rattle.std.specs.Prelude.{◌≡◌, ◌≤◌, ◌+◌, ◌++◌, length, drop, IfOk};
ghost use Rattle.std.specs.Vec.{vec_capacity, vec_len};

use crate::connection::Stage;
use http_routes::Bare;
use rp_repo::release;
use std::alloc::{AllocError, Global};
use std::marker::Model;
use std::mem::replace;

/// How many bytes of heads, and of what stands behind them, are held: those of a head, and of one read more.
const ROOM: usize = 32_768;

/// What a message is answered whose body is dropped.
#[derive(Clone, Copy, PartialEq, Eq)]
pub enum Dropped {
    /// What its head decides.
    ByHead(Bare),
    /// That there was no memory for it.
    NoMemory,
}

/// What comes next.
#[derive(Drop)]
pub(crate) enum Coming {
    /// Heads, with what stands behind them.
    Heads,
    /// The rest of a message of so many bytes. The connection goes on after it, or doesn't.
    Body(Vec<u8>, usize, bool),
    /// So many bytes of a message whose body is dropped.
    Skip(usize, bool, Dropped),
}

/// What came by a connection and isn't used up.
#[derive(Drop)]
pub struct Inbox {
    held: Vec<u8>,
    coming: Coming,
}

impl Model for Inbox {
    ghost use Rattle.std.specs.Prelude.{◌≤◌};
    ghost use Rattle.std.specs.Vec.{vec_capacity};
    ghost use Rattle.rp_http.specs.Inboxes.{State, state_of, held_room, IsSound};

    ghost Value = { State };

    ghost view = { λ i. state_of i.held.items i.coming };

    ghost invariant = { λ i. (held_room ≤ vec_capacity i.held) × IsSound i.held.items i.coming };
}

/// What there is to do.
#[derive(Clone, Copy, PartialEq, Eq)]
pub(crate) enum Ready {
    /// To look for a message in the bytes that are at hand.
    Looks,
    /// To wait for more bytes.
    Waits,
    /// To answer the message that was dropped.
    Skipped(bool, Dropped),
}

/// Takes the front from some bytes.
fn remove_front(held: &mut Vec<u8>, count: usize)
    requires { count ≤ vec_len held.old }
    ensures items { held.new.items ≡ drop count held.old.items }
    ensures capacity { vec_capacity held.new ≡ vec_capacity held.old }
{
    let len = held.len();
    held.as_mut_slice().copy_within(count..len, 0);
    held.truncate(len - count);
}

/// Puts bytes behind others, for which there is room.
fn append(held: &mut Vec<u8>, bytes: &[u8])
    requires { vec_len held.old + length bytes.now ≤ vec_capacity held.old }
    ensures items { held.new.items ≡ held.old.items ++ bytes.now }
    ensures capacity { vec_capacity held.old ≤ vec_capacity held.new }
{
    let Ok(()) = held.extend_from_slice(bytes) else {
        unreachable!()
    };
}

/// Room for a message of so many bytes, of which these came.
fn body_from(alloc: Global, bytes: &[u8], size: usize) -> Result<Vec<u8>, AllocError>
    ensures { IfOk result (λ body. body.items ≡ bytes.now) }
{
    let mut body = Vec::with_capacity(alloc, size)?;
    body.extend_from_slice(bytes)?;
    Ok(body)
}

impl Inbox {
    ghost use Rattle.std.specs.Prelude.{◌-◌, ℕ, List, []};
    ghost use Rattle.rp_http.specs.Inboxes.{Open, Skips, IsComing, shown, room_of, weight, Holds, IsReady, IsGathered, IsWhole};
    ghost use Rattle.rp_http.specs.Serving.{stage_in};

    /// An empty one.
    pub fn new(alloc: Global) -> Result<Inbox, AllocError>
        ensures { IfOk result (λ inbox. inbox ≡ Open []) }
    {
        let held = Vec::with_capacity(alloc, ROOM)?;
        Ok(Inbox {
            held,
            coming: Coming::Heads,
        })
    }

    /// How many more bytes may come before some are used up.
    pub(crate) fn room(&self) -> usize
        ensures { result ≡ room_of self.now }
    {
        match &self.coming {
            Coming::Heads => ROOM.saturating_sub(self.held.len()),
            Coming::Body(bytes, size, _) => size.saturating_sub(bytes.len()),
            Coming::Skip(left, _, _) => *left,
        }
    }

    /// Of what more bytes would be.
    pub(crate) fn stage(&self) -> Stage
        ensures { result ≡ stage_in self.now }
    {
        match &self.coming {
            Coming::Heads => {
                if self.held.is_empty() {
                    Stage::Nothing
                } else {
                    Stage::Head
                }
            }
            _ => Stage::Body,
        }
    }

    /// The bytes that are at hand.
    pub(crate) fn shown(&self) -> &[u8]
        ensures { result.now ≡ shown self.now }
    {
        match &self.coming {
            Coming::Body(bytes, _, _) => bytes,
            _ => &self.held,
        }
    }

    pub(crate) fn ready(&self) -> Ready
        ensures { IsReady self.now result }
    {
        match &self.coming {
            Coming::Heads => Ready::Looks,
            Coming::Body(bytes, size, _) => {
                if bytes.len() < *size {
                    Ready::Waits
                } else {
                    Ready::Looks
                }
            }
            Coming::Skip(left, stays, why) => {
                if *left > 0 {
                    Ready::Waits
                } else {
                    Ready::Skipped(*stays, *why)
                }
            }
        }
    }

    /// Takes what came, for which there is room. Where no memory is found for a body, the message is dropped.
    pub(crate) fn receive(&mut self, piece: &[u8])
        requires { length piece.now ≤ room_of self.old }
        ensures weight { weight self.new ≤ weight self.old + length piece.now + 1 }
        ensures holds { (tokens : List (List ℕ)) (came : List ℕ) → Holds tokens came self.old → Holds tokens (came ++ piece.now) self.new }
    {
        let count = piece.len();
        match &mut self.coming {
            Coming::Heads => append(&mut self.held, piece),
            Coming::Body(bytes, size, stays) => {
                if bytes.extend_from_slice(piece).is_err() {
                    let (left, stays) = (*size - bytes.len() - count, *stays);
                    self.drop_body(left, stays, Dropped::NoMemory);
                }
            }
            Coming::Skip(left, _, _) => *left -= count,
        }
    }

    /// Lets go of the bytes that are at hand. So many are still to come of their message.
    fn drop_body(&mut self, left: usize, stays: bool, why: Dropped)
        ensures { self.new ≡ Skips left stays why }
    {
        self.clear();
        self.coming = Coming::Skip(left, stays, why);
    }

    /// Lets go of all.
    pub(crate) fn clear(&mut self)
        ensures { self.new ≡ Open [] }
    {
        self.held.clear();
        if let Coming::Body(bytes, _, _) = replace(&mut self.coming, Coming::Heads) {
            release(bytes);
        }
    }

    /// Goes on without the body of the message that the bytes at hand begin, which has so many bytes.
    pub(crate) fn skip(&mut self, size: usize, stays: bool, why: Dropped)
        requires { length (shown self.old) ≤ size }
        ensures { self.new ≡ Skips (size - length (shown self.old)) stays why }
    {
        let left = size - self.shown().len();
        self.drop_body(left, stays, why);
    }

    /// Makes room for the message that the bytes at hand begin, which has so many bytes. Where there is none, it is dropped.
    pub(crate) fn gather(&mut self, alloc: Global, size: usize, stays: bool)
        requires { IsComing (shown self.old) size stays }
        ensures { IsGathered (shown self.old) size stays self.new }
    {
        match body_from(alloc, self.shown(), size) {
            Ok(bytes) => {
                self.clear();
                self.coming = Coming::Body(bytes, size, stays);
            }
            Err(AllocError) => self.skip(size, stays, Dropped::NoMemory),
        }
    }

    /// Uses up the message that the bytes at hand begin with, which has so many bytes.
    pub(crate) fn use_up(&mut self, size: usize)
        requires { IsWhole self.old size }
        ensures { self.new ≡ Open (drop size (shown self.old)) }
    {
        match &mut self.coming {
            Coming::Heads => remove_front(&mut self.held, size),
            _ => self.clear(),
        }
    }
}
