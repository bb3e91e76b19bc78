//! How long a connection may take. The times are of a clock that stands still while the program works, so that nobody is ended
//! for what another one asks.
ghost use Rattle.std.specs.Prelude.{◌≡◌, ◌≢◌, ◌+◌, ◌-◌, ◌^◌, min};
ghost use Rattle.rp_sockets.specs.Deadlines as spec;

use std::time::Duration;

/// How many seconds a head may take from its first byte on.
const HEAD: u64 = 30;

/// How many seconds after its head a body may come as slowly as it likes.
const SLOW_BODY: u64 = 30;

/// How many bytes of a body have to come for each second then, from its head on.
const BODY_RATE: u64 = 1_024;

/// How many seconds a connection may be quiet.
const QUIET: u64 = 60;

/// How many seconds a peer may take to close a connection whose last reply is sent.
const CLOSING: u64 = 5;

/// The most bytes that are at hand of a message that began while another one was answered.
const AT_HAND: u64 = 32_768;

/// What a connection waits for.
#[derive(Clone, Copy, PartialEq, Eq)]
pub enum Awaited {
    /// The first byte of a head.
    Nothing,
    /// The rest of a head.
    Head,
    /// The rest of a body.
    Body,
    /// That a reply is sent.
    Reply,
    /// That the peer closes.
    Close,
}

/// The times of a connection.
#[derive(Clone, Copy, PartialEq, Eq)]
pub struct Times {
    awaited: Awaited,
    /// Since when it waits for that: for a head its first byte, for a body the end of its head.
    since: Duration,
    /// When a byte last came or went.
    moved: Duration,
    /// How many bytes of the message came, or up to 32,768 more where some were at hand before its turn.
    came: u64,
}

impl Times {
    /// Those of a connection that was opened now.
    pub fn opened(now: Duration) -> Times
        ensures { result ≡ record { awaited = Awaited.Nothing; since = now; moved = now; came = 0 } }
    {
        Times {
            awaited: Awaited::Nothing,
            since: now,
            moved: now,
            came: 0,
        }
    }

    /// The same after so many bytes came.
    pub fn read(self, count: usize, now: Duration) -> Times
        ensures moved { result.moved ≡ now }
        ensures came { result.came ≡ min (self.came + count) (2 ^ 64 - 1) }
        ensures rest { (result.awaited ≡ self.awaited) × (result.since ≡ self.since) }
    {
        Times {
            moved: now,
            came: self.came.saturating_add(count as u64),
            ..self
        }
    }

    /// The same after bytes went.
    pub fn sent(self, now: Duration) -> Times
        ensures { result ≡ record self { moved = now } }
    {
        Times { moved: now, ..self }
    }

    /// The same where this is waited for now.
    pub fn with(self, awaited: Awaited, now: Duration) -> Times
        ensures awaited { result.awaited ≡ awaited }
        ensures same { awaited ≡ self.awaited → result ≡ self }
        ensures since { awaited ≢ self.awaited → result.since ≡ now }
        ensures came { awaited ≢ self.awaited → result.came ≡ spec.came_by awaited self.came }
        ensures moved { result.moved ≡ self.moved }
    {
        if awaited == self.awaited {
            return self;
        }
        Times {
            awaited,
            since: now,
            came: came_by(awaited, self.came),
            ..self
        }
    }

    /// Whether the connection took too long.
    pub fn is_late(&self, now: Duration) -> bool
        ensures { result ≡ spec.is_late self.now now }
    {
        seconds(self.moved, now) >= QUIET
            || is_too_long(self.awaited, seconds(self.since, now), self.came)
    }
}

/// How many bytes of a message came by when this is waited for, of so many that came before.
fn came_by(awaited: Awaited, came: u64) -> u64
    ensures { result ≡ spec.came_by awaited came }
{
    match awaited {
        Awaited::Nothing => 0,
        Awaited::Reply => came.min(AT_HAND),
        Awaited::Head | Awaited::Body | Awaited::Close => came,
    }
}

/// The whole seconds from one time to another.
fn seconds(from: Duration, to: Duration) -> u64
    ensures { result ≡ spec.seconds from to }
{
    to.saturating_sub(from).as_secs()
}

/// Whether so many seconds are too long for what is awaited, while so many bytes came.
fn is_too_long(awaited: Awaited, passed: u64, came: u64) -> bool
    ensures { result ≡ spec.is_too_long awaited passed came }
{
    match awaited {
        Awaited::Nothing | Awaited::Reply => false,
        Awaited::Head => passed >= HEAD,
        Awaited::Body => passed >= SLOW_BODY && came / BODY_RATE < passed,
        Awaited::Close => passed >= CLOSING,
    }
}
