//! One connection: what came by it, and what is still to be sent.
ghost use Rattle.std.specs.Prelude.{◌≡◌, ◌≢◌, ◌≤◌, ◌<◌, ◌+◌, ◌++◌, ◌⊎◌, ℕ, List, [], Option, true, false, length, min, take, IfOk, OnOk, OnErr, IsErrOf};
ghost use Rattle.std.specs.Io.KnownBytes.{Consumes, IsAtEnd, Keeps};
ghost use Rattle.rp_io.specs.Reads.{Reads, MakesReads};
ghost use Rattle.rp_plain.specs.Plain.{Plain};
ghost use Rattle.rp_http.specs.Bytes.{owed_in};
ghost use Rattle.rp_http.specs.Inboxes.{Open, Holds, room_of, weight};
ghost use Rattle.rp_http.specs.Runs.{max_reads, MakesSome, IsEndedRun, IsWholeRun, IsCutRun};
ghost use Rattle.rp_http.specs.Serving.{IsServed, IsLast, stage_at};
ghost use Rattle.rp_http.specs.Stepping.{HasCome, IsTaken, IsOneRead, piece_room, Takes, Moves, Gives, Spends, SendsOf, Writes, settled};
ghost use Rattle.rp_http.specs.Turns.{Leaves};

use crate::answers::AnswerBytes;
use crate::inbox::Inbox;
use crate::outbox::Outbox;
use crate::turn::{Turn, take_turn};
use crate::workspace::{PIECE, Workspace};
use http_routes::{Tokens, fault_answer};
use rp_io::{DeviceFault, Sink, Source};
use rp_repo::Repository;
use std::alloc::{AllocError, Global};

/// The most reads of a connection.
const READS: u32 = 1_000_000;

/// What a connection does next.
#[derive(Clone, Copy, PartialEq, Eq)]
pub(crate) enum Phase {
    /// It looks for a message in what came.
    Turns,
    /// It reads.
    Wants,
    /// It sends a reply, and goes on after it or doesn't.
    Sends(bool),
    /// It sends why no message can come, and ends.
    Refuses,
}

/// What one step of a connection came to.
#[derive(Clone, Copy, PartialEq, Eq)]
pub enum Stepped {
    /// A message was looked for.
    Turned,
    /// So many bytes came.
    Read(usize),
    /// Some bytes were sent.
    Sent,
    /// No more bytes come, and all messages that came whole are answered.
    Ended,
    /// The last reply is out.
    Over,
}

/// What failed in a step. All is as it was before the step, so that it can be tried again.
#[derive(Clone, Copy, PartialEq, Eq)]
pub enum StreamFault {
    /// A read failed, or the last of 1,000,000 reads was made.
    Read,
    Write,
}

/// What a connection waits for.
#[derive(Clone, Copy, PartialEq, Eq)]
pub enum Stage {
    /// The first byte of a head.
    Nothing,
    /// The rest of a head.
    Head,
    /// The rest of a body.
    Body,
    /// That a reply is sent.
    Reply,
}

/// One connection.
pub struct Connection {
    pub(crate) inbox: Inbox,
    pub(crate) outbox: Outbox,
    pub(crate) phase: Phase,
    pub(crate) reads: u32,
}

impl Drop for Connection {
    fn drop(self) {
        let Connection {
            inbox,
            outbox,
            phase: _,
            reads: _,
        } = self;
        drop(inbox);
        drop(outbox);
    }
}

/// Reads once.
fn read_once<R: Source>(reader: &mut R, piece: &mut [u8]) -> Result<usize, DeviceFault>
    ensures bound { IfOk result (λ n. n ≤ length piece.new) }
    ensures room { length piece.new ≡ length piece.old }
    ensures bytes { IfOk result (λ n. Consumes (R.remaining reader.old) (R.remaining reader.new) (take n piece.new)) }
    ensures gives { IfOk result (λ n. R.read_gives reader.old (take n piece.new) reader.new) }
    ensures end { IfOk result (λ n. n ≡ 0 → 0 < length piece.old → IsAtEnd (R.remaining reader.new)) }
    ensures keeps { OnErr result (Keeps (R.remaining reader.old) (R.remaining reader.new)) }
    ensures counted { MakesReads (R.reads_made reader.old) (R.reads_made reader.new) 1 (length piece.old) }
    ensures same { OnOk result (R.read_failures reader.new ≡ R.read_failures reader.old) }
    ensures err { OnErr result (R.read_failures reader.new ≢ R.read_failures reader.old) }
{
    reader.read(piece)
}

impl Connection {
    /// A connection by which nothing came.
    pub fn new(alloc: Global) -> Result<Connection, AllocError>
        ensures inbox { IfOk result (λ c. c.inbox ≡ Open []) }
        ensures outbox { IfOk result (λ c. owed_in c.outbox ≡ []) }
        ensures phase { IfOk result (λ c. c.phase ≡ Phase.Turns) }
        ensures reads { IfOk result (λ c. c.reads ≡ max_reads) }
        ensures come { IfOk result (λ c. (tokens : List (List ℕ)) → HasCome tokens [] c) }
    {
        let inbox = Inbox::new(alloc)?;
        Ok(Connection {
            inbox,
            outbox: Outbox::new(),
            phase: Phase::Turns,
            reads: READS,
        })
    }

    /// What it waits for.
    pub fn stage(&self) -> Stage
        ensures { result ≡ stage_at self.now.inbox self.now.phase }
    {
        match self.phase {
            Phase::Sends(_) | Phase::Refuses => Stage::Reply,
            Phase::Turns | Phase::Wants => self.inbox.stage(),
        }
    }

    /// Answers the first message that came, if it is there whole. What is answered is still to be sent.
    pub(crate) fn turn(
        &mut self,
        alloc: Global,
        repository: &mut Repository<'_>,
        tokens: &Tokens,
        workspace: &mut Workspace,
    )
        requires few { length tokens.now ≤ length repository.old.content.partners }
        requires turns { self.old.phase ≡ Phase.Turns }
        ensures served { (start : Plain) (input known before after : Option (List ℕ)) →
            IsServed tokens.now start repository.old.content input known before after self.old →
            IsServed tokens.now start repository.new.content input known before after self.new }
        ensures takes { (came : List ℕ) → HasCome tokens.now came self.old →
            IsTaken tokens.now came repository.old.content repository.new.content self.new.inbox (owed_in self.new.outbox) self.new.phase }
        ensures run { Leaves tokens.now repository.old.content repository.new.content }
        ensures partners { repository.new.content.partners ≡ repository.old.content.partners }
        ensures phase { self.new.phase ≢ Phase.Turns }
        ensures reads { self.new.reads ≡ self.old.reads }
        ensures less { self.new.phase ≢ Phase.Wants → self.new.phase ≢ Phase.Refuses → weight self.new.inbox < weight self.old.inbox }
        ensures wants { self.new.phase ≡ Phase.Wants → weight self.new.inbox ≤ weight self.old.inbox + 1 }
    {
        match take_turn(
            alloc,
            repository,
            tokens,
            &mut self.inbox,
            &mut workspace.scratch,
        ) {
            Turn::Answered(bytes, stays) => {
                self.outbox.put(bytes);
                self.phase = Phase::Sends(stays);
            }
            Turn::Refused(fault) => {
                self.outbox.put(AnswerBytes::Fixed(fault_answer(fault)));
                self.phase = Phase::Refuses;
            }
            Turn::Wants => self.phase = Phase::Wants,
        }
    }

    /// Reads once. Answers how many bytes came: none where the input has ended.
    pub(crate) fn read<R: Source>(
        &mut self,
        workspace: &mut Workspace,
        reader: &mut R,
    ) -> Result<usize, DeviceFault>
        requires { self.old.phase ≡ Phase.Wants }
        ensures served { (tokens : List (List ℕ)) (start now : Plain) (input before after : Option (List ℕ)) →
            IsServed tokens start now input (R.remaining reader.old) before after self.old →
            IsServed tokens start now input (R.remaining reader.new) before after self.new }
        ensures ended { IfOk result (λ n. n ≡ 0 → (tokens : List (List ℕ)) (start now : Plain) (input before after : Option (List ℕ)) →
            IsServed tokens start now input (R.remaining reader.old) before after self.old →
            IsEndedRun tokens start now input before after) }
        ensures gives { IfOk result (λ n. 0 < room_of self.old.inbox → (piece : List ℕ) × (length piece ≡ n)
            × IsOneRead R.reads_made R.remaining R.read_gives reader.old reader.new (min piece_room (room_of self.old.inbox)) piece
            × ((tokens : List (List ℕ)) (came : List ℕ) → Holds tokens came self.old.inbox → Holds tokens (came ++ piece) self.new.inbox)) }
        ensures outbox { self.new.outbox ≡ self.old.outbox }
        ensures none { IfOk result (λ n. n ≡ 0 → (self.new.inbox ≡ self.old.inbox) × (self.new.phase ≡ self.old.phase)) }
        ensures phase { IfOk result (λ n. 0 < n → self.new.phase ≡ Phase.Turns) }
        ensures reads { IfOk result (λ n. self.new.reads + 1 ≡ self.old.reads) }
        ensures counted { OnOk result (MakesSome (R.reads_made reader.old) (R.reads_made reader.new) 1) }
        ensures gave { IfOk result (λ n. Gives (R.remaining reader.old) (R.remaining reader.new) n) }
        ensures weight { IfOk result (λ n. weight self.new.inbox ≤ weight self.old.inbox + 16385) }
        ensures same { OnOk result (R.read_failures reader.new ≡ R.read_failures reader.old) }
        ensures kept { OnErr result ((self.new ≡ self.old) × Keeps (R.remaining reader.old) (R.remaining reader.new)) }
        ensures err { OnErr result ((R.read_failures reader.new ≢ R.read_failures reader.old) ⊎ ((self.old.reads ≡ 0) × (reader.new ≡ reader.old))) }
    {
        if self.reads == 0 {
            return Err(DeviceFault);
        }
        let room = PIECE.min(self.inbox.room());
        let piece = &mut workspace.piece[..room];
        let count = read_once(reader, piece)?;
        self.reads -= 1;
        if count > 0 {
            self.inbox.receive(&piece[..count]);
            self.phase = Phase::Turns;
        }
        Ok(count)
    }

    /// Writes once of what is still to be sent.
    pub(crate) fn send<W: Sink>(&mut self, writer: &mut W) -> Result<(), DeviceFault>
        ensures served { (tokens : List (List ℕ)) (start now : Plain) (input known before : Option (List ℕ)) →
            IsServed tokens start now input known before (W.contents writer.old) self.old →
            IsServed tokens start now input known before (W.contents writer.new) self.new }
        ensures cut { OnErr result (0 < length self.old.outbox.first → (tokens : List (List ℕ)) (start now : Plain) (input known before : Option (List ℕ)) →
            IsServed tokens start now input known before (W.contents writer.old) self.old →
            IsCutRun tokens start now input before (W.contents writer.new)) }
        ensures fewer { OnOk result (0 < length self.old.outbox.first → length (owed_in self.new.outbox) < length (owed_in self.old.outbox)) }
        ensures sent { OnOk result (SendsOf (owed_in self.old.outbox) (owed_in self.new.outbox) (W.contents writer.old) (W.contents writer.new)) }
        ensures inbox { self.new.inbox ≡ self.old.inbox }
        ensures reads { self.new.reads ≡ self.old.reads }
        ensures settles { OnOk result (self.new.phase ≡ settled self.old.phase (owed_in self.new.outbox)) }
        ensures stays { self.old.phase ≢ Phase.Sends true → self.new.phase ≡ self.old.phase }
        ensures wants { self.new.phase ≡ Phase.Wants → self.old.phase ≡ Phase.Wants }
        ensures kept { OnErr result ((self.new ≡ self.old) × Keeps (W.contents writer.old) (W.contents writer.new)) }
        ensures same { OnOk result (W.write_failures writer.new ≡ W.write_failures writer.old) }
        ensures err { OnErr result (W.write_failures writer.new ≢ W.write_failures writer.old) }
    {
        let count = writer.write(self.outbox.next())?;
        self.outbox.advance(count);
        self.settle();
        Ok(())
    }

    /// Whether something is still to be sent.
    pub(crate) fn owes(&self) -> bool
        ensures owes { result ≡ true → 0 < length self.now.outbox.first }
        ensures none { result ≡ false → owed_in self.now.outbox ≡ [] }
    {
        !self.outbox.is_empty()
    }

    /// Whether more bytes have to come.
    pub(crate) fn wants(&self) -> bool
        ensures wants { result ≡ true → self.now.phase ≡ Phase.Wants }
        ensures other { result ≡ false → self.now.phase ≢ Phase.Wants }
    {
        self.phase == Phase::Wants
    }

    /// Whether the connection ends once all is sent.
    pub(crate) fn is_last(&self) -> bool
        ensures last { result ≡ true → IsLast self.now.phase }
        ensures more { result ≡ false → ¬ (IsLast self.now.phase) }
    {
        self.phase == Phase::Sends(false) || self.phase == Phase::Refuses
    }

    /// Whether the connection goes on once all is sent.
    fn goes_on(&self) -> bool
        ensures goes { result ≡ true → self.now.phase ≡ Phase.Sends true }
        ensures other { result ≡ false → self.now.phase ≢ Phase.Sends true }
    {
        self.phase == Phase::Sends(true)
    }

    /// Goes on where a reply is out and the connection stays.
    pub(crate) fn settle(&mut self)
        ensures served { (tokens : List (List ℕ)) (start now : Plain) (input known before after : Option (List ℕ)) →
            IsServed tokens start now input known before after self.old →
            IsServed tokens start now input known before after self.new }
        ensures inbox { self.new.inbox ≡ self.old.inbox }
        ensures outbox { self.new.outbox ≡ self.old.outbox }
        ensures reads { self.new.reads ≡ self.old.reads }
        ensures settles { self.new.phase ≡ settled self.old.phase (owed_in self.old.outbox) }
        ensures phase { owed_in self.old.outbox ≡ [] → self.new.phase ≢ Phase.Sends true }
        ensures stays { self.old.phase ≢ Phase.Sends true → self.new.phase ≡ self.old.phase }
        ensures wants { self.new.phase ≡ Phase.Wants → self.old.phase ≡ Phase.Wants }
    {
        if !self.goes_on() {
            return;
        }
        if !self.owes() {
            self.phase = Phase::Turns;
        }
    }

    /// One step: looks for a message and answers it, or reads once, or writes once. A reply is out before the next message is
    /// looked for. Only a step that looks for one changes the repository, which others may change between two steps.
    pub fn step<R: Source, W: Sink>(
        &mut self,
        alloc: Global,
        repository: &mut Repository<'_>,
        tokens: &Tokens,
        workspace: &mut Workspace,
        reader: &mut R,
        writer: &mut W,
    ) -> Result<Stepped, StreamFault>
        requires { length tokens.now ≤ length repository.old.content.partners }
        ensures served { (start : Plain) (input before : Option (List ℕ)) →
            IsServed tokens.now start repository.old.content input (R.remaining reader.old) before (W.contents writer.old) self.old →
            IsServed tokens.now start repository.new.content input (R.remaining reader.new) before (W.contents writer.new) self.new }
        ensures between { self.old.phase ≢ Phase.Turns → (start now : Plain) (input before : Option (List ℕ)) →
            IsServed tokens.now start now input (R.remaining reader.old) before (W.contents writer.old) self.old →
            IsServed tokens.now start now input (R.remaining reader.new) before (W.contents writer.new) self.new }
        ensures still { self.old.phase ≢ Phase.Turns → repository.new ≡ repository.old }
        ensures takes { (came : List ℕ) → HasCome tokens.now came self.old →
            IfOk result (λ stepped. Takes tokens.now came repository.old.content repository.new.content self.new
            (IsOneRead R.reads_made R.remaining R.read_gives reader.old reader.new (min piece_room (room_of self.old.inbox))) stepped) }
        ensures run { Leaves tokens.now repository.old.content repository.new.content }
        ensures partners { repository.new.content.partners ≡ repository.old.content.partners }
        ensures moves { IfOk result (λ stepped. Moves self.old self.new stepped) }
        ensures spends { IfOk result (λ stepped. Spends R.reads_made R.remaining stepped self.old.reads self.new.reads reader.old reader.new) }
        ensures writes { IfOk result (λ stepped. Writes W.contents stepped (owed_in self.old.outbox) (owed_in self.new.outbox) writer.old writer.new) }
        ensures kept { OnErr result ((self.new ≡ self.old) × (repository.new ≡ repository.old) × Keeps (R.remaining reader.old) (R.remaining reader.new) × Keeps (W.contents writer.old) (W.contents writer.new)) }
        ensures read_failed { IsErrOf result StreamFault.Read → (self.old.phase ≡ Phase.Wants) × (writer.new ≡ writer.old) ×
            ((R.read_failures reader.new ≢ R.read_failures reader.old) ⊎ ((self.old.reads ≡ 0) × (reader.new ≡ reader.old))) }
        ensures write_failed { IsErrOf result StreamFault.Write → (0 < length (owed_in self.old.outbox)) × (reader.new ≡ reader.old) ×
            (W.write_failures writer.new ≢ W.write_failures writer.old) }
        ensures whole { IfOk result (λ stepped. (stepped ≡ Stepped.Over) ⊎ (stepped ≡ Stepped.Ended) → (start now : Plain) (input before : Option (List ℕ)) →
            IsServed tokens.now start now input (R.remaining reader.old) before (W.contents writer.old) self.old →
            IsWholeRun tokens.now start now input before (W.contents writer.new)) }
    {
        match self.phase {
            Phase::Turns => {
                self.turn(alloc, repository, tokens, workspace);
                Ok(Stepped::Turned)
            }
            Phase::Wants => match self.read(workspace, reader) {
                Ok(count) => Ok(if count == 0 {
                    Stepped::Ended
                } else {
                    Stepped::Read(count)
                }),
                Err(DeviceFault) => Err(StreamFault::Read),
            },
            Phase::Sends(_) | Phase::Refuses => self.send_on(writer),
        }
    }

    /// One step of a connection that sends.
    fn send_on<W: Sink>(&mut self, writer: &mut W) -> Result<Stepped, StreamFault>
        ensures served { (tokens : List (List ℕ)) (start now : Plain) (input known before : Option (List ℕ)) →
            IsServed tokens start now input known before (W.contents writer.old) self.old →
            IsServed tokens start now input known before (W.contents writer.new) self.new }
        ensures over { IfOk result (λ stepped. stepped ≡ Stepped.Over → IsLast self.new.phase × (owed_in self.new.outbox ≡ [])) }
        ensures ended { IfOk result (λ stepped. stepped ≢ Stepped.Ended) }
        ensures moves { self.old.phase ≢ Phase.Turns → self.old.phase ≢ Phase.Wants → IfOk result (λ stepped. Moves self.old self.new stepped) }
        ensures reads { self.new.reads ≡ self.old.reads }
        ensures inbox { self.new.inbox ≡ self.old.inbox }
        ensures writes { IfOk result (λ stepped. Writes W.contents stepped (owed_in self.old.outbox) (owed_in self.new.outbox) writer.old writer.new) }
        ensures kept { OnErr result ((self.new ≡ self.old) × Keeps (W.contents writer.old) (W.contents writer.new)) }
        ensures write_failed { IsErrOf result StreamFault.Write → (0 < length (owed_in self.old.outbox)) × (W.write_failures writer.new ≢ W.write_failures writer.old) }
        ensures other { ¬ (IsErrOf result StreamFault.Read) }
    {
        if self.owes() {
            return match self.send(writer) {
                Ok(()) => Ok(Stepped::Sent),
                Err(DeviceFault) => Err(StreamFault::Write),
            };
        }
        if self.is_last() {
            return Ok(Stepped::Over);
        }
        self.settle();
        Ok(Stepped::Sent)
    }
}
