//! One connection and its socket.
ghost use Rattle.std.specs.Prelude.{◌≡◌, ◌≤◌, length};
ghost use Rattle.rp_http.specs.Turns.{Leaves};

use crate::deadlines::{Awaited, Times};
use crate::socket::{SocketReader, SocketWriter, Trouble};
use mio::net::TcpStream;
use mio::{Interest, Registry, Token};
use rp_http::{Connection, Stage, Stepped, StreamFault, Tokens, Workspace};
use rp_io::Source;
use rp_repo::Repository;
use std::alloc::Global;
use std::io;
use std::net::Shutdown;
use std::time::Duration;

/// How many steps a connection makes before the others' turn.
const STEPS: u32 = 64;

/// How many reads a connection makes at most once no more requests are wanted: what may have come before that.
const LAST_READS: u32 = 2_048;

/// How many bytes of what comes behind the last reply are dropped at once.
const DROPPED: usize = 4_096;

/// Where a connection stands after a step.
#[derive(Clone, Copy, PartialEq, Eq)]
pub(crate) enum Fate {
    /// It may go on at once.
    Goes,
    /// It waits for its socket.
    Waits,
    /// It has ended.
    Gone,
}

/// A moment of the loop over connections.
#[derive(Clone, Copy)]
pub(crate) struct Moment {
    /// The time of deadlines.
    pub(crate) now: Duration,
    /// A number that grows with each turn of a connection: at one time many may have theirs.
    pub(crate) turn: u64,
}

/// One connection and its socket.
#[derive(Drop)]
pub(crate) struct Client {
    stream: TcpStream,
    connection: Connection,
    times: Times,
    /// The turn in which a byte last came or went, or it was opened.
    moved: u64,
    /// Whether its last reply is sent and its writing side shut, so that what still comes is dropped.
    closing: bool,
    /// How many more reads it may make, where no more requests are wanted.
    last_reads: Option<u32>,
}

impl Client {
    /// A connection that was opened now.
    pub(crate) fn new(stream: TcpStream, connection: Connection, moment: Moment) -> Client {
        Client {
            stream,
            connection,
            times: Times::opened(moment.now),
            moved: moment.turn,
            closing: false,
            last_reads: None,
        }
    }

    /// Has the poll tell when its socket is ready.
    pub(crate) fn register(&mut self, registry: &Registry, token: Token) -> io::Result<()> {
        let interest = Interest::READABLE | Interest::WRITABLE;
        registry.register(&mut self.stream, token, interest)
    }

    /// Has the poll tell again of a socket that is ready still.
    pub(crate) fn reregister(&mut self, registry: &Registry, token: Token) -> io::Result<()> {
        let interest = Interest::READABLE | Interest::WRITABLE;
        registry.reregister(&mut self.stream, token, interest)
    }

    /// Whether it took too long.
    pub(crate) fn is_late(&self, now: Duration) -> bool {
        self.times.is_late(now)
    }

    /// Whether a reply is on its way, so that nothing is read.
    pub(crate) fn sends(&self) -> bool {
        self.connection.stage() == Stage::Reply
    }

    /// The turn in which something last moved.
    pub(crate) fn moved(&self) -> u64 {
        self.moved
    }

    /// No more requests are wanted of it but those that have come.
    pub(crate) fn finish(&mut self) {
        self.last_reads = Some(LAST_READS);
    }

    /// Goes on until its socket would have it wait, or it had enough for now.
    #[tactic(auto, using(crate::proofs::Running::leaves_more, crate::proofs::Running::leaves_none))]
    pub(crate) fn go(
        &mut self,
        alloc: Global,
        repository: &mut Repository<'_>,
        tokens: &Tokens,
        workspace: &mut Workspace,
        moment: Moment,
    ) -> Fate
        requires few { length tokens.now ≤ length repository.old.content.partners }
        ensures run { Leaves tokens.now repository.old.content repository.new.content }
        ensures partners { repository.new.content.partners ≡ repository.old.content.partners }
    {
        for _ in 0..STEPS {
            let fate = self.step(alloc, repository, tokens, workspace, moment);
            if fate != Fate::Goes {
                return fate;
            }
        }
        Fate::Goes
    }

    /// One step of it.
    #[tactic(auto, using(crate::proofs::Running::leaves_more, crate::proofs::Running::leaves_none))]
    fn step(
        &mut self,
        alloc: Global,
        repository: &mut Repository<'_>,
        tokens: &Tokens,
        workspace: &mut Workspace,
        moment: Moment,
    ) -> Fate
        requires few { length tokens.now ≤ length repository.old.content.partners }
        ensures run { Leaves tokens.now repository.old.content repository.new.content }
        ensures partners { repository.new.content.partners ≡ repository.old.content.partners }
    {
        if self.closing {
            return self.linger();
        }
        let stepped = self.advance(alloc, repository, tokens, workspace);
        let fate = self.after(stepped, moment);
        self.times = self.times.with(self.awaited(), moment.now);
        fate
    }

    /// One step of the connection; else why its socket gave nothing.
    fn advance(
        &mut self,
        alloc: Global,
        repository: &mut Repository<'_>,
        tokens: &Tokens,
        workspace: &mut Workspace,
    ) -> Result<Stepped, Trouble>
        requires few { length tokens.now ≤ length repository.old.content.partners }
        ensures run { Leaves tokens.now repository.old.content repository.new.content }
        ensures partners { repository.new.content.partners ≡ repository.old.content.partners }
    {
        let mut reader = SocketReader::new(&self.stream);
        let mut writer = SocketWriter::new(&self.stream);
        let stepped = self.connection.step(
            alloc,
            repository,
            tokens,
            workspace,
            &mut reader,
            &mut writer,
        );
        match stepped {
            Ok(stepped) => Ok(stepped),
            Err(StreamFault::Read) => Err(reader.trouble()),
            Err(StreamFault::Write) => Err(writer.trouble()),
        }
    }

    /// Where it stands after such a step.
    fn after(&mut self, stepped: Result<Stepped, Trouble>, moment: Moment) -> Fate {
        match stepped {
            Ok(Stepped::Turned) => Fate::Goes,
            Ok(Stepped::Read(count)) => {
                self.times = self.times.read(count, moment.now);
                self.moved = moment.turn;
                self.after_read()
            }
            Ok(Stepped::Sent) => {
                self.times = self.times.sent(moment.now);
                self.moved = moment.turn;
                Fate::Goes
            }
            Ok(Stepped::Over) => self.close(),
            Ok(Stepped::Ended) | Err(Trouble::Broken) => Fate::Gone,
            Err(Trouble::Interrupted) => Fate::Goes,
            Err(Trouble::Blocks) => self.blocked(),
        }
    }

    /// Counts a read, where there is an end to them.
    fn after_read(&mut self) -> Fate {
        match &mut self.last_reads {
            None => Fate::Goes,
            Some(0) => Fate::Gone,
            Some(left) => {
                *left -= 1;
                Fate::Goes
            }
        }
    }

    /// Where it stands while its socket would have it wait. Where no more requests are wanted, it has ended once nothing is to be
    /// sent.
    fn blocked(&self) -> Fate {
        if self.last_reads.is_some() && self.connection.stage() != Stage::Reply {
            Fate::Gone
        } else {
            Fate::Waits
        }
    }

    /// Shuts the writing side, behind the last reply. To close at once would take the reply from a peer that still sends.
    fn close(&mut self) -> Fate {
        self.closing = true;
        match self.stream.shutdown(Shutdown::Write) {
            Ok(()) => Fate::Goes,
            Err(_) => Fate::Gone,
        }
    }

    /// Drops some of what still comes, until the peer closes.
    fn linger(&mut self) -> Fate {
        let mut dropped = [0; DROPPED];
        let mut reader = SocketReader::new(&self.stream);
        match reader.read(&mut dropped) {
            Ok(0) => Fate::Gone,
            Ok(_) => Fate::Goes,
            Err(_) => match reader.trouble() {
                Trouble::Blocks => Fate::Waits,
                Trouble::Interrupted => Fate::Goes,
                Trouble::Broken => Fate::Gone,
            },
        }
    }

    /// What it waits for.
    fn awaited(&self) -> Awaited {
        if self.closing {
            return Awaited::Close;
        }
        match self.connection.stage() {
            Stage::Nothing => Awaited::Nothing,
            Stage::Head => Awaited::Head,
            Stage::Body => Awaited::Body,
            Stage::Reply => Awaited::Reply,
        }
    }
}
