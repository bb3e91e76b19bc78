//! The loop over the connections of an address.
ghost use Rattle.std.specs.Prelude.{◌≡◌, ◌≤◌, length, IsErrOf};
ghost use Rattle.plain_data.specs.declared.failure.Failure.TheVariants.{NoMemory};
ghost use Rattle.rp_http.specs.Turns.{Leaves};

use crate::client::{Client, Fate, Moment};
use crate::input::{Watch, read_on, watched};
use crate::keeper::Keeper;
use crate::listening::{ARRIVALS, INPUT, Listening, ServeFault};
use mio::net::TcpListener;
use mio::{Events, Poll, Registry, Token};
use plain_data::Failure;
use rp_http::{Tokens, Workspace};
use rp_repo::Repository;
use slab::Slab;
use std::alloc::{AllocError, Global};
use std::io;
use std::io::Input;
use std::time::{Clock, Duration, Instant};

/// The most connections that are open at once.
pub(crate) const CLIENTS: usize = 512;

/// How many sockets a poll tells of at most: all that there may be.
const EVENTS: usize = 1_024;

/// How many milliseconds pass until deadlines are looked at again, or what is still to be saved.
const SWEEP: u64 = 500;

/// When serving ends.
#[derive(Clone, Copy, PartialEq, Eq)]
pub struct Ends {
    /// After so many connections.
    pub connections: Option<u32>,
    /// Once standard input has ended.
    pub input: bool,
}

/// The connections of an address.
#[derive(Drop)]
pub(crate) struct Serving {
    pub(crate) poll: Poll,
    /// Nothing once no more connections are wanted.
    pub(crate) listener: Option<TcpListener>,
    pub(crate) clients: Slab<Client>,
    /// Whether connections may wait to be accepted.
    pub(crate) arrivals: bool,
    /// How many more connections may come, if there is an end to them.
    pub(crate) more: Option<u32>,
    pub(crate) input: Watch,
    /// A descriptor that is let go of where none is left. The system tells of a want of descriptors also where no connection waits.
    pub(crate) spare: Option<Registry>,
    /// How long it has waited for sockets: the clock of all deadlines.
    pub(crate) now: Duration,
    /// How many turns connections had.
    pub(crate) turn: u64,
    /// When deadlines were last looked at.
    pub(crate) swept: Duration,
    /// Whether something is still to be saved.
    pub(crate) unsaved: bool,
}

impl Serving {
    fn new(alloc: Global, listening: Listening, ends: Ends) -> Result<Serving, AllocError> {
        let clients = Slab::with_capacity(alloc, CLIENTS)?;
        let input = watched(listening.poll.registry(), INPUT, ends.input);
        let spare = listening.poll.registry().try_clone().ok();
        let Listening { poll, listener, .. } = listening;
        Ok(Serving {
            poll,
            listener: Some(listener),
            clients,
            arrivals: true,
            more: ends.connections,
            input,
            spare,
            now: Duration::ZERO,
            turn: 0,
            swept: Duration::ZERO,
            unsaved: false,
        })
    }

    /// Whether no connection is left, and none may come.
    fn is_over(&self) -> bool {
        self.listener.is_none() && self.clients.is_empty()
    }

    /// How long to wait for sockets at most.
    fn patience(&self) -> Option<Duration> {
        if self.arrivals || self.input == Watch::Ready || self.input == Watch::Ended {
            Some(Duration::ZERO)
        } else if self.clients.is_empty() && !self.unsaved {
            None
        } else {
            Some(Duration::from_millis(SWEEP))
        }
    }

    /// Waits until something is ready. The clock goes on by that alone.
    fn wait<R: Clock>(&mut self, rt: &R, events: &mut Events<Global>) -> io::Result<()> {
        let patience = self.patience();
        let begun = Instant::now(rt)?;
        self.poll.poll(events, patience)?;
        self.now = self.now.saturating_add(begun.elapsed(rt)?);
        Ok(())
    }

    /// Has a connection go on as far as it can.
    #[tactic(auto, using(crate::proofs::Running::leaves_more, crate::proofs::Running::leaves_none))]
    pub(crate) fn drive(
        &mut self,
        alloc: Global,
        repository: &mut Repository<'_>,
        tokens: &Tokens,
        workspace: &mut Workspace,
        key: usize,
    )
        requires few { length tokens.now ≤ length repository.old.content.partners }
        ensures run { Leaves tokens.now repository.old.content repository.new.content }
        ensures partners { repository.new.content.partners ≡ repository.old.content.partners }
    {
        let moment = self.next_moment();
        let Some(client) = self.clients.get_mut(key) else {
            return;
        };
        let fate = client.go(alloc, repository, tokens, workspace, moment);
        self.settle(key, fate);
    }

    /// The moment of the next turn.
    pub(crate) fn next_moment(&mut self) -> Moment {
        self.turn = self.turn.saturating_add(1);
        Moment {
            now: self.now,
            turn: self.turn,
        }
    }

    /// Does with a connection what has become of it.
    fn settle(&mut self, key: usize, fate: Fate) {
        let stays = match fate {
            Fate::Waits => true,
            Fate::Goes => self.is_told_again(key),
            Fate::Gone => false,
        };
        if !stays {
            let _ = self.clients.try_remove(key);
        }
    }

    /// Has the poll tell again of a connection that had enough for now.
    fn is_told_again(&mut self, key: usize) -> bool {
        let registry = self.poll.registry();
        match self.clients.get_mut(key) {
            Some(client) => client.reregister(registry, Token(key)).is_ok(),
            None => true,
        }
    }

    /// Has all go on that are ready.
    #[tactic(auto, using(crate::proofs::Running::leaves_more, crate::proofs::Running::leaves_none))]
    fn serve_ready(
        &mut self,
        alloc: Global,
        repository: &mut Repository<'_>,
        tokens: &Tokens,
        workspace: &mut Workspace,
        events: &Events<Global>,
    )
        requires few { length tokens.now ≤ length repository.old.content.partners }
        ensures run { Leaves tokens.now repository.old.content repository.new.content }
        ensures partners { repository.new.content.partners ≡ repository.old.content.partners }
    {
        for event in events.iter() {
            let token = event.token();
            if token == ARRIVALS {
                self.arrivals = true;
            } else if token == INPUT {
                self.input = Watch::Ready;
            } else {
                self.drive(alloc, repository, tokens, workspace, token.0);
            }
        }
    }

    /// Reads standard input where it is ready.
    fn look_at_input<R: Input>(&mut self, rt: &R) -> Result<(), ServeFault> {
        if self.input != Watch::Ready {
            return Ok(());
        }
        match read_on(rt, self.poll.registry(), INPUT) {
            Ok(watch) => {
                self.input = watch;
                Ok(())
            }
            Err(_) => Err(ServeFault::Input),
        }
    }

    fn is_late(&self, key: usize) -> bool {
        match self.clients.get(key) {
            Some(client) => client.is_late(self.now),
            None => false,
        }
    }

    /// Ends the connections that took too long, if it is time to look. What has come of each is read before.
    #[tactic(auto, using(crate::proofs::Running::leaves_more, crate::proofs::Running::leaves_none))]
    fn sweep(
        &mut self,
        alloc: Global,
        repository: &mut Repository<'_>,
        tokens: &Tokens,
        workspace: &mut Workspace,
    )
        requires few { length tokens.now ≤ length repository.old.content.partners }
        ensures run { Leaves tokens.now repository.old.content repository.new.content }
        ensures partners { repository.new.content.partners ≡ repository.old.content.partners }
    {
        if self.now.saturating_sub(self.swept) < Duration::from_millis(SWEEP) {
            return;
        }
        self.swept = self.now;
        for key in 0..CLIENTS {
            self.drive_late(alloc, repository, tokens, workspace, key);
        }
    }

    fn sends(&self, key: usize) -> bool {
        match self.clients.get(key) {
            Some(client) => client.sends(),
            None => false,
        }
    }

    /// Ends a connection that took too long. What has come of it is read before; one that sends a reply reads nothing.
    #[tactic(auto, using(crate::proofs::Running::leaves_more, crate::proofs::Running::leaves_none))]
    fn drive_late(
        &mut self,
        alloc: Global,
        repository: &mut Repository<'_>,
        tokens: &Tokens,
        workspace: &mut Workspace,
        key: usize,
    )
        requires few { length tokens.now ≤ length repository.old.content.partners }
        ensures run { Leaves tokens.now repository.old.content repository.new.content }
        ensures partners { repository.new.content.partners ≡ repository.old.content.partners }
    {
        if !self.is_late(key) {
            return;
        }
        self.read_late(alloc, repository, tokens, workspace, key);
        self.end_late(key);
    }

    /// Reads what has come of a connection that took too long, unless it sends a reply.
    #[tactic(auto, using(crate::proofs::Running::leaves_more, crate::proofs::Running::leaves_none))]
    fn read_late(
        &mut self,
        alloc: Global,
        repository: &mut Repository<'_>,
        tokens: &Tokens,
        workspace: &mut Workspace,
        key: usize,
    )
        requires few { length tokens.now ≤ length repository.old.content.partners }
        ensures run { Leaves tokens.now repository.old.content repository.new.content }
        ensures partners { repository.new.content.partners ≡ repository.old.content.partners }
    {
        if self.sends(key) {
            return;
        }
        self.drive(alloc, repository, tokens, workspace, key);
    }

    /// Ends a connection that took too long still.
    fn end_late(&mut self, key: usize) {
        if self.is_late(key) {
            let _ = self.clients.try_remove(key);
        }
    }

    /// Where standard input has ended: takes no more connections, and has all others answer what has come.
    #[tactic(auto, using(crate::proofs::Running::leaves_more, crate::proofs::Running::leaves_none))]
    fn finish(
        &mut self,
        alloc: Global,
        repository: &mut Repository<'_>,
        tokens: &Tokens,
        workspace: &mut Workspace,
    )
        requires few { length tokens.now ≤ length repository.old.content.partners }
        ensures run { Leaves tokens.now repository.old.content repository.new.content }
        ensures partners { repository.new.content.partners ≡ repository.old.content.partners }
    {
        if self.input != Watch::Ended {
            return;
        }
        self.input = Watch::Off;
        self.listener = None;
        for key in 0..CLIENTS {
            self.finish_one(key);
            self.drive(alloc, repository, tokens, workspace, key);
        }
    }

    fn finish_one(&mut self, key: usize) {
        if let Some(client) = self.clients.get_mut(key) {
            client.finish();
        }
    }

    /// Has all go on that are ready, and then ends those that took too long.
    #[tactic(auto, using(crate::proofs::Running::leaves_more, crate::proofs::Running::leaves_none))]
    fn serve_open(
        &mut self,
        alloc: Global,
        repository: &mut Repository<'_>,
        tokens: &Tokens,
        workspace: &mut Workspace,
        events: &Events<Global>,
    )
        requires few { length tokens.now ≤ length repository.old.content.partners }
        ensures run { Leaves tokens.now repository.old.content repository.new.content }
        ensures partners { repository.new.content.partners ≡ repository.old.content.partners }
    {
        self.serve_ready(alloc, repository, tokens, workspace, events);
        self.sweep(alloc, repository, tokens, workspace);
    }

    /// What is done for connections after each wait.
    #[tactic(auto, using(crate::proofs::Running::leaves_more, crate::proofs::Running::leaves_none))]
    fn serve_all(
        &mut self,
        alloc: Global,
        repository: &mut Repository<'_>,
        tokens: &Tokens,
        workspace: &mut Workspace,
        events: &Events<Global>,
    )
        requires few { length tokens.now ≤ length repository.old.content.partners }
        ensures run { Leaves tokens.now repository.old.content repository.new.content }
        ensures partners { repository.new.content.partners ≡ repository.old.content.partners }
    {
        self.serve_open(alloc, repository, tokens, workspace, events);
        self.finish(alloc, repository, tokens, workspace);
    }

    /// What is done behind that: new connections are taken in, and standard input is looked at.
    #[tactic(auto, using(crate::proofs::Running::leaves_more, crate::proofs::Running::leaves_none))]
    fn look_around<R: Input>(
        &mut self,
        rt: &R,
        alloc: Global,
        repository: &mut Repository<'_>,
        tokens: &Tokens,
        workspace: &mut Workspace,
    ) -> Result<(), ServeFault>
        requires few { length tokens.now ≤ length repository.old.content.partners }
        ensures run { Leaves tokens.now repository.old.content repository.new.content }
        ensures partners { repository.new.content.partners ≡ repository.old.content.partners }
    {
        self.accept(alloc, repository, tokens, workspace)?;
        self.look_at_input(rt)
    }

    /// What is done after each wait.
    #[tactic(auto, using(crate::proofs::Running::leaves_more, crate::proofs::Running::leaves_none))]
    fn serve_once<R: Input>(
        &mut self,
        rt: &R,
        alloc: Global,
        repository: &mut Repository<'_>,
        tokens: &Tokens,
        workspace: &mut Workspace,
        events: &Events<Global>,
    ) -> Result<(), ServeFault>
        requires few { length tokens.now ≤ length repository.old.content.partners }
        ensures run { Leaves tokens.now repository.old.content repository.new.content }
        ensures partners { repository.new.content.partners ≡ repository.old.content.partners }
    {
        self.serve_all(alloc, repository, tokens, workspace, events);
        self.look_around(rt, alloc, repository, tokens, workspace)
    }

    /// Waits, and does what is to be done then.
    #[tactic(auto, using(crate::proofs::Running::leaves_more, crate::proofs::Running::leaves_none))]
    fn serve_next<R: Clock + Input>(
        &mut self,
        rt: &R,
        alloc: Global,
        repository: &mut Repository<'_>,
        tokens: &Tokens,
        workspace: &mut Workspace,
        events: &mut Events<Global>,
    ) -> Result<(), ServeFault>
        requires few { length tokens.now ≤ length repository.old.content.partners }
        ensures run { Leaves tokens.now repository.old.content repository.new.content }
        ensures partners { repository.new.content.partners ≡ repository.old.content.partners }
    {
        match self.wait(rt, events) {
            Ok(()) => self.serve_once(rt, alloc, repository, tokens, workspace, events),
            Err(error) => Err(ServeFault::Wait(error)),
        }
    }

    /// Has the keeper look at what is held.
    fn ask<K: Keeper>(&mut self, alloc: Global, repository: &Repository<'_>, keeper: &mut K) {
        keeper.look(alloc, repository);
        self.unsaved = keeper.waits();
    }

    /// Serves until no connection is left, and none may come.
    #[tactic(auto, using(crate::proofs::Running::leaves_more, crate::proofs::Running::leaves_none))]
    fn serve_to_end<R: Clock + Input, K: Keeper>(
        &mut self,
        rt: &R,
        alloc: Global,
        repository: &mut Repository<'_>,
        tokens: &Tokens,
        workspace: &mut Workspace,
        events: &mut Events<Global>,
        keeper: &mut K,
    ) -> Result<(), ServeFault>
        requires few { length tokens.now ≤ length repository.old.content.partners }
        ensures run { Leaves tokens.now repository.old.content repository.new.content }
        ensures partners { repository.new.content.partners ≡ repository.old.content.partners }
    {
        for _ in 0..u64::MAX {
            if self.is_over() {
                break;
            }
            // Before the wait and not behind what is done after it: at the end the caller saves, and one save is enough.
            self.ask(alloc, repository, keeper);
            self.serve_next(rt, alloc, repository, tokens, workspace, events)?;
        }
        Ok(())
    }
}

impl Listening {
    /// Serves the connections of the address until that ends. What messages of the partners with these tokens lead to is all that
    /// happens to the repository, however it ends. Meanwhile the keeper looks at it.
    ///
    /// # Errors
    ///
    /// `NoMemory` before any connection came; else why it ends before its end.
    #[tactic(auto, using(crate::proofs::Running::leaves_more, crate::proofs::Running::leaves_none))]
    pub fn serve<R: Clock + Input, K: Keeper>(
        self,
        rt: &R,
        alloc: Global,
        repository: &mut Repository<'_>,
        tokens: &Tokens,
        ends: Ends,
        keeper: &mut K,
    ) -> Result<(), Failure<ServeFault>>
        requires few { length tokens.now ≤ length repository.old.content.partners }
        ensures run { Leaves tokens.now repository.old.content repository.new.content }
        ensures partners { repository.new.content.partners ≡ repository.old.content.partners }
        ensures memory { IsErrOf result NoMemory → repository.new ≡ repository.old }
    {
        let mut workspace = Workspace::new(alloc)?;
        let mut events = Events::with_capacity(alloc, EVENTS)?;
        let mut serving = Serving::new(alloc, self, ends)?;
        let ended = serving.serve_to_end(
            rt,
            alloc,
            repository,
            tokens,
            &mut workspace,
            &mut events,
            keeper,
        );
        match ended {
            Ok(()) => Ok(()),
            Err(fault) => Err(Failure::Fault(fault)),
        }
    }
}
