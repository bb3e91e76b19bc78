//! New connections, and the room that is made for them.
ghost use Rattle.std.specs.Prelude.{◌≡◌, ◌≤◌, length};
ghost use Rattle.rp_http.specs.Turns.{Leaves};

use crate::arrivals::{Missed, meaning_of};
use crate::client::Client;
use crate::listening::ServeFault;
use crate::serving::{CLIENTS, Serving};
use mio::Token;
use mio::net::TcpStream;
use rp_http::{Connection, Tokens, Workspace};
use rp_repo::Repository;
use std::alloc::Global;
use std::io;
use std::io::ErrorKind;

/// How many arrivals are met before the connections' turn.
const ARRIVALS_AT_ONCE: u32 = 512;

/// How many connections are looked at, whether they are quiet, before one that isn't is ended for another.
const TRIES: u32 = 8;

impl Serving {
    /// Accepts the connections that wait.
    #[tactic(auto, using(crate::proofs::Running::leaves_more, crate::proofs::Running::leaves_none))]
    pub(crate) fn accept(
        &mut self,
        alloc: Global,
        repository: &mut Repository<'_>,
        tokens: &Tokens,
        workspace: &mut Workspace,
    ) -> Result<(), ServeFault>
        requires few { length tokens.now ≤ length repository.old.content.partners }
        ensures run { Leaves tokens.now repository.old.content repository.new.content }
        ensures partners { repository.new.content.partners ≡ repository.old.content.partners }
    {
        for _ in 0..ARRIVALS_AT_ONCE {
            if !self.arrivals {
                return Ok(());
            }
            self.accept_one(alloc, repository, tokens, workspace)?;
        }
        Ok(())
    }

    /// Accepts a connection, if one waits.
    #[tactic(auto, using(crate::proofs::Running::leaves_more, crate::proofs::Running::leaves_none))]
    fn accept_one(
        &mut self,
        alloc: Global,
        repository: &mut Repository<'_>,
        tokens: &Tokens,
        workspace: &mut Workspace,
    ) -> Result<(), ServeFault>
        requires few { length tokens.now ≤ length repository.old.content.partners }
        ensures run { Leaves tokens.now repository.old.content repository.new.content }
        ensures partners { repository.new.content.partners ≡ repository.old.content.partners }
    {
        let accepted = match &self.listener {
            Some(listener) => listener.accept(),
            None => Err(ErrorKind::WouldBlock.into()),
        };
        match accepted {
            Ok((stream, _)) => {
                self.welcome(alloc, repository, tokens, workspace, stream);
                Ok(())
            }
            Err(error) => self.miss(alloc, repository, tokens, workspace, error),
        }
    }

    /// An accept gave no connection.
    #[tactic(auto, using(crate::proofs::Running::leaves_more, crate::proofs::Running::leaves_none))]
    fn miss(
        &mut self,
        alloc: Global,
        repository: &mut Repository<'_>,
        tokens: &Tokens,
        workspace: &mut Workspace,
        error: io::Error,
    ) -> Result<(), ServeFault>
        requires few { length tokens.now ≤ length repository.old.content.partners }
        ensures run { Leaves tokens.now repository.old.content repository.new.content }
        ensures partners { repository.new.content.partners ≡ repository.old.content.partners }
    {
        match meaning_of(&error) {
            Missed::NoneWaits => {
                self.arrivals = false;
                self.take_spare();
                Ok(())
            }
            Missed::Lost => Ok(()),
            Missed::Full if self.spare.is_some() => {
                self.spare = None;
                Ok(())
            }
            Missed::Full if !self.clients.is_empty() => {
                self.make_room(alloc, repository, tokens, workspace);
                Ok(())
            }
            Missed::Full | Missed::Fault => Err(ServeFault::Accept(error)),
        }
    }

    /// Takes a connection in, and sees that a descriptor is left for the next one.
    #[tactic(auto, using(crate::proofs::Running::leaves_more, crate::proofs::Running::leaves_none))]
    fn welcome(
        &mut self,
        alloc: Global,
        repository: &mut Repository<'_>,
        tokens: &Tokens,
        workspace: &mut Workspace,
        stream: TcpStream,
    )
        requires few { length tokens.now ≤ length repository.old.content.partners }
        ensures run { Leaves tokens.now repository.old.content repository.new.content }
        ensures partners { repository.new.content.partners ≡ repository.old.content.partners }
    {
        self.admit(alloc, repository, tokens, workspace, stream);
        self.keep_spare(alloc, repository, tokens, workspace);
    }

    /// Takes a connection in.
    #[tactic(auto, using(crate::proofs::Running::leaves_more, crate::proofs::Running::leaves_none))]
    fn admit(
        &mut self,
        alloc: Global,
        repository: &mut Repository<'_>,
        tokens: &Tokens,
        workspace: &mut Workspace,
        stream: TcpStream,
    )
        requires few { length tokens.now ≤ length repository.old.content.partners }
        ensures run { Leaves tokens.now repository.old.content repository.new.content }
        ensures partners { repository.new.content.partners ≡ repository.old.content.partners }
    {
        self.count();
        let _ = stream.set_nodelay(true);
        self.keep_within(alloc, repository, tokens, workspace);
        let connection = self.connection(alloc, repository, tokens, workspace);
        self.put(stream, connection);
    }

    /// Has the poll tell of a connection. One for which there is no memory has ended.
    fn put(&mut self, stream: TcpStream, connection: Option<Connection>) {
        let Some(connection) = connection else {
            return;
        };
        let key = self.clients.vacant_key();
        let moment = self.next_moment();
        let mut client = Client::new(stream, connection, moment);
        if client.register(self.poll.registry(), Token(key)).is_ok() {
            let _ = self.clients.insert(client);
        }
    }

    /// Counts a connection, where there is an end to them. No more are wanted after the last.
    fn count(&mut self) {
        if let Some(more) = self.more {
            let left = more.saturating_sub(1);
            self.more = Some(left);
            if left == 0 {
                self.listener = None;
            }
        }
    }

    /// Makes room for one more, where all are taken.
    #[tactic(auto, using(crate::proofs::Running::leaves_more, crate::proofs::Running::leaves_none))]
    fn keep_within(
        &mut self,
        alloc: Global,
        repository: &mut Repository<'_>,
        tokens: &Tokens,
        workspace: &mut Workspace,
    )
        requires few { length tokens.now ≤ length repository.old.content.partners }
        ensures run { Leaves tokens.now repository.old.content repository.new.content }
        ensures partners { repository.new.content.partners ≡ repository.old.content.partners }
    {
        if self.clients.len() < CLIENTS {
            return;
        }
        self.make_room(alloc, repository, tokens, workspace);
    }

    /// What a new connection needs. Where memory is wanting, another one is ended for it.
    #[tactic(auto, using(crate::proofs::Running::leaves_more, crate::proofs::Running::leaves_none))]
    fn connection(
        &mut self,
        alloc: Global,
        repository: &mut Repository<'_>,
        tokens: &Tokens,
        workspace: &mut Workspace,
    ) -> Option<Connection>
        requires few { length tokens.now ≤ length repository.old.content.partners }
        ensures run { Leaves tokens.now repository.old.content repository.new.content }
        ensures partners { repository.new.content.partners ≡ repository.old.content.partners }
    {
        if let Ok(connection) = Connection::new(alloc) {
            return Some(connection);
        }
        self.make_room(alloc, repository, tokens, workspace);
        Connection::new(alloc).ok()
    }

    /// Takes a spare descriptor, where there is none and one is found.
    fn take_spare(&mut self) {
        if self.spare.is_none() {
            self.spare = self.poll.registry().try_clone().ok();
        }
    }

    /// The same; where none is found, a connection is ended for it, but not the last.
    #[tactic(auto, using(crate::proofs::Running::leaves_more, crate::proofs::Running::leaves_none))]
    fn keep_spare(
        &mut self,
        alloc: Global,
        repository: &mut Repository<'_>,
        tokens: &Tokens,
        workspace: &mut Workspace,
    )
        requires few { length tokens.now ≤ length repository.old.content.partners }
        ensures run { Leaves tokens.now repository.old.content repository.new.content }
        ensures partners { repository.new.content.partners ≡ repository.old.content.partners }
    {
        self.take_spare();
        if self.spare.is_some() || self.clients.len() < 2 {
            return;
        }
        self.make_room(alloc, repository, tokens, workspace);
        self.take_spare();
    }

    /// Ends the connection that is quiet longest, once what has come of it is read: one that moved then isn't, but after some
    /// tries it is the one whose turn is longest ago.
    #[tactic(auto, using(crate::proofs::Running::leaves_more, crate::proofs::Running::leaves_none))]
    fn make_room(
        &mut self,
        alloc: Global,
        repository: &mut Repository<'_>,
        tokens: &Tokens,
        workspace: &mut Workspace,
    )
        requires few { length tokens.now ≤ length repository.old.content.partners }
        ensures run { Leaves tokens.now repository.old.content repository.new.content }
        ensures partners { repository.new.content.partners ≡ repository.old.content.partners }
    {
        for _ in 0..TRIES {
            let Some((key, moved)) = self.quietest() else {
                return;
            };
            self.drive(alloc, repository, tokens, workspace, key);
            if self.is_ended(key, moved) {
                return;
            }
        }
        self.end_quietest(alloc, repository, tokens, workspace);
    }

    /// Ends the connection that is quiet longest, once what has come of it is read, whatever that was.
    #[tactic(auto, using(crate::proofs::Running::leaves_more, crate::proofs::Running::leaves_none))]
    fn end_quietest(
        &mut self,
        alloc: Global,
        repository: &mut Repository<'_>,
        tokens: &Tokens,
        workspace: &mut Workspace,
    )
        requires few { length tokens.now ≤ length repository.old.content.partners }
        ensures run { Leaves tokens.now repository.old.content repository.new.content }
        ensures partners { repository.new.content.partners ≡ repository.old.content.partners }
    {
        let Some((key, _)) = self.quietest() else {
            return;
        };
        self.drive(alloc, repository, tokens, workspace, key);
        let _ = self.clients.try_remove(key);
    }

    /// Ends a connection, unless something moved since that turn. Answers whether it has ended.
    fn is_ended(&mut self, key: usize, moved: u64) -> bool {
        let stays = match self.clients.get(key) {
            Some(client) => client.moved() != moved,
            None => false,
        };
        if !stays {
            let _ = self.clients.try_remove(key);
        }
        !stays
    }

    /// The connection that is quiet longest, and the turn in which something of it last moved.
    fn quietest(&self) -> Option<(usize, u64)> {
        let mut found = None;
        let mut least = u64::MAX;
        for key in 0..CLIENTS {
            if let Some(client) = self.clients.get(key) {
                if client.moved() < least {
                    least = client.moved();
                    found = Some((key, least));
                }
            }
        }
        found
    }
}
