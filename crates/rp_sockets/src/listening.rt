//! An address whose connections may come.
use mio::net::TcpListener;
use mio::{Interest, Poll, Token};
use std::io;
use std::net::{Net, SocketAddr};

/// The token of the address; those of connections are their places.
pub(crate) const ARRIVALS: Token = Token(usize::MAX);

/// The token of standard input.
pub(crate) const INPUT: Token = Token(usize::MAX - 1);

/// Why serving ends before its end.
#[derive(Clone, Copy)]
pub enum ServeFault {
    /// No more connections can be accepted.
    Accept(io::Error),
    /// Sockets can't be waited for.
    Wait(io::Error),
    /// Standard input, whose end is asked for, can't be read.
    Input,
}

/// An address whose connections may come, and wait until they are served.
#[derive(Drop)]
pub struct Listening {
    pub(crate) poll: Poll,
    pub(crate) listener: TcpListener,
    address: SocketAddr,
}

impl Listening {
    /// Binds an address. Its port 0 stands for any that is free.
    pub fn bind<R: Net>(rt: &R, address: SocketAddr) -> io::Result<Listening> {
        let mut listener = TcpListener::bind(rt, address)?;
        let poll = Poll::new(rt)?;
        poll.registry()
            .register(&mut listener, ARRIVALS, Interest::READABLE)?;
        let address = listener.local_addr()?;
        Ok(Listening {
            poll,
            listener,
            address,
        })
    }

    /// The address, with the port that was found.
    pub fn address(&self) -> SocketAddr {
        self.address
    }
}
