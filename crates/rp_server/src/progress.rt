//! How far a long command is, on a terminal.
use rp_delivery::Notes;
use std::time::{Clock, Instant};

/// How many seconds nothing is told.
const QUIET: u64 = 1;

/// A line on standard error that is written over and over, once a command takes long.
#[derive(Drop)]
pub struct Progress<'r, R> {
    rt: &'r R,
    /// When the command began, where standard error is a terminal.
    begun: Option<Instant>,
    /// Whether the line stands there.
    shown: bool,
}

impl<'r, R: Clock + Eprint> Progress<'r, R> {
    pub fn new(rt: &'r R, terminal: bool) -> Progress<'r, R> {
        let begun = if terminal {
            Instant::now(rt).ok()
        } else {
            None
        };
        Progress {
            rt,
            begun,
            shown: false,
        }
    }

    /// Whether there is a terminal, and the command takes long.
    fn is_due(&self) -> bool {
        match self.begun {
            Some(begun) => match begun.elapsed(self.rt) {
                Ok(elapsed) => elapsed.as_secs() >= QUIET,
                Err(_) => false,
            },
            None => false,
        }
    }

    /// Takes the line away.
    pub fn end(&mut self) {
        if self.shown {
            let _ = eprint!(self.rt; "\r                      \r");
        }
    }
}

impl<R: Clock + Eprint> Notes for Progress<'_, R> {
    fn file(&mut self, number: usize, all: usize) {
        if self.is_due() {
            let _ = eprint!(self.rt; "\rfile {number} of {all}");
            self.shown = true;
        }
    }

    fn rules(&mut self) {
        if self.is_due() {
            let _ = eprint!(self.rt; "\rthe rules are tried");
            self.shown = true;
        }
    }
}
