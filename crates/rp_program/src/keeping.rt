//! A repository is saved while its connections are served.
use crate::saving::save_at;
use rp_config::Shown;
use rp_repo::Repository;
use rp_sockets::Keeper;
use std::alloc::Global;
use std::fs::Files;
use std::io::Eprint;
use std::time::{Clock, Duration, Instant};

/// The least pause between two saves, in seconds.
const PAUSE: u64 = 60;

/// How many times as long as a save took the pause behind it is at least.
const SHARE: u32 = 10;

/// A save that was tried: when it ended, and how long it took.
#[derive(Clone, Copy)]
struct Tried {
    ended: Instant,
    took: Duration,
}

/// Saves a repository in the file of a path, once something has changed.
#[derive(Drop)]
pub(crate) struct SnapshotKeeper<'a, R> {
    rt: &'a R,
    /// Nothing where it isn't saved while it is served.
    path: Option<&'a str>,
    /// The changes that the file has.
    saved: u64,
    /// Nothing where none was tried, or the clock failed.
    tried: Option<Tried>,
    waits: bool,
}

impl<'a, R: Files + Clock + Eprint> SnapshotKeeper<'a, R> {
    /// Changes from now on are to be saved.
    pub(crate) fn new(
        rt: &'a R,
        path: Option<&'a str>,
        repository: &Repository<'_>,
    ) -> SnapshotKeeper<'a, R> {
        SnapshotKeeper {
            rt,
            path,
            saved: repository.changes(),
            tried: None,
            waits: false,
        }
    }

    /// Whether enough time has passed since the last save was tried.
    fn is_due(&self) -> bool {
        let Some(tried) = self.tried else {
            return true;
        };
        match tried.ended.elapsed(self.rt) {
            Ok(elapsed) => {
                elapsed.as_secs() >= PAUSE && elapsed >= tried.took.saturating_mul(SHARE)
            },
            Err(_) => true,
        }
    }

    /// Tries to save, and tells where that fails.
    fn try_save(&mut self, alloc: Global, path: &str, repository: &Repository<'_>) {
        let begun = Instant::now(self.rt).ok();
        match save_at(alloc, self.rt, path, repository) {
            Ok(()) => {
                self.saved = repository.changes();
                self.waits = false;
            }
            Err(why) => {
                let _ = eprintln!(self.rt; "rp_server: {} can't be saved: {why}", Shown(path));
            }
        }
        self.tried = tried_since(self.rt, begun);
    }
}

/// A save that began then, and ends now.
fn tried_since<R: Clock>(rt: &R, begun: Option<Instant>) -> Option<Tried> {
    let begun = begun?;
    let ended = Instant::now(rt).ok()?;
    Some(Tried {
        ended,
        took: ended.duration_since(begun),
    })
}

impl<R: Files + Clock + Eprint> Keeper for SnapshotKeeper<'_, R> {
    fn look(&mut self, alloc: Global, repository: &Repository<'_>) {
        let Some(path) = self.path else {
            return;
        };
        self.waits = repository.changes() != self.saved;
        if self.waits && self.is_due() {
            self.try_save(alloc, path, repository);
        }
    }

    fn waits(&self) -> bool {
        self.waits
    }
}
