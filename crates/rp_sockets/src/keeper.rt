//! Who keeps what is held while it is served.
use rp_repo::Repository;
use std::alloc::Global;

/// Who keeps what a repository holds, while it is served.
///
/// Nothing of what is answered rests on it: it gets the repository to look at, and can't change it. How long it takes counts for no
/// connection's deadlines, since their clock stands still outside of the waits for sockets; but all connections wait that long.
pub trait Keeper {
    /// Looks at the repository between two requests, and may save it.
    ///
    /// It is asked before each wait for sockets, the first included. What the requests behind the last wait changed is
    /// for the caller of [`serve`](crate::Listening::serve) to save.
    fn look(&mut self, alloc: Global, repository: &Repository<'_>);

    /// Whether something is still to be saved, so that it is to be asked again soon though no connection moves.
    ///
    /// Where it is so behind a look, the next one comes after a wait of half a second at most, and what is done behind that.
    fn waits(&self) -> bool;
}
