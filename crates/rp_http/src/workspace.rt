//! What connections that are served one after the other share.
use http_messages::Scratch;
use std::alloc::{AllocError, Global};

/// The most bytes of one read.
pub(crate) const PIECE: usize = 16_384;

/// Room for heads that are read, and for what one read brings. One serves any number of connections.
pub struct Workspace {
    pub(crate) scratch: Scratch,
    pub(crate) piece: [u8; PIECE],
}

impl Drop for Workspace {
    fn drop(self) {
        let Workspace { scratch, piece: _ } = self;
        drop(scratch);
    }
}

impl Workspace {
    /// Takes all the memory that is wanted to read heads.
    pub fn new(alloc: Global) -> Result<Workspace, AllocError> {
        let scratch = Scratch::new(alloc)?;
        Ok(Workspace {
            scratch,
            piece: [0; PIECE],
        })
    }
}
