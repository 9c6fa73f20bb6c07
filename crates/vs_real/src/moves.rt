//! How often bytes moved on a host's streams, for a gate of the thread that moves them.

use std::alloc::{AllocError, Global};
use std::sync::Arc;
use std::sync::atomic::{AtomicU64, Ordering};

/// A count of the reads and writes that moved bytes. A clone shares it.
#[derive(Drop)]
pub struct Moves {
    count: Arc<AtomicU64, Global>,
}

impl Moves {
    /// Nothing moved so far.
    pub fn new(alloc: Global) -> Result<Moves, AllocError> {
        let count = Arc::new(alloc, AtomicU64::new(0))?;
        Ok(Moves { count })
    }

    /// The same count.
    pub fn try_clone(&self) -> Result<Moves, AllocError> {
        let count = Arc::try_clone(&self.count)?;
        Ok(Moves { count })
    }

    /// One more.
    pub fn add(&self) {
        self.count.fetch_add(1, Ordering::SeqCst);
    }

    /// How often so far. The count goes round.
    pub fn count(&self) -> u64 {
        self.count.load(Ordering::SeqCst)
    }
}
