// How many bytes were written, as other threads read it.
use std::alloc::{AllocError, Global};
use std::sync::Arc;
use std::sync::atomic::{AtomicU64, Ordering};

/// How many bytes were written to a disk: one writes it, any thread reads it.
#[derive(Drop)]
pub struct Written {
    shown: Arc<AtomicU64, Global>,
}

impl Written {
    /// No byte was written yet.
    pub fn new(alloc: Global) -> Result<Written, AllocError> {
        let shown = Arc::new(alloc, AtomicU64::new(0))?;
        Ok(Written { shown })
    }

    /// Another reader of the same number.
    pub fn another(&self) -> Result<Written, AllocError> {
        let shown = Arc::try_clone(&self.shown)?;
        Ok(Written { shown })
    }

    /// How many bytes were written: what the disk showed last.
    pub fn bytes(&self) -> u64 {
        self.shown.load(Ordering::SeqCst)
    }

    // Shows that so many bytes were written.
    pub(crate) fn show(&self, bytes: u64) {
        self.shown.store(bytes, Ordering::SeqCst);
    }
}
