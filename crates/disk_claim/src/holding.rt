// Whether a claim is held still, as all who look at it share it.
ghost use Rattle.std.specs.Prelude.{◌≡◌};

use std::alloc::{AllocError, Global};
use std::sync::Arc;
use std::sync::atomic::{AtomicU8, Ordering};

/// What looks at a claim have shown.
#[derive(Clone, Copy, Debug, PartialEq, Eq)]
pub enum Holding {
    /// Each showed the own token.
    Held,
    /// One showed another one: another broker has taken the disk over.
    Taken,
    /// One could not be made.
    Unread,
}

const HELD: u8 = 0;

const TAKEN: u8 = 1;

const UNREAD: u8 = 2;

/// What looks at a claim have shown, whoever made them. What was lost once is lost for good.
#[derive(Drop)]
pub struct SharedHolding {
    word: Arc<AtomicU8, Global>,
}

impl SharedHolding {
    /// Nobody has looked yet.
    pub fn new(alloc: Global) -> Result<SharedHolding, AllocError> {
        let word = Arc::new(alloc, AtomicU8::new(HELD))?;
        Ok(SharedHolding { word })
    }

    /// Another one that shows the same.
    pub fn another(&self) -> Result<SharedHolding, AllocError> {
        let word = Arc::try_clone(&self.word)?;
        Ok(SharedHolding { word })
    }

    /// What was shown.
    pub fn get(&self) -> Holding {
        match self.word.load(Ordering::SeqCst) {
            HELD => Holding::Held,
            TAKEN => Holding::Taken,
            _ => Holding::Unread,
        }
    }

    // It is lost: the first loss stays.
    pub(crate) fn lose(&self, how: Holding) {
        let word = match how {
            Holding::Held => return,
            Holding::Taken => TAKEN,
            Holding::Unread => UNREAD,
        };
        let _ = self
            .word
            .compare_exchange(HELD, word, Ordering::SeqCst, Ordering::SeqCst);
    }
}
