// Bytes that a record carries.
ghost use Rattle.std.specs.Prelude.{◌≡◌, [], length, IfOk};

use bytes::Bytes as SharedBytes;
use std::alloc::{AllocError, Global};
use std::marker::Model;

/// How many bytes a payload may have.
pub const MOST_PAYLOAD: u32 = 1048576;

/// How many bytes a response or an error body may have.
pub const MOST_BYTES: u32 = 262144;

/// Bytes that a record carries: a payload, a response or an error body. They never change, and their copies share them.
#[derive(Drop)]
pub struct Bytes {
    shared: SharedBytes,
}

impl Model for Bytes {
    ghost use Rattle.std.specs.Prelude.{List, ℕ};

    ghost Value = { List ℕ };

    ghost view = { λ b. b.shared };
}

impl Bytes {
    /// None. It takes no memory.
    pub fn empty() -> Bytes
        ensures { result ≡ [] }
    {
        Bytes {
            shared: SharedBytes::new(),
        }
    }

    /// These bytes, moved. What the vector has to spare is given back; memory is wanted for the count of the copies alone.
    pub fn from_vec(mut bytes: Vec<u8>) -> Result<Bytes, AllocError>
        ensures { IfOk result (λ moved. moved ≡ bytes.items) }
    {
        bytes.shrink_to_fit();
        let shared = SharedBytes::from_vec(bytes)?;
        Ok(Bytes { shared })
    }

    /// These bytes in memory of their own.
    pub fn from_slice(alloc: Global, bytes: &[u8]) -> Result<Bytes, AllocError>
        ensures { IfOk result (λ copied. copied ≡ bytes.now) }
    {
        Bytes::from_vec(Vec::from_slice(alloc, bytes)?)
    }

    /// The bytes, as a body of HTTP takes them. It takes no memory.
    pub fn into_shared(self) -> SharedBytes
        ensures { result ≡ self }
    {
        let Bytes { shared } = self;
        shared
    }

    /// The bytes, lent.
    pub fn as_slice(&self) -> &[u8]
        ensures { result.now ≡ self.now }
    {
        self.shared.as_slice()
    }

    /// How many there are.
    pub fn len(&self) -> usize
        ensures { result ≡ length self.now }
    {
        self.shared.len()
    }

    /// The same bytes once more. No byte is copied: it is refused only where the copies are too many to count.
    pub fn copy(&self) -> Result<Bytes, AllocError>
        ensures { IfOk result (λ copy. copy ≡ self.now) }
    {
        let shared = self.shared.clone()?;
        Ok(Bytes { shared })
    }
}
