// Writing fields one after another.
ghost use Rattle.std.specs.Prelude.{◌≡◌, [], true, MatchResult};
ghost use Rattle.invoke_records.specs.declared.error.RecordError.TheVariants.{OutOfMemory};
ghost use Rattle.invoke_records.specs.Steps.{Adds};

use crate::RecordError;
use std::alloc::Global;

/// What was written, and whether all of it is there: it is not once memory was wanting.
#[derive(Drop)]
pub struct Writer {
    bytes: Vec<u8>,
    is_whole: bool,
}

impl Writer {
    pub fn new(alloc: Global) -> Writer
        ensures { result.bytes.items ≡ [] }
    {
        Writer {
            bytes: Vec::new(alloc),
            is_whole: true,
        }
    }

    pub fn add(&mut self, bytes: &[u8])
        ensures { Adds bytes.now self.old self.new }
    {
        if self.bytes.extend_from_slice(bytes).is_err() {
            self.is_whole = false;
        }
    }

    /// All that was written.
    pub fn end(self) -> Result<Vec<u8>, RecordError>
        ensures { MatchResult result (λ bytes. (self.is_whole ≡ true) × (bytes.items ≡ self.bytes.items)) (λ e. e ≡ OutOfMemory) }
    {
        let Writer { bytes, is_whole } = self;
        if is_whole {
            Ok(bytes)
        } else {
            Err(RecordError::OutOfMemory)
        }
    }
}
