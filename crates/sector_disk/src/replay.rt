// The record of the calls that a disk or a file in memory keeps.
ghost use Rattle.std.specs.Prelude.{◌≡◌, ◌+◌, ◌≤◌, ◌++◌, [], ◌∷◌, length, OnOk, OnErr};
ghost use Rattle.sector_disk.specs.declared.replay.Call.{Call};
ghost use Rattle.sector_disk.specs.declared.replay.Call.TheVariants.{Write, Barrier};
ghost use Rattle.sector_disk.specs.Replay.{overwritten};
ghost use Rattle.sector_disk.specs.Disk.{Holds};

use std::alloc::{AllocError, Global};

// A call that changes what a stop may leave. A write is of the bytes from the place `at` on.
#[derive(Drop)]
pub(crate) enum Call {
    Write { at: u64, bytes: Vec<u8> },
    Barrier,
}

// Writes bytes over a part.
pub(crate) fn overwrite(content: &mut [u8], from: usize, bytes: &[u8])
    requires { from + length bytes.now ≤ length content.old }
    ensures holds { Holds content.old from bytes.now content.new }
    ensures overwritten { content.new ≡ overwritten content.old from bytes.now }
{
    content[from..from + bytes.len()].copy_from_slice(bytes);
}

// Keeps a call in the record.
pub(crate) fn record(calls: &mut Vec<Call>, call: Call) -> Result<(), AllocError>
    ensures ok { OnOk result (calls.new.items ≡ calls.old.items ++ call ∷ []) }
    ensures err { OnErr result (calls.new.items ≡ calls.old.items) }
{
    calls.push(call)?;
    Ok(())
}

// Keeps a write in the record.
pub(crate) fn record_write(
    alloc: Global,
    calls: &mut Vec<Call>,
    at: u64,
    bytes: &[u8],
) -> Result<(), AllocError>
    ensures ok { OnOk result ((copy : _) × (copy.items ≡ bytes.now) × (calls.new.items ≡ calls.old.items ++ Write at copy ∷ [])) }
    ensures err { OnErr result (calls.new.items ≡ calls.old.items) }
{
    let bytes = bytes.to_vec(alloc)?;
    record(calls, Call::Write { at, bytes })?;
    Ok(())
}
