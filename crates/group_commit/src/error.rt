// Why a disk is not migrated.
use thiserror::Error;

/// Why a disk was not migrated. The first that holds is told, in this order; the device and the memory may fail before.
#[derive(Clone, Copy, Debug, Error)]
pub enum MigrateError {
    /// No segment's gate is open, or the disk has fewer than 6 sectors.
    #[error("not formatted")]
    NotFormatted,
    /// What stands at this sector is no part of a formatted disk.
    #[error("damaged at sector {sector}")]
    Damaged { sector: u64 },
    /// The live segment is of version 2: there is nothing to migrate.
    #[error("not an old version")]
    NotOld,
    /// The disk has fewer sectors than its settings need in version 2: the least number.
    #[error("too small, least {least}")]
    TooSmall { least: u64 },
    /// The generation has reached 2^62.
    #[error("worn out")]
    WornOut,
    /// The table has no spelling, or is past its settings' limits. No history leaves such a table.
    #[error("bad table")]
    BadKind,
    #[error("out of memory")]
    OutOfMemory,
    /// The device failed in this call.
    #[error("device fault")]
    Fault,
}

/// A disk that was not migrated, and why.
#[derive(Drop)]
pub struct MigrateFailure<D> {
    pub cause: MigrateError,
    /// The disk, which is handed back.
    pub disk: D,
}
