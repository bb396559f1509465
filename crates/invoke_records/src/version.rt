// The versions of the format.
ghost use Rattle.std.specs.Prelude.{◌≡◌};
ghost use Rattle.invoke_records.specs.Versions.{is_old, most_payload, row_front, snapshot_front, has_kind};

use crate::{Kind, MOST_PAYLOAD};
use retry_rules::RetryPolicy;

// How many bytes a payload of version 1 may have.
const MOST_OLD_PAYLOAD: u32 = 262144;

/// The version of the format that a disk's records are read by. What is written is of version 2 alone.
#[derive(Clone, Copy)]
pub enum Version {
    /// Rows and snapshots have no retry policy, and are given this one: that of their disk's settings.
    One(RetryPolicy),
    Two,
}

impl Version {
    /// Whether it is version 1.
    pub fn is_old(self) -> bool
        ensures { result ≡ is_old self }
    {
        match self {
            Version::One(_) => true,
            Version::Two => false,
        }
    }

    /// The greatest payload.
    pub fn most_payload(self) -> u32
        ensures { result ≡ most_payload self }
    {
        match self {
            Version::One(_) => MOST_OLD_PAYLOAD,
            Version::Two => MOST_PAYLOAD,
        }
    }

    /// How many bytes a row has in front of its payload.
    pub fn row_front(self) -> u64
        ensures { result ≡ row_front self }
    {
        match self {
            Version::One(_) => 73,
            Version::Two => 78,
        }
    }

    /// How many bytes a snapshot has in front of its rows.
    pub fn snapshot_front(self) -> u64
        ensures { result ≡ snapshot_front self }
    {
        match self {
            Version::One(_) => 20,
            Version::Two => 25,
        }
    }

    /// Whether it has commands of this kind: version 1 has no Configure.
    pub fn has_kind(self, kind: Kind) -> bool
        ensures { result ≡ has_kind self kind }
    {
        match self {
            Version::Two => true,
            Version::One(_) => match kind {
                Kind::Configure(_) => false,
                _ => true,
            },
        }
    }
}
