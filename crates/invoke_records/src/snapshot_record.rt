// The record of a snapshot.
ghost use Rattle.std.specs.Prelude.{◌≡◌, ◌^◌, ◌<◌, ◌≤◌, ◌++◌, None, IfOk, IfErr, OnOk, MatchResult, drop, length, List, ℕ, Ok};
ghost use Rattle.std.specs.List.{flat_map};
ghost use Rattle.invoke_records.specs.declared.snapshot.Snapshot.{Snapshot};
ghost use Rattle.invoke_records.specs.declared.version.Version.TheVariants.{Two};
ghost use Rattle.invoke_records.specs.Spelling.{row_text, snapshot_text, snapshot_fault, IsSnapshot};
ghost use Rattle.invoke_records.specs.Reading.{sound, Gives, FailsBy, rows_at, snapshot_at, whole_at};
ghost use Rattle.invoke_records.specs.Records.{Finds};

use crate::command::GREATEST_MOMENT;
use crate::order::are_in_order_by_set;
use crate::reader::Reader;
use crate::row_reading::read_row;
use crate::snapshot::{GREATEST_NUMBER, MOST_ROWS};
use crate::snapshot_writing::{check_snapshot, encode_snapshot, snapshot_head, snapshot_size};
use crate::{EventRow, RecordError, Rows, Snapshot, Version};
use std::alloc::Global;

fn read_rows(
    alloc: Global,
    version: Version,
    count: u32,
    bytes: &[u8],
) -> Result<(Vec<EventRow>, &[u8]), RecordError>
    ensures { Gives (λ x. (x.0.items, x.1.now)) result (rows_at version count bytes.now) }
{
    let mut rows = Vec::new(alloc);
    let mut rest = bytes;
    for _ in 0..count {
        let (row, after) = read_row(alloc, version, rest)?;
        rows.push(row)?;
        rest = after;
    }
    Ok((rows, rest))
}

fn read_snapshot(
    alloc: Global,
    version: Version,
    bytes: &[u8],
) -> Result<(Snapshot, &[u8]), RecordError>
    ensures { Gives (λ x. (x.0, x.1.now)) result (snapshot_at version bytes.now) }
{
    let mut reader = Reader::new(bytes);
    let number = reader.limit64(0, GREATEST_NUMBER);
    let last_moment = reader.limit64(0, GREATEST_MOMENT);
    let policy = reader.policy_in(version);
    let count = reader.sized(0, MOST_ROWS);
    let rest = reader.end()?;
    let (rows, rest) = read_rows(alloc, version, count, rest)?;
    let are_ordered = are_in_order_by_set(alloc, &rows)?;
    if !are_ordered {
        return Err(RecordError::BadKind);
    }
    let rows = Rows::from_vec(rows);
    let snapshot = Snapshot {
        number,
        last_moment,
        policy,
        rows,
    };
    Ok((snapshot, rest))
}

impl Snapshot {
    /// The snapshot at the front of the bytes, and how many bytes it takes. Bytes after it are left.
    ///
    /// The first bad field from the left is the refusal: one that is cut off is `Truncated`, a length or a count above
    /// its greatest is `TooLong`, any other `BadKind`. The rules of a row come at its end, and at the end of all that
    /// the acceptance numbers rise and that the ids are distinct, which are `BadKind`.
    pub fn decode(alloc: Global, bytes: &[u8]) -> Result<(Snapshot, usize), RecordError>
        ensures exact { Gives (λ x. (x.0, drop x.1 bytes.now)) result (snapshot_at Two bytes.now) }
        ensures spelled { IfOk result (λ x. IsSnapshot x.0) }
        ensures size { IfOk result (λ x. x.1 ≡ length (snapshot_text x.0)) }
        ensures found { IfOk result (λ x. bytes.now ≡ snapshot_text x.0 ++ drop x.1 bytes.now) }
        ensures only { Finds (λ s. s) IsSnapshot snapshot_text bytes.now result }
    {
        let (snapshot, rest) = read_snapshot(alloc, Version::Two, bytes)?;
        let len = bytes.len() - rest.len();
        Ok((snapshot, len))
    }

    /// The snapshot that all of these bytes are, in this version of the format.
    ///
    /// It is refused as by `decode`, and as `TooLong` where bytes are left behind it. In version 1 a row has 73 bytes and its
    /// texts, and a snapshot 20 bytes and its rows: the retry policy is left out of both, and a payload has at most 262144
    /// bytes.
    pub fn decode_whole(
        alloc: Global,
        version: Version,
        bytes: &[u8],
    ) -> Result<Snapshot, RecordError>
        // claim: A snapshot that is all of the bytes is read by the rules of its version, memory aside.
        ensures exact { Gives (λ snapshot. snapshot) result (whole_at version bytes.now) }
        ensures number { IfOk result (λ snapshot. snapshot.number ≤ 2 ^ 62) }
    {
        let (snapshot, rest) = read_snapshot(alloc, version, bytes)?;
        if !rest.is_empty() {
            return Err(RecordError::TooLong);
        }
        Ok(snapshot)
    }

    /// The one spelling of the snapshot.
    ///
    /// A snapshot has none where its number is above 2^62, its last moment past the greatest or its retry policy bad
    /// (`BadKind`), where it
    /// has more than 1024 rows (`TooLong`), where a row has none, and where the rows' acceptance numbers do not rise or
    /// two ids are equal (`BadKind`). The first of these is the refusal.
    pub fn encode(&self, alloc: Global) -> Result<Vec<u8>, RecordError>
        ensures ok { IfOk result (λ text. text.items ≡ snapshot_text self.now) }
        ensures spelled { OnOk result (IsSnapshot self.now) }
        ensures refused { IfErr result (FailsBy (snapshot_fault self.now)) }
    {
        encode_snapshot(alloc, self)
    }

    /// Whether the snapshot has a spelling, refused as by `encode`. It needs no memory, and with some for the rows' ids it takes a
    /// time that grows little faster than the rows.
    pub fn check(&self, alloc: Global) -> Result<(), RecordError>
        ensures fault { result ≡ sound (snapshot_fault self.now) tt }
        ensures spelled { OnOk result (IsSnapshot self.now) }
    {
        check_snapshot(alloc, self)
    }

    /// How long the spelling of a snapshot that has one is. It walks the rows once.
    pub fn size(&self) -> u64
        requires { snapshot_fault self.now ≡ None }
        ensures exact { result ≡ length (snapshot_text self.now) }
        ensures bounded { result < 2 ^ 31 }
    {
        snapshot_size(self)
    }

    /// What the spelling of a snapshot that has one begins with; its rows follow. It takes no memory.
    pub fn head(&self) -> [u8; 25]
        requires { snapshot_fault self.now ≡ None }
        ensures { snapshot_text self.now ≡ result ++ flat_map row_text self.now.rows }
    {
        snapshot_head(self)
    }
}
