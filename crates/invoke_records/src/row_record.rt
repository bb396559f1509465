// The record of a row.
ghost use Rattle.std.specs.Prelude.{◌≡◌, ◌++◌, None, IfOk, IfErr, OnOk, MatchResult, drop, length, List, ℕ, Ok};
ghost use Rattle.invoke_records.specs.declared.row.EventRow.{EventRow};
ghost use Rattle.invoke_records.specs.declared.version.Version.TheVariants.{Two};
ghost use Rattle.invoke_records.specs.Spelling.{answer_bytes, row_text, row_fault, IsRow};
ghost use Rattle.invoke_records.specs.Reading.{Decodes, FailsBy, row_at};
ghost use Rattle.invoke_records.specs.Records.{Finds};

use crate::row_reading::read_row;
use crate::row_writing::{add_row, answer_bytes_of, check_row, row_head, row_is_within};
use crate::writer::Writer;
use crate::{Answer, EventRow, RecordError, Version};
use std::alloc::Global;

impl Answer {
    /// The bytes, lent.
    pub fn bytes(&self) -> &[u8]
        ensures { result.now ≡ answer_bytes self.now }
    {
        answer_bytes_of(self)
    }
}

impl EventRow {
    /// The one spelling of the row.
    ///
    /// A row has none where its accepted moment is past the greatest, its standing is `Unknown`, its environment is
    /// above 16, its retry policy bad, its payload longer than 1048576 bytes (`TooLong`) or empty, or its answer longer
    /// than 262144 bytes (`TooLong`); then where it runs in environment 0 or ended past the greatest moment. The first
    /// of these is the refusal, `BadKind` where no other is named.
    pub fn encode(&self, alloc: Global) -> Result<Vec<u8>, RecordError>
        ensures ok { IfOk result (λ text. text.items ≡ row_text self.now) }
        ensures spelled { OnOk result (IsRow self.now) }
        ensures refused { IfErr result (FailsBy (row_fault self.now)) }
    {
        check_row(self)?;
        row_is_within(self);
        let mut out = Writer::new(alloc);
        add_row(&mut out, self);
        out.end()
    }

    /// What the spelling of a row that has one begins with; its payload and its answer follow. It takes no memory.
    #[tactic(auto, unfolding(crate::specs::Spelling::row_text))]
    pub fn head(&self) -> [u8; 78]
        requires { row_fault self.now ≡ None }
        ensures { row_text self.now ≡ result ++ (self.now.payload ++ answer_bytes self.now.answer) }
    {
        row_head(self)
    }

    /// The row at the front of the bytes, and how many bytes it takes. Bytes after it are left.
    ///
    /// The first bad field from the left is the refusal: one that is cut off is `Truncated`, a length above its
    /// greatest is `TooLong`, any other `BadKind`; then the rules between fields, which are `BadKind`.
    pub fn decode(alloc: Global, bytes: &[u8]) -> Result<(EventRow, usize), RecordError>
        ensures exact { Decodes (λ x. (x.0, drop x.1 bytes.now)) result (row_at Two bytes.now) }
        ensures spelled { IfOk result (λ x. IsRow x.0) }
        ensures size { IfOk result (λ x. x.1 ≡ length (row_text x.0)) }
        ensures found { IfOk result (λ x. bytes.now ≡ row_text x.0 ++ drop x.1 bytes.now) }
        ensures only { Finds (λ r. r) IsRow row_text bytes.now result }
    {
        let (row, rest) = read_row(alloc, Version::Two, bytes)?;
        let len = bytes.len() - rest.len();
        Ok((row, len))
    }
}
