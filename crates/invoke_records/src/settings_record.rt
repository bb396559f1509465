// The record of settings.
ghost use Rattle.std.specs.Prelude.{◌≡◌, ◌++◌, None, IfOk, IfErr, OnOk, MatchResult, drop, length, List, ℕ, Ok};
ghost use Rattle.retry_rules.specs.Settings.{bad_field};
ghost use Rattle.retry_rules.specs.declared.settings.Settings.{Settings};
ghost use Rattle.invoke_records.specs.Spelling.{settings_text, settings_fault};
ghost use Rattle.invoke_records.specs.Reading.{Decodes, FailsBy, settings_at};
ghost use Rattle.invoke_records.specs.Records.{AreSettings, Finds};

use crate::RecordError;
use crate::settings_reading::decode_settings;
use crate::settings_writing::encode_settings;
use retry_rules::Settings;
use std::alloc::Global;

/// The record of settings.
pub trait SettingsRecord: Sized {
    ghost settings_of: { Self → Settings };

    /// The one spelling of the settings. Settings with a bad field have none: where the first is a text that is too
    /// long the refusal is `TooLong`, else `BadKind`.
    fn encode(&self, alloc: Global) -> Result<Vec<u8>, RecordError>
        ensures ok { IfOk result (λ text. text.items ≡ settings_text (settings_of self.now)) }
        ensures good { OnOk result (bad_field (settings_of self.now) ≡ None) }
        ensures refused { IfErr result (FailsBy (settings_fault (settings_of self.now))) };

    /// The settings at the front of the bytes, and how many bytes they take. Bytes after them are left.
    ///
    /// The first bad field from the left decides: one that is cut off is `Truncated`, a text with a length above its
    /// greatest is `TooLong`, any other `BadKind`.
    fn decode(alloc: Global, bytes: &[u8]) -> Result<(Self, usize), RecordError>
        ensures exact { Decodes (λ x. (settings_of x.0, drop x.1 bytes.now)) result (settings_at bytes.now) }
        ensures size { IfOk result (λ x. x.1 ≡ length (settings_text (settings_of x.0))) }
        ensures found { IfOk result (λ x. bytes.now ≡ settings_text (settings_of x.0) ++ drop x.1 bytes.now) }
        ensures good { IfOk result (λ x. bad_field (settings_of x.0) ≡ None) }
        ensures only { Finds settings_of AreSettings settings_text bytes.now result };
}

impl SettingsRecord for Settings {
    ghost settings_of = { λ s. s };

    fn encode(&self, alloc: Global) -> Result<Vec<u8>, RecordError> {
        encode_settings(alloc, self)
    }

    fn decode(alloc: Global, bytes: &[u8]) -> Result<(Self, usize), RecordError> {
        decode_settings(alloc, bytes)
    }
}
