// Which settings are good.
ghost use Rattle.std.specs.Prelude.{◌≡◌, ◌↔◌, IsOk, IfErr, None, Some};
ghost use Rattle.std.specs.List.{list_all};
ghost use Rattle.retry_rules.specs.Settings.{is_outside, is_name_byte, is_plain_byte, is_bad_text, is_bad_policy, bad_field};

use crate::{BadSettings, Field, RetryPolicy, Settings};

fn is_outside(least: u32, most: u32, n: u32) -> bool
    ensures { result ≡ is_outside least most n }
{
    n < least || most < n
}

fn is_name_byte(b: u8) -> bool
    ensures { result ≡ is_name_byte b }
{
    matches!(b, b'a'..=b'z' | b'A'..=b'Z' | b'0'..=b'9' | b'-' | b'_')
}

fn is_plain_byte(b: u8) -> bool
    ensures { result ≡ is_plain_byte b }
{
    matches!(b, 33..=126) && b != b'"' && b != b'\\'
}

/// Whether each byte is a letter, a digit, `-` or `_`.
pub fn has_name_bytes(text: &[u8]) -> bool
    ensures { result ≡ list_all is_name_byte text.now }
{
    text.iter().all(|b| is_name_byte(*b))
}

/// Whether each byte is one of 0x21 to 0x7E without `"` and `\`.
pub fn has_plain_bytes(text: &[u8]) -> bool
    ensures { result ≡ list_all is_plain_byte text.now }
{
    text.iter().all(|b| is_plain_byte(*b))
}

fn is_bad_name(text: &[u8]) -> bool
    ensures { result ≡ is_bad_text 64 is_name_byte text.now }
{
    let len = text.len();
    len < 1 || 64 < len || !has_name_bytes(text)
}

fn is_bad_plain(most: usize, text: &[u8]) -> bool
    ensures { result ≡ is_bad_text most is_plain_byte text.now }
{
    let len = text.len();
    len < 1 || most < len || !has_plain_bytes(text)
}

impl RetryPolicy {
    /// Whether its retries or its age are outside their ranges. It takes no memory.
    pub fn is_bad(&self) -> bool
        ensures { result ≡ is_bad_policy self.now }
    {
        is_outside(0, 2, self.retries as u32) || is_outside(60, 21600, self.age)
    }
}

impl Settings {
    /// Whether each field is within its range. The first that is not is named. It takes no memory.
    pub fn check(&self) -> Result<(), BadSettings>
        // claim: Settings are refused exactly where a field is out of range, by the first such field.
        ensures good { IsOk result ↔ (bad_field self.now ≡ None) }
        ensures bad { IfErr result (λ bad. bad_field self.now ≡ Some bad.field) }
    {
        let field = if is_outside(0, 2, self.retries as u32) {
            Field::Retries
        } else if is_outside(60, 21600, self.age) {
            Field::Age
        } else if is_outside(1, 900, self.timeout as u32) {
            Field::Timeout
        } else if is_outside(1, 64, self.concurrency as u32) {
            Field::Concurrency
        } else if is_outside(1, 16, self.environments as u32) {
            Field::Environments
        } else if is_outside(1, 1024, self.events as u32) {
            Field::Events
        } else if is_outside(2, 1048576, self.payload) {
            Field::Payload
        } else if is_outside(2, 262144, self.response) {
            Field::Response
        } else if is_bad_name(self.name.as_bytes()) {
            Field::Name
        } else if is_bad_plain(128, self.handler.as_bytes()) {
            Field::Handler
        } else if is_bad_plain(200, self.arn.as_bytes()) {
            Field::Arn
        } else {
            return Ok(());
        };
        Err(BadSettings { field })
    }
}
