// Ids as texts.
ghost use Rattle.std.specs.Prelude.{◌≡◌};
ghost use Rattle.uuid.specs.Text.{parsed};
ghost use Rattle.admin_replies.specs.Requests.{id_of};

use std::str;
use uuid::Uuid;

/// The id that a text is.
pub(crate) fn read_text(text: &str) -> Option<[u8; 16]>
    ensures { result ≡ parsed text.now }
{
    match Uuid::parse_str(text) {
        Ok(id) => Some(id.into_bytes()),
        Err(_) => None,
    }
}

/// The same of bytes, which may be no text.
pub fn read_id(bytes: &[u8]) -> Option<[u8; 16]>
    ensures { result ≡ id_of bytes.now }
{
    match str::from_utf8(bytes) {
        Ok(text) => read_text(text),
        Err(_) => None,
    }
}
