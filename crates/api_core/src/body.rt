// The body of a request, as a port hands it in.
use invoke_records::Bytes;

/// The body of a request.
#[derive(Drop)]
pub enum Body {
    /// All of it.
    Whole(Bytes),
    /// It has more bytes than any request may have, and was not read to its end.
    TooLarge,
}
