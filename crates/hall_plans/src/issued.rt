// What is told of a command that a call issued.

use invoke_records::Kind;

/// The command that a call issued: its number, kind, event and moment, in milliseconds since 1970.
#[derive(Clone, Copy)]
pub struct Issued {
    pub number: u64,
    pub kind: Kind,
    pub id: [u8; 16],
    pub time: u64,
}
