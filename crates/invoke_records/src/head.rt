// The fields of a command in front of its bytes.
use crate::Kind;

/// The fields of a command in front of its bytes. The cause of a Fail is not known yet, and is Reported here; nor is
/// the retry policy of a Configure, which is zeros here.
#[derive(Clone, Copy)]
pub struct Head {
    pub kind: Kind,
    pub id: [u8; 16],
    pub environment: u16,
    pub time: u64,
    /// How many bytes come behind, those of a cause or a retry policy included.
    pub size: u32,
}
