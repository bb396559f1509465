// The fields of a row in front of its texts.
use retry_rules::RetryPolicy;

/// The fields of a row up to its moment, as they are written.
#[derive(Clone, Copy)]
pub struct Life {
    pub id: [u8; 16],
    pub accepted: u64,
    pub number: u64,
    pub last_number: u64,
    /// 1 waiting, 2 due again, 3 running, 4 ended.
    pub standing: u8,
    /// 0 none, then the outcomes.
    pub outcome: u8,
    pub environment: u16,
    pub moment: u64,
}

/// The others, up to the payload.
#[derive(Clone, Copy)]
pub struct Counts {
    pub starts: u32,
    pub failures: u32,
    pub push_backs: u32,
    /// 0 none, 1 response, 2 error.
    pub answer: u8,
    pub policy: RetryPolicy,
    pub payload_size: u32,
    pub answer_size: u32,
}
