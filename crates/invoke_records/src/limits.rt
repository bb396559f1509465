// The numbers of the settings, which stand in front of their texts.

/// The numbers of the settings, which stand in front of their texts.
#[derive(Clone, Copy)]
pub struct Limits {
    pub retries: u8,
    pub age: u32,
    pub timeout: u16,
    pub concurrency: u8,
    pub environments: u8,
    pub events: u16,
    pub payload: u32,
    pub response: u32,
}
