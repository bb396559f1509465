// Where a journal lies.

/// Where the frames of a segment lie, and what they begin with.
#[derive(Clone, Copy)]
pub struct Area {
    /// The generation of the segment, which each of its frames has.
    pub generation: u64,
    /// The number of the first command of the first frame.
    pub number: u64,
    /// The first sector of the area.
    pub start: u64,
    /// The sector behind the area.
    pub end: u64,
}
