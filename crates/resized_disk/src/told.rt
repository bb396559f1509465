// What is told of a disk that had another size.
/// What tells that a disk had another size when it was formatted.
#[derive(Clone, Copy, Debug)]
pub enum Resized {
    /// The newer segment stands elsewhere: the disk was formatted with so many sectors, or one more.
    Displaced { sectors: u64 },
    /// The open segment was longer: at this sector an open gate stands where no frame has room.
    Cut { sector: u64 },
}
