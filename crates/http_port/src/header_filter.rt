// Which bytes of a connection are read: all but the value of one header.
ghost use Rattle.std.specs.Prelude.{◌≡◌, ◌≤◌, ℕ, length, IsFalse, IsTrue};

/// How many bytes of the value are left out of one head at most. With the 64 KiB that are read, a head has 1,100,000 at most.
const MOST_LEFT_OUT: u32 = 1_034_464;

const LENGTH: &[u8] = b"content-length";

const CODING: &[u8] = b"transfer-encoding";

/// The name of a header, as far as it was read: by these bytes it may still be that of the value, of a length, or of a coding.
#[derive(Clone, Copy)]
struct Name {
    read: usize,
    unread: bool,
    length: bool,
    coding: bool,
}

const NAME: Name = Name {
    read: 0,
    unread: true,
    length: true,
    coding: true,
};

/// Where the next byte of a connection stands.
#[derive(Clone, Copy)]
enum Place {
    /// At the beginning of a line of a head, or in a name there.
    Name(Name),
    /// In what is left of a line of a head.
    Line,
    /// In the value that is left out.
    Unread,
    /// In the length of a body.
    Length,
    /// In a body of which so many bytes are left.
    Body(u64),
    /// In the size of a chunk, which so far is this.
    Size(u64),
    /// Behind the size of a chunk, in its line.
    SizeEnd(u64),
    /// In a chunk of which so many bytes are left.
    Chunk(u64),
    /// At the end of the line behind a chunk.
    ChunkEnd,
    /// In a line behind the last chunk: whether it is empty so far.
    Trailer(bool),
    /// Behind what HTTP refuses. Nothing is left out any more.
    Lost,
}

// A letter as a small one.
fn lower(byte: u8) -> u8 {
    if byte.is_ascii_uppercase() {
        byte.saturating_add(32)
    } else {
        byte
    }
}

// Whether a name goes on with this byte, without case.
fn goes_on(name: &[u8], read: usize, byte: u8) -> bool {
    match name.get(read) {
        Some(wanted) => *wanted == lower(byte),
        None => false,
    }
}

// The value of a hexadecimal digit.
fn digit_of(byte: u8) -> Option<u64> {
    match byte {
        b'0'..=b'9' => Some(u64::from(byte.saturating_sub(b'0'))),
        b'a'..=b'f' => Some(u64::from(byte.saturating_sub(b'a')).saturating_add(10)),
        b'A'..=b'F' => Some(u64::from(byte.saturating_sub(b'A')).saturating_add(10)),
        _ => None,
    }
}

// Where a chunk of this size begins, behind its line. One of no bytes is the last.
fn chunk_of(size: u64) -> Place {
    if size == 0 {
        Place::Trailer(true)
    } else {
        Place::Chunk(size)
    }
}

/// Follows the bytes of a connection from head to head, and leaves the value of one header out of each head.
///
/// It knows the end of a body as HTTP does, by its length or its chunks. Where HTTP reads on, they agree on where a head begins.
/// Where HTTP refuses what it reads, no head follows.
#[derive(Clone, Copy)]
pub(crate) struct HeaderFilter {
    // Of the value. In small letters.
    name: &'static str,
    place: Place,
    // Whether the head has a line that is not empty: an empty one is its end then.
    has_line: bool,
    // Whether the body comes in chunks.
    is_coded: bool,
    // Whether the length of the body is none.
    is_lost: bool,
    // The length of the body.
    length: u64,
    // How much of the value was left out of the head.
    left_out: u32,
}

impl HeaderFilter {
    /// The filter of a new connection, which leaves out the value of this header. The name is in small letters.
    pub(crate) fn new(name: &'static str) -> HeaderFilter {
        HeaderFilter {
            name,
            place: Place::Name(NAME),
            has_line: false,
            is_coded: false,
            is_lost: false,
            length: 0,
            left_out: 0,
        }
    }

    // What comes next is a head.
    fn begin_head(&mut self) {
        *self = HeaderFilter::new(self.name);
    }

    // A line of a head has ended.
    fn end_line(&mut self, is_empty: bool) {
        self.place = Place::Name(NAME);
        if !is_empty {
            self.has_line = true;
        } else if self.has_line {
            self.end_head();
        }
    }

    // A head has ended.
    fn end_head(&mut self) {
        if self.is_lost {
            self.place = Place::Lost;
        } else if self.is_coded {
            self.place = Place::Size(0);
        } else if self.length > 0 {
            self.place = Place::Body(self.length);
        } else {
            self.begin_head();
        }
    }

    // A name has ended, and its value begins.
    fn begin_value(&mut self, name: Name) {
        if name.unread && name.read == self.name.len() {
            self.place = Place::Unread;
        } else if name.length && name.read == LENGTH.len() {
            self.length = 0;
            self.place = Place::Length;
        } else {
            self.is_coded |= name.coding && name.read == CODING.len();
            self.place = Place::Line;
        }
    }

    // A byte of a name, or at the beginning of a line. An empty line may have a carriage return.
    fn take_in_name(&mut self, byte: u8, name: Name) {
        match byte {
            b'\n' => self.end_line(name.read == 0),
            b':' => self.begin_value(name),
            b'\r' if name.read == 0 => {}
            _ => {
                self.place = Place::Name(Name {
                    read: name.read.saturating_add(1),
                    unread: name.unread && goes_on(self.name.as_bytes(), name.read, byte),
                    length: name.length && goes_on(LENGTH, name.read, byte),
                    coding: name.coding && goes_on(CODING, name.read, byte),
                });
            }
        }
    }

    // A byte of the value: whether it is read.
    fn take_in_value(&mut self, byte: u8) -> bool {
        match byte {
            b'\n' => {
                self.end_line(false);
                true
            }
            b'\r' => {
                self.place = Place::Line;
                true
            }
            _ => {
                let is_read = self.left_out >= MOST_LEFT_OUT;
                self.left_out = self.left_out.saturating_add(1);
                is_read
            }
        }
    }

    // A byte of the length of a body.
    fn take_in_length(&mut self, byte: u8) {
        match byte {
            b'0'..=b'9' => {
                let digit = u64::from(byte.saturating_sub(b'0'));
                self.length = self.length.saturating_mul(10).saturating_add(digit);
            }
            b'\n' => self.end_line(false),
            b'\r' => self.place = Place::Line,
            b' ' | b'\t' => {}
            _ => self.is_lost = true,
        }
    }

    // A byte of the size of a chunk.
    fn take_in_size(&mut self, byte: u8, size: u64) {
        self.place = match digit_of(byte) {
            Some(digit) => Place::Size(size.saturating_mul(16).saturating_add(digit)),
            None if byte == b'\n' => chunk_of(size),
            None => Place::SizeEnd(size),
        };
    }

    // A byte behind the last chunk.
    fn take_in_trailer(&mut self, byte: u8, is_empty: bool) {
        if byte == b'\n' && is_empty {
            self.begin_head();
        } else {
            self.place = Place::Trailer(byte == b'\n' || (is_empty && byte == b'\r'));
        }
    }

    // So many bytes come of a body or a chunk of which so many were left.
    fn pass(&mut self, count: u64, left: u64, is_chunk: bool) {
        let left = left.saturating_sub(count);
        if left > 0 {
            self.place = if is_chunk {
                Place::Chunk(left)
            } else {
                Place::Body(left)
            };
        } else if is_chunk {
            self.place = Place::ChunkEnd;
        } else {
            self.begin_head();
        }
    }

    // A byte comes: whether it is read. None is left out but one of the value.
    fn take(&mut self, byte: u8) -> bool
        ensures { IsFalse result → self.old.place ≡ Place.Unread }
    {
        match self.place {
            Place::Name(name) => self.take_in_name(byte, name),
            Place::Unread => return self.take_in_value(byte),
            Place::Length => self.take_in_length(byte),
            Place::Body(left) => self.pass(1, left, false),
            Place::Size(size) => self.take_in_size(byte, size),
            Place::Chunk(left) => self.pass(1, left, true),
            Place::Trailer(is_empty) => self.take_in_trailer(byte, is_empty),
            Place::Line if byte == b'\n' => self.end_line(false),
            Place::SizeEnd(size) if byte == b'\n' => self.place = chunk_of(size),
            Place::ChunkEnd if byte == b'\n' => self.place = Place::Size(0),
            Place::Line | Place::SizeEnd(_) | Place::ChunkEnd | Place::Lost => {}
        }
        true
    }

    // Whether so many bytes are read as they are, all of them in one body or chunk.
    fn takes_all(&mut self, count: usize) -> bool
        ensures body { (left : ℕ) → self.old.place ≡ Place.Body left → count ≤ left → IsTrue result }
        ensures chunk { (left : ℕ) → self.old.place ≡ Place.Chunk left → count ≤ left → IsTrue result }
    {
        let count = count as u64;
        match self.place {
            Place::Lost => true,
            Place::Body(left) if count <= left => {
                self.pass(count, left, false);
                true
            }
            Place::Chunk(left) if count <= left => {
                self.pass(count, left, true);
                true
            }
            _ => false,
        }
    }

    /// So many bytes come. Those that are read are moved to the front: how many they are. Of a body all are read.
    pub(crate) fn take_all(&mut self, bytes: &mut [u8], count: usize) -> usize
        requires { count ≤ length bytes.old }
        ensures within { result ≤ count }
        ensures body { (left : ℕ) → self.old.place ≡ Place.Body left → count ≤ left → (result ≡ count) × (bytes.new ≡ bytes.old) }
        ensures chunk { (left : ℕ) → self.old.place ≡ Place.Chunk left → count ≤ left → (result ≡ count) × (bytes.new ≡ bytes.old) }
    {
        if self.takes_all(count) {
            return count;
        }
        let mut read = 0;
        for at in 0..count {
            let byte = bytes[at];
            if self.take(byte) {
                bytes[read] = byte;
                read += 1;
            }
        }
        read
    }
}
