// Gates and headers, by the bytes of their sectors.
ghost use Rattle.std.specs.Prelude.{◌≡◌, ◌+◌, ◌==◌, ◌≤◌, nat_eq, length, take, drop};
ghost use Rattle.std.specs.Int.{w32, w64, from_be_bytes};
ghost use Rattle.std.specs.Cmp.Lexicographic.{pointwise};
ghost use Rattle.resized_disk.specs.Sectors.{is_open, has_letters, is_header, generation, snapshot_size};
ghost use Rattle.resized_disk.specs.Frames.{commands_size};
ghost use Rattle.resized_disk.specs.Resized.{follows};

// What a header begins with.
const LETTERS: [u8; 7] = *b"AINVOKE";

// The gate is open.
pub(crate) fn is_open(gate: &[u8]) -> bool
    requires { length gate.now ≡ 512 }
    ensures { result ≡ is_open gate.now }
{
    gate[0] == 1
}

// The sector begins as a header does.
pub(crate) fn has_letters(header: &[u8]) -> bool
    ensures { result ≡ has_letters header.now }
{
    header.starts_with(&LETTERS)
}

// The sector begins as a header of version 1 or 2 does.
pub(crate) fn is_header(header: &[u8]) -> bool
    requires { length header.now ≡ 512 }
    ensures { result ≡ is_header header.now }
{
    has_letters(header) && (header[7] == 1 || header[7] == 2)
}

// The number in the eight bytes from this place on.
fn u64_at(bytes: &[u8], at: usize) -> u64
    requires { at + 8 ≤ length bytes.now }
    ensures { result ≡ from_be_bytes w64 (take 8 (drop at bytes.now)) }
{
    let (_, rest) = bytes.split_at(at);
    let (front, _) = rest.split_at(8);
    u64::from_be_bytes([
        front[0], front[1], front[2], front[3], front[4], front[5], front[6], front[7],
    ])
}

// The number in the four bytes from this place on.
fn u32_at(bytes: &[u8], at: usize) -> u32
    requires { at + 4 ≤ length bytes.now }
    ensures { result ≡ from_be_bytes w32 (take 4 (drop at bytes.now)) }
{
    let (_, rest) = bytes.split_at(at);
    let (front, _) = rest.split_at(4);
    u32::from_be_bytes([front[0], front[1], front[2], front[3]])
}

// The generation of a header.
#[tactic(auto, unfolding(crate::specs::Sectors::generation))]
fn generation(header: &[u8]) -> u64
    requires { length header.now ≡ 512 }
    ensures { result ≡ generation header.now }
{
    u64_at(header, 8)
}

// How many bytes its snapshot has.
#[tactic(auto, unfolding(crate::specs::Sectors::snapshot_size))]
pub(crate) fn snapshot_size(header: &[u8]) -> u64
    requires { length header.now ≡ 512 }
    ensures { result ≡ snapshot_size header.now }
{
    u64_at(header, 16)
}

// How many bytes the commands of a body fill, by its first sector.
#[tactic(auto, unfolding(crate::specs::Frames::commands_size))]
pub(crate) fn commands_size(head: &[u8]) -> u32
    requires { length head.now ≡ 512 }
    ensures { result ≡ commands_size head.now }
{
    u32_at(head, 20)
}

// The one header is of the generation behind that of the other.
fn is_next_generation(header: &[u8], next: &[u8]) -> bool
    requires header { length header.now ≡ 512 }
    requires next { length next.now ≡ 512 }
    ensures { result ≡ (generation next.now == generation header.now + 1) }
{
    let told = generation(next);
    match generation(header).checked_add(1) {
        Some(generation) => told == generation,
        None => false,
    }
}

// Both headers have the same settings: their length, they themselves, and zeros.
fn has_same_settings(header: &[u8], next: &[u8]) -> bool
    requires header { length header.now ≡ 512 }
    requires next { length next.now ≡ 512 }
    ensures { result ≡ pointwise nat_eq (drop 24 next.now) (drop 24 header.now) }
{
    let (_, settings) = header.split_at(24);
    let (_, told) = next.split_at(24);
    told == settings
}

// The header is that of the segment which a switch from the segment with the other header makes.
pub(crate) fn follows(header: &[u8], next: &[u8]) -> bool
    requires header { length header.now ≡ 512 }
    requires next { length next.now ≡ 512 }
    ensures { result ≡ follows header.now next.now }
{
    is_header(next) && is_next_generation(header, next) && has_same_settings(header, next)
}
