// The fields at the front of a body.
ghost use Rattle.std.specs.Prelude.{◌≡◌, ◌*◌, ◌+◌, ◌<◌, ◌≤◌, ◌^◌, true, length, take, drop};
ghost use Rattle.std.specs.Int.{w32, w64, from_be_bytes};
ghost use Rattle.gate_journal.specs.Frames.{head_of, is_head, body_sectors};

use invoke_records::GREATEST_NUMBER;
use sector_disk::SECTOR_SIZE;

// What a body's first bytes say of it.
#[derive(Clone, Copy)]
pub(crate) struct Head {
    pub(crate) generation: u64,
    pub(crate) number: u64,
    pub(crate) count: u32,
    pub(crate) size: u32,
    pub(crate) zero_field: u64,
}

// The number after the greatest that a command may have.
const END_OF_NUMBERS: u64 = GREATEST_NUMBER + 1;

impl Head {
    ghost use Rattle.gate_journal.specs.Steps.{head_fields};

    // The head of a body.
    pub(crate) fn read(bytes: &[u8]) -> Head
        requires { 32 ≤ length bytes.now }
        ensures { head_fields result ≡ head_of bytes.now }
    {
        Head {
            generation: u64_at(bytes, 0),
            number: u64_at(bytes, 8),
            count: u32_at(bytes, 16),
            size: u32_at(bytes, 20),
            zero_field: u64_at(bytes, 24),
        }
    }

    // How many sectors its body has.
    pub(crate) fn sectors(&self) -> u64
        ensures { result ≡ body_sectors self.now.size }
    {
        (32 + self.size as u64).div_ceil(SECTOR_SIZE as u64)
    }

    // Whether it is one of this generation and number, whose body leaves a sector of so many.
    pub(crate) fn is_of(&self, generation: u64, number: u64, room: u64) -> bool
        requires { number ≤ 2 ^ 62 + 1 }
        ensures exact { result ≡ is_head generation number (512 * room) (head_fields self.now) }
        ensures room { result ≡ true → body_sectors self.now.size + 1 ≤ room }
        ensures numbers { result ≡ true → number + self.now.count ≤ 2 ^ 62 + 1 }
    {
        let fields = self.generation == generation && self.number == number && self.zero_field == 0;
        fields && self.sectors() < room && number + self.count as u64 <= END_OF_NUMBERS
    }
}

// The number in the eight bytes from this place on.
fn u64_at(bytes: &[u8], at: usize) -> u64
    requires { at + 8 ≤ length bytes.now }
    ensures { result ≡ from_be_bytes w64 (take 8 (drop at bytes.now)) }
{
    let (_, rest) = bytes.split_at(at);
    let (front, _) = rest.split_at(8);
    u64::from_be_bytes([
        front[0], front[1], front[2], front[3], front[4], front[5], front[6], front[7],
    ])
}

// The number in the four bytes from this place on.
fn u32_at(bytes: &[u8], at: usize) -> u32
    requires { at + 4 ≤ length bytes.now }
    ensures { result ≡ from_be_bytes w32 (take 4 (drop at bytes.now)) }
{
    let (_, rest) = bytes.split_at(at);
    let (front, _) = rest.split_at(4);
    u32::from_be_bytes([front[0], front[1], front[2], front[3]])
}
