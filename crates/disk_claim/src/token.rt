// Who stands in a claim.
ghost use Rattle.std.specs.Prelude.{◌≡◌, ◌↔◌, take, ◌++◌, replicate, IsTrue};
ghost use Rattle.disk_claim.specs.Token.{token_in, claim_of};

use sector_disk::SECTOR_SIZE;

/// How many bytes a token has.
const TOKEN_SIZE: usize = 16;

/// Who serves a disk: 16 random bytes, or zeros where nobody does.
#[derive(Clone, Copy, Debug, PartialEq, Eq)]
pub struct Token {
    bytes: [u8; TOKEN_SIZE],
}

impl Token {
    /// Nobody.
    pub const NOBODY: Token = Token {
        bytes: [0; TOKEN_SIZE],
    };

    /// Of these bytes.
    pub fn of(bytes: [u8; 16]) -> Token
        ensures { result.bytes ≡ bytes }
    {
        Token { bytes }
    }

    /// Whether it is nobody's.
    pub fn is_nobody(self) -> bool
        ensures { IsTrue result ↔ (self.bytes ≡ replicate 16 0) }
    {
        self == Token::NOBODY
    }

    /// Who stands in a claim of these bytes: its first 16.
    pub fn told_by(claim: &[u8; SECTOR_SIZE]) -> Token
        ensures { result.bytes ≡ token_in claim.now }
    {
        let mut bytes = [0; TOKEN_SIZE];
        bytes.copy_from_slice(&claim[..TOKEN_SIZE]);
        Token { bytes }
    }

    /// The bytes of a claim in which it stands: its own in front of zeros.
    pub fn claim(self) -> [u8; SECTOR_SIZE]
        ensures { result ≡ claim_of self.bytes }
    {
        let mut claim = [0; SECTOR_SIZE];
        claim[..TOKEN_SIZE].copy_from_slice(&self.bytes);
        claim
    }
}
