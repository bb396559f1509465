// HMAC with SHA-256.
ghost use Rattle.std.specs.Prelude.{◌≡◌, ◌≤◌, ◌-◌, ◌++◌, length, replicate};
ghost use Rattle.signed_requests.specs.Hmac.{block_key, padded, hmac_sha256};

use sha2::{Digest, Sha256};

/// How many bytes SHA-256 hashes at once.
const BLOCK: usize = 64;

fn with_zeros(key: &[u8]) -> [u8; BLOCK]
    requires { length key.now ≤ 64 }
    ensures { result ≡ key.now ++ replicate (64 - length key.now) 0 }
{
    let mut block = [0u8; BLOCK];
    block[..key.len()].copy_from_slice(key);
    block
}

// The key as a block.
#[tactic(auto, unfolding(crate::specs::Hmac::block_key))]
fn block_of(key: &[u8]) -> [u8; BLOCK]
    ensures { result ≡ block_key key.now }
{
    if key.len() > BLOCK {
        return with_zeros(&Sha256::digest(key));
    }
    with_zeros(key)
}

fn with_pad(block: &[u8; BLOCK], pad: u8) -> [u8; BLOCK]
    ensures { result ≡ padded pad block.now }
{
    let mut out = *block;
    for i in 0..BLOCK {
        out[i] ^= pad;
    }
    out
}

/// The HMAC-SHA-256 of a text under a key (RFC 2104).
#[tactic(auto, unfolding(crate::specs::Hmac::hmac_sha256))]
pub fn hmac_sha256(key: &[u8], text: &[u8]) -> [u8; 32]
    // claim: The code is that of RFC 2104 over SHA-256, for keys of every length.
    ensures { result ≡ hmac_sha256 key.now text.now }
{
    let block = block_of(key);
    let mut inner = Sha256::new();
    inner.update(&with_pad(&block, 0x36));
    inner.update(text);
    let mut outer = Sha256::new();
    outer.update(&with_pad(&block, 0x5c));
    outer.update(&inner.finalize());
    outer.finalize()
}
