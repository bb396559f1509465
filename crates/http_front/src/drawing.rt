// What is drawn from the source of random words.
use hall_core::drawn_id;
use rand::TryRng;
use rand::rngs::SysRng;
use std::io;
use std::random::RandomSource;

/// How many words there are.
const WORD: u128 = 1 << 64;

/// Two random words, by one call of the system, of which new ids are made.
pub(crate) fn words<R: RandomSource>(rt: &R) -> io::Result<[u64; 2]> {
    let mut bytes = [0u8; 16];
    SysRng::new(rt).try_fill_bytes(&mut bytes)?;
    let drawn = u128::from_le_bytes(bytes);
    Ok([(drawn % WORD) as u64, (drawn / WORD) as u64])
}

/// A new id of version 4.
pub(crate) fn new_id<R: RandomSource>(rt: &R) -> io::Result<[u8; 16]> {
    Ok(drawn_id(words(rt)?))
}
