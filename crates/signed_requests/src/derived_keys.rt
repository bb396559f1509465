// The keys derived from secrets, kept so that they are derived once a day.
ghost use Rattle.std.specs.Prelude.{◌≡◌, ◌<◌, ◌≤◌, vec_len, true, IfOk, IfSome};
ghost use Rattle.signed_requests.specs.Signing.{signing_key};

use crate::signing::signing_key;
use std::alloc::{AllocError, Global};

/// How many derived keys are kept: one for each key that may be given.
const MOST_KEPT: usize = 64;

// A key as it was derived.
#[derive(Drop)]
struct Derived {
    secret: Vec<u8>,
    day: Vec<u8>,
    region: Vec<u8>,
    key: [u8; 32],
    ghost is_derived: { key ≡ signing_key secret.items day.items region.items },
}

impl Derived {
    fn is_for(&self, secret: &[u8], day: &[u8], region: &[u8]) -> bool
        ensures { result ≡ true → self.now.key ≡ signing_key secret.now day.now region.now }
    {
        self.secret.as_slice() == secret
            && self.day.as_slice() == day
            && self.region.as_slice() == region
    }
}

/// The keys that signed requests which were right, derived for a day and a region: the last of each secret.
#[derive(Drop)]
pub struct DerivedKeys {
    kept: Vec<Derived>,
    ghost few: { vec_len kept ≤ 64 },
}

impl DerivedKeys {
    /// None yet.
    pub fn new(alloc: Global) -> DerivedKeys {
        DerivedKeys {
            kept: Vec::new(alloc),
        }
    }

    pub(crate) fn kept_for(&self, secret: &[u8], day: &[u8], region: &[u8]) -> Option<[u8; 32]>
        ensures { IfSome result (λ key. key ≡ signing_key secret.now day.now region.now) }
    {
        for derived in &self.kept {
            if derived.is_for(secret, day, region) {
                return Some(derived.key);
            }
        }
        None
    }

    /// The key of a secret on a day in a region: the one that is kept, or else it is derived.
    pub(crate) fn key_for(
        &self,
        alloc: Global,
        secret: &[u8],
        day: &[u8],
        region: &[u8],
    ) -> Result<[u8; 32], AllocError>
        ensures { IfOk result (λ key. key ≡ signing_key secret.now day.now region.now) }
    {
        if let Some(key) = self.kept_for(secret, day, region) {
            return Ok(key);
        }
        signing_key(alloc, secret, day, region)
    }

    // Where one of the same secret stands.
    fn place_of(&self, secret: &[u8]) -> Option<usize>
        ensures { IfSome result (λ i. i < vec_len self.now.kept) }
    {
        self.kept
            .iter()
            .position(|derived| derived.secret.as_slice() == secret)
    }

    fn put(&mut self, derived: Derived) -> Result<(), AllocError> {
        if let Some(i) = self.place_of(&derived.secret) {
            self.kept[i] = derived;
            return Ok(());
        }
        if self.kept.len() >= MOST_KEPT {
            self.kept.clear();
        }
        self.kept.push(derived)?;
        Ok(())
    }

    /// Keeps a key in place of the one of the same secret.
    pub(crate) fn keep(
        &mut self,
        alloc: Global,
        secret: &[u8],
        day: &[u8],
        region: &[u8],
        key: [u8; 32],
    ) -> Result<(), AllocError>
        requires { key ≡ signing_key secret.now day.now region.now }
    {
        if self.kept_for(secret, day, region).is_some() {
            return Ok(());
        }
        let derived = Derived {
            secret: Vec::from_slice(alloc, secret)?,
            day: Vec::from_slice(alloc, day)?,
            region: Vec::from_slice(alloc, region)?,
            key,
        };
        self.put(derived)
    }
}
