//! Who asks: requests signed as AWS's clients sign them, by Signature Version 4 of AWS's General Reference, for the service `lambda`.
//!
//! A request is seen as the record of its parts, headers as names with their values, a key as the record of its bytes and
//! rights. The crates above use that `judge` takes just what a key of the list that has the right signed within the window,
//! and tells the first check that fails; that `judge_head` does so by the head alone; and that `read_keys` reads just the
//! files that the definitions have.
#![tactic(auto)]

mod authorization;
mod canonical;
mod claim;
mod comparing;
mod cutting;
mod derived_keys;
mod encoding;
mod headers;
mod hmac;
mod judging;
mod keys;
mod keys_file;
mod query;
mod refusal;
mod signing;
mod stamp;

pub use canonical::Request;
pub use derived_keys::DerivedKeys;
pub use hmac::hmac_sha256;
pub use judging::{judge, judge_head};
pub use keys::{Key, Right, Rights};
pub use keys_file::{KeysError, read_keys};
pub use refusal::{Fault, JudgeError, Refusal};

#[cfg(test)]
mod tests;
