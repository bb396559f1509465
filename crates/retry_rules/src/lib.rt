//! The rules of retries: the settings of a function and which of them are good, the waits after a failure and after
//! a push-back, and the age at which an event expires.
//!
//! Settings are seen as the record of their fields, a text as the list of its bytes. The crates above use that
//! `check` is exact and names the first bad field, and the exact numbers of the waits.
#![tactic(auto)]

mod check;
mod policy;
mod settings;
mod text;
mod waits;

pub use check::{has_name_bytes, has_plain_bytes};
pub use policy::RetryPolicy;
pub use settings::{BadSettings, Field, Settings};
pub use text::Text;
pub use waits::{after_failure, after_pushback, too_old};
