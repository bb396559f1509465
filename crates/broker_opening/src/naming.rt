// Whose disk it is.
ghost use Rattle.std.specs.Prelude.{◌≡◌, ◌≢◌, IfSome, IfErr, OnErr, OnOk};
ghost use Rattle.broker_opening.specs.Naming.{IsOtherFunction};

use crate::error::OpeningError;
use retry_rules::Text;
use std::alloc::{AllocError, Global};

// The refusal of a disk of this function.
fn other_function(alloc: Global, name: &[u8]) -> OpeningError
    ensures { IsOtherFunction result }
{
    let told = str::from_utf8(name).unwrap_or("another name");
    match String::from_str(alloc, told) {
        Ok(name) => OpeningError::OtherFunction { name },
        Err(why) => OpeningError::OutOfMemory(why),
    }
}

/// Refuses the disk of another function, whose name this is, than the one that is asked for, where one is: `OtherFunction`, or
/// `OutOfMemory` where memory for that is wanting.
pub fn check_name(alloc: Global, found: &Text, wanted: Option<&str>) -> Result<(), OpeningError>
    // claim: Where a function is asked for, only its own disk is served. [: own, other, refused]
    ensures own { OnOk result (IfSome wanted.entry (λ name. found.now ≡ name.now)) }
    ensures other { OnErr result (IfSome wanted.entry (λ name. found.now ≢ name.now)) }
    ensures refused { IfErr result IsOtherFunction }
{
    let Some(name) = wanted else {
        return Ok(());
    };
    if found.as_bytes() == name.as_bytes() {
        Ok(())
    } else {
        Err(other_function(alloc, found.as_bytes()))
    }
}
