// The settings of a copy.
ghost use Rattle.std.specs.Prelude.{◌≡◌, None, IfOk, OnOk, IfErr, unwrap_or};
ghost use Rattle.retry_rules.specs.Settings.{bad_field};
ghost use Rattle.disk_copy.specs.Limits.{AllowsAll};
ghost use Rattle.disk_copy.specs.Change as meant;
ghost use Rattle.disk_copy.specs.Change.{settings_with, refusal_between, IsChangeReason};

use crate::{Change, ChangeError};
use retry_rules::{Field, Settings, Text};
use std::alloc::AllocError;

// The new text, or else the old one, in memory of its own.
fn copy_of(new: &Option<Text>, old: &Text) -> Result<Text, AllocError>
    ensures { IfOk result (λ text. text ≡ unwrap_or new.now old.now) }
{
    match new {
        Some(text) => text.copy(),
        None => old.copy(),
    }
}

// The old settings with what the change names.
fn changed_settings(old: &Settings, change: &Change) -> Result<Settings, AllocError>
    ensures { IfOk result (λ new. new ≡ settings_with change.now old.now) }
{
    let name = copy_of(&change.name, &old.name)?;
    let handler = copy_of(&change.handler, &old.handler)?;
    let arn = copy_of(&change.arn, &old.arn)?;
    Ok(Settings {
        retries: old.retries,
        age: old.age,
        timeout: old.timeout,
        concurrency: old.concurrency,
        environments: change.environments.unwrap_or(old.environments),
        events: change.events.unwrap_or(old.events),
        payload: change.payload.unwrap_or(old.payload),
        response: change.response.unwrap_or(old.response),
        name,
        handler,
        arn,
    })
}

// The first limit that is below the old one.
fn smaller_field(old: &Settings, new: &Settings) -> Option<Field>
    ensures { result ≡ meant.smaller_field old.now new.now }
{
    if new.environments < old.environments {
        Some(Field::Environments)
    } else if new.events < old.events {
        Some(Field::Events)
    } else if new.payload < old.payload {
        Some(Field::Payload)
    } else if new.response < old.response {
        Some(Field::Response)
    } else {
        None
    }
}

// Whether a copy may have the new settings.
fn check_change(old: &Settings, new: &Settings) -> Result<(), ChangeError>
    ensures granted { OnOk result (refusal_between old.now new.now ≡ None) }
    ensures refused { IfErr result (λ why. refusal_between old.now new.now ≡ Some why) }
{
    if let Err(bad) = new.check() {
        return Err(ChangeError::BadSettings { field: bad.field });
    }
    match smaller_field(old, new) {
        Some(field) => Err(ChangeError::Smaller { field }),
        None => Ok(()),
    }
}

/// The settings of a copy of a disk: the old ones with what the change names, in memory of their own.
///
/// They are refused where a field is outside its range or a limit is smaller than it was, by the first that is. At Ok
/// each history that was legal stays legal and leaves the same table, and each table that may stand on the old disk may
/// stand on the new one.
pub fn grown_settings(old: &Settings, change: &Change) -> Result<Settings, ChangeError>
    // claim: A copy's settings are the old ones with what is changed, in range, and allow all that the old ones do.
    ensures settings { IfOk result (λ new. new ≡ settings_with change.now old.now) }
    ensures good { IfOk result (λ new. bad_field new ≡ None) }
    ensures allows { IfOk result (AllowsAll old.now) }
    // claim: They are refused by the first field out of range, then the first smaller limit, or for want of memory.
    ensures granted { OnOk result (refusal_between old.now (settings_with change.now old.now) ≡ None) }
    ensures refused { IfErr result (IsChangeReason old.now (settings_with change.now old.now)) }
{
    let new = changed_settings(old, change)?;
    check_change(old, &new)?;
    Ok(new)
}
