// Whether the commands behind a snapshot are legal, each after those before it.
ghost use Rattle.std.specs.Prelude.{◌≡◌, ◌+◌, ◌≤◌, ◌^◌, length, map, IfOk, IfErr, IsOk, OnOk};
ghost use Rattle.checkpoint.specs.Image.{folded, kinds_in, folded_in};
ghost use Rattle.checkpoint.specs.Opening.{Refuses};
ghost use Rattle.checkpoint.specs.declared.error.OpenError.TheVariants as open_error;

use crate::OpenError;
use async_core::{ApplyError, Table};
use invoke_records::{Command, Snapshot, Version};
use retry_rules::Settings;
use std::alloc::{AllocError, Global};

// Each command, behind its gate, is legal after those before it; else its gate is where the damage is.
fn check_legal(table: Table, behind: &[(u64, Command)]) -> Result<(), OpenError>
    requires { table.table.number + length behind.now ≤ 2 ^ 62 }
    ensures legal { OnOk result (IsOk (folded table.settings table.table behind.now)) }
    ensures refused { IfErr result (λ why. Refuses why (folded table.settings table.table behind.now)) }
    ensures fault { IfErr result (λ why. why ≡ open_error.Fault → ⊥) }
    ensures old { IfErr result (λ why. why ≡ open_error.OldVersion → ⊥) }
{
    let mut table = table;
    for (gate, command) in behind {
        match table.apply(command) {
            Ok(()) => {}
            Err(ApplyError::Illegal(_)) => return Err(OpenError::Damaged { sector: *gate }),
            Err(ApplyError::OutOfMemory) => return Err(OpenError::OutOfMemory),
        }
    }
    Ok(())
}

// Each command, behind its gate, is of a kind that the version has; else its gate is where the damage is.
fn check_kinds(version: Version, behind: &[(u64, Command)]) -> Result<(), OpenError>
    ensures exact { result ≡ kinds_in version behind.now }
    ensures damage { IfErr result (λ why. (why ≡ open_error.Fault → ⊥) × (why ≡ open_error.OldVersion → ⊥)) }
{
    for (gate, command) in behind {
        if !version.has_kind(command.kind) {
            return Err(OpenError::Damaged { sector: *gate });
        }
    }
    Ok(())
}

// The table of a snapshot under these settings.
fn table_from(alloc: Global, settings: &Settings, snapshot: Snapshot) -> Result<Table, OpenError>
    ensures settings { IfOk result (λ table. table.settings ≡ settings.now) }
    ensures table { IfOk result (λ table. table.table ≡ snapshot) }
    ensures memory { IfErr result (λ why. why ≡ open_error.OutOfMemory) }
{
    let settings = settings.copy()?;
    Ok(Table::from_snapshot(alloc, snapshot, settings)?)
}

// The snapshot again, where each command behind it is legal; else the gate of the first that is not is where the damage
// is.
fn judge_legal(
    alloc: Global,
    settings: &Settings,
    snapshot: Snapshot,
    behind: &[(u64, Command)],
) -> Result<Snapshot, OpenError>
    requires { snapshot.number + length behind.now ≤ 2 ^ 62 }
    ensures same { IfOk result (λ again. again ≡ snapshot) }
    ensures legal { OnOk result (IsOk (folded settings.now snapshot behind.now)) }
    ensures refused { IfErr result (λ why. Refuses why (folded settings.now snapshot behind.now)) }
    ensures fault { IfErr result (λ why. why ≡ open_error.Fault → ⊥) }
    ensures old { IfErr result (λ why. why ≡ open_error.OldVersion → ⊥) }
{
    let table = table_from(alloc, settings, snapshot)?;
    let again = table.snapshot()?;
    check_legal(table, behind)?;
    Ok(again)
}

// The same of a version, whose kinds are judged before anything is applied.
pub(crate) fn judge(
    alloc: Global,
    version: Version,
    settings: &Settings,
    snapshot: Snapshot,
    behind: &[(u64, Command)],
) -> Result<Snapshot, OpenError>
    requires { snapshot.number + length behind.now ≤ 2 ^ 62 }
    ensures same { IfOk result (λ again. again ≡ snapshot) }
    ensures legal { OnOk result (IsOk (folded_in version settings.now snapshot behind.now)) }
    ensures refused { IfErr result (λ why. Refuses why (folded_in version settings.now snapshot behind.now)) }
    ensures fault { IfErr result (λ why. why ≡ open_error.Fault → ⊥) }
    ensures old { IfErr result (λ why. why ≡ open_error.OldVersion → ⊥) }
{
    check_kinds(version, behind)?;
    judge_legal(alloc, settings, snapshot, behind)
}

// The commands without their gates.
pub(crate) fn without_gates(
    alloc: Global,
    behind: Vec<(u64, Command)>,
) -> Result<Vec<Command>, AllocError>
    ensures { IfOk result (λ commands. commands.items ≡ map (λ c. c.1) behind.items) }
{
    behind.into_iter().map(|c| c.1).collect(alloc)
}
