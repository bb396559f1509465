// A hall over a broker: opening it, committing, and closing it.
ghost use Rattle.std.specs.Prelude.{◌≡◌, ◌↔◌, List, [], false, true, Err, IfOk, IfErr, OnOk};
ghost use Rattle.invoke_records.specs.declared.command.Command.{Command};
ghost use Rattle.broker_core.specs.Broker.{disk_of, settings_of, is_broken, Stands, Commits};
ghost use Rattle.broker_core.specs.Promises.{LeavesLegalStops};
ghost use Rattle.broker_core.specs.Refusals.{FaultsHaveRisen, IsWornOut, NeedsSwitch};
ghost use Rattle.broker_core.specs.IssuerBroker.{issuer_of};
ghost use Rattle.hall_plans.specs.declared.error.HallError.TheVariants as HallError;
ghost use Rattle.hall_plans.specs.Past.{opening};
ghost use Rattle.hall_core.specs.Hall.{view_of, answered_slots, StandsFor, ForEachPast, IsAllDurable, commit_error_of};
ghost use Rattle.hall_core.specs.Fresh.{IsFresh};
ghost use Rattle.hall_core.specs.Halves.{HasSameParts};
ghost use Rattle.hall_core.specs.Committing.{HasToWrite, IsNotCommitted};

use crate::hall::Hall;
use crate::slots::Slots;
use api_core::Dialect;
use broker_core::{Broker, CommitError, Durable};
use hall_plans::{Environments, HallError};
use sector_disk::Disk;
use std::alloc::Global;

/// A broker over which no hall was made, for want of memory. It is handed back.
#[derive(Drop)]
pub struct HallFailure<D: Disk> {
    pub broker: Broker<D>,
}

// Why a commit was refused, as the hall tells it.
fn error_of(why: CommitError) -> HallError
    ensures { result ≡ commit_error_of why }
{
    match why {
        CommitError::Broken => HallError::Broken,
        CommitError::WornOut => HallError::WornOut,
        CommitError::BadKind => HallError::BadKind,
        CommitError::OutOfMemory => HallError::OutOfMemory,
        CommitError::Fault => HallError::Fault,
    }
}

impl<D: Disk> Hall<Broker<D>> {
    /// A hall over a broker, in which nothing has come yet, which tells its replies in this broker's own words, and whose
    /// environments wait for no extension; over a broken broker it is broken. Want of memory hands the broker back.
    pub fn new(alloc: Global, broker: Broker<D>) -> Result<Hall<Broker<D>>, HallFailure<D>>
        // claim: A new hall has the dialect and number of extensions that it is made with, and stands for the empty run
        // on its broker's history. Nothing has come to it. A refusal hands the broker back. [Hall::in_dialect]
        ensures stands { (history : List Command) → Stands D.view broker history
            → IfOk result (λ hall. StandsFor (view_of (issuer_of D.view) hall) (opening 0 history)) }
        ensures wanted { IfOk result (λ hall. (view_of (issuer_of D.view) hall).wanted ≡ 0) }
        ensures dialect { IfOk result (λ hall. (view_of (issuer_of D.view) hall).dialect ≡ Dialect.Profile) }
        ensures fresh { IfOk result (λ hall. IsFresh (settings_of broker) hall) }
        ensures same { IfOk result (λ hall. hall.issuer ≡ broker) }
        ensures answered { IfOk result (λ hall. answered_slots hall ≡ []) }
        ensures err { IfErr result (λ failure. failure.broker ≡ broker) }
    {
        Hall::in_dialect(alloc, broker, Dialect::Profile, 0)
    }

    /// As `new`, but it tells its replies in this dialect, and its environments wait for so many extensions. That is for a
    /// broker that is served anew, to which runtimes and extensions come back in any order: in each era each environment stays
    /// in Init, where extensions may register, until so many have registered and have asked for Next beside the runtime. Where
    /// more are wanted than may register, no environment is ever ready.
    pub fn in_dialect(
        alloc: Global,
        broker: Broker<D>,
        dialect: Dialect,
        extensions: u8,
    ) -> Result<Hall<Broker<D>>, HallFailure<D>>
        ensures stands { (history : List Command) → Stands D.view broker history
            → IfOk result (λ hall. StandsFor (view_of (issuer_of D.view) hall) (opening extensions history)) }
        ensures wanted { IfOk result (λ hall. (view_of (issuer_of D.view) hall).wanted ≡ extensions) }
        ensures dialect { IfOk result (λ hall. (view_of (issuer_of D.view) hall).dialect ≡ dialect) }
        ensures fresh { IfOk result (λ hall. IsFresh (settings_of broker) hall) }
        ensures same { IfOk result (λ hall. hall.issuer ≡ broker) }
        ensures answered { IfOk result (λ hall. answered_slots hall ≡ []) }
        ensures err { IfErr result (λ failure. failure.broker ≡ broker) }
    {
        let count = broker.table().settings().environments;
        let Ok(environments) = Environments::new(alloc, count, extensions) else {
            return Err(HallFailure { broker });
        };
        let broken = broker.is_broken();
        let receipt = broker.durable().receipt();
        Ok(Hall {
            alloc,
            dialect,
            issuer: broker,
            environments,
            wanted: extensions,
            slots: Slots::new(alloc),
            stops: false,
            broken,
            receipt,
            answered: Vec::new(alloc),
        })
    }

    /// Makes all that was issued durable: how many commands that is. Replies that show no more can then be told.
    ///
    /// It is refused, and nothing else has changed: `Broken`, `WornOut` and `BadKind` (where the broker has to switch),
    /// `OutOfMemory`, and `Fault`, after which the hall is broken: every slot whose reply is not durable is told that the
    /// broker is not available, and every slot whose reply is not wanted is closed. What the disk may hold then is said by
    /// `any_moment`. A broken hall does not call the disk.
    pub fn commit(&mut self) -> Result<Durable, HallError>
        // claim: A commit keeps the run. After Ok all that was issued is durable. It breaks the hall only where it
        // tells `Fault`. [: durable, stands, sound, fault, cause]
        ensures durable { IfOk result (λ durable. IsAllDurable (view_of (issuer_of D.view) self.new) durable) }
        ensures stands { ForEachPast (view_of (issuer_of D.view) self.old) (λ past. StandsFor (view_of (issuer_of D.view) self.new) past) }
        ensures sound { OnOk result (is_broken self.new.issuer ≡ is_broken self.old.issuer) }
        ensures fault { is_broken self.old.issuer ≡ false → is_broken self.new.issuer ≡ true → result ≡ Err HallError.Fault }
        // claim: A crash at any moment of a commit leaves a legal stop. [: any_moment; Hall::close]
        ensures any_moment { LeavesLegalStops D.view self.old.issuer (disk_of self.new.issuer) }
        ensures kept_answered { answered_slots self.new ≡ answered_slots self.old }

        // claim: Even without a run only the broker changes. Refusals have reasons. `Broken` is told exactly of a
        // broken hall, whose disk is not called.
        ensures parts { HasSameParts (view_of (issuer_of D.view) self.old) (view_of (issuer_of D.view) self.new) }
        ensures ok { IfOk result (λ durable. Commits self.old.issuer self.new.issuer durable) }
        ensures err { IfErr result (IsNotCommitted self.old.issuer self.new.issuer) }
        ensures worn { HasToWrite self.old.issuer → NeedsSwitch self.old.issuer → IsWornOut self.old.issuer
            → result ≡ Err HallError.WornOut }
        ensures cause { result ≡ Err HallError.Fault → FaultsHaveRisen D.fault_count self.old.issuer self.new.issuer }
        ensures broken { (result ≡ Err HallError.Broken) ↔ (is_broken self.old.issuer ≡ true) }
        ensures no_call { is_broken self.old.issuer ≡ true → disk_of self.new.issuer ≡ disk_of self.old.issuer }
    {
        match self.issuer.commit() {
            Ok(durable) => {
                self.receipt = durable.receipt();
                Ok(durable)
            }
            Err(why) => {
                if matches!(why, CommitError::Fault) {
                    self.broken = true;
                }
                Err(error_of(why))
            }
        }
    }

    /// The disk, also of a broken hall. What is pending is given up.
    pub fn close(self) -> D
        ensures disk { result ≡ disk_of self.issuer }
        ensures any_moment { LeavesLegalStops D.view self.issuer result }
    {
        let Hall { issuer, .. } = self;
        issuer.close()
    }
}
