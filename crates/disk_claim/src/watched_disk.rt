// A disk whose barriers succeed only with a look at its claim.
ghost use Rattle.std.specs.Prelude.{◌≡◌};
ghost use Rattle.disk_claim.specs.Sight.{counted, HasSameSize};

use crate::putting::put;
use crate::settled::settle;
use crate::watch::Looked;
use crate::{Holding, Token, Volume, Watch};
use sector_disk::{Disk, Fault};
use std::snapshot::Snapshot as Seen;

/// A disk that somebody may watch: a barrier of it succeeds only if the own token stood in its claim behind that. Where it did not, each
/// call fails from then on, and a stop leaves what it might have left before that barrier.
#[derive(Drop)]
pub struct WatchedDisk<D: Disk, V: Volume> {
    disk: D,
    watch: Option<Watch<V>>,
    /// That the last barrier that succeeded was looked behind.
    looked: Option<Looked<D>>,
    /// The disk before the barrier whose look did not show the own token.
    lost: Option<Seen<D>>,
    failed: u64,
    ghost size: { HasSameSize D.view disk lost },
}

// Counts a fault.
fn fault(failed: &mut u64) -> Fault
    ensures { failed.new ≡ counted failed.old }
{
    *failed = failed.saturating_add(1);
    Fault
}

// Whether a look has shown that the claim is not held, whoever looked.
fn is_lost<V: Volume>(watch: &Option<Watch<V>>) -> bool {
    match watch {
        Some(watch) => watch.holding().get() != Holding::Held,
        None => false,
    }
}

impl<D: Disk, V: Volume> WatchedDisk<D, V> {
    ghost use Rattle.std.specs.Prelude.{IfOk, IfSome};
    ghost use Rattle.disk_claim.specs.WatchedDisk.{IsOver};
    ghost use Rattle.disk_claim.specs.Claiming.{GivesUp};

    /// A disk that is watched so, or by nobody.
    pub fn over(disk: D, watch: Option<Watch<V>>) -> WatchedDisk<D, V>
        ensures { IsOver disk watch result }
    {
        WatchedDisk {
            disk,
            watch,
            looked: None,
            lost: None,
            failed: 0,
        }
    }

    /// Gives up the claim, if it is held still: zeros stand there then, durably. Gives the disk within, or None where nobody watched
    /// it or it is not held any more.
    pub fn release(self) -> Result<Option<D>, Fault>
    where
        D: Drop,
        V: Drop,
        // claim: A claim is given up by zeros, durably, and nothing else of the disk changes. [: zeros]
        ensures zeros { IfOk result (λ released. IfSome released (GivesUp D.view self)) }
    {
        let WatchedDisk {
            mut disk,
            watch,
            lost,
            ..
        } = self;
        if lost.is_some() {
            return Ok(None);
        }
        let Some(mut watch) = watch else {
            return Ok(None);
        };
        match watch.look() {
            Holding::Held => {
                put(&mut disk, Token::NOBODY)?;
                Ok(Some(disk))
            }
            Holding::Taken => Ok(None),
            Holding::Unread => Err(Fault),
        }
    }
}

impl<D: Disk, V: Volume> Disk for WatchedDisk<D, V> {
    ghost use Rattle.std.specs.Prelude.{OnOk};
    ghost use Rattle.sector_disk.specs.Disk.{IsSameDisk, HasCause, SettlesHonestly};
    ghost use Rattle.disk_claim.specs.Sight.{seen_laws};
    ghost use Rattle.disk_claim.specs.WatchedDisk.{view_of, faults_of, HasLooked};

    ghost view = { view_of D.view };

    ghost fault_count = { faults_of D.fault_count };

    ghost laws = { λ disk. seen_laws D.view D.laws disk.disk disk.lost };

    fn sectors(&self) -> u64 {
        self.disk.sectors()
    }

    fn faults(&self) -> u64 {
        self.disk.faults().saturating_add(self.failed)
    }

    fn read(&mut self, at: u64, out: &mut [u8]) -> Result<(), Fault> {
        if self.lost.is_some() {
            return Err(fault(&mut self.failed));
        }
        self.disk.read(at, out)
    }

    fn write(&mut self, at: u64, bytes: &[u8]) -> Result<(), Fault> {
        if self.lost.is_some() || is_lost(&self.watch) {
            return Err(fault(&mut self.failed));
        }
        self.disk.write(at, bytes)
    }

    fn barrier(&mut self) -> Result<(), Fault>
        ensures same { IsSameDisk (view_of D.view self.old) (view_of D.view self.new) }
        ensures cause { HasCause (faults_of D.fault_count self.old) (faults_of D.fault_count self.new) result }
        ensures honest { SettlesHonestly (view_of D.view self.old) (view_of D.view self.new) result }

        // claim: A barrier of a disk that is watched succeeds only with a look behind it, at which the own token stood in the claim. [:
        // looked]
        ensures looked { OnOk result (HasLooked V.view self.old self.new) }
    {
        if self.lost.is_some() {
            return Err(fault(&mut self.failed));
        }
        let before = Seen::of(&self.disk);
        let settled = settle(&mut self.disk)?;
        let Some(watch) = &mut self.watch else {
            return Ok(());
        };
        match watch.look_behind(settled) {
            Some(looked) => {
                self.looked = Some(looked);
                Ok(())
            }
            None => {
                self.lost = Some(before);
                Err(fault(&mut self.failed))
            }
        }
    }
}
