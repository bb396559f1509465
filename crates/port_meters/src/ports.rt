// What is counted of all ports of a broker.
ghost use Rattle.std.specs.Prelude.{◌≡◌};
ghost use Rattle.port_meters.specs.Spreading.{both_unread};

use crate::histogram::Spread;
use crate::port_meter::{PortMeter, UnreadCounts};
use std::alloc::{AllocError, Global};
use std::sync::Arc;

/// What is counted of all ports of a broker.
#[derive(Drop)]
pub struct PortMeters {
    pub callers: Arc<PortMeter>,
    /// Of all environments.
    pub environments: Arc<PortMeter>,
    pub operator: Arc<PortMeter>,
}

/// What was counted of all ports of a broker.
#[derive(Clone, Copy)]
pub struct Ports {
    /// How many connections of callers are open.
    pub callers: u64,
    pub environments: u64,
    pub operator: u64,
    /// Of callers and environments.
    pub unread: UnreadCounts,
    /// How long callers' requests took.
    pub calls: Spread,
    /// How long environments' requests took that are no long polls.
    pub reports: Spread,
    /// How long their long polls did.
    pub polls: Spread,
}

// Those of both.
fn both(one: UnreadCounts, other: UnreadCounts) -> UnreadCounts
    ensures { result ≡ both_unread one other }
{
    UnreadCounts {
        bad_head: one.bad_head.saturating_add(other.bad_head),
        head_too_large: one.head_too_large.saturating_add(other.head_too_large),
        head_cut_off: one.head_cut_off.saturating_add(other.head_cut_off),
        head_late: one.head_late.saturating_add(other.head_late),
        body_cut_off: one.body_cut_off.saturating_add(other.body_cut_off),
        body_late: one.body_late.saturating_add(other.body_late),
        forbidden: one.forbidden.saturating_add(other.forbidden),
    }
}

impl PortMeters {
    /// Nothing was counted.
    pub fn new(alloc: Global) -> Result<PortMeters, AllocError> {
        Ok(PortMeters {
            callers: PortMeter::new(alloc, false)?,
            environments: PortMeter::new(alloc, true)?,
            operator: PortMeter::new(alloc, false)?,
        })
    }

    /// What was counted.
    pub fn read(&self) -> Ports {
        Ports {
            callers: self.callers.open(),
            environments: self.environments.open(),
            operator: self.operator.open(),
            unread: both(self.callers.unread(), self.environments.unread()),
            calls: self.callers.others(),
            reports: self.environments.others(),
            polls: self.environments.polls(),
        }
    }
}
