// The operator's port, before it is served and while it is.
ghost use Rattle.std.specs.Prelude.{◌≡◌, IfOk};
ghost use Rattle.admin_replies.specs.Telling.{CountsEnded};

use crate::acts::Acts;
use crate::admin_context::AdminContext;
use crate::application::AdminApplication;
use admin_replies::{Baseline, History, Kept, PhaseMemory};
use async_core::Table;
use http_port::{HttpLimits, Listening};
use long_poll::{Acting, AdminReader};
use operator_view::Memory;
use port_meters::{Beside, Machine, Meters, Moment, Opening, PortMeters, Premises, Version};
use receipts::Trace;
use sector_disk::Written;
use std::alloc::{AllocError, Global};
use std::fs::File;
use std::io;
use std::sync::ledger::Ledger;
use std::sync::{Arc, Mutex};
use std::time::Instant;
use tokio_util::sync::CancellationToken;

/// Where an operator asks, and what he is told beside what is seen of a broker.
#[derive(Drop)]
pub struct Admin {
    pub listening: Listening,
    /// How many bytes were written to the disk.
    pub written: Written,
    /// Where Linux tells how many pages the process has, `/proc/self/statm`.
    pub memory: Option<File>,
    /// What is counted of all ports.
    pub ports: PortMeters,
    /// Whether he may act.
    pub acts: bool,
    /// What is noticed beside the requests.
    pub premises: Arc<Premises>,
    /// Which program serves.
    pub version: Version,
}

/// The operator's port of a broker, which is not served yet.
#[derive(Drop)]
pub struct AdminPort {
    admin: Admin,
    /// What is known of the broker from its opening on.
    baseline: Baseline,
}

impl Admin {
    /// The operator's port of a broker that is opened with this table, by an opening that did this. Only want of memory is
    /// refused.
    pub fn over(self, table: &Table, opening: Opening) -> Result<AdminPort, AllocError>
        // claim: An operator's port keeps the table's settings, and how many of its events had ended.
        ensures admin { IfOk result (λ port. port.admin ≡ self) }
        ensures settings { IfOk result (λ port. port.baseline.settings ≡ table.now.settings) }
        ensures ended { IfOk result (λ port. CountsEnded table.now.table.rows port.baseline.ended_before) }
        ensures opening { IfOk result (λ port. port.baseline.opening ≡ opening) }
    {
        let baseline = Baseline::of(table, opening, &self.version)?;
        Ok(AdminPort {
            admin: self,
            baseline,
        })
    }
}

/// That an operator's port was served to its end. Only serving it gives that.
#[derive(Drop)]
pub struct AdminServed {
    served: (),
}

// When it was begun to be served: in milliseconds since 1970, and by a clock that nobody sets.
#[derive(Clone, Copy)]
struct Start {
    at: u64,
    instant: Instant,
}

// What the requests of a port share, and where they come.
fn context_of<L: Ledger, T: Trace>(
    alloc: Global,
    port: AdminPort,
    reader: Arc<AdminReader<L, T>>,
    meters: Arc<Meters>,
    history: History,
    start: Start,
) -> (AdminContext<L, T>, Listening)
    ensures baseline { result.0.baseline ≡ port.baseline }
    ensures reader { result.0.reader ≡ reader }
{
    let AdminPort { admin, baseline } = port;
    let Admin {
        listening,
        written,
        memory,
        ports,
        acts: _,
        premises,
        version: _,
    } = admin;
    let memory_of_phases = PhaseMemory::new(alloc);
    let context = AdminContext {
        alloc,
        reader,
        baseline,
        meters,
        written,
        memory,
        ports,
        premises,
        started_at: start.at,
        begun: start.instant,
        looks: Mutex::new(Memory::begun(0)),
        kept: Mutex::new(Kept {
            history,
            memory: memory_of_phases,
        }),
    };
    (context, listening)
}

impl<R, L, T, A> Beside<R, AdminReader<L, T>, A> for AdminPort
where
    R: Machine,
    L: Ledger,
    T: Trace,
    A: Acting<R, L, T>,
{
    type Served = AdminServed;

    fn serve(
        self,
        rt: R,
        reader: AdminReader<L, T>,
        acting: A,
        meters: Arc<Meters>,
        ending: &CancellationToken,
    ) -> io::Result<AdminServed> {
        let alloc = rt.alloc();
        let acts = Acts::by(alloc, self.admin.acts, acting)?;
        let reader = Arc::new(alloc, reader)?;
        let start = Start {
            at: Moment::now(&rt)?.millis(),
            instant: Instant::now(&rt)?,
        };
        let history = History::new(alloc)?;
        let (context, listening) = context_of(alloc, self, reader, meters, history, start);
        let context = Arc::new(alloc, context)?;
        let application = AdminApplication { rt, context, acts };
        http_port::serve(rt, application, listening, HttpLimits::default(), ending)?;
        Ok(AdminServed { served: () })
    }
}
