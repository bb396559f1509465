// What the requests of the operator's port share.
ghost use Rattle.std.specs.Prelude.{◌≡◌, IfSome};

use crate::admin_response::AdminResponse;
use crate::memory::resident_bytes;
use admin_replies::{
    AdminRequest, Baseline, ClockSet, Kept, Measures, Sample, sample_of, tell, tell_at_once,
};
use long_poll::AdminReader;
use operator_view::{Counts, Memory};
use port_meters::{Counters, Meters, Noticed, PortMeters, Premises, micros_since};
use receipts::{Trace, View};
use sector_disk::Written;
use std::alloc::Global;
use std::fs::File;
use std::sync::ledger::Ledger;
use std::sync::{Arc, Mutex, Wait};
use std::time::{Clock, Instant};

/// What the requests of the operator's port share: what they look at, and what they tell beside what is seen.
#[derive(Drop)]
pub(crate) struct AdminContext<L: Ledger, T: Trace> {
    pub(crate) alloc: Global,
    pub(crate) reader: Arc<AdminReader<L, T>>,
    pub(crate) baseline: Baseline,
    /// What the threads count.
    pub(crate) meters: Arc<Meters>,
    /// How many bytes were written to the disk.
    pub(crate) written: Written,
    /// Where Linux tells how many pages the process has.
    pub(crate) memory: Option<File>,
    /// What is counted of all ports.
    pub(crate) ports: PortMeters,
    /// What is noticed of the premises.
    pub(crate) premises: Arc<Premises>,
    /// When it was begun to be served, in milliseconds since 1970.
    pub(crate) started_at: u64,
    /// The same by a clock that nobody sets.
    pub(crate) begun: Instant,
    /// What is remembered of the looks up to now, by that clock.
    pub(crate) looks: Mutex<Memory>,
    /// What is kept of them.
    pub(crate) kept: Mutex<Kept>,
}

// How often the clock was set, and by how much it was last.
fn clock_of(noticed: &Noticed) -> ClockSet {
    ClockSet {
        steps: noticed.clock_steps,
        is_back: noticed.last_step < 0,
        millis: noticed.last_step.unsigned_abs(),
    }
}

impl<L: Ledger, T: Trace> AdminContext<L, T> {
    ghost use Rattle.admin_port.specs.Replying.{TellsOfView, TellsOfNoView};

    /// Now, by the clock that all go by, in milliseconds since 1970, or 0 where it cannot be read.
    pub(crate) fn now_or_zero<R: Wait + Clock>(&self, rt: &R) -> u64 {
        match self.premises.moment(rt) {
            Ok(at) => at.millis(),
            Err(_) => 0,
        }
    }

    // What is remembered after a look at which so much was counted.
    fn remember<R: Wait>(&self, rt: &R, seen: Counts) -> Memory {
        let mut looks = self.looks.lock(rt);
        *looks = looks.after(seen);
        *looks
    }

    // What is remembered of the looks up to now.
    fn remembered<R: Wait>(&self, rt: &R) -> Memory {
        *self.looks.lock(rt)
    }

    // For how many milliseconds it has been looked at, by a clock that nobody sets.
    fn elapsed<R: Clock>(&self, rt: &R) -> u64 {
        micros_since(rt, Ok(self.begun)) / 1000
    }

    // What was counted and measured now, after it was looked at for so long.
    fn measures(
        &self,
        counters: Counters,
        memory: Memory,
        noticed: &Noticed,
        elapsed: u64,
    ) -> Measures {
        Measures {
            elapsed,
            counters,
            ports: self.ports.read(),
            started_at: self.started_at,
            memory,
            written_bytes: self.written.bytes(),
            resident_bytes: resident_bytes(self.memory.as_ref()),
            has_fault: self.reader.bell().said_broken().is_some(),
            flush_seconds: noticed.flush_seconds,
            clock: clock_of(noticed),
            held_back: noticed.held_back,
            lines_dropped: noticed.lines_dropped,
        }
    }

    // What was counted up to now.
    fn counters<R: Wait>(&self, rt: &R) -> Counters {
        self.baseline.opening.counted(self.meters.read(rt))
    }

    /// What is told at once to one who asks so, without a look at the table. None where he is told of a look.
    pub(crate) fn tell_at_once<R: Wait + Clock>(
        &self,
        rt: &R,
        request: &AdminRequest,
    ) -> Option<AdminResponse>
        ensures { IfSome result (λ shown. TellsOfNoView self.now.baseline request.now shown.reply) }
    {
        let noticed = self.premises.read();
        let counters = self.counters(rt);
        let memory = self.remembered(rt);
        let measures = self.measures(counters, memory, &noticed, self.elapsed(rt));
        let is_stopping = self.reader.office().rest(rt).answer.stops;
        let kept = self.kept.lock(rt);
        match tell_at_once(
            self.alloc,
            &self.baseline,
            request,
            &measures,
            &*kept,
            is_stopping,
        ) {
            Some(told) => Some(AdminResponse { reply: told.ok() }),
            None => None,
        }
    }

    // What is kept after a look at which this sample was taken. Where memory is wanting, what was kept of phases stays.
    fn keep(&self, kept: &mut Kept, view: &View, sample: Sample) {
        kept.history.note(sample);
        let environments = view.hall.environments.as_slice();
        if let Ok(memory) = kept
            .memory
            .after(self.alloc, environments, sample.counts.at)
        {
            kept.memory = memory;
        }
    }

    /// What is told of what was seen. Some numbers of it are kept.
    pub(crate) fn tell<R: Wait + Clock>(
        &self,
        rt: &R,
        request: &AdminRequest,
        view: &View,
    ) -> AdminResponse
        ensures { TellsOfView self.now.baseline request.now view.now result.reply }
    {
        let now = self.now_or_zero(rt);
        let elapsed = self.elapsed(rt);
        let noticed = self.premises.read();
        let counters = self.counters(rt);
        let written = self.written.bytes();
        let steps = noticed.clock_steps;
        let sample = sample_of(
            &self.baseline,
            view,
            &counters,
            written,
            now,
            elapsed,
            steps,
        );
        let memory = self.remember(rt, sample.counts);
        let measures = self.measures(counters, memory, &noticed, elapsed);
        let mut kept = self.kept.lock(rt);
        self.keep(&mut *kept, view, sample);
        let reply = tell(
            self.alloc,
            &self.baseline,
            request,
            view,
            &measures,
            &*kept,
            now,
        );
        AdminResponse { reply: reply.ok() }
    }
}
