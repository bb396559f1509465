// The table of the numbers that are told.
ghost use Rattle.std.specs.Prelude.{◌≡◌, map};
ghost use Rattle.admin_replies.specs.Lines.{line_of};
ghost use Rattle.admin_replies.specs.Table.{lines_of};

use crate::duration_table::DURATIONS;
use crate::judged_table::{LIMITS, PREMISES, PROBLEMS, STALLED};
use crate::metric::{
    HeldMetric, LifeMetric, Metric, PhaseMetric, RefusalMetric, StateMetric, TimeMetric,
    UnreadMetric, WaitMetric,
};
use crate::port_table::PORTS;

/// A number and what stands before it.
pub(crate) struct Row {
    /// The lines that begin its family, if it is the first of one.
    pub(crate) head: &'static str,
    /// Its name and its labels.
    pub(crate) name: &'static str,
    pub(crate) metric: Metric,
}

/// A part of the table.
#[derive(Clone, Copy)]
pub(crate) enum Section {
    /// What is wrong.
    Problems,
    /// That a flush hangs.
    Stalled,
    /// Where the events stand.
    Held,
    /// How old the oldest are, and what waits.
    Waits,
    /// The phases of the environments.
    Environments,
    /// What became of commands, events and attempts.
    Lives,
    /// How long events took.
    Durations,
    /// The requests that were refused.
    Refusals,
    /// The connections and the requests of ports.
    Ports,
    /// How long commits took.
    Commits,
    /// The disk and the process.
    Disk,
    /// Whether the broker stops.
    Stopping,
    /// What was noticed of the premises.
    Premises,
    /// What is allowed at most.
    Limits,
}

const HELD: [Row; 6] = [
    Row {
        head: "# HELP lambda_broker_events Events that are held, by where they stand.\n# TYPE lambda_broker_events gauge\n",
        name: "lambda_broker_events{standing=\"waiting\"}",
        metric: Metric::Held(HeldMetric::Waiting),
    },
    Row {
        head: "",
        name: "lambda_broker_events{standing=\"due_again\"}",
        metric: Metric::Held(HeldMetric::DueAgain),
    },
    Row {
        head: "",
        name: "lambda_broker_events{standing=\"running\"}",
        metric: Metric::Held(HeldMetric::Running),
    },
    Row {
        head: "",
        name: "lambda_broker_events{standing=\"success\"}",
        metric: Metric::Held(HeldMetric::Success),
    },
    Row {
        head: "",
        name: "lambda_broker_events{standing=\"retries_exhausted\"}",
        metric: Metric::Held(HeldMetric::RetriesExhausted),
    },
    Row {
        head: "",
        name: "lambda_broker_events{standing=\"event_age_exceeded\"}",
        metric: Metric::Held(HeldMetric::EventAgeExceeded),
    },
];

const WAITS: [Row; 5] = [
    Row {
        head: "# HELP lambda_broker_oldest_wait_age_seconds Age of the oldest event that waits, 0 where none does.\n# TYPE lambda_broker_oldest_wait_age_seconds gauge\n",
        name: "lambda_broker_oldest_wait_age_seconds",
        metric: Metric::Wait(WaitMetric::OldestWait),
    },
    Row {
        head: "# HELP lambda_broker_oldest_record_age_seconds Time since the oldest record that is held was made, 0 where none is.\n# TYPE lambda_broker_oldest_record_age_seconds gauge\n",
        name: "lambda_broker_oldest_record_age_seconds",
        metric: Metric::Wait(WaitMetric::OldestRecord),
    },
    Row {
        head: "# HELP lambda_broker_pending_commands Commands that are issued and not yet durable.\n# TYPE lambda_broker_pending_commands gauge\n",
        name: "lambda_broker_pending_commands",
        metric: Metric::Wait(WaitMetric::Pending),
    },
    Row {
        head: "# HELP lambda_broker_open_slots Requests that wait for their reply.\n# TYPE lambda_broker_open_slots gauge\n",
        name: "lambda_broker_open_slots",
        metric: Metric::Wait(WaitMetric::OpenSlots),
    },
    Row {
        head: "# HELP lambda_broker_parked_polls Long polls that wait for something to tell.\n# TYPE lambda_broker_parked_polls gauge\n",
        name: "lambda_broker_parked_polls",
        metric: Metric::Wait(WaitMetric::ParkedPolls),
    },
];

const ENVIRONMENTS: [Row; 4] = [
    Row {
        head: "# HELP lambda_broker_environments Environments, by phase.\n# TYPE lambda_broker_environments gauge\n",
        name: "lambda_broker_environments{phase=\"init\"}",
        metric: Metric::Phase(PhaseMetric::Init),
    },
    Row {
        head: "",
        name: "lambda_broker_environments{phase=\"ready\"}",
        metric: Metric::Phase(PhaseMetric::Ready),
    },
    Row {
        head: "",
        name: "lambda_broker_environments{phase=\"busy\"}",
        metric: Metric::Phase(PhaseMetric::Busy),
    },
    Row {
        head: "",
        name: "lambda_broker_environments{phase=\"closing\"}",
        metric: Metric::Phase(PhaseMetric::Closing),
    },
];

const LIVES: [Row; 11] = [
    Row {
        head: "# HELP lambda_broker_commands_issued_total Commands that were issued.\n# TYPE lambda_broker_commands_issued_total counter\n",
        name: "lambda_broker_commands_issued_total",
        metric: Metric::Life(LifeMetric::Issued),
    },
    Row {
        head: "# HELP lambda_broker_commands_durable_total Commands that are durable.\n# TYPE lambda_broker_commands_durable_total counter\n",
        name: "lambda_broker_commands_durable_total",
        metric: Metric::Life(LifeMetric::Durable),
    },
    Row {
        head: "# HELP lambda_broker_events_accepted_total Events that were accepted.\n# TYPE lambda_broker_events_accepted_total counter\n",
        name: "lambda_broker_events_accepted_total",
        metric: Metric::Life(LifeMetric::Accepted),
    },
    Row {
        head: "# HELP lambda_broker_events_ended_total Events that ended, by outcome.\n# TYPE lambda_broker_events_ended_total counter\n",
        name: "lambda_broker_events_ended_total{outcome=\"success\"}",
        metric: Metric::Life(LifeMetric::Success),
    },
    Row {
        head: "",
        name: "lambda_broker_events_ended_total{outcome=\"retries_exhausted\"}",
        metric: Metric::Life(LifeMetric::RetriesExhausted),
    },
    Row {
        head: "",
        name: "lambda_broker_events_ended_total{outcome=\"event_age_exceeded\"}",
        metric: Metric::Life(LifeMetric::EventAgeExceeded),
    },
    Row {
        head: "# HELP lambda_broker_records_collected_total Records that were collected.\n# TYPE lambda_broker_records_collected_total counter\n",
        name: "lambda_broker_records_collected_total",
        metric: Metric::Life(LifeMetric::Collected),
    },
    Row {
        head: "# HELP lambda_broker_attempts_started_total Attempts that were started.\n# TYPE lambda_broker_attempts_started_total counter\n",
        name: "lambda_broker_attempts_started_total",
        metric: Metric::Life(LifeMetric::Started),
    },
    Row {
        head: "# HELP lambda_broker_attempts_failed_total Attempts that failed.\n# TYPE lambda_broker_attempts_failed_total counter\n",
        name: "lambda_broker_attempts_failed_total",
        metric: Metric::Life(LifeMetric::Failed),
    },
    Row {
        head: "# HELP lambda_broker_attempts_throttled_total Attempts that were throttled.\n# TYPE lambda_broker_attempts_throttled_total counter\n",
        name: "lambda_broker_attempts_throttled_total",
        metric: Metric::Life(LifeMetric::Throttled),
    },
    Row {
        head: "# HELP lambda_broker_attempts_interrupted_total Attempts that were interrupted.\n# TYPE lambda_broker_attempts_interrupted_total counter\n",
        name: "lambda_broker_attempts_interrupted_total",
        metric: Metric::Life(LifeMetric::Interrupted),
    },
];

const REFUSALS: [Row; 14] = [
    Row {
        head: "# HELP lambda_broker_refused_total Requests that were refused, by reason.\n# TYPE lambda_broker_refused_total counter\n",
        name: "lambda_broker_refused_total{reason=\"bad_request\"}",
        metric: Metric::Refusal(RefusalMetric::BadRequest),
    },
    Row {
        head: "",
        name: "lambda_broker_refused_total{reason=\"not_found\"}",
        metric: Metric::Refusal(RefusalMetric::NotFound),
    },
    Row {
        head: "",
        name: "lambda_broker_refused_total{reason=\"conflict\"}",
        metric: Metric::Refusal(RefusalMetric::Conflict),
    },
    Row {
        head: "",
        name: "lambda_broker_refused_total{reason=\"too_large\"}",
        metric: Metric::Refusal(RefusalMetric::TooLarge),
    },
    Row {
        head: "",
        name: "lambda_broker_refused_total{reason=\"too_many\"}",
        metric: Metric::Refusal(RefusalMetric::TooMany),
    },
    Row {
        head: "",
        name: "lambda_broker_refused_total{reason=\"unavailable\"}",
        metric: Metric::Refusal(RefusalMetric::Unavailable),
    },
    Row {
        head: "",
        name: "lambda_broker_refused_total{reason=\"other\"}",
        metric: Metric::Refusal(RefusalMetric::Other),
    },
    Row {
        head: "",
        name: "lambda_broker_refused_total{reason=\"bad_head\"}",
        metric: Metric::Unread(UnreadMetric::BadHead),
    },
    Row {
        head: "",
        name: "lambda_broker_refused_total{reason=\"head_too_large\"}",
        metric: Metric::Unread(UnreadMetric::HeadTooLarge),
    },
    Row {
        head: "",
        name: "lambda_broker_refused_total{reason=\"head_cut_off\"}",
        metric: Metric::Unread(UnreadMetric::HeadCutOff),
    },
    Row {
        head: "",
        name: "lambda_broker_refused_total{reason=\"head_late\"}",
        metric: Metric::Unread(UnreadMetric::HeadLate),
    },
    Row {
        head: "",
        name: "lambda_broker_refused_total{reason=\"body_cut_off\"}",
        metric: Metric::Unread(UnreadMetric::BodyCutOff),
    },
    Row {
        head: "",
        name: "lambda_broker_refused_total{reason=\"body_late\"}",
        metric: Metric::Unread(UnreadMetric::BodyLate),
    },
    Row {
        head: "",
        name: "lambda_broker_refused_total{reason=\"forbidden\"}",
        metric: Metric::Unread(UnreadMetric::Forbidden),
    },
];

const COMMITS: [Row; 11] = [
    Row {
        head: "# HELP lambda_broker_commit_seconds Time that a commit took.\n# TYPE lambda_broker_commit_seconds histogram\n",
        name: "lambda_broker_commit_seconds_bucket{le=\"0.001\"}",
        metric: Metric::Commit(TimeMetric::Within(0)),
    },
    Row {
        head: "",
        name: "lambda_broker_commit_seconds_bucket{le=\"0.0025\"}",
        metric: Metric::Commit(TimeMetric::Within(1)),
    },
    Row {
        head: "",
        name: "lambda_broker_commit_seconds_bucket{le=\"0.005\"}",
        metric: Metric::Commit(TimeMetric::Within(2)),
    },
    Row {
        head: "",
        name: "lambda_broker_commit_seconds_bucket{le=\"0.01\"}",
        metric: Metric::Commit(TimeMetric::Within(3)),
    },
    Row {
        head: "",
        name: "lambda_broker_commit_seconds_bucket{le=\"0.025\"}",
        metric: Metric::Commit(TimeMetric::Within(4)),
    },
    Row {
        head: "",
        name: "lambda_broker_commit_seconds_bucket{le=\"0.1\"}",
        metric: Metric::Commit(TimeMetric::Within(5)),
    },
    Row {
        head: "",
        name: "lambda_broker_commit_seconds_bucket{le=\"0.5\"}",
        metric: Metric::Commit(TimeMetric::Within(6)),
    },
    Row {
        head: "",
        name: "lambda_broker_commit_seconds_bucket{le=\"2.5\"}",
        metric: Metric::Commit(TimeMetric::Within(7)),
    },
    Row {
        head: "",
        name: "lambda_broker_commit_seconds_bucket{le=\"+Inf\"}",
        metric: Metric::Commit(TimeMetric::All),
    },
    Row {
        head: "",
        name: "lambda_broker_commit_seconds_sum",
        metric: Metric::Commit(TimeMetric::Time),
    },
    Row {
        head: "",
        name: "lambda_broker_commit_seconds_count",
        metric: Metric::Commit(TimeMetric::All),
    },
];

const DISK: [Row; 8] = [
    Row {
        head: "# HELP lambda_broker_switches_total Switches to the other segment of the disk.\n# TYPE lambda_broker_switches_total counter\n",
        name: "lambda_broker_switches_total",
        metric: Metric::State(StateMetric::Switches),
    },
    Row {
        head: "# HELP lambda_broker_written_bytes_total Bytes that were written to the disk.\n# TYPE lambda_broker_written_bytes_total counter\n",
        name: "lambda_broker_written_bytes_total",
        metric: Metric::State(StateMetric::WrittenBytes),
    },
    Row {
        head: "# HELP lambda_broker_generation Generation of the segment that is written.\n# TYPE lambda_broker_generation gauge\n",
        name: "lambda_broker_generation",
        metric: Metric::State(StateMetric::Generation),
    },
    Row {
        head: "# HELP lambda_broker_disk_bytes Size of the disk.\n# TYPE lambda_broker_disk_bytes gauge\n",
        name: "lambda_broker_disk_bytes",
        metric: Metric::State(StateMetric::Bytes),
    },
    Row {
        head: "# HELP lambda_broker_segment_free_bytes Room that is left in the segment that is written.\n# TYPE lambda_broker_segment_free_bytes gauge\n",
        name: "lambda_broker_segment_free_bytes",
        metric: Metric::State(StateMetric::FreeBytes),
    },
    Row {
        head: "# HELP lambda_broker_process_resident_memory_bytes Memory of the process that is resident.\n# TYPE lambda_broker_process_resident_memory_bytes gauge\n",
        name: "lambda_broker_process_resident_memory_bytes",
        metric: Metric::State(StateMetric::ResidentBytes),
    },
    Row {
        head: "# HELP lambda_broker_process_start_time_seconds When the broker was started, since 1970.\n# TYPE lambda_broker_process_start_time_seconds gauge\n",
        name: "lambda_broker_process_start_time_seconds",
        metric: Metric::State(StateMetric::StartedAt),
    },
    Row {
        head: "# HELP lambda_broker_device_fault 1 once the disk has failed, else 0.\n# TYPE lambda_broker_device_fault gauge\n",
        name: "lambda_broker_device_fault",
        metric: Metric::State(StateMetric::Fault),
    },
];

const STOPPING: [Row; 1] = [Row {
    head: "# HELP lambda_broker_stopping 1 while the broker stops, else 0.\n# TYPE lambda_broker_stopping gauge\n",
    name: "lambda_broker_stopping",
    metric: Metric::State(StateMetric::Stopping),
}];

impl Section {
    /// Its rows.
    pub(crate) fn rows(self) -> &'static [Row]
        ensures { map line_of result.now ≡ lines_of self }
    {
        match self {
            Section::Problems => &PROBLEMS,
            Section::Stalled => &STALLED,
            Section::Held => &HELD,
            Section::Waits => &WAITS,
            Section::Environments => &ENVIRONMENTS,
            Section::Lives => &LIVES,
            Section::Durations => &DURATIONS,
            Section::Refusals => &REFUSALS,
            Section::Ports => &PORTS,
            Section::Commits => &COMMITS,
            Section::Disk => &DISK,
            Section::Stopping => &STOPPING,
            Section::Premises => &PREMISES,
            Section::Limits => &LIMITS,
        }
    }
}
