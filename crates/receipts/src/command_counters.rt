// How many commands of which kind were marked.
ghost use Rattle.std.specs.Prelude.{◌≡◌, []};
ghost use Rattle.receipts.specs.Counters.{counted, counters_of, HasRoom};

use invoke_records::Kind;

/// How many commands of which kind were issued since an office was opened.
#[derive(Clone, Copy)]
pub struct CommandCounters {
    /// How many events were accepted.
    pub accepted: u64,
    /// How many attempts were started.
    pub started: u64,
    /// How many attempts succeeded: each ended its event with success.
    pub succeeded: u64,
    /// How many attempts failed.
    pub failed: u64,
    /// How often a due event found as many attempts as may run at once.
    pub throttled: u64,
    /// How many attempts were cut off.
    pub interrupted: u64,
    /// How many events were too old: each ended so.
    pub expired: u64,
    /// How many records were collected.
    pub collected: u64,
    /// How often another retry policy came into force.
    pub configured: u64,
}

impl CommandCounters {
    /// Of no command.
    #[tactic(auto, unfolding(crate::specs::Counters::counters_of))]
    pub(crate) fn new() -> CommandCounters
        ensures { result ≡ counters_of [] }
    {
        CommandCounters {
            accepted: 0,
            started: 0,
            succeeded: 0,
            failed: 0,
            throttled: 0,
            interrupted: 0,
            expired: 0,
            collected: 0,
            configured: 0,
        }
    }

    /// Counts a command of this kind.
    pub(crate) fn count(&mut self, kind: Kind)
        requires { HasRoom self.old }
        ensures { self.new ≡ counted self.old kind }
    {
        match kind {
            Kind::Accept => self.accepted += 1,
            Kind::Start => self.started += 1,
            Kind::Succeed => self.succeeded += 1,
            Kind::Fail(_) => self.failed += 1,
            Kind::Throttle => self.throttled += 1,
            Kind::Interrupt => self.interrupted += 1,
            Kind::Expire => self.expired += 1,
            Kind::Collect => self.collected += 1,
            Kind::Configure(_) => self.configured += 1,
        }
    }
}
