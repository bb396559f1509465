// The table of events.
ghost use Rattle.std.specs.Prelude.{◌≡◌, ◌<◌, ◌^◌, ◌+◌, length, None, Some, Err, IfOk, OnOk, OnErr, IfErr};
ghost use Rattle.std.specs.Result.{result_err};

use crate::changes::{change, policy_after};
use crate::held::Held;
use crate::legality::refuse;
use crate::situation::{Situation, is_busy, standing_in, too_old_or_zero};
use crate::{ApplyError, Illegal};
use invoke_records::{Command, EventRow, Rows, Snapshot, Standing};
use retry_rules::{RetryPolicy, Settings};
use std::alloc::{AllocError, Global};
use std::collections::btree_map::Values;
use std::marker::Model;

/// The table of events.
#[derive(Drop)]
pub struct Table {
    alloc: Global,
    pub(crate) settings: Settings,
    number: u64,
    last_moment: u64,
    policy: RetryPolicy,
    pub(crate) held: Held,
}

impl Model for Table {
    ghost use Rattle.std.specs.Prelude.{◌≡◌};
    ghost use Rattle.async_core.specs.State.{State};

    ghost Value = { State };

    ghost view = { λ t. record {
      settings = t.settings;
      table = record { number = t.number; last_moment = t.last_moment; policy = t.policy; rows = t.held };
    } };
}

/// These rows with their indexes.
fn held_of(alloc: Global, rows: Vec<EventRow>) -> Result<Held, AllocError>
    ensures { IfOk result (λ held. held ≡ rows.items) }
{
    let mut held = Held::new(alloc);
    for row in rows {
        held.push(row)?;
    }
    Ok(held)
}

impl Table {
    ghost use Rattle.async_core.specs.State.{empty_state, refusal_by, state_after};
    ghost use Rattle.async_core.specs.Rules.{standing_at, situation_at};
    ghost use Rattle.async_core.specs.History.{refusal_of, standing_in};
    ghost use Rattle.async_core.specs.Histories.{ForEachLegalHistory, ForEachGoodHistory, StandsForMore};
    ghost use Rattle.async_core.specs.declared.illegal.ApplyError.TheVariants as apply_error;

    /// The table with no command. It takes no memory.
    pub fn new(alloc: Global, settings: Settings) -> Table
        ensures { result ≡ empty_state settings }
    {
        let policy = settings.policy();
        Table {
            alloc,
            settings,
            number: 0,
            last_moment: 0,
            policy,
            held: Held::new(alloc),
        }
    }

    /// The table that a snapshot holds.
    pub fn from_snapshot(
        alloc: Global,
        snapshot: Snapshot,
        settings: Settings,
    ) -> Result<Table, AllocError>
        // claim: A table made of a snapshot has just that, and its snapshot is the table. Want of memory may refuse both.
        // [Table::snapshot]
        ensures { IfOk result (λ table. table ≡ record { settings = settings; table = snapshot }) }
    {
        let Snapshot {
            number,
            last_moment,
            policy,
            rows,
        } = snapshot;
        let held = held_of(alloc, rows.into_vec())?;
        Ok(Table {
            alloc,
            settings,
            number,
            last_moment,
            policy,
            held,
        })
    }

    /// Its snapshot, in memory of its own.
    pub fn snapshot(&self) -> Result<Snapshot, AllocError>
        ensures { IfOk result (λ snapshot. snapshot ≡ self.now.table) }
    {
        let rows = self.held.copies(self.alloc)?;
        Ok(Snapshot {
            number: self.number,
            last_moment: self.last_moment,
            policy: self.policy,
            rows: Rows::from_vec(rows),
        })
    }

    /// Its rows, in the order of acceptance, by reference. It takes no memory.
    pub fn rows(&self) -> Values<'_, u64, EventRow>
        // claim: A table lends all rows of its snapshot, in their order.
        ensures rows { result ≡ self.now.table.rows }
        ensures fits { length result < 2 ^ 63 }
    {
        self.held.rows()
    }

    /// The settings of its disk. Their retries and age are in force until a Configure brings others.
    pub fn settings(&self) -> &Settings
        ensures { result.now ≡ self.now.settings }
    {
        &self.settings
    }

    /// How many commands it stands for.
    pub fn number(&self) -> u64
        ensures { result ≡ self.now.table.number }
    {
        self.number
    }

    /// The last command's moment, 0 where there is none.
    pub fn last_moment(&self) -> u64
        ensures { result ≡ self.now.table.last_moment }
    {
        self.last_moment
    }

    /// The retry policy that is in force for the events that are accepted next.
    pub fn policy(&self) -> RetryPolicy
        ensures { result ≡ self.now.table.policy }
    {
        self.policy
    }

    /// Where an event stands.
    #[tactic(auto, unfolding(crate::specs::Rules::standing_at))]
    pub fn standing(&self, id: &[u8; 16]) -> Standing
        // claim: An event's standing, outcome, acceptance, payload and counts are those of the history. [Table::outcome,
        // Table::accepted, Table::payload, Table::counts, Table::ended]
        ensures by_row { result ≡ standing_at self.now.table id.now }
        ensures by_history { ForEachLegalHistory self.now (λ s history. result ≡ standing_in s history id.now) }
    {
        standing_in(&self.held, id)
    }

    /// What a command meets in the table.
    #[tactic(auto, unfolding(crate::specs::Rules::standing_at))]
    fn situation(&self, command: &Command) -> Situation
        ensures { result ≡ situation_at self.now.settings self.now.table command.now }
    {
        Situation {
            last_moment: self.last_moment,
            held: self.held.len(),
            running: self.held.running(),
            is_busy: is_busy(command.environment, &self.held),
            standing: standing_in(&self.held, &command.id),
            too_old_from: too_old_or_zero(&self.held, &command.id),
        }
    }

    /// Why a command is refused now, if it is: the first check that fails.
    #[tactic(auto, unfolding(crate::specs::Rules::refusal_at))]
    pub fn judge(&self, command: &Command) -> Result<(), Illegal>
        // claim: Judging gives a command's first failing check, and applies nothing.
        ensures exact { result_err result ≡ refusal_by self.now command.now }
        ensures legal { OnOk result (refusal_by self.now command.now ≡ None) }
        ensures refused { IfErr result (λ why. refusal_by self.now command.now ≡ Some why) }
        ensures by_history { ForEachGoodHistory self.now (λ s history. result_err result ≡ refusal_of s history command.now) }
    {
        let situation = self.situation(command);
        refuse(&self.settings, &situation, command)
    }

    /// Applies a command that is legal now. A refused command changes nothing, and one that is illegal is refused as
    /// that, also where memory is short.
    pub fn apply(&mut self, command: &Command) -> Result<(), ApplyError>
        requires { self.old.table.number < 2 ^ 62 }
        // claim: A command is applied only if it is legal. The number then rises by one.
        ensures legal { OnOk result (refusal_by self.old command.now ≡ None) }
        ensures applied { OnOk result (self.new ≡ state_after self.old command.now) }
        ensures number { OnOk result (self.new.table.number ≡ self.old.table.number + 1) }
        // claim: An illegal one is refused by the first check that fails, also where memory is short. No refusal changes
        // anything.
        ensures refused { (why : _) → result ≡ Err (apply_error.Illegal why) → refusal_by self.old command.now ≡ Some why }
        ensures illegal { (why : _) → refusal_by self.old command.now ≡ Some why → result ≡ Err (apply_error.Illegal why) }
        ensures err { OnErr result (self.new ≡ self.old) }
        // claim: Under good settings the command is then legal after the table's legal history, and the table stands for
        // both.
        ensures by_history { ForEachGoodHistory self.old (λ s history. OnOk result (StandsForMore s history command.now self.new.table)) }
    {
        if let Err(why) = self.judge(command) {
            return Err(ApplyError::Illegal(why));
        }
        let number = self.number + 1;
        let policy = self.policy;
        change(&mut self.held, &self.settings, policy, number, command)?;
        self.number = number;
        self.last_moment = command.time;
        self.policy = policy_after(policy, command.kind);
        Ok(())
    }
}
