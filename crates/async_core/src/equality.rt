// Whether two tables are equal. It takes no memory.
ghost use Rattle.std.specs.Prelude.{◌≡◌, IsTrue, ◌↔◌};
ghost use Rattle.async_core.specs.Equality as meant;
ghost use Rattle.async_core.specs.laws.Equality.{same_snapshot-laws};

use crate::Table;
use invoke_records::{Answer, EventRow, Standing};
use retry_rules::{RetryPolicy, Settings};

fn same_standing(a: Standing, b: Standing) -> bool
    ensures { result ≡ meant.same_standing a b }
{
    a == b
}

fn same_answer(a: &Answer, b: &Answer) -> bool
    ensures { result ≡ meant.same_answer a.now b.now }
{
    match a {
        Answer::None => match b {
            Answer::None => true,
            _ => false,
        },
        Answer::Response(bytes) => match b {
            Answer::Response(other) => bytes.as_slice() == other.as_slice(),
            _ => false,
        },
        Answer::Error(bytes) => match b {
            Answer::Error(other) => bytes.as_slice() == other.as_slice(),
            _ => false,
        },
    }
}

fn same_numbers(a: &EventRow, b: &EventRow) -> bool
    ensures { result ≡ meant.same_numbers a.now b.now }
{
    a.accepted == b.accepted
        && a.number == b.number
        && a.last_number == b.last_number
        && a.starts == b.starts
        && a.failures == b.failures
        && a.push_backs == b.push_backs
}

fn same_policy(a: RetryPolicy, b: RetryPolicy) -> bool
    ensures { result ≡ meant.same_policy a b }
{
    a.retries == b.retries && a.age == b.age
}

pub(crate) fn same_row(a: &EventRow, b: &EventRow) -> bool
    ensures { result ≡ meant.same_row a.now b.now }
{
    a.id == b.id
        && same_numbers(a, b)
        && same_policy(a.policy, b.policy)
        && same_standing(a.standing, b.standing)
        && a.payload.as_slice() == b.payload.as_slice()
        && same_answer(&a.answer, &b.answer)
}

fn same_rules(a: &Settings, b: &Settings) -> bool
    ensures { result ≡ meant.same_rules a.now b.now }
{
    a.retries == b.retries
        && a.age == b.age
        && a.timeout == b.timeout
        && a.concurrency == b.concurrency
        && a.environments == b.environments
        && a.events == b.events
        && a.payload == b.payload
        && a.response == b.response
}

fn same_settings(a: &Settings, b: &Settings) -> bool
    ensures { result ≡ meant.same_settings a.now b.now }
{
    same_rules(a, b)
        && a.name.as_bytes() == b.name.as_bytes()
        && a.handler.as_bytes() == b.handler.as_bytes()
        && a.arn.as_bytes() == b.arn.as_bytes()
}

impl Table {
    fn has_same_table(&self, other: &Table) -> bool
        ensures { result ≡ meant.same_table self.now.table other.now.table }
    {
        self.number() == other.number()
            && self.last_moment() == other.last_moment()
            && same_policy(self.policy(), other.policy())
            && self.held.has_same_rows(&other.held)
    }

    #[tactic(auto, unfolding(crate::specs::Equality::same_state))]
    fn tests_same(&self, other: &Table) -> bool
        ensures { result ≡ meant.same_state self.now other.now }
    {
        same_settings(self.settings(), other.settings()) && self.has_same_table(other)
    }

    /// Whether both have the same settings and the same snapshot. `==` compares the snapshots alone.
    pub fn is_same(&self, other: &Table) -> bool
        // claim: Tables are the same where settings and snapshots are, and equal where snapshots are. [Table::eq: exact]
        ensures { IsTrue result ↔ (self.now ≡ other.now) }
    {
        self.tests_same(other)
    }

    #[tactic(auto, unfolding(crate::specs::Equality::same_snapshot))]
    fn tests_same_snapshot(&self, other: &Table) -> bool
        ensures { result ≡ meant.same_snapshot self.now other.now }
    {
        self.has_same_table(other)
    }
}

impl PartialEq for Table {
    ghost eq = { meant.same_snapshot };

    ghost laws = { same_snapshot-laws };

    /// Whether both have the same snapshot. Their settings may differ; `is_same` compares them too.
    fn eq(&self, other: &Table) -> bool
        ensures same { result ≡ meant.same_snapshot self.now other.now }
        ensures exact { IsTrue result ↔ (self.now.table ≡ other.now.table) }
    {
        self.tests_same_snapshot(other)
    }
}
