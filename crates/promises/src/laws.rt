// What follows from the definitions alone, for readers.
ghost use Rattle.std.specs.Prelude.{◌≡◌, ◌≤◌, [], ◌++◌, ◌⊎◌, ℕ, List, Some};
ghost use Rattle.retry_rules.specs.declared.settings.Settings.{Settings};
ghost use Rattle.invoke_records.specs.declared.command.Command.{Command};
ghost use Rattle.async_core.specs.History.{IsLegal, table_of};
ghost use Rattle.async_core.specs.declared.choice.Side.{Side};
ghost use Rattle.async_core.specs.Readers.{Ending};
ghost use Rattle.api_core.specs.declared.dialect.Audience.TheVariants.{Caller};
ghost use Rattle.api_core.specs.declared.refusal.Refusal.TheVariants.{Unavailable};
ghost use Rattle.api_core.specs.Replies.{Told, Words, accepted, accepted_async, async_body, record_of, refused, reply_in};
ghost use Rattle.broker_core.specs.History.{IsLegalStop};
ghost use Rattle.broker_core.specs.Broker.{disk_of, settings_of, durable_of, Stands};
ghost use Rattle.broker_core.specs.IssuerHalf.{half_view};
ghost use Rattle.broker_core.specs.Splitting.{broker_of};
ghost use Rattle.group_commit.specs.Migrating.{Migrates};
ghost use Rattle.disk_copy.specs.Limits.{AllowsAll};
ghost use Rattle.disk_copy.specs.Copying.{GoesOnWith};
ghost use Rattle.hall_core.specs.Hall.{view_of, settings_in, StandsFor, Gives};
ghost use Rattle.promises.specs.Promises.{Life, done, Telling, issued, WasAnswered202, WasShown, IsToldOfPrefix, GoesOn, IsKept, IsShown, IsShownFirst, FollowsRules, Leaves, LeavesEvent};
ghost use Rattle.promises.specs.Giving.{IsToldBy};
ghost use Rattle.promises.specs.Halves.{IsBehind};

use broker_core::{Broker, DiskHalf, IssueHalf, Issuer};
use hall_core::{Hall, Released};
use sector_disk::Disk;

/// What was answered 202 is kept: the event is in the table of each later history, with the payload that came with the
/// request, until a Collect of it. A stop leaves a later history, and so does each command.
pub fn what_was_answered_202_is_kept()
    // claim: A 202 of an invocation tells of a durable acceptance. Later histories, by commands and crashes, begin with
    // all up to it, and their tables have the event with its payload, until its Collect. [: answered, kept,
    // stopped; calls_and_stops_go_on: at_first, issued,
    // stopped; a_202_without_a_body_accepts; a_202_that_says_so_accepts; what_is_given_was_told]
    ensures answered { (s : Settings) (t : Telling s) (id : List ℕ) → (t.told ≡ accepted id) ⊎ (t.told ≡ accepted_async id)
        → (payload : List ℕ) × WasAnswered202 s t id payload }
    ensures kept { (s now : Settings) (t : Telling s) (id payload : List ℕ) (later : List Command) → WasAnswered202 s t id payload
        → GoesOn now t.point (issued s t) later → IsKept now t.point later id payload }
    ensures stopped { (s now : Settings) (t : Telling s) (id payload image : List ℕ) → WasAnswered202 s t id payload
        → Leaves now t.point (issued s t) image → LeavesEvent s now t id payload image }
{}

/// Whoever is told 202 without a body is told that an event was accepted.
pub fn a_202_without_a_body_accepts()
    ensures { (words : Words) (told : Told) → (reply_in words told).status ≡ 202 → (reply_in words told).body ≡ []
        → (id : List ℕ) × (told ≡ accepted id) }
{}

/// And so is whoever is told 202 with the body that says this status, which is how InvokeAsync tells it.
pub fn a_202_that_says_so_accepts()
    ensures { (words : Words) (told : Told) → (reply_in words told).status ≡ 202 → (reply_in words told).body ≡ async_body
        → (id : List ℕ) × (told ≡ accepted_async id) }
{}

/// Which histories are later: those to which commands were added, and those that a stop leaves that takes nothing durable.
/// So it stays over any number of calls, stops and openings.
pub fn calls_and_stops_go_on()
    ensures at_first { (s : Settings) (t : Telling s) → (t.told ≡ refused Caller Unavailable → ⊥)
        → GoesOn s t.point (issued s t) (issued s t) }
    ensures issued { (s : Settings) (point : ℕ) (history later more : List Command) → IsLegal s (later ++ more)
        → GoesOn s point history later → GoesOn s point history (later ++ more) }
    ensures stopped { (s : Settings) (point durable : ℕ) (history later : List Command) (image : List ℕ)
        → GoesOn s point history later → point ≤ durable → IsLegalStop s later durable image → Leaves s point history image }
{}

/// The disk of a broker keeps what was answered 202, wherever it stops: each image recovers to the table of a later history.
pub fn one_disk_keeps_it<D: Disk>(broker: &Broker<D>)
    // claim: Where a broker stands for a later history with the acceptance durable, each image of its disk recovers to
    // the table of one, with the event until its Collect. So with halves. [: leaves, keeps; the_halves_keep_it: leaves,
    // keeps]
    ensures leaves { (point : ℕ) (history later : List Command) (image : List ℕ) → GoesOn (settings_of broker.now) point history later
        → point ≤ durable_of broker.now → Stands D.view broker.now later → (D.view (disk_of broker.now)).honest
        → (D.view (disk_of broker.now)).may_leave image → Leaves (settings_of broker.now) point history image }
    ensures keeps { (s : Settings) (t : Telling s) (id payload image : List ℕ) (later : List Command)
        → WasAnswered202 s t id payload → GoesOn (settings_of broker.now) t.point (issued s t) later
        → t.point ≤ durable_of broker.now → Stands D.view broker.now later → (D.view (disk_of broker.now)).honest
        → (D.view (disk_of broker.now)).may_leave image → LeavesEvent s (settings_of broker.now) t id payload image }
{
    let _ = broker;
}

/// So does the disk of a half that has written as much: its history is the front of what the other half issued.
pub fn the_halves_keep_it<D: Disk>(issue: &IssueHalf, disk: &DiskHalf<D>)
    ensures leaves { (point : ℕ) (history later : List Command) (image : List ℕ)
        → GoesOn (half_view issue.now).settings point history later → point ≤ (half_view issue.now).durable
        → IsBehind D.view issue.now (broker_of disk.now) later → (D.view (disk_of (broker_of disk.now))).honest
        → (D.view (disk_of (broker_of disk.now))).may_leave image → Leaves (settings_of (broker_of disk.now)) point history image }
    ensures keeps { (s : Settings) (t : Telling s) (id payload image : List ℕ) (later : List Command)
        → WasAnswered202 s t id payload → GoesOn (half_view issue.now).settings t.point (issued s t) later
        → t.point ≤ (half_view issue.now).durable → IsBehind D.view issue.now (broker_of disk.now) later
        → (D.view (disk_of (broker_of disk.now))).honest → (D.view (disk_of (broker_of disk.now))).may_leave image
        → LeavesEvent s (settings_of (broker_of disk.now)) t id payload image }
{
    let _ = issue;
    let _ = disk;
}

/// A record that was shown is that of the history, durable, and stays the record of its event until a Collect of it.
pub fn a_record_that_was_shown_is_shown_again()
    // claim: A record that was told was its side's oldest by durable commands. It stays so in each later history, until
    // its Collect. [: shown, again; it_is_shown_to_who_asks_for_the_oldest]
    ensures shown { (s : Settings) (t : Telling s) (e : Ending) → t.told ≡ record_of e → (side : Side) × WasShown s t side e }
    ensures again { (s : Settings) (t : Telling s) (side : Side) (e : Ending) (later : List Command) → WasShown s t side e
        → GoesOn s t.point (issued s t) later → IsShown s t.point later e }
{}

/// And it stays what a request for the oldest record of its side is told.
pub fn it_is_shown_to_who_asks_for_the_oldest()
    ensures { (s : Settings) (t : Telling s) (side : Side) (e : Ending) (later : List Command) → WasShown s t side e
        → GoesOn s t.point (issued s t) later → IsShownFirst s t.point later side e }
{}

/// A reply shows nothing that a stop may take away: the first calls of the run computed it, which had issued just the first
/// commands of the history, and those are durable. In a broken hall it may be that the broker is not available.
pub fn no_stop_takes_away_what_was_told()
    // claim: What is told, but for 503, was computed when no more was issued than is durable now.
    ensures { (s : Settings) (t : Telling s) → IsToldOfPrefix s t ⊎ (t.told ≡ refused Caller Unavailable) }
{}

/// What a stop leaves follows the written rules: of each event where it stands, its acceptance, attempts and judge, its
/// record, and which event moves next, are those of the history that was left.
pub fn what_a_stop_leaves_follows_the_rules()
    // claim: The table of a legal history, such as a stop leaves, follows the rules: standings, acceptances, attempts,
    // policies, records, the next move.
    ensures rules { (s : Settings) (history : List Command) → IsLegal s history → FollowsRules s history (table_of s history) }
    ensures stopped { (s : Settings) (point : ℕ) (history : List Command) (image : List ℕ) (stop : Leaves s point history image)
        → FollowsRules s stop.after (table_of s stop.after) }
{}

/// A disk that was migrated or copied goes on with all of it: its images recover to a later history, and records stay under
/// the larger limits of a copy.
pub fn a_new_disk_goes_on<D: Disk, E: Disk>(old: &D, new: &E)
    // claim: Where a migrated disk has a later history's table, or a copied one goes on with that history, each image
    // recovers to such a table. [: migrated, copied]
    ensures migrated { (migration : Migrates (D.view old.now) (E.view new.now)) (point : ℕ) (history later : List Command) (image : List ℕ)
        → GoesOn migration.settings point history later → migration.table ≡ table_of migration.settings later
        → (E.view new.now).may_leave image → Leaves migration.settings point history image }
    ensures copied { (s now : Settings) (point : ℕ) (history later : List Command) (image : List ℕ)
        → GoesOnWith (E.view new.now) now later → GoesOn s point history later → (E.view new.now).may_leave image
        → Leaves now point history image }
    ensures tables { (s now : Settings) (history : List Command) → AllowsAll s now → table_of now history ≡ table_of s history }
{
    let _ = old;
    let _ = new;
}

/// What a take gave was told: the laws above are about it.
pub fn what_is_given_was_told<I: Issuer>(hall: &Hall<I>, given: &Released)
    ensures { (life : Life (settings_in (view_of I.view hall.now))) (slot : ℕ)
        → StandsFor (view_of I.view hall.now) (done (settings_in (view_of I.view hall.now)) life)
        → Gives (view_of I.view hall.now) slot (Some given.now)
        → IsToldBy (view_of I.view hall.now) life slot given.now }
{
    let _ = hall;
    let _ = given;
}
