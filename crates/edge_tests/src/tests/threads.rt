// Threads that ask one office, with a committer on a thread of its own.
use crate::tests::disks::{DiskWatch, MOST_TURNS, NO_TROUBLE, Trouble};
use crate::tests::house::{Desks, House, NOW, Story, expect, invoke, tell};
use broker_core::DiskHalf;
use receipts::{Desk, FinishError, Mark, Office, UnlockedFailure};
use sector_disk::Disk;
use std::alloc::{AllocGlobal, Global};
use std::process::Abort;
use std::sync::ledger::Ledger;
use std::sync::{Arc, Wait};
use std::test::Fail;
use std::thread;
use std::thread::Threads;

/// How threads ask.
#[derive(Clone, Copy)]
pub struct Plan {
    // The committer commits where so many commands are pending,
    pending: usize,
    // and so often.
    commits: u64,
}

// Invokes, so that the event gets the n-th id: the slot, 0 where it is refused.
fn arrive<L: Ledger, R: Wait>(
    rt: &R,
    alloc: Global,
    office: &Office<L>,
    desk: &mut Desk<L>,
    n: u64,
) -> u64 {
    let Ok(call) = invoke(alloc) else {
        return 0;
    };
    match office.arrive(rt, desk, call, NOW, [0, n]).answer {
        Ok((_, slot)) => slot,
        Err(_) => 0,
    }
}

// The status of the reply of a slot, once it is told; 0 where it is not.
fn status_of<L: Ledger, R: Wait>(rt: &R, office: &Office<L>, desk: &mut Desk<L>, slot: u64) -> u16 {
    for _turn in 0..MOST_TURNS {
        let told = office.take(rt, desk, slot).answer;
        if let Some(released) = told {
            return released.into_reply().status;
        }
        thread::yield_now();
    }
    0
}

// Invokes and waits for the status.
fn ask<L: Ledger, R: Wait>(
    rt: &R,
    alloc: Global,
    office: &Office<L>,
    desk: Desk<L>,
    n: u64,
    watch: &DiskWatch,
) -> (Desk<L>, u16) {
    let mut desk = desk;
    let slot = arrive(rt, alloc, office, &mut desk, n);
    watch.note_answer();
    let status = status_of(rt, office, &mut desk, slot);
    (desk, status)
}

// A committer whose gate lets so many commits through, each where so many commands are pending.
fn commit_at<L: Ledger, D: Disk, R: Wait>(
    rt: &R,
    office: &Office<L>,
    desk: Desk<L>,
    half: DiskHalf<D>,
    plan: Plan,
) -> (Desk<L>, DiskHalf<D>) {
    let mut desk = desk;
    let mut half = half;
    let mut done = 0;
    for _turn in 0..MOST_TURNS {
        if done >= plan.commits {
            break;
        }
        if office.pending(rt).answer == plan.pending
            && office.commit(rt, &mut desk, &mut half).answer.is_ok()
        {
            done += 1;
        }
        thread::yield_now();
    }
    (desk, half)
}

// What the threads give back.
#[derive(Drop)]
struct Done<L: Ledger, D: Disk> {
    committer: (Desk<L>, DiskHalf<D>),
    first: (Desk<L>, u16),
    second: (Desk<L>, u16),
}

// Two threads invoke, each with a desk, beside a committer.
fn run<L, R, D>(
    rt: &R,
    office: &Office<L>,
    (one, half): (Desk<L>, DiskHalf<D>),
    (two, three): (Desk<L>, Desk<L>),
    watch: &DiskWatch,
    plan: Plan,
) -> Done<L, D>
where
    L: Ledger + Send + Sync,
    R: Threads + Wait + AllocGlobal + Sync,
    D: Disk + Drop + Send,
{
    let alloc = rt.alloc();
    let (committer, (first, second)) = thread::join(
        rt,
        || commit_at(rt, office, one, half, plan),
        || {
            thread::join(
                rt,
                || ask(rt, alloc, office, two, 1, watch),
                || {
                    watch.wait_for_barrier();
                    ask(rt, alloc, office, three, 2, watch)
                },
            )
        },
    );
    Done {
        committer,
        first,
        second,
    }
}

// Closes an office to which a desk is missing: what is handed back, where it is refused.
fn close_too_early<L: Ledger, D: Disk + Drop>(
    office: Office<L>,
    desks: Vec<Desk<L>>,
    half: DiskHalf<D>,
) -> Option<UnlockedFailure<D, L>> {
    match office.finish(desks, half) {
        Ok(_) => None,
        Err(refused) => Some(refused),
    }
}

// Closes it with its last desk, too: the marks.
fn close_at_last<L: Ledger, D: Disk + Drop>(
    refused: UnlockedFailure<D, L>,
    last: Desk<L>,
) -> Option<Vec<Mark>> {
    let UnlockedFailure {
        office,
        mut desks,
        disk,
        ..
    } = refused;
    let _ = desks.push(last);
    match office.finish(desks, disk) {
        Ok((_, marks)) => Some(marks),
        Err(_) => None,
    }
}

// Closes an office without its last desk, which is refused, and then with all: whether the numbers of its marks are 1 and 2.
fn close<L: Ledger, R: Abort, D: Disk + Drop>(
    rt: &R,
    office: Office<L>,
    desks: Vec<Desk<L>>,
    half: DiskHalf<D>,
    last: Desk<L>,
) -> bool {
    let Some(refused) = close_too_early(office, desks, half) else {
        return false;
    };
    let is_missed = refused.cause == FinishError::Mismatch;
    expect(rt, is_missed, "a missing desk is missed");
    match close_at_last(refused, last) {
        Some(marks) => marks.iter().map(|mark| mark.number).eq([1, 2]),
        None => false,
    }
}

/// Two threads are told of their invokes, and the office is closed behind that: whether it was.
pub fn ask_in_threads<L, R, D>(rt: R, house: House<L, D>, watch: &DiskWatch, plan: Plan) -> bool
where
    L: Ledger + Send + Sync,
    R: Abort + Threads + Wait + AllocGlobal + Copy + Sync,
    D: Disk + Drop + Send,
{
    let House {
        office,
        desks,
        half,
        ..
    } = house;
    let Desks {
        one,
        two,
        three,
        others,
    } = desks;
    let Done {
        committer: (one, half),
        first: (two, first),
        second: (three, second),
    } = run(&rt, &office, (one, half), (two, three), watch, plan);
    expect(
        &rt,
        (first, second) == (202, 202),
        "both invokes are told 202",
    );
    let mut desks = others;
    let _ = desks.push(one);
    let _ = desks.push(two);
    close(&rt, office, desks, half, three)
}

// One barrier is the opening's, and two are those of the commit.
#[test]
fn two_invokes_share_a_commit(rt: HostRuntime) -> Result<(), Fail> {
    let watch = Arc::new(rt.alloc(), DiskWatch::new(NO_TROUBLE))?;
    let plan = Plan {
        pending: 2,
        commits: 1,
    };
    tell(rt, &watch, Story::Threads(plan))?;
    assert_eq!(rt; watch.barriers(), 3);
    Ok(())
}

// The second barrier of the first commit waits until the second invoke was answered.
#[test]
fn an_invoke_beside_a_write_is_told_by_the_next_commit(rt: HostRuntime) -> Result<(), Fail> {
    let trouble = Trouble {
        fault: 0,
        barrier: 3,
        answers: 2,
    };
    let watch = Arc::new(rt.alloc(), DiskWatch::new(trouble))?;
    let plan = Plan {
        pending: 1,
        commits: 2,
    };
    tell(rt, &watch, Story::Threads(plan))?;
    assert!(rt; !watch.is_late(), "the second invoke waited for the write");
    assert_eq!(rt; watch.barriers(), 5);
    Ok(())
}
