// Looking once a second at what a served disk rests on: its claim, its file, its flushes and the clock.
use crate::claiming::Watcher;
use crate::clock_look::ClockLook;
use crate::disk_look::DiskLook;
use crate::flush_look::{FlushLook, FlushSight};
use broker_commands::Address;
use broker_opening::ask_to_stop;
use disk_claim::Holding;
use port_meters::{Machine, Premises};
use std::alloc::{AllocError, AllocGlobal, Global};
use std::fs::File;
use std::io::Eprint;
use std::net::{IpAddr, Ipv4Addr, Ipv6Addr, SocketAddr, TcpListener};
use std::rt::Files;
use std::sync::{Arc, Condvar, Mutex, Wait};
use std::thread::JoinHandle;
use std::time::{Clock, Duration};
use std::{io, thread};

/// How long is waited between two looks, in seconds.
const PAUSE: u64 = 1;

/// That a lookout is to end, which it sleeps for.
#[derive(Drop)]
struct End {
    came: Mutex<bool>,
    comes: Condvar,
}

impl End {
    fn new(alloc: Global) -> Result<Arc<End>, AllocError> {
        let end = End {
            came: Mutex::new(false),
            comes: Condvar::new(),
        };
        Ok(Arc::new(alloc, end)?)
    }

    // Tells it to end.
    fn come<R: Wait>(&self, rt: &R) {
        *self.came.lock(rt) = true;
        self.comes.notify_one();
    }

    // Whether it is told to within a pause.
    fn came_within_pause<R: Wait + Clock>(&self, rt: &R) -> bool {
        let (came, _) = self.comes.wait_timeout_while(
            rt,
            self.came.lock(rt),
            Duration::from_secs(PAUSE),
            |came| !*came,
        );
        *came
    }
}

/// What is looked at once a second while a disk is served, and where it is told.
#[derive(Drop)]
pub(crate) struct Sights<R: Eprint + Clock + AllocGlobal + Copy + Drop> {
    /// The disk's claim, where it is claimed.
    pub(crate) claim: Option<Watcher<R>>,
    pub(crate) disk: DiskLook,
    /// The clock before the disk was opened.
    pub(crate) clock: Option<ClockLook>,
    pub(crate) premises: Arc<Premises>,
}

/// A thread that looks once a second, and asks the broker to stop that lost its claim or its disk.
#[derive(Drop)]
pub(crate) struct Lookout {
    thread: JoinHandle<DiskLook>,
    end: Arc<End>,
}

// The address at which this machine reaches the callers' port.
fn own_address(at: &Address<'_>) -> SocketAddr {
    let reach = match at.reach {
        IpAddr::V4(ip) if ip.is_unspecified() => IpAddr::V4(Ipv4Addr::LOCALHOST),
        IpAddr::V6(ip) if ip.is_unspecified() => IpAddr::V6(Ipv6Addr::LOCALHOST),
        reach => reach,
    };
    SocketAddr::new(reach, at.port)
}

// Whether an address is one of this machine's. One that has moved leads to another machine's broker, which is not to be stopped.
fn is_here<R: Machine>(rt: &R, ip: IpAddr) -> bool {
    TcpListener::bind(rt, SocketAddr::new(ip, 0)).is_ok()
}

// Tells a line, where there is memory for it.
fn tell<R: Machine>(rt: &R, premises: &Premises, line: Result<String, AllocError>) {
    premises.lines().tell_made(rt, line);
}

/// Where a broker serves, as its lookout asks it to stop and tells how it is saved.
#[derive(Drop)]
struct Post {
    port: SocketAddr,
    // What is told once the disk is gone.
    reach: IpAddr,
}

impl<R: Files<File = File> + Machine> Sights<R> {
    // Whether the claim is held, where there is one.
    fn has_claim(&mut self) -> bool {
        match &mut self.claim {
            Some(watch) => watch.look() == Holding::Held,
            None => true,
        }
    }

    // Looks at the flush that is under way, and tells of one that takes long.
    fn look_at_flush(&self, rt: &R, flush: &mut FlushLook) {
        let (path, before) = (self.disk.path(), flush.seconds());
        let seen = flush.look(self.disk.guard().call());
        let seconds = flush.seconds();
        self.premises.note_flush(seconds);
        match seen {
            FlushSight::Long => {
                let line = format!(in rt.alloc();
                    "disk hangs: a flush of {path} has been under way for {seconds} s"
                );
                tell(rt, &self.premises, line);
            }
            FlushSight::Ended => {
                let line = format!(in rt.alloc();
                    "disk goes on: a flush of {path} took some {before} s"
                );
                tell(rt, &self.premises, line);
            }
            FlushSight::Short | FlushSight::StillLong => {}
        }
    }

    // Whether all stands in the disk that was read and written. Who took it over may write there.
    fn is_as_written(&mut self, rt: &R) -> bool {
        if self.disk.is_as_written(rt) || !self.has_claim() {
            return true;
        }
        self.disk.note_overwritten();
        false
    }

    // Looks at the disk, its path and its bytes, and tells once that it is gone: whether it is there. Its bytes are not read where a flush
    // hangs, since a read may hang as well.
    fn look_at_disk(&mut self, rt: &R, flush: &FlushLook, post: &Post) -> bool {
        let was_there = !self.disk.guard().is_shut();
        let is_there = self.disk.look(rt) && (flush.is_same() || self.is_as_written(rt));
        if was_there && !is_there {
            let words = self.disk.words(rt, post.reach, post.port.port());
            tell(rt, &self.premises, words);
        }
        is_there
    }

    // Looks at the clock, and tells of a step since it was seen last.
    fn look_at_clock(&mut self, rt: &R) {
        let Some(now) = ClockLook::now(rt) else {
            return;
        };
        if let Some(earlier) = self.clock {
            if let Some(step) = now.step_since(&earlier) {
                self.premises.note_step(step);
                tell(rt, &self.premises, self.step_words(rt, step));
            }
        }
        self.clock = Some(now);
    }

    // For how many seconds the clock is held back from now on.
    fn held_for(&self, rt: &R) -> u64 {
        // What is noted of it is of its last look.
        let _ = self.premises.moment(rt);
        let left = self.premises.read().held_back.left;
        left.saturating_add(999) / 1000
    }

    // What is told of a step of the clock.
    fn step_words(&self, rt: &R, step: i64) -> Result<String, AllocError> {
        let alloc = rt.alloc();
        let seconds = Duration::from_millis(step.unsigned_abs()).as_secs();
        let grace = self.held_for(rt);
        if step < 0 {
            format!(in alloc;
                "the clock was set back by {seconds} s: until it has caught up nothing grows older and nothing is due"
            )
        } else if grace == 0 {
            format!(in alloc;
                "the clock was set ahead by {seconds} s: waits, ages and timeouts go by it"
            )
        } else {
            format!(in alloc;
                "the clock was set ahead by {seconds} s: waits, ages and timeouts go by it in {grace} s. If it is right, a restart believes it at once"
            )
        }
    }
}

// Looks until it is told to end, and then once more at the disk. Where the claim or the disk is lost, the broker is asked to stop each
// time: one try may fail.
fn look_out<R>(rt: R, mut sights: Sights<R>, end: Arc<End>, post: Post) -> DiskLook
where
    R: Files<File = File> + Machine,
{
    let mut flush = FlushLook::new();
    for _ in rt.forever() {
        let is_last = end.came_within_pause(&rt);
        let is_there = sights.look_at_disk(&rt, &flush, &post);
        if is_last {
            break;
        }
        sights.look_at_flush(&rt, &mut flush);
        sights.look_at_clock(&rt);
        if !(sights.has_claim() && is_there) && is_here(&rt, post.port.ip()) {
            let _ = ask_to_stop(&rt, post.port);
        }
    }
    let Sights { disk, .. } = sights;
    disk
}

impl Lookout {
    /// Starts one.
    pub(crate) fn start<R>(rt: R, sights: Sights<R>, at: &Address<'_>) -> io::Result<Lookout>
    where
        R: Files<File = File> + Machine,
        R::Dir: Send + 'static,
    {
        let end = End::new(rt.alloc())?;
        let theirs = Arc::try_clone(&end)?;
        let post = Post {
            port: own_address(at),
            reach: at.reach,
        };
        let thread = thread::spawn(&rt, move || look_out(rt, sights, theirs, post))?;
        Ok(Lookout { thread, end })
    }

    /// Ends it: the disk, as it was looked at last.
    pub(crate) fn end<R: Machine>(self, rt: &R) -> DiskLook {
        let Lookout { thread, end } = self;
        end.come(rt);
        thread.join(rt)
    }
}
