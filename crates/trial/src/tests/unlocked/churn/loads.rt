//! Work in which keys come and go for as long as it lasts, with as many standing all the while, so that it wants no more words the
//! longer it goes on. It stops where there is no room for a key.

use optimistic::{Pair, U64Congee, Worker};
use std::alloc::{AllocError, Global};
use std::sync::Wait;
use std::sync::atomic::AtomicU64;
use std::sync::atomic::Ordering::SeqCst;
use std::thread::{Threads, map_indices, yield_now};

/// What the threads do.
#[derive(Clone, Copy, Drop)]
pub enum Load {
    /// Every second one appends a key, the others take the oldest out. One alone does both.
    Queue,
    /// Each puts a key in or takes one out, at random.
    Window,
    /// Each takes the oldest key out and appends one, by a worker that goes after a thousand calls.
    Shifts,
    /// Each takes out the first key, and puts one in somewhere behind it: a wheel of timers.
    Wheel,
    /// Each puts keys of its own in, and takes all out again, in one order and another.
    Tides,
    /// The same of every second one, beside others that scan.
    Scans,
    /// Each takes keys out that stand, in the order of this number.
    Ebb(u64),
}

/// Where a key lies beside those of the numbers next to its own.
#[derive(Clone, Copy, Drop)]
pub enum Layout {
    /// Side by side.
    Dense,
    /// Anywhere.
    Scattered,
    /// By twos, each two in a node of their own.
    Twos,
    /// By fives, four of them in a node, which with the fifth has one of its own.
    Fives,
}

/// How much is to be done, on which keys.
#[derive(Clone, Copy, Drop)]
pub struct Churn {
    pub load: Load,
    pub layout: Layout,
    /// About how many keys stand.
    pub window: u64,
    /// How many threads there are.
    pub threads: u64,
    /// How many calls they make together.
    pub calls: u64,
}

/// What came of it.
#[derive(Clone, Copy, Drop)]
pub struct Tally {
    /// How many calls were made, but for those again that waited for another.
    pub calls: u64,
    /// How many keys came in beside those that went out.
    pub standing: u64,
    /// Whether a key found no room.
    pub is_full: bool,
}

/// What the threads share: what is to be done; the next number to be put in, and to be taken out; and whether all are to stop.
#[derive(Drop)]
struct Job {
    churn: Churn,
    put: AtomicU64,
    taken: AtomicU64,
    stopped: AtomicU64,
}

/// How many steps a worker of a shift makes, of two calls each.
const SHIFT: u64 = 500;

/// No place that two others part from one another by as many.
const APART: u64 = 7_919;

/// How far a timer may lie behind the first one, where it lies anywhere.
const FAR: u64 = 1 << 40;

/// A number that tells nothing of this one.
pub fn mixed(number: u64) -> u64 {
    let a = number.wrapping_mul(0x9e37_79b9_7f4a_7c15);
    let b = (a ^ a >> 30).wrapping_mul(0xbf58_476d_1ce4_e5b9);
    let c = (b ^ b >> 27).wrapping_mul(0x94d0_49bb_1331_11eb);
    c ^ c >> 31
}

/// The key of a number.
pub fn key_of(layout: Layout, number: u64) -> u64 {
    match layout {
        Layout::Dense => number,
        Layout::Scattered => mixed(number),
        Layout::Twos => (number / 2).wrapping_mul(256) ^ number % 2,
        Layout::Fives => {
            let at = if number % 5 == 4 {
                1 << 31
            } else {
                number % 5 << 16
            };
            (number / 5).wrapping_mul(1 << 40) ^ at
        }
    }
}

impl Job {
    fn is_stopped(&self) -> bool {
        self.stopped.load(SeqCst) != 0
    }

    fn stop(&self) {
        self.stopped.store(1, SeqCst);
    }

    /// The key of a number.
    fn key(&self, number: u64) -> u64 {
        key_of(self.churn.layout, number)
    }

    /// How many of the keys that stand are one thread's, or one fewer.
    fn own(&self) -> u64 {
        self.churn.window.div_ceil(self.churn.threads.max(1))
    }

    /// One of those.
    fn own_key(&self, thread: u64, place: u64) -> u64 {
        self.key(place.wrapping_mul(self.churn.threads).wrapping_add(thread))
    }
}

/// Puts a key in. Whether it came in, or found no room: then all threads stop.
fn puts<R: Wait>(rt: &R, worker: &mut Worker, job: &Job, tally: &mut Tally, key: u64) -> bool {
    tally.calls = tally.calls.wrapping_add(1);
    match worker.insert(rt, key, key) {
        Ok(None) => {
            tally.standing = tally.standing.wrapping_add(1);
            true
        }
        Ok(Some(_)) => false,
        Err(_) => {
            job.stop();
            true
        }
    }
}

/// Takes a key out. Whether it stood.
fn takes<R: Wait>(rt: &R, worker: &mut Worker, tally: &mut Tally, key: u64) -> bool {
    tally.calls = tally.calls.wrapping_add(1);
    let stood = matches!(worker.remove(rt, key), Ok(Some(_)));
    if stood {
        tally.standing = tally.standing.wrapping_sub(1);
    }
    stood
}

/// Takes out a key that some thread puts in, once it stands.
fn awaits<R: Wait>(rt: &R, worker: &mut Worker, job: &Job, tally: &mut Tally, key: u64) {
    for _ in rt.forever() {
        if takes(rt, worker, tally, key) || job.is_stopped() {
            return;
        }
        tally.calls = tally.calls.wrapping_sub(1);
        yield_now();
    }
}

/// Puts the next key in, once fewer stand than are to.
fn appends<R: Wait>(rt: &R, worker: &mut Worker, job: &Job, tally: &mut Tally) {
    let number = job.put.fetch_add(1, SeqCst);
    for _ in rt.forever() {
        let end = job.taken.load(SeqCst).wrapping_add(job.churn.window);
        if number < end || job.is_stopped() {
            break;
        }
        yield_now();
    }
    puts(rt, worker, job, tally, job.key(number));
}

/// Takes the oldest key out.
fn follows<R: Wait>(rt: &R, worker: &mut Worker, job: &Job, tally: &mut Tally) {
    let number = job.taken.fetch_add(1, SeqCst);
    awaits(rt, worker, job, tally, job.key(number));
}

/// Takes the oldest key out, if as many stand as are to, and puts the next one in.
fn goes_on<R: Wait>(rt: &R, worker: &mut Worker, job: &Job, tally: &mut Tally) {
    let number = job.put.fetch_add(1, SeqCst);
    if let Some(oldest) = number.checked_sub(job.churn.window) {
        awaits(rt, worker, job, tally, job.key(oldest));
    }
    puts(rt, worker, job, tally, job.key(number));
}

/// Puts a drawn key in or takes it out.
fn wanders<R: Wait>(rt: &R, worker: &mut Worker, job: &Job, tally: &mut Tally, drawn: u64) {
    let twice = job.churn.window.saturating_mul(2).max(1);
    let key = job.key(drawn / 2 % twice);
    if drawn % 2 == 0 {
        puts(rt, worker, job, tally, key);
    } else {
        takes(rt, worker, tally, key);
    }
}

/// Sets a timer so far behind this one as was drawn, or at the next place that is free.
fn sets<R: Wait>(rt: &R, worker: &mut Worker, job: &Job, tally: &mut Tally, now: u64, drawn: u64) {
    let far = match job.churn.layout {
        Layout::Dense => job.churn.window.saturating_mul(4).max(1),
        _ => FAR,
    };
    let mut key = now.wrapping_add(1 + drawn % far);
    for _ in rt.forever() {
        if puts(rt, worker, job, tally, key) {
            return;
        }
        key = key.wrapping_add(1);
    }
}

/// Takes the first timer out, and sets another.
fn turns<R: Wait>(rt: &R, worker: &mut Worker, job: &Job, tally: &mut Tally, drawn: u64) {
    tally.calls = tally.calls.wrapping_add(1);
    if let Some(first) = worker.first(rt) {
        if takes(rt, worker, tally, first.key) {
            sets(rt, worker, job, tally, first.key, drawn);
        }
    }
}

/// Takes the keys of one thread out: from the first one on, or from the last one, or in another order.
fn ebbs<R: Wait>(
    rt: &R,
    worker: &mut Worker,
    job: &Job,
    tally: &mut Tally,
    thread: u64,
    turn: u64,
) {
    let own = job.own();
    for place in 0..own {
        let at = match turn % 3 {
            0 => place,
            1 => own - 1 - place,
            _ => place.wrapping_mul(APART) % own,
        };
        takes(rt, worker, tally, job.own_key(thread, at));
    }
}

/// Puts the keys of one thread in, and takes them out.
fn tides<R: Wait>(
    rt: &R,
    worker: &mut Worker,
    job: &Job,
    tally: &mut Tally,
    thread: u64,
    turn: u64,
) {
    for place in 0..job.own() {
        puts(rt, worker, job, tally, job.own_key(thread, place));
    }
    ebbs(rt, worker, job, tally, thread, turn);
}

/// Scans all pairs, some of them at one moment, and looks for the first one and the last.
fn scans<R: Wait>(rt: &R, alloc: Global, worker: &mut Worker, tally: &mut Tally, drawn: u64) {
    let mut out = [Pair { key: 0, value: 0 }; 64];
    worker.len(rt);
    worker.range(rt, drawn % (1 << 20), u64::MAX, &mut out);
    let _ = worker.range_at_once(rt, alloc, 0, u64::MAX, &mut out);
    worker.first(rt);
    worker.last(rt);
    tally.calls = tally.calls.wrapping_add(5);
}

/// A thread's step of this number.
fn step<R: Wait>(
    rt: &R,
    alloc: Global,
    worker: &mut Worker,
    job: &Job,
    tally: &mut Tally,
    thread: u64,
    turn: u64,
) {
    let drawn = mixed(thread << 48 ^ turn);
    match (job.churn.load, job.churn.threads > 1, thread % 2 == 0) {
        (Load::Queue, true, true) => appends(rt, worker, job, tally),
        (Load::Queue, true, false) => follows(rt, worker, job, tally),
        (Load::Queue, false, _) => goes_on(rt, worker, job, tally),
        (Load::Shifts, _, _) => goes_on(rt, worker, job, tally),
        (Load::Window, _, _) => wanders(rt, worker, job, tally, drawn),
        (Load::Wheel, _, _) => turns(rt, worker, job, tally, drawn),
        (Load::Scans, _, false) => scans(rt, alloc, worker, tally, drawn),
        (Load::Ebb(order), _, _) => ebbs(rt, worker, job, tally, thread, order),
        _ => tides(rt, worker, job, tally, thread, turn),
    }
}

/// How many steps a thread makes. Those that append to a queue make as many more as are to stand.
fn steps(job: &Job, thread: u64) -> u64 {
    let each = job.churn.calls / job.churn.threads.max(1);
    match job.churn.load {
        Load::Queue if job.churn.threads < 2 => each / 2,
        Load::Queue if thread % 2 == 0 => each.saturating_add(job.own().saturating_mul(2)),
        Load::Queue | Load::Window => each,
        Load::Shifts => each / 2,
        Load::Wheel => each / 3,
        Load::Scans if thread % 2 == 1 => each / 16,
        Load::Tides | Load::Scans => each / job.own().saturating_mul(2).max(1),
        Load::Ebb(_) => 1,
    }
}

/// A thread's steps; first it sets its timers.
fn part<R: Wait>(
    rt: &R,
    alloc: Global,
    index: &U64Congee,
    job: &Job,
    thread: u64,
) -> Result<Tally, AllocError> {
    let mut tally = Tally {
        calls: 0,
        standing: 0,
        is_full: false,
    };
    let mut worker = index.worker(alloc)?;
    if matches!(job.churn.load, Load::Wheel) {
        for place in 0..job.own() {
            sets(rt, &mut worker, job, &mut tally, 0, mixed(place));
        }
    }
    for turn in 0..steps(job, thread) {
        if job.is_stopped() {
            break;
        }
        if turn % SHIFT == SHIFT - 1 && matches!(job.churn.load, Load::Shifts) {
            drop(worker);
            worker = index.worker(alloc)?;
        }
        step(rt, alloc, &mut worker, job, &mut tally, thread, turn);
    }
    drop(worker);
    Ok(tally)
}

/// The same. Where it has no memory all threads stop.
fn part_or_stop<R: Wait>(
    rt: &R,
    alloc: Global,
    index: &U64Congee,
    job: &Job,
    thread: u64,
) -> Result<Tally, AllocError> {
    let told = part(rt, alloc, index, job, thread);
    if told.is_err() {
        job.stop();
    }
    told
}

/// The steps of all threads, each with a worker of its own.
pub fn churned<R: Threads + Wait + Sync>(
    rt: &R,
    alloc: Global,
    index: &U64Congee,
    churn: Churn,
) -> Result<Tally, AllocError> {
    let job = Job {
        churn,
        put: AtomicU64::new(0),
        taken: AtomicU64::new(0),
        stopped: AtomicU64::new(0),
    };
    let all = &job;
    let work = move |thread: usize| part_or_stop(rt, alloc, index, all, thread as u64);
    let parts = map_indices(rt, alloc, churn.threads.clamp(1, 64) as usize, &work)?;
    let mut sum = Tally {
        calls: 0,
        standing: 0,
        is_full: job.is_stopped(),
    };
    for part in parts {
        let part = part?;
        sum.calls = sum.calls.wrapping_add(part.calls);
        sum.standing = sum.standing.wrapping_add(part.standing);
    }
    Ok(sum)
}
