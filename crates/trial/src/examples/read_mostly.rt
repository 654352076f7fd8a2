//! A tree of one owner under a lock: one thread writes, and others read beside it. It has no journal, no guards and no workers,
//! and one thread writes at a time.

use congee::{Congee, OOMError};
use crossbeam_utils::sync::ShardedLock;
use std::alloc::Global;
use std::sync::{Mutex, Wait};
use std::thread::{Threads, join};

/// Doubles under their keys, of one owner.
pub type Doubles = Congee<u64, u64>;

/// The same for threads that mostly read: readers at different shards don't wait for each other. A writer waits for all of
/// them, and they for it.
pub type Sharded = ShardedLock<Doubles, Global>;

/// What a reader saw of the keys below a bound.
#[derive(Clone, Copy, Debug, PartialEq, Eq)]
pub struct Seen {
    /// How many stood.
    pub stood: u64,
    /// Whether each of them had its double.
    pub doubled: bool,
}

/// Puts its double at each key below a bound, one key a hold of the lock.
pub fn put<R: Wait>(rt: &R, doubles: &Sharded, keys: u64) -> Result<(), OOMError> {
    for key in 0..keys {
        doubles.write(rt).insert(key, key.wrapping_mul(2))?;
    }
    Ok(())
}

/// Looks each key below a bound up, one key a hold of the reader's shard.
pub fn look<R: Wait>(rt: &R, doubles: &Sharded, shard: usize, keys: u64) -> Seen {
    let mut seen = Seen {
        stood: 0,
        doubled: true,
    };
    for key in 0..keys {
        let found = doubles.read(rt, shard).get(&key);
        if let Some(value) = found {
            seen.stood = seen.stood.saturating_add(1);
            seen.doubled = seen.doubled && value == key.wrapping_mul(2);
        }
    }
    seen
}

/// One thread writes while two read, each at a shard of its own.
pub fn reads_beside_a_writer<R: Threads + Wait + Sync>(
    rt: &R,
    doubles: &Sharded,
    keys: u64,
) -> Result<(Seen, Seen), OOMError> {
    let (written, seen) = join(
        rt,
        move || put(rt, doubles, keys),
        move || {
            join(
                rt,
                move || look(rt, doubles, 0, keys),
                move || look(rt, doubles, 1, keys),
            )
        },
    );
    written?;
    Ok(seen)
}

/// Puts its double at each key of a range, one key a hold of a plain lock: for threads that mostly write.
pub fn put_one_by_one<R: Wait>(
    rt: &R,
    doubles: &Mutex<Doubles>,
    from: u64,
    to: u64,
) -> Result<(), OOMError> {
    for key in from..to {
        doubles.lock(rt).insert(key, key.wrapping_mul(2))?;
    }
    Ok(())
}

/// Two threads write under a plain lock, each the keys of its half.
pub fn writes_in_two_threads<R: Threads + Wait + Sync>(
    rt: &R,
    doubles: &Mutex<Doubles>,
    half: u32,
) -> Result<(), OOMError> {
    let half = u64::from(half);
    let (one, two) = join(
        rt,
        move || put_one_by_one(rt, doubles, 0, half),
        move || put_one_by_one(rt, doubles, half, half.saturating_mul(2)),
    );
    one?;
    two
}
