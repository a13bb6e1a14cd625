//! The lock's bell: threads that find nothing to do sleep until it rings. No clause rests on it.

use std::sync::Wait;
use std::sync::atomic::{AtomicU64, Ordering};
use std::time::Duration;

/// The longest sleep, in seconds: after it a thread looks again, whether or not the bell has rung (profile).
const LONGEST_SLEEP: u64 = 1;

/// The half of the count of rings that the system compares before it puts a thread to sleep.
const LOW_HALF: u64 = 0xffff_ffff;

/// How often a bell has rung, and how many threads sleep by it or are about to.
#[derive(Drop)]
pub struct Bell {
    rings: AtomicU64,
    sleepers: AtomicU64,
}

impl Bell {
    /// A bell that has never rung.
    pub fn new() -> Bell {
        Bell {
            rings: AtomicU64::new(0),
            sleepers: AtomicU64::new(0),
        }
    }

    /// How often it has rung. Read it before the look at what may have happened.
    pub fn rings(&self) -> u64 {
        self.rings.load(Ordering::SeqCst)
    }

    /// Rings, after something has happened: whoever sleeps wakes, and whoever has read `rings` before doesn't sleep.
    pub fn ring(&self) {
        self.rings.fetch_add(1, Ordering::SeqCst);
        if self.sleepers.load(Ordering::SeqCst) != 0 {
            self.rings.wake_all();
        }
    }

    /// Sleeps until the bell has rung more often than this. It may return before.
    pub fn sleep<R: Wait>(&self, rt: &R, rings: u64) {
        self.sleepers.fetch_add(1, Ordering::SeqCst);
        if self.rings() == rings {
            let low = (rings & LOW_HALF) as u32;
            self.rings
                .park_timeout(rt, low, Duration::from_secs(LONGEST_SLEEP));
        }
        self.sleepers.fetch_sub(1, Ordering::SeqCst);
    }
}
