//! The open links of a gate, and how it ends one whose client isn't ready.
use crate::stage::milliseconds;
use libc::net as c;
use std::alloc::Global;
use std::collections::VecDeque;
use std::net::TcpStream;
use std::os::fd::AsRawFd;
use std::sync::Arc;
use std::sync::atomic::{AtomicUsize, Ordering};
use std::thread;
use std::time::{Clock, Duration};

/// The gate may end the link: its client isn't ready, or it is being closed.
const FREE: usize = 0;

/// The gate may not.
const KEPT: usize = 1;

/// It does so at this moment.
const ENDING: usize = 2;

/// It has done so.
const ENDED: usize = 3;

/// How many milliseconds a client has to become ready before it may have to go for another one (profile),
const LEAST_TIME: u64 = 1_000;

/// how many milliseconds pass between two looks whether somebody had them or left,
const LOOK: u64 = 50;

/// and how many looks there are at most: twice as many as a client has time.
const MOST_LOOKS: u64 = 2 * LEAST_TIME / LOOK;

/// What a gate and the reader of one of its links both know of it: the number of the reader's descriptor, which is its own while the
/// gate may end it, when it came, and whether the gate may.
#[derive(Drop)]
struct Known {
    descriptor: i32,
    since: u64,
    state: AtomicUsize,
}

/// An open link, as its gate knows it.
#[derive(Drop)]
struct Given {
    known: Arc<Known, Global>,
}

impl Given {
    fn is_closed(&self) -> bool {
        Arc::strong_count(&self.known) == 1
    }

    /// How many milliseconds ago it came.
    fn age(&self, now: u64) -> u64 {
        now.saturating_sub(self.known.since)
    }

    /// Ends the reading, unless the gate may not; whether it did. A read that waits ends at once.
    fn end(&self) -> bool {
        let begun = self
            .known
            .state
            .compare_exchange(FREE, ENDING, Ordering::SeqCst, Ordering::SeqCst);
        if begun.is_err() {
            return false;
        }
        c::shutdown(self.known.descriptor, c::SHUT_RD);
        self.known.state.store(ENDED, Ordering::SeqCst);
        true
    }
}

/// An open link, as its reader knows it. From when this is dropped on its descriptor isn't the gate's any more.
pub struct Share {
    known: Arc<Known, Global>,
}

impl Drop for Share {
    fn drop(self) {
        self.keep();
        let Share { known: _ } = self;
    }
}

impl Share {
    /// From now on the gate may not end the link. It waits while the gate does so at this moment.
    pub fn keep(&self) {
        for _ in 0..u64::MAX {
            let kept = self
                .known
                .state
                .compare_exchange(FREE, KEPT, Ordering::SeqCst, Ordering::SeqCst);
            if kept != Err(ENDING) {
                return;
            }
            thread::yield_now();
        }
    }

    /// From now on the gate may end the link, since it is being closed.
    pub fn free(&self) {
        let _ = self
            .known
            .state
            .compare_exchange(KEPT, FREE, Ordering::SeqCst, Ordering::SeqCst);
    }

    /// Whether the gate has ended the link.
    pub fn is_ended(&self) -> bool {
        self.known.state.load(Ordering::SeqCst) >= ENDING
    }
}

/// The links that a gate gave and that aren't closed, the oldest first. A link for which memory was wanting isn't among them.
#[derive(Drop)]
pub struct Open {
    alloc: Global,
    links: VecDeque<Given>,
}

impl Open {
    pub fn new(alloc: Global) -> Open {
        Open {
            alloc,
            links: VecDeque::new(alloc),
        }
    }

    /// Adds a link with this handle of its reader, and gives its share; None where memory is wanting. Those that were closed are forgotten.
    pub fn add(&mut self, stream: &TcpStream) -> Option<Share> {
        self.links.retain(|link| !link.is_closed());
        let known = Known {
            descriptor: stream.as_raw_fd(),
            since: milliseconds(),
            state: AtomicUsize::new(FREE),
        };
        let known = Arc::new(self.alloc, known).ok()?;
        let share = Share {
            known: Arc::try_clone(&known).ok()?,
        };
        self.links.push_back(Given { known }).ok()?;
        Some(share)
    }

    /// Whether any of the links is open.
    pub fn has_any(&self) -> bool {
        self.links.iter().any(|link| !link.is_closed())
    }

    /// Ends the oldest link that the gate may end and that has had its time; whether there was one.
    pub fn end_oldest(&self) -> bool {
        self.end_oldest_of(self.links.len())
    }

    /// The same of so many links, the oldest ones.
    fn end_oldest_of(&self, count: usize) -> bool {
        let now = milliseconds();
        self.links
            .iter()
            .take(count)
            .any(|link| link.age(now) >= LEAST_TIME && link.end())
    }

    /// Ends the oldest link that the gate may end, as soon as it has had its time, unless one was closed before. The last one isn't ended,
    /// since it is the one that waits.
    pub fn make_room<R: Clock>(&self, rt: &R) {
        let open = self.count();
        for _ in 0..MOST_LOOKS {
            if self.count() < open || self.end_oldest_of(self.links.len().saturating_sub(1)) {
                return;
            }
            thread::sleep(rt, Duration::from_millis(LOOK));
        }
    }

    fn count(&self) -> usize {
        self.links.iter().filter(|link| !link.is_closed()).count()
    }
}
