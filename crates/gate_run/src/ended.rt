//! Which links' work has ended: a chain of their numbers, on which each is put once and looked at once.
ghost use Rattle.std.specs.Prelude.{◌≡◌, ◌<◌, IfOk, vec_len};

use crate::OutOfMemory;
use std::alloc::Global;
use std::sync::Wait;
use std::sync::atomic::{AtomicUsize, Ordering};
use std::thread::Parker;

/// No number, behind the last one of a chain.
const NONE: usize = usize::MAX;

/// The chain of numbers that weren't looked at yet: its first, and behind each number the one that was put there before it; and how many were
/// ever put there. No clause knows what it holds.
#[derive(Drop)]
pub struct Ended {
    first: AtomicUsize,
    behind: Vec<AtomicUsize>,
    count: AtomicUsize,
    news: Parker,
}

impl Ended {
    /// An empty chain, with room for numbers below a count.
    pub fn new(alloc: Global, count: u16) -> Result<Ended, OutOfMemory>
        ensures { IfOk result (λ ended. vec_len ended.behind ≡ count) }
    {
        let mut behind = Vec::with_capacity(alloc, usize::from(count))?;
        for _ in 0..count {
            behind.push_reserved(AtomicUsize::new(NONE));
        }
        Ok(Ended {
            first: AtomicUsize::new(NONE),
            behind,
            count: AtomicUsize::new(0),
            news: Parker::new(),
        })
    }

    /// Puts a number on the chain, at its front.
    pub fn put<R: Wait>(&self, rt: &R, number: usize)
        requires { number < vec_len self.now.behind }
    {
        for _ in rt.forever() {
            let first = self.first.load(Ordering::SeqCst);
            self.behind[number].store(first, Ordering::SeqCst);
            if self
                .first
                .compare_exchange(first, number, Ordering::SeqCst, Ordering::SeqCst)
                .is_ok()
            {
                self.count.fetch_add(1, Ordering::SeqCst);
                self.news.unpark();
                return;
            }
        }
        unreachable!()
    }

    /// How many numbers were ever put on the chain.
    pub fn count(&self) -> usize {
        self.count.load(Ordering::SeqCst)
    }

    /// Sleeps until so many numbers were ever put on the chain. One thread at a time may wait.
    pub fn wait_for<R: Wait>(&self, rt: &R, count: usize) {
        for _ in rt.forever() {
            if self.count() >= count {
                return;
            }
            self.news.park(rt);
        }
        unreachable!()
    }

    /// Takes the whole chain off, and gives its first number, or one past all where it is empty.
    pub fn take(&self) -> usize {
        self.first.swap(NONE, Ordering::SeqCst)
    }

    /// The number behind one of a chain that was taken off, or one past all.
    pub fn after(&self, number: usize) -> usize
        requires { number < vec_len self.now.behind }
    {
        self.behind[number].load(Ordering::SeqCst)
    }
}
