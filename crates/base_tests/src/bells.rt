//! Threads over one lock that sleep while they find nothing to do, over a small value of the tests' own.
ghost use Rattle.std.specs.Prelude.{◌≡◌, IfOk};
ghost use Rattle.grow_lock.specs.Journal.{StartsWith};
ghost use Rattle.grow_lock.specs.Passes.{IsPassOf};

use grow_lock::{GrowLock, Grows, OutOfMemory, Pass};
use std::alloc::Global;
use std::sync::Wait;
use std::sync::atomic::{AtomicBool, AtomicU64, Ordering};
use std::test::*;
use std::thread;
use std::time::{CpuClock, Duration};

/// How many entries each of two threads appends.
const ROUNDS: u64 = 5_000;

/// How many sleeps may end without news: a thread may sleep for its second while the other one has no processor.
const FEW_SLEEPS: u64 = 10;

/// How many seconds a thread is idle.
const IDLE_TIME: u64 = 2;

/// A sleep lasts a second at most, so an idle thread looks about three times in two seconds.
const FEW_LOOKS: u64 = 8;

/// The processor time, in milliseconds, that an idle thread may take.
const LITTLE_TIME: u128 = 100;

/// Numbers that are appended.
#[derive(Drop)]
struct Tally {
    lines: Vec<u64>,
}

impl Grows for Tally {
    type Head = u64;

    type Entry = u64;

    ghost head = { λ _. 0 };

    ghost list = { λ tally. tally.lines.items };

    fn ready(&self) -> u64 {
        self.lines.len() as u64
    }
}

impl Tally {
    /// Appends its length, where it is one that is wanted and there is memory.
    fn append_if(&mut self, wanted: bool)
        ensures { StartsWith self.new.lines.items self.old.lines.items }
    {
        if wanted {
            self.append();
        }
    }

    fn append(&mut self)
        ensures { StartsWith self.new.lines.items self.old.lines.items }
    {
        let line = self.ready();
        let _pushed = self.lines.push(line);
    }
}

/// A lock round no numbers, and its first pass.
fn lock_round_nothing(alloc: Global) -> Result<(GrowLock<Tally>, Pass<Tally>), OutOfMemory>
    ensures { IfOk result (λ made. IsPassOf made.0 made.1) }
{
    let lines = Vec::new(alloc);
    GrowLock::new(alloc, Tally { lines })
}

/// Appends in a turn of its own where the length that it finds is even (parity 0) or odd (parity 1) and there are still
/// entries to come, and gives that length.
fn append_after_the_other<R: Wait>(
    rt: &R,
    lock: &GrowLock<Tally>,
    pass: Pass<Tally>,
    parity: u64,
) -> (Pass<Tally>, u64)
    requires { IsPassOf lock.now pass }
    ensures { IsPassOf lock.now result.0 }
{
    let mut turn = lock.enter(rt, pass);
    let tally = turn.value();
    let found = tally.ready();
    tally.append_if(found < 2 * ROUNDS && found % 2 == parity);
    let pass = lock.leave(turn);
    (pass, found)
}

/// Appends after each entry of the other thread, until all are there, and sleeps while the next one is the other's.
/// Counts the sleeps that ended without news.
fn alternate<R: Wait>(
    rt: &R,
    lock: &GrowLock<Tally>,
    mut pass: Pass<Tally>,
    parity: u64,
    without_news: &AtomicU64,
) -> Pass<Tally>
    requires { IsPassOf lock.now pass }
    ensures { IsPassOf lock.now result }
{
    for _ in rt.forever() {
        let rings = lock.rings();
        let (next, found) = append_after_the_other(rt, lock, pass, parity);
        pass = next;
        if found >= 2 * ROUNDS {
            break;
        }
        if found % 2 != parity {
            lock.sleep(rt, rings);
            if lock.rings() == rings {
                without_news.fetch_add(1, Ordering::SeqCst);
            }
        }
    }
    pass
}

/// A wake-up that was lost would end a sleep without news, and each sleep but a last one has news to wait for.
#[test]
fn no_wake_up_is_lost(rt: HostRuntime) -> Result<(), Fail> {
    let (lock, mut first) = lock_round_nothing(rt.alloc())?;
    let second = lock.split(&mut first);
    let without_news = AtomicU64::new(0);
    let (first, second) = thread::join(
        &rt,
        || -> Pass<Tally>
            requires { IsPassOf lock first }
            ensures { IsPassOf lock result }
        { alternate(&rt, &lock, first, 0, &without_news) },
        || -> Pass<Tally>
            requires { IsPassOf lock second }
            ensures { IsPassOf lock result }
        { alternate(&rt, &lock, second, 1, &without_news) },
    );
    let both = lock.meet(second, first);
    assert_eq!(rt; both.seen(), 2 * ROUNDS);
    assert!(rt; without_news.load(Ordering::SeqCst) < FEW_SLEEPS);
    Ok(())
}

/// A look in a turn of its own, and the length that it found.
fn look<R: Wait>(rt: &R, lock: &GrowLock<Tally>, pass: Pass<Tally>) -> (Pass<Tally>, u64)
    requires { IsPassOf lock.now pass }
    ensures { IsPassOf lock.now result.0 }
{
    let mut turn = lock.enter(rt, pass);
    let found = turn.value().ready();
    let pass = lock.leave(turn);
    (pass, found)
}

/// Looks until the flag is set, sleeps after each look that finds nothing new, and counts its looks.
fn watch<R: Wait>(
    rt: &R,
    lock: &GrowLock<Tally>,
    mut pass: Pass<Tally>,
    flag: &AtomicBool,
    looks: &AtomicU64,
) -> Pass<Tally>
    requires { IsPassOf lock.now pass }
    ensures { IsPassOf lock.now result }
{
    let mut seen = 0;
    for _ in rt.forever() {
        let rings = lock.rings();
        if flag.load(Ordering::SeqCst) {
            break;
        }
        let (next, found) = look(rt, lock, pass);
        pass = next;
        looks.fetch_add(1, Ordering::SeqCst);
        if found == seen {
            lock.sleep(rt, rings);
        }
        seen = found;
    }
    pass
}

#[test]
fn who_is_idle_takes_no_processor(rt: HostRuntime) -> Result<(), Fail> {
    let (lock, first) = lock_round_nothing(rt.alloc())?;
    let looks = AtomicU64::new(0);
    let flag = AtomicBool::new(false);
    let before = rt.process_cpu_time()?;
    let _ = thread::join(
        &rt,
        || -> Pass<Tally>
            requires { IsPassOf lock first }
            ensures { IsPassOf lock result }
        { watch(&rt, &lock, first, &flag, &looks) },
        || {
            thread::sleep(&rt, Duration::from_secs(IDLE_TIME));
            flag.store(true, Ordering::SeqCst);
            lock.ring();
        },
    );
    let used = rt.process_cpu_time()?.saturating_sub(before);
    assert!(rt; used.as_millis() < LITTLE_TIME);
    assert!(rt; looks.load(Ordering::SeqCst) < FEW_LOOKS);
    Ok(())
}
