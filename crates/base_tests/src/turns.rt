//! Two threads over one lock, and passes that split and meet, over a small value of the tests' own.
ghost use Rattle.std.specs.Prelude.{◌≡◌, [], ◌∷◌, ◌++◌, Some, IfSome, slice_get};
ghost use Rattle.grow_lock.specs.Journal.{StartsWith};
ghost use Rattle.grow_lock.specs.Passes.{IsPassOf};
ghost use Rattle.grow_lock.specs.Shares.{HoldsShare};

use grow_lock::{GrowLock, Grows, Pass};
use std::process::Abort;
use std::sync::Wait;
use std::test::*;
use std::thread;

const OWNER: u64 = 7;

const TURNS: u64 = 1_000;

/// A number that never changes, and numbers that are appended.
#[derive(Drop)]
struct Log {
    owner: u64,
    lines: Vec<u64>,
}

impl Grows for Log {
    type Head = u64;

    type Entry = u64;

    ghost head = { λ log. log.owner };

    ghost list = { λ log. log.lines.items };

    fn ready(&self) -> u64 {
        self.lines.len() as u64
    }
}

/// Appends one entry in a turn of its own. Where there was memory for it, it is at the length that the turn found.
fn append<R: Wait>(
    rt: &R,
    lock: &GrowLock<Log>,
    pass: Pass<Log>,
    line: u64,
) -> (Pass<Log>, Option<u64>)
    requires { IsPassOf lock.now pass }
    ensures lock { IsPassOf lock.now result.0 }
    ensures share { result.0.share ≡ pass.share }
    ensures grows { StartsWith result.0.seen pass.seen }
    ensures place { IfSome result.1 (λ place. (slice_get result.0.seen place ≡ Some line) × (result.0.found ≡ pass.found ++ place ∷ []) × (result.0.mine ≡ pass.mine ++ place ∷ [])) }
{
    let mut turn = lock.enter(rt, pass);
    let log = turn.value();
    let place = log.ready();
    let appended = log.lines.push(line).is_ok();
    let pass = lock.leave(turn);
    (pass, if appended { Some(place) } else { None })
}

/// Appends so many entries, each in a turn of its own.
fn append_in_turns<R: Wait>(
    rt: &R,
    lock: &GrowLock<Log>,
    mut pass: Pass<Log>,
    turns: u64,
) -> Pass<Log>
    requires { IsPassOf lock.now pass }
    ensures { IsPassOf lock.now result × (result.share ≡ pass.share) }
{
    for line in 0..turns {
        (pass, _) = append(rt, lock, pass, line);
    }
    pass
}

#[test]
fn two_threads_append_a_thousand_entries_each(rt: HostRuntime) -> Result<(), Fail> {
    let log = Log {
        owner: OWNER,
        lines: Vec::new(rt.alloc()),
    };
    let (lock, mut first) = GrowLock::new(rt.alloc(), log)?;
    let second = lock.split(&mut first);
    let (first, second) = thread::join(
        &rt,
        || -> Pass<Log>
            requires { IsPassOf lock first }
            ensures { IsPassOf lock result × (result.share ≡ first.share) }
        { append_in_turns(&rt, &lock, first, TURNS) },
        || -> Pass<Log>
            requires { IsPassOf lock second }
            ensures { IsPassOf lock result × (result.share ≡ second.share) }
        { append_in_turns(&rt, &lock, second, TURNS) },
    );
    let both = lock.meet(second, first);
    assert_eq!(rt; both.seen(), 2 * TURNS);
    let log = lock.close(&rt, both);
    assert_eq!(rt; log.lines.len(), 2_000);
    assert_eq!(rt; log.owner, OWNER);
    Ok(())
}

/// Asserts how many entries a pass has seen.
fn has_seen(rt: &impl Abort, pass: &Pass<Log>, wanted: u64) {
    assert_eq!(rt; pass.seen(), wanted);
}

/// Enters, and asserts that there is an entry.
fn find_an_entry<R: Abort + Wait>(rt: &R, lock: &GrowLock<Log>, pass: Pass<Log>) -> Pass<Log>
    requires { IsPassOf lock.now pass }
    ensures { IsPassOf lock.now result × (result.share ≡ pass.share) }
{
    let mut turn = lock.enter(rt, pass);
    assert!(rt; turn.value().lines.len() >= 1);
    lock.leave(turn)
}

/// Appends an entry with the first pass, finds it with the second, and has the two meet.
fn append_find_and_meet<R: Abort + Wait>(
    rt: &R,
    lock: &GrowLock<Log>,
    mut first: Pass<Log>,
) -> Pass<Log>
    requires { IsPassOf lock.now first }
    ensures { IsPassOf lock.now result × HoldsShare result.share first.share }
{
    let second = lock.split(&mut first);
    has_seen(rt, &first, 0);
    has_seen(rt, &second, 0);

    let (first, place) = append(rt, lock, first, 1);
    assert_eq!(rt; place, Some(0));
    has_seen(rt, &first, 1);
    has_seen(rt, &second, 0);

    let second = find_an_entry(rt, lock, second);
    let both = lock.meet(first, second);
    assert!(rt; both.seen() >= 1);
    both
}

#[test]
fn a_pass_finds_what_another_appended_and_the_two_meet(rt: HostRuntime) -> Result<(), Fail> {
    let log = Log {
        owner: OWNER,
        lines: Vec::new(rt.alloc()),
    };
    let (lock, first) = GrowLock::new(rt.alloc(), log)?;
    let both = append_find_and_meet(&rt, &lock, first);
    let log = lock.close(&rt, both);
    assert_eq!(rt; log.lines.as_slice(), [1].as_slice());
    Ok(())
}

#[test]
fn a_lock_round_entries_has_them_seen_from_the_start(rt: HostRuntime) -> Result<(), Fail> {
    let log = Log {
        owner: OWNER,
        lines: vec![in rt.alloc(); 5u64; 3]?,
    };
    let (lock, first) = GrowLock::new(rt.alloc(), log)?;
    assert_eq!(rt; first.seen(), 3);
    let (first, place) = append(&rt, &lock, first, 9);
    assert_eq!(rt; place, Some(3));
    assert_eq!(rt; first.seen(), 4);
    let log = lock.close(&rt, first);
    assert_eq!(rt; log.lines.as_slice(), [5, 5, 5, 9].as_slice());
    Ok(())
}
