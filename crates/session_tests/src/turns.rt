//! Two threads that share one session by its lock.
ghost use Rattle.std.specs.Prelude.{◌≡◌};
ghost use Rattle.grow_lock.specs.Journal.{StartsWith};
ghost use Rattle.grow_lock.specs.Passes.{IsPassOf};

use crate::room::{CLICK, must_count, must_show, with_two};
use grow_lock::{GrowLock, Pass};
use session_core::Session;
use std::sync::Wait;
use std::test::Fail;
use std::thread;

const TURNS: u32 = 500;

/// Viewer 1 clicks, where it is present.
fn click_here(session: &mut Session)
    ensures head { session.new.head ≡ session.old.head }
    ensures journal { StartsWith session.new.journal session.old.journal }
{
    if session.present(1) {
        let _ = session.input(1, CLICK);
    }
}

/// Clicks in a turn of its own.
pub fn click<R: Wait>(rt: &R, lock: &GrowLock<Session>, pass: Pass<Session>) -> Pass<Session>
    requires { IsPassOf lock.now pass }
    ensures { IsPassOf lock.now result × (result.share ≡ pass.share) }
{
    let mut turn = lock.enter(rt, pass);
    click_here(turn.value());
    lock.leave(turn)
}

/// Clicks so many times, each in a turn of its own.
fn click_in_turns<R: Wait>(
    rt: &R,
    lock: &GrowLock<Session>,
    mut pass: Pass<Session>,
    turns: u32,
) -> Pass<Session>
    requires { IsPassOf lock.now pass }
    ensures { IsPassOf lock.now result × (result.share ≡ pass.share) }
{
    for _ in 0..turns {
        pass = click(rt, lock, pass);
    }
    pass
}

#[test]
fn two_threads_click_in_turns(rt: HostRuntime) -> Result<(), Fail> {
    let session = with_two(&rt, rt.alloc())?;
    let (lock, mut first) = GrowLock::new(rt.alloc(), session)?;
    let second = lock.split(&mut first);
    let (first, second) = thread::join(
        &rt,
        || -> Pass<Session>
            requires { IsPassOf lock first }
            ensures { IsPassOf lock result × (result.share ≡ first.share) }
        { click_in_turns(&rt, &lock, first, TURNS) },
        || -> Pass<Session>
            requires { IsPassOf lock second }
            ensures { IsPassOf lock result × (result.share ≡ second.share) }
        { click_in_turns(&rt, &lock, second, TURNS) },
    );
    let both = lock.meet(second, first);
    assert_eq!(rt; both.seen(), 1_002);
    let session = lock.close(&rt, both);
    must_count(&rt, &session, 1_002);
    must_show(&rt, &session, 20, 20, 0xFFFFFF);
    Ok(())
}
