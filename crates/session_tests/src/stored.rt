//! A session that is kept by a store which crashes, and what is found in it again.
ghost use Rattle.std.specs.Prelude.{◌≡◌, true, IfOk};
ghost use Rattle.grow_lock.specs.Journal.{StartsWith};
ghost use Rattle.grow_lock.specs.Passes.{IsPassOf};
ghost use Rattle.session_core.specs.Heads.{rows_of};
ghost use Rattle.session_core.specs.SessionModel.{AreInvited};
ghost use Rattle.record_rules.specs.Tables.{record_bytes, is_recordable_head};
ghost use Rattle.journal_book.specs.Books.{IsBehind};

use crate::turns::click;
use edge_io::{Crash, PlanStore, Wrote};
use grow_lock::{GrowLock, Pass};
use info_lic::Name;
use journal_book::{Book, end_book, keep_all, keep_up};
use px_core::Size;
use record_file::{Replay, write_head};
use session_core::{Invite, OutOfMemory, Role, Session};
use std::alloc::Global;
use std::process::Abort;
use std::sync::Wait;
use std::test::Fail;

const SIZE: Size = Size { w: 64, h: 48 };

/// How many steps a run has.
const STEPS: u32 = 4;

/// More calls of `append` than a run makes,
const APPENDS: u64 = 8;

/// and more bytes than any of them has.
const BYTES: usize = 40;

/// What a run left: what stands in its store, and how many entries it was told to be kept.
#[derive(Drop)]
struct Left {
    bytes: Vec<u8>,
    told: u64,
}

/// Ann alone is invited.
fn one_row() -> [Invite; 1]
    ensures recordable { is_recordable_head (record { size = record { w = 64; h = 48 }; rows = rows_of result }) ≡ true }
    ensures invited { AreInvited (rows_of result) }
{
    [Invite {
        name: Name::new(b"ann"),
        role: Role::Owner,
    }]
}

/// A session without an entry, and its record.
fn begin(alloc: Global) -> Result<(Vec<u8>, Session), OutOfMemory>
    ensures { IfOk result (λ begun. begun.0.items ≡ record_bytes begun.1.head begun.1.journal) }
{
    let rows = one_row();
    let mut bytes = Vec::new(alloc);
    write_head(&mut bytes, SIZE, &rows)?;
    let session = Session::new(alloc, SIZE, &rows)?;
    Ok((bytes, session))
}

/// Ann comes, if she isn't there.
fn come_here(session: &mut Session)
    ensures head { session.new.head ≡ session.old.head }
    ensures journal { StartsWith session.new.journal session.old.journal }
{
    if !session.present(1) {
        let _ = session.join(&Name::new(b"ann"));
    }
}

/// Ann comes in a turn, and clicks in the next one.
fn step<R: Wait>(rt: &R, lock: &GrowLock<Session>, pass: Pass<Session>) -> Pass<Session>
    requires { IsPassOf lock.now pass }
    ensures { IsPassOf lock.now result }
{
    let mut turn = lock.enter(rt, pass);
    come_here(turn.value());
    let pass = lock.leave(turn);
    click(rt, lock, pass)
}

/// After each of some steps all is to be kept; gives how many entries were told to be kept last, of so many at first.
fn keep_steps<R: Wait>(
    rt: &R,
    alloc: Global,
    books: &GrowLock<Book<PlanStore>>,
    place: Pass<Book<PlanStore>>,
    lock: &GrowLock<Session>,
    pass: Pass<Session>,
    count: u64,
) -> (Pass<Book<PlanStore>>, Pass<Session>, u64)
    requires place { IsPassOf books.now place }
    requires behind { IsBehind lock.now books.now.head }
    requires pass { IsPassOf lock.now pass }
    ensures place { IsPassOf books.now result.0 }
    ensures pass { IsPassOf lock.now result.1 }
{
    let mut place = place;
    let mut pass = pass;
    let mut told = count;
    for _ in 0..STEPS {
        pass = step(rt, lock, pass);
        let (next, wrote) = keep_up(rt, alloc, books, place, lock, pass.seen());
        place = next;
        if wrote == Wrote::All {
            told = pass.seen();
        }
    }
    (place, pass, told)
}

/// A session goes on some steps over a store that keeps it.
fn go_on<R: Wait>(
    rt: &R,
    alloc: Global,
    store: PlanStore,
    session: Session,
) -> Result<Left, OutOfMemory>
    requires { store.kept ≡ record_bytes session.head session.journal }
{
    let count = session.length();
    let (lock, mut pass) = GrowLock::new(alloc, session)?;
    let own = lock.split(&mut pass);
    let book = Book::new(store, &lock, own, count);
    let (books, place) = GrowLock::new(alloc, book)?;
    let (place, pass, told) = keep_steps(rt, alloc, &books, place, &lock, pass, count);
    let (place, _) = keep_all(rt, alloc, &books, place, &lock);
    let (store, _, _) = end_book(rt, books, place, &lock, pass);
    Ok(Left {
        bytes: copied(alloc, store.bytes())?,
        told,
    })
}

fn copied(alloc: Global, bytes: &[u8]) -> Result<Vec<u8>, OutOfMemory> {
    let mut copy = Vec::new(alloc);
    copy.extend_from_slice(bytes)?;
    Ok(copy)
}

/// A run over a store that crashes.
fn run<R: Wait>(rt: &R, alloc: Global, crash: Crash) -> Result<Left, OutOfMemory> {
    let (bytes, session) = begin(alloc)?;
    let store = PlanStore::new(alloc, bytes, Vec::new(alloc), Some(crash));
    go_on(rt, alloc, store, session)
}

/// How many entries these bytes are the record of, and less than one more; none where they aren't one.
fn found(alloc: Global, bytes: &[u8]) -> Option<u64> {
    let mut replay = Replay::new(alloc, u64::MAX).ok()?;
    replay.feed(bytes).ok()?;
    match replay.missing() {
        Some(_) => None,
        None => Some(replay.length()),
    }
}

/// What a run over a store that crashes was told to be kept is found again.
fn must_find(rt: &(impl Abort + Wait), alloc: Global, crash: Crash) -> Result<(), OutOfMemory> {
    let left = run(rt, alloc, crash)?;
    must_reach(rt, found(alloc, &left.bytes), left.told);
    Ok(())
}

/// So many entries at least were found.
fn must_reach(rt: &impl Abort, found: Option<u64>, told: u64) {
    assert!(rt; found.is_some_and(|number| number >= told));
}

#[test]
fn what_was_told_to_be_kept_is_found_again(rt: HostRuntime) -> Result<(), Fail> {
    for append in 0..APPENDS {
        for bytes in 0..BYTES {
            must_find(
                &rt,
                rt.alloc(),
                Crash {
                    append: append + 1,
                    bytes,
                },
            )?;
        }
    }
    Ok(())
}
