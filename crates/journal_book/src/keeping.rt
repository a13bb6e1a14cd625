//! Having entries kept.
ghost use Rattle.std.specs.Prelude.{◌≡◌, ◌≤◌, length};
ghost use Rattle.edge_io.specs.declared.sink.Wrote.TheVariants.{All, Failed};
ghost use Rattle.journal_book.specs.Books.{IsBehind, entries_kept, head_of_book};
ghost use Rattle.journal_book.specs.Keeping.{GoesOn, HasFailed};

use crate::book::Book;
use crate::piece::next_piece;
use edge_io::{Store, Wrote};
use grow_lock::{GrowLock, Grows};
use session_core::Session;
use std::alloc::Global;
use std::sync::Wait;

/// Has the first entries kept, as many as `number` says at least. `Failed` says that a call of the store has failed, now or
/// before, so that its count of faults rose since the book was made; `OutOfMemory` that memory was wanted, now or by the
/// store before. A crash at any moment leaves at least what was kept before the call, and from its end on what is kept
/// then. That a turn finds fewer entries than `number` doesn't happen where the number is a journal's length that
/// somebody saw; the proof can't know that, and the loop goes on then.
pub fn keep<K: Store + Drop, R: Wait>(
    book: &mut Book<K>,
    rt: &R,
    alloc: Global,
    lock: &GrowLock<Session>,
    number: u64,
) -> Wrote
    requires { IsBehind lock.now (head_of_book book.old) }
    ensures on { GoesOn K.Store lock.now.head book.old book.new }
    ensures failed { result ≡ Failed → HasFailed K.Store book.new }
    ensures kept { result ≡ All → number ≤ length (entries_kept book.new) }
{
    book.recall();
    for _ in rt.forever() {
        if book.ready() >= number {
            return Wrote::All;
        }
        match keep_next(book, rt, alloc, lock) {
            Wrote::All => {}
            Wrote::Failed => return Wrote::Failed,
            Wrote::OutOfMemory => return Wrote::OutOfMemory,
        }
    }
    unreachable!()
}

/// Has all entries kept that a turn of the session finds, until one finds no further entry. Its answers are those of `keep`.
pub fn keep_to_end<K: Store + Drop, R: Wait>(
    book: &mut Book<K>,
    rt: &R,
    alloc: Global,
    lock: &GrowLock<Session>,
) -> Wrote
    requires { IsBehind lock.now (head_of_book book.old) }
    ensures on { GoesOn K.Store lock.now.head book.old book.new }
    ensures failed { result ≡ Failed → HasFailed K.Store book.new }
    ensures all { result ≡ All → book.new.count ≡ length book.new.pass.seen }
{
    book.recall();
    for _ in rt.forever() {
        let before = book.kept();
        match keep_next(book, rt, alloc, lock) {
            Wrote::All => {}
            Wrote::Failed => return Wrote::Failed,
            Wrote::OutOfMemory => return Wrote::OutOfMemory,
        }
        if book.kept() == before {
            return Wrote::All;
        }
    }
    unreachable!()
}

/// Has the next piece kept, where there is one.
fn keep_next<K: Store + Drop, R: Wait>(
    book: &mut Book<K>,
    rt: &R,
    alloc: Global,
    lock: &GrowLock<Session>,
) -> Wrote
    requires { IsBehind lock.now (head_of_book book.old) }
    ensures on { GoesOn K.Store lock.now.head book.old book.new }
    ensures failed { result ≡ Failed → HasFailed K.Store book.new }
    ensures ends { result ≡ All → book.new.count ≡ book.old.count → book.new.count ≡ length book.new.pass.seen }
{
    match book.wrote {
        Wrote::All => {}
        Wrote::Failed => return Wrote::Failed,
        Wrote::OutOfMemory => return Wrote::OutOfMemory,
    }
    let Some(pass) = book.pass.take() else {
        unreachable!()
    };
    let (pass, piece) = next_piece(rt, alloc, lock, pass, book.count);
    book.pass = Some(pass);
    let Ok((to, bytes)) = piece else {
        return Wrote::OutOfMemory;
    };
    if to == book.count {
        return Wrote::All;
    }
    match book.store.append(&bytes) {
        Wrote::All => {
            book.count = to;
            Wrote::All
        }
        Wrote::Failed => {
            book.wrote = Wrote::Failed;
            Wrote::Failed
        }
        Wrote::OutOfMemory => {
            book.wrote = Wrote::OutOfMemory;
            Wrote::OutOfMemory
        }
    }
}
