//! A book behind its lock, and its end.
ghost use Rattle.std.specs.Prelude.{◌≡◌, ◌≤◌, ◌++◌, ℕ, length, take, Some, IfSome};
ghost use Rattle.edge_io.specs.declared.sink.Wrote.TheVariants.{All};
ghost use Rattle.grow_lock.specs.Journal.{StartsWith};
ghost use Rattle.grow_lock.specs.Passes.{IsPassOf};
ghost use Rattle.grow_lock.specs.Shares.{both};
ghost use Rattle.record_rules.specs.Tables.{record_bytes};
ghost use Rattle.journal_book.specs.Books.{IsBehind};
ghost use Rattle.journal_book.specs.Keeping.{TellsFront, IsSafe, HasEnded};

use crate::book::Book;
use crate::keeping::{keep, keep_to_end};
use edge_io::{Store, Wrote};
use grow_lock::{GrowLock, Pass};
use session_core::Session;
use std::alloc::Global;
use std::sync::Wait;

/// Has the first entries kept, as many as `number` says at least, in a turn of the book, and answers as `keep`. Who has seen
/// that they are kept enters nothing. The disk's wait is within the book's turn and outside the session's.
pub fn keep_up<K: Store + Drop, R: Wait>(
    rt: &R,
    alloc: Global,
    books: &GrowLock<Book<K>>,
    place: Pass<Book<K>>,
    lock: &GrowLock<Session>,
    number: u64,
) -> (Pass<Book<K>>, Wrote)
    requires place { IsPassOf books.now place }
    requires behind { IsBehind lock.now books.now.head }
    ensures place { IsPassOf books.now result.0 }
    ensures seen { StartsWith result.0.seen place.seen }
    ensures share { result.0.share ≡ place.share }
    ensures kept { result.1 ≡ All → number ≤ length result.0.seen }
    ensures at_once { number ≤ length place.seen → (result.0 ≡ place) × (result.1 ≡ All) }
{
    if place.seen() >= number {
        return (place, Wrote::All);
    }
    let mut turn = books.enter(rt, place);
    let kept = keep(turn.value(), rt, alloc, lock, number);
    (books.leave(turn), kept)
}

/// Has all entries kept that the session's journal has when the book's turn looks, and answers as `keep_to_end`.
pub fn keep_all<K: Store + Drop, R: Wait>(
    rt: &R,
    alloc: Global,
    books: &GrowLock<Book<K>>,
    place: Pass<Book<K>>,
    lock: &GrowLock<Session>,
) -> (Pass<Book<K>>, Wrote)
    requires place { IsPassOf books.now place }
    requires behind { IsBehind lock.now books.now.head }
    ensures place { IsPassOf books.now result.0 }
    ensures seen { StartsWith result.0.seen place.seen }
    ensures share { result.0.share ≡ place.share }
{
    let mut turn = books.enter(rt, place);
    let kept = keep_to_end(turn.value(), rt, alloc, lock);
    (books.leave(turn), kept)
}

/// Ends a book, whoever else has a pass of its lock, and gives its store, the session's pass, which has met the book's,
/// and what the store answered last. What anybody was told is kept stands in the store, as the record of so many first
/// entries of the closing journal, and a crash leaves it there. Where no call of the store has failed, and the place had
/// seen all of that journal, the store keeps just the record of it.
pub fn end_book<K: Store + Drop, R: Wait>(
    rt: &R,
    books: GrowLock<Book<K>>,
    place: Pass<Book<K>>,
    lock: &GrowLock<Session>,
    main: Pass<Session>,
) -> (K, Pass<Session>, Wrote)
    requires place { IsPassOf books place }
    requires behind { IsBehind lock.now books.head }
    requires main { IsPassOf lock.now main }
    ensures main { IsPassOf lock.now result.1 }
    ensures seen { StartsWith result.1.seen main.seen }
    ensures mine { result.1.mine ≡ main.mine ++ books.head.mine }
    ensures share { result.1.share ≡ both main.share books.head.share }
    ensures ended { HasEnded K.Store books.head.first result.0 result.2 lock.now.head result.1.seen (length place.seen) }
    ensures kept { IfSome (K.kept books.head.first) (λ _. (n : ℕ) → n ≤ length place.seen
        → TellsFront (record_bytes lock.now.head (take n result.1.seen)) (K.kept result.0)) }
    ensures whole { IfSome (K.kept books.head.first) (λ _. result.2 ≡ All → length result.1.seen ≤ length place.seen
        → K.kept result.0 ≡ Some (record_bytes lock.now.head result.1.seen)) }
    ensures crash { IfSome (K.kept books.head.first) (λ _. (n : ℕ) → n ≤ length place.seen
        → IsSafe K.Store result.0 (record_bytes lock.now.head (take n result.1.seen))) }
{
    let book = books.into_value(rt, place);
    book.recall();
    let (store, own, wrote) = book.into_parts();
    (store, lock.meet(own, main), wrote)
}
