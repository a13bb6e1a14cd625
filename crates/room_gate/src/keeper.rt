//! What each half of a link keeps entries by.
ghost use Rattle.std.specs.Prelude.{◌≡◌, ◌≤◌, length};
ghost use Rattle.edge_io.specs.declared.sink.Wrote.TheVariants.{All};
ghost use Rattle.grow_lock.specs.Passes.{IsPassOf};
ghost use Rattle.journal_book.specs.Books.{IsBehind};

use edge_io::{Store, Wrote};
use grow_lock::{GrowLock, Pass};
use journal_book::{Book, keep_all, keep_up};
use session_core::Session;
use std::alloc::Global;
use std::marker::Model;
use std::sync::Wait;

/// A pass of the lock of a session's book, with what it takes to have entries kept by it. Contracts see the book's lock, and how many first entries of
/// the session's journal the pass has seen to be kept.
#[derive(Drop)]
pub struct Keeper<'a, R: Wait, K: Store + Drop> {
    rt: &'a R,
    pub(crate) alloc: Global,
    books: &'a GrowLock<Book<K>>,
    lock: &'a GrowLock<Session>,
    // It is out while the book's turn lasts.
    place: Option<Pass<Book<K>>>,
}

impl<'a, R: Wait, K: Store + Drop> Model for Keeper<'a, R, K> {
    ghost use Rattle.std.specs.Coded.{codes};
    ghost use Rattle.grow_lock.specs.Shares.{share_coded};
    ghost use Rattle.room_gate.specs.Keepers.{KeeperModel, keeper_by, IsKeeper};

    ghost Value = { KeeperModel K };

    ghost coded = { Prim.hlevel (codes, share_coded) };

    ghost view = { λ k. keeper_by k.books.now k.place };

    ghost invariant = { λ k. IsKeeper k.books.now k.lock.now k.place };
}

impl<'a, R: Wait, K: Store + Drop> Keeper<'a, R, K> {
    /// A keeper by this pass.
    pub fn new(
        rt: &'a R,
        alloc: Global,
        books: &'a GrowLock<Book<K>>,
        lock: &'a GrowLock<Session>,
        place: Pass<Book<K>>,
    ) -> Keeper<'a, R, K>
        requires place { IsPassOf books.now place }
        requires behind { IsBehind lock.now books.now.head }
        ensures books { result.books ≡ books.now }
        ensures kept { result.kept ≡ length place.seen }
    {
        Keeper {
            rt,
            alloc,
            books,
            lock,
            place: Some(place),
        }
    }

    /// Has the first entries kept, as many as `number` says at least. Who has seen that they are waits for nothing.
    pub fn keep(&mut self, number: u64) -> Wrote
        ensures books { self.new.books ≡ self.old.books }
        ensures grows { self.old.kept ≤ self.new.kept }
        ensures kept { result ≡ All → number ≤ self.new.kept }
    {
        let Some(place) = self.place.take() else {
            unreachable!()
        };
        let (place, wrote) = keep_up(self.rt, self.alloc, self.books, place, self.lock, number);
        self.place = Some(place);
        wrote
    }

    /// Has all entries kept that the session's journal has when the book's turn looks.
    pub fn keep_all(&mut self) -> Wrote
        ensures books { self.new.books ≡ self.old.books }
        ensures grows { self.old.kept ≤ self.new.kept }
    {
        let Some(place) = self.place.take() else {
            unreachable!()
        };
        let (place, wrote) = keep_all(self.rt, self.alloc, self.books, place, self.lock);
        self.place = Some(place);
        wrote
    }

    /// A further keeper, which has seen the same.
    pub fn split(&mut self) -> Keeper<'a, R, K>
        ensures unchanged { self.new ≡ self.old }
        ensures same { result ≡ self.old }
    {
        let Some(mut place) = self.place.take() else {
            unreachable!()
        };
        let part = self.books.split(&mut place);
        self.place = Some(place);
        Keeper {
            rt: self.rt,
            alloc: self.alloc,
            books: self.books,
            lock: self.lock,
            place: Some(part),
        }
    }

    /// A keeper that has seen what both have, of one book.
    pub fn meet(self, other: Keeper<'a, R, K>) -> Keeper<'a, R, K>
        requires { other.books ≡ self.books }
        ensures books { result.books ≡ self.entry.books }
        ensures kept { (self.entry.kept ≤ result.kept) × (other.entry.kept ≤ result.kept) }
    {
        let from = other.into_place();
        let Keeper {
            rt,
            alloc,
            books,
            lock,
            place,
        } = self;
        let Some(into) = place else { unreachable!() };
        Keeper {
            rt,
            alloc,
            books,
            lock,
            place: Some(books.meet(from, into)),
        }
    }

    /// The pass.
    pub fn into_place(self) -> Pass<Book<K>>
        ensures place { IsPassOf self.entry.books result }
        ensures kept { length result.seen ≡ self.entry.kept }
    {
        let Keeper {
            rt: _,
            alloc: _,
            books: _,
            lock: _,
            place,
        } = self;
        let Some(place) = place else { unreachable!() };
        place
    }
}
