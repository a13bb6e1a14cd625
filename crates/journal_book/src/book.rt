//! The book.
ghost use Rattle.std.specs.Prelude.{◌≡◌, ◌≤◌, length, take, IfSome};
ghost use Rattle.edge_io.specs.Store.{IsSettled};
ghost use Rattle.grow_lock.specs.Passes.{IsPassOf};
ghost use Rattle.record_rules.specs.Tables.{record_bytes};
ghost use Rattle.journal_book.specs.Books.{entries_kept, head_by, head_of_book};
ghost use Rattle.journal_book.specs.Keeping.{IsKeeping};

use edge_io::{Store, Wrote};
use grow_lock::{GrowLock, Grows, Pass};
use session_core::{Entry, Session};
use std::marker::Model;
use std::snapshot::Snapshot;

/// A store, and the entries of a session's journal that it keeps. Contracts see the store as it is and as it was when the
/// book was made, the book's own pass of the session's lock, how many entries are kept, and what the store answered last:
/// once that isn't `All`, the store isn't called any more.
#[derive(Drop)]
pub struct Book<K: Store + Drop> {
    pub(crate) store: K,
    pub(crate) first: Snapshot<K>,
    // It is out while the session's turn lasts.
    pub(crate) pass: Option<Pass<Session>>,
    pub(crate) count: u64,
    pub(crate) wrote: Wrote,
}

impl<K: Store + Drop> Model for Book<K> {
    ghost use Rattle.std.specs.Coded.{codes};
    ghost use Rattle.grow_lock.specs.Shares.{share_coded};
    ghost use Rattle.journal_book.specs.Books.{BookModel, book_by};
    ghost use Rattle.journal_book.specs.Keeping.{IsInOrder};

    ghost Value = { BookModel K };

    ghost coded = { Prim.hlevel (codes, share_coded) };

    ghost view = { λ b. book_by b.store b.first.value b.pass b.count b.wrote };

    ghost invariant = { λ b. IsInOrder K.Store b.store b.first.value b.pass b.count b.wrote };
}

/// What of a book never changes: of which lock's journal it is, what of its pass stays, and the store as it was when the
/// book was made. No value of it is made.
pub struct Behind<K> {
    first: Snapshot<K>,
}

impl<K> Model for Behind<K> {
    ghost use Rattle.std.specs.Coded.{codes};
    ghost use Rattle.grow_lock.specs.Shares.{share_coded};
    ghost use Rattle.journal_book.specs.Books.{BookHead, head_by, no_pass};

    ghost Value = { BookHead K };

    ghost coded = { Prim.hlevel (codes, share_coded) };

    ghost view = { λ b. head_by b.first.value no_pass };
}

impl<K: Store + Drop> Grows for Book<K> {
    type Head = Behind<K>;

    type Entry = Entry;

    ghost head = { λ b. head_of_book b };

    ghost list = { λ b. entries_kept b };

    fn ready(&self) -> u64 {
        self.count
    }
}

impl<K: Store + Drop> Book<K> {
    /// A book over a store that keeps the record of the first entries, as many as `count` says, and of which a crash leaves
    /// nothing else.
    pub fn new(store: K, lock: &GrowLock<Session>, pass: Pass<Session>, count: u64) -> Book<K>
        requires pass { IsPassOf lock.now pass }
        requires count { count ≤ length pass.seen }
        requires kept { IfSome (K.kept store) (λ bytes. bytes ≡ record_bytes lock.now.head (take count pass.seen)) }
        requires settled { IsSettled (K.kept store) (K.may_leave store) }
        ensures { result ≡ record { store = store; first = store; pass = pass; count = count; wrote = Wrote.All } }
    {
        let first = Snapshot::of(&store);
        Book {
            store,
            first,
            pass: Some(pass),
            count,
            wrote: Wrote::All,
        }
    }

    /// The store, the book's pass, and what the store answered last.
    pub fn into_parts(self) -> (K, Pass<Session>, Wrote)
        ensures store { result.0 ≡ self.store }
        ensures pass { result.1 ≡ self.pass }
        ensures wrote { result.2 ≡ self.wrote }
    {
        let Book {
            store,
            first: _,
            pass,
            count: _,
            wrote,
        } = self;
        let Some(pass) = pass else { unreachable!() };
        (store, pass, wrote)
    }

    /// How many entries are kept.
    pub fn kept(&self) -> u64
        ensures { result ≡ self.now.count }
    {
        self.count
    }

    /// What holds of every book; it does nothing.
    pub fn recall(&self)
        ensures { IsKeeping K.Store self.now }
    {
        let _ = &self.count;
    }
}
