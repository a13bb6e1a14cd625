//! The table beneath the lock, and the rule that each of its steps keeps.
//!
//! | part | what it holds |
//! |---|---|
//! | word 0, `TURN` | 1 while a pass is in turn, else 0 |
//! | word 1, `LENGTH` | the length of the journal, which is the list that was published last |
//! | slot 0, `VALUE` | the value in a box, while no pass is in turn |
use crate::grows::Grows;
use crate::notes::Notes;
use atomic_table::{Seat, TableRule};
use std::marker::PhantomData;
use std::snapshot::Snapshot;

/// The word that says whether a pass is in turn.
pub const TURN: usize = 0;

/// The word that has the length of the journal.
pub const LENGTH: usize = 1;

/// The slot of the value.
pub const VALUE: usize = 0;

/// The word `TURN` while no pass is in turn.
pub const FREE: u64 = 0;

/// The word `TURN` while a pass is in turn.
pub const TAKEN: u64 = 1;

/// The rule of the lock's table, whose key is the value that the lock was made with.
pub struct LockRule<T> {
    value: PhantomData<T>,
}

impl<T: Grows> TableRule<Option<Box<T>>, Notes<T::Head, T::Entry>, Snapshot<T>> for LockRule<T> {
    ghost use Rattle.std.specs.Prelude.{Some};
    ghost use Rattle.grow_lock.specs.Boxed.{boxed};
    ghost use Rattle.grow_lock.specs.Notes.{fresh_notes};
    ghost use Rattle.grow_lock.specs.Shares.{whole};
    ghost use Rattle.grow_lock.specs.Rule.{IsKept};

    ghost holds = { λ key. IsKept (boxed T.head) (boxed T.list) (T.head key.value) (T.list key.value) };

    ghost first = { λ key. fresh_notes (Some (T.head key.value)) (T.list key.value) whole };
}

/// A seat at the lock's table.
pub type Place<T> = Seat<Option<Box<T>>, Notes<<T as Grows>::Head, <T as Grows>::Entry>>;
