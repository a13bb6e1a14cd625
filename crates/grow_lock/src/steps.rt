//! The kinds of atomic step that the lock takes at its table, and what each tells the pass that takes it.
//!
//! | kind | step | where | what changes for the seat |
//! |---|---|---|---|
//! | 1 | `TakeTurn` | word `TURN`, compare and exchange from 0 to 1 | it is in turn and holds the slot; nothing, where it found 1 |
//! | 2 | `ReadLength` | word `LENGTH`, load | the length joins `found` |
//! | 2 | `ReadJoined`, the same load after a join | word `LENGTH`, load | what holds of the two seats that were joined |
//! | 3 | `exchange`, of the table | slot `VALUE` | nothing: the value's box moves out |
//! | 4 | `PublishLength` | word `LENGTH`, store | `seen` and `mine` |
//! | 5 | `exchange`, of the table | slot `VALUE` | nothing: the value's box moves home |
//! | 6 | `FreeTurn` | word `TURN`, store of 0 | it is out of turn, and gives the slot back |
//! | 7 | `SplitSeat` | loads word `TURN` | each has half the share, the new seat the same `seen` |
//! | 8 | `JoinSeat` | loads word `TURN` | one seat has the lists and shares of both, the other is spent |
ghost use Rattle.grow_lock.specs.Boxed.{boxed};
ghost use Rattle.grow_lock.specs.Notes.{kept_notes, split_notes, joined_notes, spent_notes};
ghost use Rattle.grow_lock.specs.Steps.{TakesTurn, ReadsLength, PublishesLength, FreesTurn, ReadsJoined};

use crate::grows::Grows;
use crate::notes::Notes;
use atomic_table::{Join, Play, Split};

/// Kind 1: a free turn is taken, and the slot with it.
pub struct TakeTurn;

impl<T: Grows> Play<Option<Box<T>>, Notes<T::Head, T::Entry>> for TakeTurn {
    ghost then = { TakesTurn (boxed T.head) (boxed T.list) };
}

/// Kind 2: the seat in turn reads the length of the journal.
pub struct ReadLength;

impl<T: Grows> Play<Option<Box<T>>, Notes<T::Head, T::Entry>> for ReadLength {
    ghost then = { ReadsLength };
}

/// Kind 2 after a join: what the rule has for the two seats that are one now.
pub struct ReadJoined;

impl<T: Grows> Play<Option<Box<T>>, Notes<T::Head, T::Entry>> for ReadJoined {
    ghost then = { ReadsJoined };
}

/// Kind 4: the seat in turn publishes the length of its value's list.
pub struct PublishLength;

impl<T: Grows> Play<Option<Box<T>>, Notes<T::Head, T::Entry>> for PublishLength {
    ghost then = { PublishesLength (boxed T.list) };
}

/// Kind 6: the turn is free again, and the slot is back.
pub struct FreeTurn;

impl<T: Grows> Play<Option<Box<T>>, Notes<T::Head, T::Entry>> for FreeTurn {
    ghost then = { FreesTurn };
}

/// Kind 7: a further seat has seen the same, and half the share.
pub struct SplitSeat;

impl<H, E> Split<Notes<H, E>> for SplitSeat {
    ghost left = { kept_notes };

    ghost right = { split_notes };
}

/// Kind 8: a seat takes in another.
pub struct JoinSeat;

impl<H, E> Join<Notes<H, E>> for JoinSeat {
    ghost both = { joined_notes };

    ghost spent = { spent_notes };
}
