//! What a seat at the lock's table knows. No value of these types is made.
ghost use base.Fml.{ftrue};
ghost use Rattle.grow_lock.specs.Shares.{Share, share_coded};

use std::collections::LinkedList;
use std::marker::Model;

/// How far a seat's turn has come.
pub enum Stage<E> {
    /// It is not in turn.
    Out,
    /// It is in turn, with a value that has this list.
    Taken(LinkedList<E>),
    /// It has read the length of that list too.
    Measured(LinkedList<E>),
    /// It has published the length of a longer list.
    Published,
    /// It is not in turn, and another seat was joined to it: what each of the two had seen, and the places that each had added.
    Joined(LinkedList<E>, LinkedList<E>, LinkedList<u64>, LinkedList<u64>),
}

/// The part of the lock that a seat has, as a share. It has no bytes.
#[derive(Drop)]
pub struct Part {
    pub ghost share: { Share } by { share_coded },
}

impl Model for Part {
    ghost also_owns = { λ _. ftrue };
}

/// The lock's head, the list as far as the seat has seen it, the lengths that its turns found, the places of the
/// entries that its turns added, and the part of the lock that is its own. A seat that was joined to another has no head and no part.
pub struct Notes<H, E> {
    pub head: Option<H>,
    pub stage: Stage<E>,
    pub seen: LinkedList<E>,
    pub found: LinkedList<u64>,
    pub mine: LinkedList<u64>,
    pub part: Part,
}
