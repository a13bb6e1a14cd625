//! Passes: the right to enter a lock, and what was seen of its list.
ghost use Rattle.std.specs.Prelude.{◌≡◌, length};

use crate::grows::Grows;
use crate::rule::Place;
use std::marker::Model;

/// The right to enter one lock. It may move to another thread. Contracts see its lock's head and three lists: `seen`,
/// the list as far as it has seen it; `found`, the lengths that its enters found; `mine`, the places of the entries
/// that were appended in its turns. They also see its `share`: which part of the lock it has, and no other pass.
#[derive(Drop)]
pub struct Pass<T: Grows> {
    pub(crate) seat: Place<T>,
    pub(crate) count: u64,
}

impl<T: Grows> Model for Pass<T> {
    ghost use Rattle.std.specs.Prelude.{◌≡◌, [], length};
    ghost use Rattle.std.specs.Coded.{codes};
    ghost use Rattle.grow_lock.specs.Passes.{PassModel, pass_of};
    ghost use Rattle.grow_lock.specs.Shares.{share_coded};
    ghost use Rattle.grow_lock.specs.declared.notes.Stage.TheVariants.{Out};

    ghost Value = { PassModel T.Head T.Entry };

    ghost coded = { Prim.hlevel (codes, share_coded) };

    ghost view = { λ p. pass_of p.seat.table_id p.seat.me.0 };

    ghost invariant = { λ p. (p.seat.me.1 ≡ []) × (p.seat.me.0.stage ≡ Out) × (p.count ≡ length p.seat.me.0.seen) };
}

impl<T: Grows> Pass<T> {
    /// How many entries it has seen.
    pub fn seen(&self) -> u64
        ensures { result ≡ length self.now.seen }
    {
        self.count
    }
}
