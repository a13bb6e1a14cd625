//! Turns: the time between `enter` and `leave`, in which a thread has the value alone.
ghost use Rattle.std.specs.Prelude.{◌≡◌};
ghost use Rattle.std.specs.Borrow.{sem};
ghost use Rattle.grow_lock.specs.Lending.{LendsValue};

use crate::grows::Grows;
use crate::rule::Place;
use std::marker::Model;

/// A turn at a lock, with its value. End it by `leave`: while a turn that was dropped instead is not ended, nobody can
/// enter. Contracts see the value, the list that `enter` found (`base`), and the pass that entered.
#[derive(Drop)]
#[must_use]
pub struct Turn<T: Grows> {
    pub(crate) value: Box<T>,
    pub(crate) seat: Place<T>,
}

impl<T: Grows> Model for Turn<T> {
    ghost use Rattle.std.specs.Prelude.{◌≡◌, [], ◌∷◌, None, box_value};
    ghost use Rattle.std.specs.Coded.{codes};
    ghost use Rattle.grow_lock.specs.Passes.{TurnModel, pass_of};
    ghost use Rattle.grow_lock.specs.Shares.{share_coded};
    ghost use Rattle.grow_lock.specs.Notes.{base_of};
    ghost use Rattle.grow_lock.specs.declared.notes.Stage.TheVariants.{Measured};

    ghost Value = { TurnModel T T.Head T.Entry };

    ghost coded = { Prim.hlevel (codes, share_coded) };

    ghost view = { λ t. record { value = box_value t.value; base = base_of t.seat.me.0.stage; pass = pass_of t.seat.table_id t.seat.me.0 } };

    ghost invariant = { λ t. (t.seat.me.1 ≡ (0, None) ∷ []) × (t.seat.me.0.stage ≡ Measured (base_of t.seat.me.0.stage)) };
}

impl<T: Grows> Turn<T> {
    /// The value, to be read and changed. Its list may only grow before `leave`.
    pub fn value(&mut self) -> &mut T
        ensures* lends { sem 𝓛 (LendsValue T.row T.Head.row T.Entry.row T.Grows self.entry result) }
        ensures value { result.now ≡ self.old.value }
    {
        &mut *self.value
    }
}
