//! The lock.
ghost use Rattle.std.specs.Prelude.{◌≡◌, ℕ, ◌<◌, ◌≤◌, ◌++◌, ◌∷◌, [], length, Contains, IfOk, Some};
ghost use Rattle.std.specs.Slots.{slots_len, IsFull};
ghost use Rattle.grow_lock.specs.Boxed.{boxed, carried_value};
ghost use Rattle.grow_lock.specs.Journal.{StartsWith, IsDisjoint, added_places, longer};
ghost use Rattle.grow_lock.specs.Passes.{IsPassOf, pass_of, pass_after_entering};
ghost use Rattle.grow_lock.specs.Shares.{left_half, right_half, both, IsWhole};
ghost use Rattle.grow_lock.specs.Steps.{HasTaken};

use crate::OutOfMemory;
use crate::bell::Bell;
use crate::grows::Grows;
use crate::notes::Notes;
use crate::pass::Pass;
use crate::rule::{FREE, LENGTH, LockRule, Place, TAKEN, TURN, VALUE};
use crate::steps::{
    FreeTurn, JoinSeat, PublishLength, ReadJoined, ReadLength, SplitSeat, TakeTurn,
};
use crate::turn::Turn;
use atomic_table::{Closed, Refused, Table};
use std::alloc::Global;
use std::hint;
use std::marker::Model;
use std::snapshot::Snapshot;
use std::sync::Wait;
use std::sync::atomic::{AtomicU64, Ordering};

/// How often a thread tries to take the turn before it sleeps (profile).
const TRIES: u64 = 100;

/// A lock round a value that only grows. Threads share it by reference, each with a pass of its own. Contracts see
/// which lock it is, the head of its value, and the list of the value that it was made with.
#[derive(Drop)]
pub struct GrowLock<T: Grows> {
    table: Table<Option<Box<T>>, Notes<T::Head, T::Entry>, Snapshot<T>, LockRule<T>, Global>,
    // How many threads sleep until the turn is free, or are about to.
    waiting: AtomicU64,
    // Rings where the list has grown, and where a caller rings it.
    news: Bell,
}

impl<T: Grows> Model for GrowLock<T> {
    ghost use Rattle.std.specs.Prelude.{◌≡◌};
    ghost use Rattle.grow_lock.specs.Passes.{LockModel};

    ghost Value = { LockModel T.Head T.Entry };

    ghost view = { λ l. record { id = l.table.shared.table_id; head = T.head l.table.shared.key.value; first = T.list l.table.shared.key.value } };

    ghost invariant = { λ l. (l.table.shared.table_id.words ≡ 2) × (l.table.shared.table_id.slots ≡ 1) };
}

impl<T: Grows> GrowLock<T> {
    /// A lock round the value, whose head is the lock's head from now on, and its first pass, which has seen the whole
    /// list and has the whole lock as its share. After an `Err` the value is dropped.
    pub fn new(alloc: Global, value: T) -> Result<(GrowLock<T>, Pass<T>), OutOfMemory>
        ensures head { IfOk result (λ made. made.0.head ≡ T.head value) }
        ensures first { IfOk result (λ made. made.0.first ≡ T.list value) }
        ensures pass { IfOk result (λ made. IsPassOf made.0 made.1 × (made.1.seen ≡ T.list value) × (made.1.found ≡ []) × (made.1.mine ≡ [])) }
        ensures share { IfOk result (λ made. IsWhole made.1.share) }
    {
        let about = Snapshot::of(&value);
        let count = value.ready();
        let home = Box::new(alloc, value)?;
        let mut slots = Vec::new(alloc);
        slots.push(Some(home))?;
        match Table::new(alloc, &[FREE, count], slots, &about) {
            Ok((table, seat)) => {
                let lock = GrowLock {
                    table,
                    waiting: AtomicU64::new(0),
                    news: Bell::new(),
                };
                Ok((lock, Pass { seat, count }))
            }
            Err(Refused { slots: _ }) => Err(OutOfMemory),
        }
    }

    /// Waits until no other pass is in turn, and gives the turn. Takes no memory.
    pub fn enter<R: Wait>(&self, rt: &R, pass: Pass<T>) -> Turn<T>
        requires { IsPassOf self.now pass }
        ensures lock { IsPassOf self.now result.pass }
        ensures head { T.head result.value ≡ self.now.head }
        ensures list { (result.base ≡ T.list result.value) × StartsWith result.base pass.seen }
        ensures seen { result.pass.seen ≡ pass.seen }
        ensures found { result.pass.found ≡ pass.found ++ length result.base ∷ [] }
        ensures mine { result.pass.mine ≡ pass.mine }
        ensures share { result.pass.share ≡ pass.share }
    {
        let Pass { mut seat, count: _ } = pass;
        let shared = &self.table.shared;
        let mut tries = 0u64;
        for _ in rt.forever() {
            if shared.compare_exchange::<TakeTurn>(&mut seat, TURN, FREE, TAKEN) == FREE {
                return self.begin(seat);
            }
            self.wait_for_turn(rt, tries);
            tries = tries.saturating_add(1);
        }
        unreachable!()
    }

    // After some tries, sleeps while the turn is taken. It may return before the turn is free.
    fn wait_for_turn<R: Wait>(&self, rt: &R, tries: u64) {
        if tries < TRIES {
            hint::spin_loop();
            return;
        }
        self.waiting.fetch_add(1, Ordering::SeqCst);
        self.table.shared.park(rt, TURN, TAKEN as u32);
        self.waiting.fetch_sub(1, Ordering::SeqCst);
    }

    // Wakes one of those that sleep until the turn is free, if there are any.
    fn wake_for_turn(&self) {
        if self.waiting.load(Ordering::SeqCst) != 0 {
            self.table.shared.wake_one(TURN);
        }
    }

    // Reads the length, and moves the value out.
    fn begin(&self, mut seat: Place<T>) -> Turn<T>
        requires lock { seat.table_id ≡ self.now.id }
        requires taken { HasTaken (boxed T.list) seat.me }
        ensures value { carried_value seat.me.1 ≡ Some result.value }
        ensures base { result.base ≡ T.list result.value }
        ensures pass { result.pass ≡ pass_after_entering (pass_of seat.table_id seat.me.0) result.base }
    {
        let shared = &self.table.shared;
        shared.load::<ReadLength>(&mut seat, LENGTH);
        let value = shared.exchange(&mut seat, VALUE, None).unwrap();
        Turn { value, seat }
    }

    /// Ends the turn. What the value's list gained is published, and the pass has seen the whole list. Where it gained
    /// something, those who sleep are woken. Does not wait, and takes no memory.
    pub fn leave(&self, turn: Turn<T>) -> Pass<T>
        requires lock { IsPassOf self.now turn.pass }
        requires head { T.head turn.value ≡ self.now.head }
        requires list { StartsWith (T.list turn.value) turn.base }
        ensures lock { IsPassOf self.now result }
        ensures seen { result.seen ≡ T.list turn.value }
        ensures found { result.found ≡ turn.pass.found }
        ensures mine { result.mine ≡ turn.pass.mine ++ added_places turn.base (T.list turn.value) }
        ensures share { result.share ≡ turn.pass.share }
    {
        let Turn { value, mut seat } = turn;
        let shared = &self.table.shared;
        let count = value.ready();
        let None = shared.exchange(&mut seat, VALUE, Some(value)) else {
            unreachable!()
        };
        let grew = shared.peek(LENGTH) != count;
        shared.store::<PublishLength>(&mut seat, LENGTH, count);
        shared.store::<FreeTurn>(&mut seat, TURN, FREE);
        self.wake_for_turn();
        if grew {
            self.news.ring();
        }
        Pass { seat, count }
    }

    /// A further pass of this lock, which has seen the same and has never entered. Each of the two has one half of the
    /// share. Does not wait, and takes no memory: the number of passes has no bound.
    pub fn split(&self, pass: &mut Pass<T>) -> Pass<T>
        requires { IsPassOf self.now pass.old }
        ensures unchanged { pass.new ≡ record pass.old { share = left_half pass.old.share } }
        ensures lock { IsPassOf self.now result }
        ensures seen { result.seen ≡ pass.old.seen }
        ensures found { result.found ≡ [] }
        ensures mine { result.mine ≡ [] }
        ensures share { result.share ≡ right_half pass.old.share }
    {
        let count = pass.count;
        let seat = self.table.shared.split_seat::<SplitSeat>(&mut pass.seat);
        Pass { seat, count }
    }

    /// The pass that has seen what both have, with the turns and the shares of both. The shorter of what they have seen begins the
    /// longer, and no place was added by both. Does not wait, and takes no memory.
    pub fn meet(&self, from: Pass<T>, into: Pass<T>) -> Pass<T>
        requires from { IsPassOf self.now from }
        requires into { IsPassOf self.now into }
        ensures lock { IsPassOf self.now result }
        ensures seen { (result.seen ≡ longer into.seen from.seen) × StartsWith result.seen into.seen × StartsWith result.seen from.seen }
        ensures found { result.found ≡ into.found ++ from.found }
        ensures mine { (result.mine ≡ into.mine ++ from.mine) × IsDisjoint into.mine from.mine }
        ensures share { result.share ≡ both into.share from.share }
    {
        let Pass {
            seat: other,
            count: other_count,
        } = from;
        let Pass { mut seat, count } = into;
        let shared = &self.table.shared;
        shared.join_seat::<JoinSeat>(&mut seat, other);
        shared.load::<ReadJoined>(&mut seat, LENGTH);
        let count = count.max(other_count);
        Pass { seat, count }
    }

    /// How often there has been news: a list that grew in a turn, or a call of `ring`. Read it before a look at the
    /// value, for `sleep`.
    pub fn rings(&self) -> u64 {
        self.news.rings()
    }

    /// Tells those who sleep that there is news of which the list says nothing.
    pub fn ring(&self) {
        self.news.ring();
    }

    /// Sleeps until there has been more news than this, for a second at most. It may return before. No clause rests on it.
    pub fn sleep<R: Wait>(&self, rt: &R, rings: u64) {
        self.news.sleep(rt, rings);
    }

    /// Enters a last time, and gives the value, whoever else has a pass of this lock. Waits as `enter` does.
    pub fn into_value<R: Wait>(self, rt: &R, pass: Pass<T>) -> T
        requires { IsPassOf self pass }
        ensures head { T.head result ≡ self.head }
        ensures list { StartsWith (T.list result) pass.seen }
    {
        let Turn { value, seat } = self.enter(rt, pass);
        let GrowLock {
            table,
            waiting: _,
            news: _,
        } = self;
        free(table.close_with(seat));
        Box::into_inner(value)
    }

    /// Enters a last time, and gives the value. The pass has the whole lock as its share, so there is no other: each
    /// entry behind those that the lock was made with was appended in a turn of this pass, or of one that it met. Waits
    /// as `enter` does.
    pub fn close<R: Wait>(self, rt: &R, pass: Pass<T>) -> T
        requires lock { IsPassOf self pass }
        requires whole { IsWhole pass.share }
        ensures head { T.head result ≡ self.head }
        ensures list { StartsWith (T.list result) pass.seen }
        ensures begins { StartsWith (T.list result) self.first }
        ensures all { (n : ℕ) → length self.first ≤ n → n < length (T.list result) → Contains pass.mine n }
    {
        let Turn { value, seat } = self.enter(rt, pass);
        let GrowLock {
            table,
            waiting: _,
            news: _,
        } = self;
        free(table.close_with(seat));
        Box::into_inner(value)
    }
}

// Frees the table's memory. The value of its slot is dropped.
fn free<T: Drop>(mut closed: Closed<Option<T>, Global>)
    requires { (slots_len closed.slots ≡ 1) × IsFull closed.slots }
{
    drop(closed.take(0));
    closed.free();
}
