ghost use Rattle.std.specs.Prelude.{◌≡◌, ◌<◌, ◌≤◌, ◌++◌, ℕ, List, true, min, length, take, drop, OnOk, OnErr, IfOk, IfSome};
ghost use Rattle.std.specs.Bool.{OnTrue};
ghost use Rattle.std.specs.declared.option.Option.TheVariants.{Some};
ghost use Rattle.std.proofs.Common.{inl};
ghost use Rattle.edge_io.specs.declared.store.Opened.TheVariants.{Open};
ghost use Rattle.edge_io.specs.declared.sink.Wrote.TheVariants.{All};
ghost use Rattle.edge_io.specs.Faults.{Rose};
ghost use Rattle.edge_io.specs.Source.{FitsRoom, Takes, ReadCause};
ghost use Rattle.edge_io.specs.Sink.{Appends, WriteCause};
ghost use Rattle.edge_io.specs.Store.{OpenCause, Cuts, CutCause, IsSettled, Follows, After, AddsFront, CutsOrStays, Elapses};
ghost use Rattle.edge_io.specs.PlannedStore.{PlannedStore, new_store, bytes_left, call_fails, crash_now, store_counted, store_changed, store_appended, store_down, OpensAsPlanned, store_after_open, read_answer, buffer_after, store_after_read, CutsAsPlanned, store_after_cut, AppendsAsPlanned, store_after_append, StoodSince, only_kept};

use crate::plan::Plan;
use crate::{Crash, Got, Keep, Opened, OutOfMemory, Sink, Store, Wrote};
use std::alloc::{AllocError, Global};
use std::marker::Model;
use std::mem;

/// A store in memory that fails exactly at listed calls, and may crash within an append: a call that is listed, and each one behind the
/// crash, does nothing. It keeps all that ever stood in it.
#[derive(Drop)]
pub struct PlanStore {
    alloc: Global,
    kept: Keep,
    read: usize,
    name: Option<Keep>,
    plan: Plan,
    crash: Option<Crash>,
    appends: u64,
    crashed: bool,
    past: Vec<Keep>,
}

impl Model for PlanStore {
    ghost Value = { PlannedStore };

    ghost view = { λ s. record { kept = s.kept; read = s.read; name = s.name; plan = s.plan; crash = s.crash; appends = s.appends; crashed = s.crashed; past = s.past.items } };
}

impl PlanStore {
    /// A store with these bytes, the calls of `open`, `read`, `cut` and `append` that fail, counted together from 1, and its crash.
    pub fn new(alloc: Global, bytes: Vec<u8>, fails: Vec<u32>, crash: Option<Crash>) -> PlanStore
        ensures { result ≡ new_store bytes.items fails.items crash }
    {
        PlanStore {
            alloc,
            kept: Keep::of(bytes),
            read: 0,
            name: None,
            plan: Plan::new(fails),
            crash,
            appends: 0,
            crashed: false,
            past: Vec::new(alloc),
        }
    }

    /// The bytes that stand in it, which another run would find.
    pub fn bytes(&self) -> &[u8]
        ensures { result.now ≡ self.now.kept }
    {
        self.kept.bytes()
    }

    /// Counts one more call, and says whether it fails.
    fn fails_now(&mut self) -> bool
        ensures answer { result ≡ call_fails self.old }
        ensures after { self.new ≡ store_counted result self.old }
        ensures rose { OnTrue result (Rose self.old.plan.faults self.new.plan.faults) }
    {
        let listed = self.plan.fails_now();
        if self.crashed && !listed {
            self.plan.count_fault();
        }
        self.crashed || listed
    }

    /// How many bytes the crash keeps of the next append, where it comes there.
    fn crash_now(&self) -> Option<usize>
        ensures { result ≡ crash_now self.now }
    {
        match self.crash {
            Some(crash) if crash.append == self.appends.saturating_add(1) => Some(crash.bytes),
            _ => None,
        }
    }

    /// Puts these bytes behind so many of those that stand in it; want of memory leaves all.
    fn change(&mut self, front: usize, bytes: &[u8]) -> Result<(), OutOfMemory>
        requires { front ≤ length self.old.kept }
        ensures ok { OnOk result (self.new ≡ store_changed (take front self.old.kept ++ bytes.now) self.old) }
        ensures err { OnErr result (self.new ≡ self.old) }
    {
        self.past.reserve(1)?;
        let next = joined(self.alloc, &self.kept.bytes()[..front], bytes)?;
        let before = mem::replace(&mut self.kept, next);
        self.past.push_reserved(before);
        Ok(())
    }

    /// Puts these bytes behind the others.
    fn append_all(&mut self, bytes: &[u8]) -> Result<(), OutOfMemory>
        ensures ok { OnOk result (self.new ≡ store_appended bytes.now self.old) }
        ensures err { OnErr result (self.new ≡ self.old) }
    {
        let stands = self.kept.bytes().len();
        self.change(stands, bytes)?;
        self.appends = self.appends.saturating_add(1);
        Ok(())
    }

    /// Puts so many of these bytes behind the others, and crashes.
    fn crash_in(&mut self, bytes: &[u8], count: usize) -> Result<(), OutOfMemory>
        ensures ok { OnOk result (self.new ≡ store_down count bytes.now self.old) }
        ensures rose { OnOk result (Rose self.old.plan.faults self.new.plan.faults) }
        ensures err { OnErr result (self.new ≡ self.old) }
    {
        let stands = self.kept.bytes().len();
        self.change(stands, &bytes[..count.min(bytes.len())])?;
        self.crashed = true;
        self.plan.count_fault();
        Ok(())
    }
}

impl Clone for PlanStore {
    ghost is_clone = { λ store copy. copy ≡ store };

    fn clone(&self) -> Result<PlanStore, AllocError> {
        Ok(PlanStore {
            alloc: self.alloc,
            kept: self.kept.clone()?,
            read: self.read,
            name: self.name.clone()?,
            plan: self.plan.clone()?,
            crash: self.crash,
            appends: self.appends,
            crashed: self.crashed,
            past: self.past.clone()?,
        })
    }
}

/// Two pieces as one.
fn joined(alloc: Global, front: &[u8], rest: &[u8]) -> Result<Keep, OutOfMemory>
    ensures { IfOk result (λ bytes. bytes ≡ front.now ++ rest.now) }
{
    let mut bytes = Vec::new(alloc);
    bytes.extend_from_slice(front)?;
    bytes.extend_from_slice(rest)?;
    Ok(Keep::of(bytes))
}

/// The bytes as a piece of its own.
fn copied(alloc: Global, bytes: &[u8]) -> Option<Keep>
    ensures { IfSome result (λ copy. copy ≡ bytes.now) }
{
    joined(alloc, bytes, &[]).ok()
}

/// Copies the bytes behind those that were read to the front of a buffer, as many as fit, and says how many.
fn give(bytes: &[u8], read: usize, buf: &mut [u8]) -> usize
    ensures count { result ≡ min (length buf.old) (length (drop read bytes.now)) }
    ensures buffer { buf.new ≡ take result (drop read bytes.now) ++ drop result buf.old }
{
    let from = read.min(bytes.len());
    let count = buf.len().min(bytes.len() - from);
    buf[..count].copy_from_slice(&bytes[from..from + count]);
    count
}

impl Store for PlanStore {
    ghost kept = { λ s. Some s.kept };

    ghost left = { λ s. Some (bytes_left s) };

    ghost opened = { λ s. s.name };

    ghost faults = { λ s. s.plan.faults };

    ghost moment = { λ s. length s.past };

    ghost may_leave = { λ s c. c ≡ s.kept };

    ghost left_since = { λ s t c. StoodSince s t c };

    ghost counts_now = { λ s t c le now. inl now };

    ghost only_now = { λ s c since. only_kept s c since };

    fn open(&mut self, name: &str) -> Opened
        ensures name { result ≡ Open → self.new.name ≡ Some name.now }
        ensures left { result ≡ Open → Some (bytes_left self.new) ≡ Some self.old.kept }
        ensures settled { result ≡ Open → IsSettled (Some self.new.kept) (λ c. c ≡ self.new.kept) }
        ensures kept { Some self.new.kept ≡ Some self.old.kept }
        ensures crash { (c : List ℕ) → c ≡ self.new.kept → c ≡ self.old.kept }
        ensures time { Elapses (length self.old.past) (length self.new.past) (StoodSince self.old) (StoodSince self.new) (λ c. c ≡ self.old.kept) }
        ensures cause { OpenCause result self.old.plan.faults self.new.plan.faults }
        // It fails at the listed calls and behind the crash, and else only for want of memory.
        ensures answer { OpensAsPlanned (call_fails self.old) result }
        ensures after { self.new ≡ store_after_open self.old result name.now }
    {
        if self.fails_now() {
            return Opened::Failed;
        }
        match copied(self.alloc, name.as_bytes()) {
            Some(copy) => {
                self.name = Some(copy);
                self.read = 0;
                Opened::Open
            }
            None => {
                self.plan.count_fault();
                Opened::Failed
            }
        }
    }

    fn read(&mut self, buf: &mut [u8]) -> Got
        requires { 0 < length buf.old }
        ensures count { FitsRoom result (length buf.old) }
        ensures bytes { Takes (Some (bytes_left self.old)) (Some (bytes_left self.new)) result buf.new }
        ensures kept { Some self.new.kept ≡ Some self.old.kept }
        ensures opened { self.new.name ≡ self.old.name }
        ensures crash { (c : List ℕ) → c ≡ self.new.kept → c ≡ self.old.kept }
        ensures time { Elapses (length self.old.past) (length self.new.past) (StoodSince self.old) (StoodSince self.new) (λ c. c ≡ self.old.kept) }
        ensures cause { ReadCause result self.old.plan.faults self.new.plan.faults }
        // It fails exactly at the listed calls and behind the crash, and else gives all that fits.
        ensures answer { result ≡ read_answer self.old (length buf.old) }
        ensures buffer { buf.new ≡ buffer_after self.old result buf.old }
        ensures after { self.new ≡ store_after_read self.old result }
    {
        if self.fails_now() {
            return Got::Failed;
        }
        let count = give(self.kept.bytes(), self.read, buf);
        if count == 0 {
            return Got::End;
        }
        self.read += count;
        Got::Bytes(count)
    }

    fn cut(&mut self, most: u64) -> bool
        ensures kept { Cuts result most (Some self.old.kept) (Some self.new.kept) }
        ensures settled { result ≡ true → IsSettled (Some self.new.kept) (λ c. c ≡ self.new.kept) }
        ensures opened { self.new.name ≡ self.old.name }
        ensures crash { Follows (CutsOrStays most) (λ c. c ≡ self.old.kept) (λ c. c ≡ self.new.kept) }
        ensures time { Elapses (length self.old.past) (length self.new.past) (StoodSince self.old) (StoodSince self.new) (After (CutsOrStays most) (λ c. c ≡ self.old.kept)) }
        ensures cause { CutCause result self.old.plan.faults self.new.plan.faults }
        // It fails at the listed calls and behind the crash, and else only for want of memory.
        ensures answer { CutsAsPlanned (call_fails self.old) result }
        ensures after { self.new ≡ store_after_cut self.old result most }
    {
        if self.fails_now() {
            return false;
        }
        let stands = self.kept.bytes().len();
        let front = most.min(stands as u64) as usize;
        if self.change(front, &[]).is_err() {
            self.plan.count_fault();
            return false;
        }
        true
    }

    fn append(&mut self, bytes: &[u8]) -> Wrote
        ensures bytes { Appends (Some self.old.kept) (Some self.new.kept) result bytes.now }
        ensures settled { result ≡ All → IsSettled (Some self.new.kept) (λ c. c ≡ self.new.kept) }
        ensures opened { self.new.name ≡ self.old.name }
        ensures crash { Follows (AddsFront bytes.now) (λ c. c ≡ self.old.kept) (λ c. c ≡ self.new.kept) }
        ensures time { Elapses (length self.old.past) (length self.new.past) (StoodSince self.old) (StoodSince self.new) (After (AddsFront bytes.now) (λ c. c ≡ self.old.kept)) }
        ensures cause { WriteCause result self.old.plan.faults self.new.plan.faults }
        // It fails exactly at the listed calls and from the crash on; want of memory leaves what stands.
        ensures answer { AppendsAsPlanned self.old result }
        ensures after { self.new ≡ store_after_append self.old result bytes.now }
    {
        if self.fails_now() {
            return Wrote::Failed;
        }
        let done = match self.crash_now() {
            Some(count) => self.crash_in(bytes, count).map(|()| Wrote::Failed),
            None => self.append_all(bytes).map(|()| Wrote::All),
        };
        done.unwrap_or(Wrote::OutOfMemory)
    }
}
