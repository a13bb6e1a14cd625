//! A host's bytes, cut into whole packets: one that lies in the bytes is read where it lies, and one that comes in several pieces is gathered.

ghost use Rattle.std.specs.Prelude.{◌≡◌, ◌≤◌, ◌<◌, ◌+◌, ◌++◌, true, take, length, slice_index, IfOk};
ghost use Rattle.order_means.specs.Updates.{Cutting, cutting, updates_by, updates_from};
ghost use Rattle.order_means.specs.Updates.Stage.{Between};
ghost use Rattle.update_read.specs.declared.state.State.TheVariants.{Open};
ghost use Rattle.update_read.specs.Cutters.{Stands, Gives, GoesOn, IsMissing, IsSoundBy, is_between, begins_with, place_after};
ghost use Rattle.update_read.specs.Opens.{MayOpen, Opens};

use crate::judge::{begins_with, judge, length_in};
use crate::state::State;
use crate::whole::whole_size;
use crate::{Opened, OutOfMemory};
use std::alloc::Global;
use std::marker::Model;

/// The bytes of the longest packet.
const LONGEST: usize = 65_535;

/// Cuts a host's bytes into packets, whose updates `Opened` gives: one that is whole where it lies is opened there, and one that comes in
/// several pieces is gathered, up to its last byte.
///
/// Places are counted in bytes from the stream's first one.
#[derive(Drop)]
pub struct Cutter {
    fast: bool,
    start: u64,
    bytes: Vec<u8>,
    count: usize,
    state: State,
}

impl Model for Cutter {
    ghost use Rattle.std.specs.Prelude.{◌≡◌, ◌≤◌, take, length};
    ghost use Rattle.update_read.specs.Cutters.{CutterOf, IsSoundBy};

    ghost Value = { CutterOf };

    ghost view = { λ c. record { fast = c.fast; start = c.start; packet = take c.count c.bytes.items; state = c.state } };

    ghost invariant = { λ c. (length c.bytes.items ≡ 65535) × (c.count ≤ 65535) × IsSoundBy c.state (take c.count c.bytes.items) };
}

impl Cutter {
    /// A cutter at the stream's first byte, of a viewer that takes the fast path or not. It takes its memory here.
    pub fn new(alloc: Global, fast: bool) -> Result<Cutter, OutOfMemory>
        ensures stands { IfOk result (λ c. Stands (cutting 0 Between) c) }
        ensures fast { IfOk result (λ c. c.fast ≡ fast) }
    {
        let bytes = vec![in alloc; 0; LONGEST]?;
        Ok(Cutter {
            fast,
            start: 0,
            bytes,
            count: 0,
            state: State::Open,
        })
    }

    /// Goes on by one byte, once all updates of the packet before it were given. A refusal stays from then on.
    pub fn push(&mut self, byte: u8)
        ensures cut { (c : Cutting) → Stands c self.old → Gives (updates_by self.old.fast c.place c.stage byte) self.new }
        ensures fast { self.new.fast ≡ self.old.fast }
    {
        if let State::Refused(_) = self.state {
            return;
        }
        let (start, count) = place_after(self.state, self.start, self.count);
        self.bytes[count] = byte;
        self.start = start;
        self.count = count + 1;
        self.state = judge(self.fast, start, &self.bytes[..count + 1]);
    }

    /// The packet that was gathered so far.
    pub fn gathered(&self) -> Opened<'_>
        ensures { result ≡ self.now }
    {
        Opened::new(self.fast, self.start, &self.bytes[..self.count], self.state)
    }

    /// The packet that was gathered has come so far.
    pub fn come_to(&mut self, state: State)
        requires { IsSoundBy state self.old.packet }
        ensures { self.new ≡ record self.old { state = state } }
    {
        self.state = state;
    }

    /// How many bytes the packet has with which these begin, where none has begun before and it is whole; else 0.
    pub fn whole(&self, bytes: &[u8]) -> usize
        ensures whole { 0 < result → MayOpen self.now (take result bytes.now) }
        ensures most { result ≤ length bytes.now }
    {
        if self.takes(bytes) {
            whole_size(bytes)
        } else {
            0
        }
    }

    /// Whether none has begun, and these bytes begin one.
    pub fn takes(&self, bytes: &[u8]) -> bool
        ensures between { result ≡ true → is_between self.now.state (length self.now.packet) ≡ true }
        ensures begins { result ≡ true → begins_with self.now.fast (slice_index bytes.now 0) ≡ true }
    {
        is_between(self.state, self.count) && !bytes.is_empty() && begins_with(self.fast, bytes[0])
    }

    /// Opens a whole packet where it lies, where none has begun.
    pub fn opened<'a>(&self, packet: &'a [u8]) -> Opened<'a>
        requires { MayOpen self.now packet.now }
        ensures opens { (c : Cutting) → Stands c self.now → Opens c packet.now result }
        ensures fast { result.fast ≡ self.now.fast }
    {
        let (start, _) = place_after(self.state, self.start, self.count);
        let state = judge(self.fast, start, packet);
        Opened::new(self.fast, start, packet, state)
    }

    /// Goes past a packet that was opened where it lies, once all its updates were given.
    pub fn pass(&mut self, packet: &[u8])
        requires { is_between self.old.state (length self.old.packet) ≡ true }
        ensures past { (c : Cutting) → Stands c self.old → Stands (cutting (c.place + length packet.now) Between) self.new }
        ensures fast { self.new.fast ≡ self.old.fast }
    {
        let (start, _) = place_after(self.state, self.start, self.count);
        self.start = start.saturating_add(packet.len() as u64);
        self.count = 0;
        self.state = State::Open;
    }

    /// Takes some of these bytes from the front, maybe none, by which no packet ends and nothing is refused, and says how many.
    pub fn take(&mut self, bytes: &[u8]) -> usize
        ensures count { result ≤ length bytes.now }
        ensures cut { (c : Cutting) → Stands c self.old → GoesOn c (updates_from self.old.fast c (take result bytes.now)) self.new }
        ensures fast { self.new.fast ≡ self.old.fast }
    {
        let count = sure(self.state, &self.bytes[..self.count]).min(bytes.len());
        if count == 0 {
            return 0;
        }
        put_behind(&mut self.bytes, self.count, &bytes[..count]);
        self.count += count;
        count
    }
}

/// Whether no packet has begun.
fn is_between(state: State, count: usize) -> bool
    ensures { result ≡ is_between state count }
{
    match state {
        State::Ended => true,
        State::Open => count == 0,
        State::Update(_) | State::Refused(_) => false,
    }
}

/// How many bytes of a packet that goes on are missing before its last one, where its length is there.
fn sure(state: State, packet: &[u8]) -> usize
    ensures { 0 < result → (state ≡ Open) × IsMissing packet.now result }
{
    match state {
        State::Open => length_in(packet).saturating_sub(packet.len() + 1),
        _ => 0,
    }
}

/// Puts bytes behind the first so many of others.
fn put_behind(all: &mut [u8], count: usize, bytes: &[u8])
    requires { count + length bytes.now ≤ length all.old }
    ensures front { take (count + length bytes.now) all.new ≡ take count all.old ++ bytes.now }
    ensures size { length all.new ≡ length all.old }
{
    all[count..count + bytes.len()].copy_from_slice(bytes);
}

/// Where the packet of the next byte begins, and how many bytes of it are there.
fn place_after(state: State, start: u64, count: usize) -> (u64, usize)
    ensures { result ≡ place_after state start count }
{
    match state {
        State::Update(_) | State::Ended => (start.saturating_add(count as u64), 0),
        State::Open | State::Refused(_) => (start, count),
    }
}
