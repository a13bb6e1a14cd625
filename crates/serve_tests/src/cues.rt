//! The halves of links whose readers wait for what viewers were shown.
ghost use Rattle.std.specs.Prelude.{false};
ghost use Rattle.std.specs.declared.option.Option.TheVariants.{None};

use edge_io::{Bytes, FrameSink, Got, Sink, Source, Wrote};
use std::collections::VecDeque;
use std::sync::Arc;
use std::sync::atomic::{AtomicU64, Ordering};
use std::thread;

/// How often a reader looks for what it waits for.
const MOST_LOOKS: u32 = 50_000_000;

/// The packet that ends a frame of a viewer without frame markers: a Synchronize update.
const MARK: [u8; 36] = [
    0x03, 0x00, 0x00, 0x24, 0x02, 0xF0, 0x80, 0x68, 0x00, 0x01, 0x03, 0xEB, 0x70, 0x16, // TPKT, X.224, MCS
    0x16, 0x00, 0x17, 0x00, 0xEA, 0x03, 0xEA, 0x03, 0x01, 0x00, 0x00, 0x01, // share control
    0x08, 0x00, 0x02, 0x00, 0x00, 0x00, // share data, an update
    0x03, 0x00, 0x00, 0x00, // UPDATETYPE_SYNCHRONIZE
];

/// A link of a gate.
#[derive(Clone, Copy)]
pub enum Nth {
    First,
    Second,
}

/// How many marks each link's writer was given.
#[derive(Drop)]
pub struct Marks {
    first: AtomicU64,
    second: AtomicU64,
}

/// What a reader waits for.
#[derive(Clone, Copy)]
pub enum Cue {
    Nothing,
    /// A link's writer was given so many marks.
    Marks(Nth, u64),
    /// So many looks.
    Looks(u32),
}

impl Marks {
    /// No mark was written.
    pub fn new() -> Marks {
        Marks {
            first: AtomicU64::new(0),
            second: AtomicU64::new(0),
        }
    }

    fn of(&self, nth: Nth) -> &AtomicU64 {
        match nth {
            Nth::First => &self.first,
            Nth::Second => &self.second,
        }
    }

    /// How many marks a link's writer was given.
    pub fn count(&self, nth: Nth) -> u64 {
        self.of(nth).load(Ordering::SeqCst)
    }

    /// Waits for a cue, and lets others run between two looks; whether it came.
    fn wait_for(&self, cue: Cue) -> bool {
        match cue {
            Cue::Nothing => true,
            Cue::Marks(nth, count) => self.wait_for_marks(nth, count),
            Cue::Looks(count) => {
                let_others_run(count);
                true
            }
        }
    }

    fn wait_for_marks(&self, nth: Nth, count: u64) -> bool {
        for _ in 0..MOST_LOOKS {
            if self.count(nth) >= count {
                return true;
            }
            thread::yield_now();
        }
        false
    }
}

/// Lets others run so many times.
fn let_others_run(times: u32) {
    for _ in 0..times {
        thread::yield_now();
    }
}

/// How many marks stand among bytes.
fn marks_in(bytes: &[u8]) -> u64 {
    let mut count = 0u64;
    for at in 0..bytes.len() {
        if bytes[at..].starts_with(&MARK) {
            count = count.saturating_add(1);
        }
    }
    count
}

/// Bytes that a reader gives once it has met a cue. Where they are none, its stream ends there.
#[derive(Drop)]
pub struct Part {
    pub cue: Cue,
    pub bytes: Bytes,
}

/// The half of a link that is read. It tells no content.
#[derive(Drop)]
pub struct CueReader {
    pub marks: Arc<Marks>,
    /// What it gives now.
    pub now: Bytes,
    /// What it gives then.
    pub parts: VecDeque<Part>,
    pub faults: u64,
}

impl Source for CueReader {
    ghost left = { λ _. None };

    ghost faults = { λ s. s.faults };

    ghost limited = { λ _. false };

    fn read(&mut self, buf: &mut [u8]) -> Got {
        match self.now.read(buf) {
            Got::Bytes(n) => return Got::Bytes(n),
            Got::End | Got::Failed => {}
        }
        let Some(part) = self.parts.pop_front() else {
            return Got::End;
        };
        if !self.marks.wait_for(part.cue) {
            self.faults = self.faults.saturating_add(1);
            return Got::Failed;
        }
        self.now = part.bytes;
        self.now.read(buf)
    }

    fn lift_limit(&mut self) {}
}

/// The half of a link that is written, which counts its marks. It tells no content.
#[derive(Drop)]
pub struct CueWriter {
    pub marks: Arc<Marks>,
    pub nth: Nth,
}

impl Sink for CueWriter {
    ghost told = { λ _. None };

    ghost faults = { λ _. 0 };

    fn write_all(&mut self, bytes: &[u8]) -> Wrote {
        let count = marks_in(bytes);
        self.marks.of(self.nth).fetch_add(count, Ordering::SeqCst);
        Wrote::All
    }
}

impl FrameSink for CueWriter {
    ghost keeps = { false };

    ghost kept = { λ _. 0 };

    fn keep(&mut self, _number: u64) -> Wrote {
        Wrote::All
    }
}
