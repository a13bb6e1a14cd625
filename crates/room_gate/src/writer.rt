ghost use Rattle.std.specs.Prelude.{◌+◌, true};

use crate::Keeper;
use edge_io::{FrameSink, Sink, Store, Wrote};
use std::sync::Wait;
use std::sync::atomic::{AtomicBool, Ordering};

/// What is written of a link of a room. It writes through; what can't be kept closes the room, and counts as a fault.
#[derive(Drop)]
pub struct RoomWriter<'a, R: Wait, W: Sink + Drop, K: Store + Drop> {
    pub(crate) writer: W,
    pub(crate) keeper: Keeper<'a, R, K>,
    pub(crate) unkept: u64,
    pub(crate) closed: &'a AtomicBool,
}

impl<'a, R: Wait, W: Sink + Drop, K: Store + Drop> Sink for RoomWriter<'a, R, W, K> {
    ghost told = { λ w. W.told w.writer };

    ghost faults = { λ w. W.faults w.writer + w.unkept };

    fn write_all(&mut self, bytes: &[u8]) -> Wrote {
        self.writer.write_all(bytes)
    }
}

impl<'a, R: Wait, W: Sink + Drop, K: Store + Drop> FrameSink for RoomWriter<'a, R, W, K> {
    ghost keeps = { true };

    ghost kept = { λ w. w.keeper.kept };

    /// What can't be kept for want of memory is a fault too.
    fn keep(&mut self, number: u64) -> Wrote {
        match self.keeper.keep(number) {
            Wrote::All => Wrote::All,
            Wrote::Failed | Wrote::OutOfMemory => {
                self.unkept = self.unkept.saturating_add(1);
                self.closed.store(true, Ordering::SeqCst);
                Wrote::Failed
            }
        }
    }
}
