use crate::Keeper;
use edge_io::{Got, Source, Store};
use std::sync::Wait;

/// What is read of a link of a room. Before each read it has all entries kept that the session's journal has, whether that goes well or not.
#[derive(Drop)]
pub struct RoomReader<'a, R: Wait, S: Source + Drop, K: Store + Drop> {
    pub(crate) reader: S,
    pub(crate) keeper: Keeper<'a, R, K>,
}

impl<'a, R: Wait, S: Source + Drop, K: Store + Drop> Source for RoomReader<'a, R, S, K> {
    ghost left = { λ r. S.left r.reader };

    ghost faults = { λ r. S.faults r.reader };

    ghost limited = { λ r. S.limited r.reader };

    fn read(&mut self, buf: &mut [u8]) -> Got {
        let _ = self.keeper.keep_all();
        self.reader.read(buf)
    }

    fn lift_limit(&mut self) {
        self.reader.lift_limit();
    }
}
