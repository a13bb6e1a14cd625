ghost use Rattle.std.specs.Prelude.{◌≡◌, ◌+◌, ◌==◌};
ghost use Rattle.edge_io.specs.Outside.{output_of};
ghost use Rattle.room_gate.specs.Ends.{EndsOutput};

use crate::{Keeper, RoomReader, RoomSpent, RoomWriter};
use edge_io::{Link, Sink, Store, Wrote};
use mcs_dom::write_end;
use std::alloc::Global;
use std::marker::Model;
use std::snapshot::Snapshot;
use std::sync::Wait;
use std::sync::atomic::AtomicBool;

/// The reason of the ultimatum to a client that can't be shown its frames, rn-provider-initiated.
const CLOSED: u8 = 1;

/// A link of a room. Contracts see the link within.
#[derive(Drop)]
pub struct RoomLink<'a, R: Wait, L: Link, K: Store + Drop> {
    pub(crate) link: L,
    pub(crate) keeper: Keeper<'a, R, K>,
    pub(crate) closed: &'a AtomicBool,
}

impl<'a, R: Wait, L: Link, K: Store + Drop> Model for RoomLink<'a, R, L, K> {
    ghost Value = { L };

    ghost view = { λ l. l.link };
}

impl<'a, R: Wait + Sync, L: Link, K: Store + Drop + Send> Link for RoomLink<'a, R, L, K> {
    type Reader = RoomReader<'a, R, L::Reader, K>;

    type Writer = RoomWriter<'a, R, L::Writer, K>;

    type Spent = RoomSpent<L>;

    ghost left = { λ l. L.left l };

    ghost told = { λ l. L.told l };

    ghost reader_faults = { λ l. L.reader_faults l };

    ghost writer_faults = { λ l. L.writer_faults l };

    ghost spent_left = { λ s. L.spent_left s.spent };

    ghost spent_told = { λ s. s.output.told };

    ghost spent_reader_faults = { λ s. L.spent_reader_faults s.spent };

    ghost spent_writer_faults = { λ s. s.output.faults + s.unkept };

    fn split(
        self,
    ) -> (
        RoomReader<'a, R, L::Reader, K>,
        RoomWriter<'a, R, L::Writer, K>,
    ) {
        let RoomLink {
            link,
            mut keeper,
            closed,
        } = self;
        let further = keeper.split();
        let (reader, writer) = link.split();
        (
            RoomReader {
                reader,
                keeper: further,
            },
            RoomWriter {
                writer,
                keeper,
                unkept: 0,
                closed,
            },
        )
    }

    /// Where entries couldn't be kept the client is told the end first.
    fn close(
        reader: RoomReader<'a, R, L::Reader, K>,
        writer: RoomWriter<'a, R, L::Writer, K>,
    ) -> RoomSpent<L> {
        let RoomReader { reader, keeper } = reader;
        let RoomWriter {
            mut writer,
            keeper: _,
            unkept,
            closed: _,
        } = writer;
        let before = Snapshot::of(&writer);
        let unsaid = end_output(keeper.alloc, &mut writer, unkept);
        RoomSpent {
            spent: L::close(reader, writer),
            before,
            unkept,
            unsaid,
        }
    }
}

/// Writes the ultimatum where entries couldn't be kept, so many times, and says whether it couldn't be written whole.
fn end_output<W: Sink>(alloc: Global, output: &mut W, unkept: u64) -> bool
    ensures { EndsOutput (unkept == 0) result (output_of W.Sink output.old) (output_of W.Sink output.new) }
{
    if unkept == 0 {
        return false;
    }
    let mut packet = Vec::new(alloc);
    if write_end(&mut packet, CLOSED).is_err() {
        return true;
    }
    match output.write_all(&packet) {
        Wrote::All => false,
        Wrote::Failed | Wrote::OutOfMemory => true,
    }
}
