//! The last word to a client, and what is reported of its connection.
ghost use Rattle.std.specs.Prelude.{◌≡◌, [], false};
ghost use Rattle.edge_io.specs.Outside.{output_of};
ghost use Rattle.viewer_run.specs.LastWords.{SaysLast};

use crate::put_last;
use edge_io::Sink;
use serve_rules::{ConnEnd, ConnReport, Places};
use std::alloc::Global;

/// Says the last word that is due at an end; where it can't be written, the end is that.
pub(crate) fn say_last<K: Sink>(alloc: Global, output: &mut K, end: ConnEnd, asked: bool) -> ConnEnd
    ensures { SaysLast end asked result (output_of K.Sink output.old) (output_of K.Sink output.new) }
{
    match put_last(alloc, output, end, asked) {
        Ok(()) => end,
        Err(fault) => fault,
    }
}

/// Says the last word to a client that didn't join, and reports its connection.
pub(crate) fn turn_away<K: Sink>(alloc: Global, output: &mut K, end: ConnEnd) -> ConnReport
    ensures nobody { result.viewer ≡ 0 }
    ensures none { result.places.list ≡ [] }
    ensures last { SaysLast end false result.end (output_of K.Sink output.old) (output_of K.Sink output.new) }
{
    let end = say_last(alloc, output, end, false);
    ConnReport {
        viewer: 0,
        end,
        places: Places::none(alloc),
    }
}
