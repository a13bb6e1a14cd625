//! A viewer's frames, from its first one on.
ghost use Rattle.std.specs.Prelude.{◌≡◌, ◌<◌, ℕ, List, Ok};
ghost use Rattle.session_rules.specs.declared.entry.Entry.{Entry};
ghost use Rattle.session_rules.specs.Journal.{Head};
ghost use Rattle.caps_sets.specs.declared.confirmed.Confirmed.{Confirmed as ConfirmedModel};
ghost use Rattle.edge_io.specs.Outside.{output_of};
ghost use Rattle.viewer_sender.specs.OwnTakes.{IsOwnTake};
ghost use Rattle.viewer_run.specs.Visiting.{IsFirst};
ghost use Rattle.viewer_run.specs.Frames.{FirstSent};

use crate::visits::FirstFrame;
use crate::{SideEnd, send_frame};
use edge_io::FrameSink;
use std::alloc::Global;
use viewer_sender::Seat;

/// Sends a viewer's first frame behind its pointer, and gives what sends the next ones.
pub fn send_first<K: FrameSink>(alloc: Global, first: FirstFrame, output: &mut K) -> (Seat, SideEnd)
    requires next { first.take.serial ≡ first.seat.sender.encoded }
    requires own { IsOwnTake first.seat.sender.confirmed first.take }
    ensures { (head : Head) (j : List Entry) (v : ℕ) (confirmed : ConfirmedModel) → IsFirst head j v confirmed (Ok first)
        → FirstSent head v confirmed j result.0.sender result.0.desk (output_of K.Sink output.old) (output_of K.Sink output.new) result.1 }
{
    let FirstFrame { mut seat, take } = first;
    let end = send_frame(alloc, take, &mut seat, output);
    (seat, end)
}
