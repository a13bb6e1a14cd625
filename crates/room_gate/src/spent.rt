use edge_io::Link;
use std::marker::Model;
use std::snapshot::Snapshot;

/// What is left of a link of a room. Contracts see what is left of the link within, its output as it was before the end, how often entries couldn't be
/// kept, and whether the ultimatum that is due then couldn't be written whole.
#[derive(Drop)]
pub struct RoomSpent<L: Link> {
    pub(crate) spent: L::Spent,
    pub(crate) before: Snapshot<L::Writer>,
    pub(crate) unkept: u64,
    pub(crate) unsaid: bool,
}

impl<L: Link> Model for RoomSpent<L> {
    ghost use Rattle.edge_io.specs.Outside.{output_of};
    ghost use Rattle.room_gate.specs.Ends.{SpentModel, HasEnded};

    ghost Value = { SpentModel L.Spent };

    ghost view = { λ s. record { spent = s.spent; output = output_of L.Writer.Sink s.before.value; unkept = s.unkept; unsaid = s.unsaid } };

    ghost invariant = { λ s. HasEnded L.Link (record { spent = s.spent; output = output_of L.Writer.Sink s.before.value; unkept = s.unkept; unsaid = s.unsaid }) };
}
