//! The gate of a room whose journal is kept: each link that another gate gives is wrapped, so that what a frame shows is kept before the frame is
//! written, what a read brought before the next read, and a link whose frame couldn't be kept is told its end (profile).
#![tactic(auto)]

mod gate;
mod keeper;
mod lent;
mod link;
mod reader;
mod spent;
mod writer;

pub use gate::RoomGate;
pub use keeper::Keeper;
pub use lent::{Lender, LentGate};
pub use link::RoomLink;
pub use reader::RoomReader;
pub use spent::RoomSpent;
pub use writer::RoomWriter;
