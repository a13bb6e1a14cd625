//! What one viewer is sent: takes of its frames, and their bytes, from which its client shows the session's picture ([MS-RDPEGDI] 2.2.2.2, and
//! [MS-RDPBCGR] 2.2.9.1.1 and 2.2.9.1.2), behind the packets of the pointer.
#![tactic(auto)]

mod bounds;
mod cached;
mod caches;
mod drawing;
mod fault;
mod frame;
mod framing;
mod orders;
mod plain;
mod seat;
mod sender;
mod text;
mod updates;
mod writer;

pub use fault::SendFault;
pub use frame_plan::{Take, Taken};
pub use seat::Seat;
pub use sender::Sender;
pub use wire_num::OutOfMemory;
