//! A host's bytes as a client reads them: cut into updates in whatever pieces they come, and the bodies of updates; and without the packets
//! of pointers ([MS-RDPBCGR] 2.2.9.1.1 and 2.2.9.1.2).
#![tactic(auto)]

mod content;
mod cutter;
mod fast;
mod fault;
mod form;
mod judge;
mod opened;
mod packet;
mod reach;
mod share;
mod sieve;
mod state;
mod step;
mod tile;
mod update;
mod whole;

pub use content::find_content;
pub use cutter::Cutter;
pub use fault::UpdateFault;
pub use form::BodyForm;
pub use opened::Opened;
pub use sieve::PacketSieve;
pub use state::State;
pub use step::Step;
pub use tile::Tile;
pub use update::{Update, read_update};
pub use wire_num::OutOfMemory;
