//! The session: its journal, who is present and who holds control, the surface and the board, what its viewers asked for, and what it keeps for
//! takes: for each tile and each slot of saved blocks the last entry that touched it, and for each of an entry's drawings what it shows, of
//! which a take makes the drawing with what its slots held at its place (profile).
#![tactic(auto)]

mod about;
mod cells;
mod drawing;
mod events;
mod faults;
mod filled;
mod fit;
mod found;
mod head;
mod joining;
mod kept;
pub mod laws;
mod marks;
mod members;
mod noting;
mod pending;
mod ranges;
mod row;
mod seen;
mod session;
mod sharing;
mod shown;
mod slots;
mod standing;
mod typing;

pub use draw_ops::OutOfMemory;
pub use faults::{DrawRefusal, InputRefusal, JoinFault};
pub use found::Found;
pub use head::{Invite, SessionHead, is_new_name};
pub use marks::Marks;
pub use pending::Pending;
pub use row::ShownRow;
pub use seen::{SeenDrawing, SeenDrawings};
pub use session::Session;
pub use session_rules::{Entry, Event, Role};
pub use shown::{Pair, Shown, ShownList, Signs, reaction_list, shown_all, shown_one};
pub use surface_parts::{LoadedBrush, LoadedGlyph, LoadedImage};
pub use tile_surface::{LentTile, Tiles};
