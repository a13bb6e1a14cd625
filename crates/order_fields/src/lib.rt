//! Drawing orders as their fields: the table of the eight primary orders, how orders are read with registers, and how they are written against them ([MS-RDPEGDI] 2.2.2.2.1.1 to 2.2.2.2.1.3).
//!
//! A client and a host keep the same registers: the last type, the last fields of each type, and the last bounds.
//! An order's bytes say only what differs from them.
#![tactic(auto)]

mod bounds;
mod change;
mod delta;
mod fields;
mod kind;
mod lasts;
mod laws;
mod number;
mod order;
mod reading;
mod regs;
mod table;
mod tail;
mod write;

pub use bounds::Bounds;
pub use fields::Fields;
pub use kind::FieldKind;
pub use laws::{fields_give_their_drawing_back, written_order_is_read_back};
pub use order::{write_bounds, write_order};
pub use regs::Regs;
pub use table::{
    DST_BLT, GLYPH_INDEX, Layout, MEM_BLT, MEM3_BLT, OPAQUE_RECT, PAT_BLT, SAVE_BITMAP, SCR_BLT,
    is_counted, kinds_of, layout_of,
};
pub use wire_num::OutOfMemory;
