//! The orders of an update, read with registers ([MS-RDPEGDI] 2.2.2.2.1.1 to 2.2.2.2.1.3).
//!
//! Primary orders are read by a loop over the field table of `order_fields`.
#![tactic(auto)]

mod bits;
mod edges;
mod fields;
mod number;
mod order_fault;
mod orders;
mod pixels;
mod primary;
mod read;
mod secondary;

pub use order_fault::OrderFault;
pub use orders::read_orders;
pub use pixels::{pixels_of, turned_over};
pub use read::Read;
