//! The frame marker ([MS-RDPEGDI] 2.2.2.2.1.3.7).
//!
//! | offset | size | field | value |
//! |---|---|---|---|
//! | 0 | 1 | controlFlags | 54, an alternate secondary order of type 13 |
//! | 1 | 4 | action | 0 begins a frame, 1 ends it |

ghost use Rattle.std.specs.Prelude.{◌≡◌, ◌++◌, OnOk, OnErr};
ghost use Rattle.wire_num.specs.Written.{AppendsFront};
ghost use Rattle.order_means.specs.CacheOrders.{frame_marker_bytes};

use crate::OutOfMemory;

/// The control byte of a frame marker.
const FRAME_MARKER: u8 = 54;

/// Writes the marker of a frame's begin, or of its end, at the end. An `Err` is want of memory and leaves a front of it there.
pub fn frame_marker(out: &mut Vec<u8>, end: bool) -> Result<(), OutOfMemory>
    ensures ok { OnOk result (out.new.items ≡ out.old.items ++ frame_marker_bytes end) }
    ensures memory { OnErr result (AppendsFront out.old.items (frame_marker_bytes end) out.new.items) }
{
    if end {
        out.extend_from_slice(&[FRAME_MARKER, 1, 0, 0, 0])?;
    } else {
        out.extend_from_slice(&[FRAME_MARKER, 0, 0, 0, 0])?;
    }
    Ok(())
}
