//! Orders that say only what differs from the registers, worked out by hand.

use crate::checks::are_written;
use order_fields::{Fields, OPAQUE_RECT, Regs, SCR_BLT, write_order};
use px_core::Rect;
use std::test::Fail;

/// The orders of a black surface of 64 by 48 and of three fills: the second is the first again, the third lies 128 columns further.
#[test]
fn fills_say_only_what_changed(rt: HostRuntime) -> Result<(), Fail> {
    let mut out = Vec::new(rt.alloc());
    let mut regs = Regs::new();
    let black = Fields::plain(OPAQUE_RECT, &[0, 0, 64, 48, 0, 0, 0]);
    let red = Fields::plain(OPAQUE_RECT, &[10, 20, 5, 5, 255, 0, 0]);
    let far = Fields::plain(OPAQUE_RECT, &[138, 21, 5, 5, 255, 0, 0]);
    write_order(&mut out, &mut regs, &black, None, false)?;
    write_order(&mut out, &mut regs, &red, None, false)?;
    write_order(&mut out, &mut regs, &red, None, false)?;
    write_order(&mut out, &mut regs, &far, None, false)?;
    let wanted: &[u8] = &[
        0x19, 0x0A, 0x0C, 0x40, 0x30, // control, type, flags, width and height as deltas
        0x11, 0x1F, 0x0A, 0x14, 0xC5, 0xD5, 0xFF, // four deltas and red
        0x41, // nothing changed
        0x01, 0x03, 0x8A, 0x00, 0x15, 0x00, // left and top absolute
    ];
    are_written(&rt, out.as_slice(), wanted);
    Ok(())
}

/// A copy of a surface of 64 by 48 one row down, in a clip, twice, after its black fill.
#[test]
fn bounds_are_omitted_where_they_are_the_last_ones(rt: HostRuntime) -> Result<(), Fail> {
    let mut out = Vec::new(rt.alloc());
    let mut regs = Regs::new();
    let black = Fields::plain(OPAQUE_RECT, &[0, 0, 64, 48, 0, 0, 0]);
    let copy = Fields::plain(SCR_BLT, &[0, 1, 64, 47, 0xCC, 0, 0]);
    let clip = Rect {
        x: 8,
        y: 8,
        w: 16,
        h: 16,
    };
    write_order(&mut out, &mut regs, &black, None, true)?;
    out.clear();
    write_order(&mut out, &mut regs, &copy, Some(clip), true)?;
    write_order(&mut out, &mut regs, &copy, Some(clip), true)?;
    write_order(&mut out, &mut regs, &copy, Some(clip), false)?;
    let wanted: &[u8] = &[
        0x1D, 0x02, 0x1E, 0xF0, 0x08, 0x08, 0x17, 0x17, 0x01, 0x40, 0x2F, 0xCC, // flags F0: four edges moved
        0x65, // the last bounds
        0x45, 0x00, // the same for a viewer without zero bounds deltas
    ];
    are_written(&rt, out.as_slice(), wanted);
    Ok(())
}
