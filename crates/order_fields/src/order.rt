ghost use Rattle.std.specs.Prelude.{◌≡◌, ◌++◌, OnOk, OnErr, List, ℕ, Ok, Some, true};
ghost use Rattle.wire_num.specs.Written.{AppendsFront};
ghost use Rattle.px_core.specs.declared.depth.Depth.{Depth};
ghost use Rattle.order_fields.specs.OrderTable.{FitBounds, FitEdges, registers_after};
ghost use Rattle.order_fields.specs.OrderStream.{order_at, bounds_at, seen_primary};
ghost use Rattle.order_fields.specs.OrderDelta.{order_bytes, bounds_bytes, keeps_bounds as keeps_edges, edges_of, edges_of_optional};

use crate::bounds::{bounds_of, keep_bounds, keeps_bounds, optional_bounds_of, put_bounds};
use crate::tail::Tail;
use crate::write::{put_bytes, put_order};
use crate::{Fields, Regs};
use px_core::Rect;
use wire_num::OutOfMemory;

/// Writes an order at the end, with only what differs from the registers, which are then those after it ([MS-RDPEGDI] 2.2.2.2.1.1.2).
///
/// `bounds` are the order's, in pixels, and `zero_bounds` says whether the viewer confirmed zero bounds deltas. Each edge of the bounds must have two bytes, signed.
/// An `Err` leaves a front of the order's bytes there, and registers that no clause describes.
pub fn write_order(
    out: &mut Vec<u8>,
    regs: &mut Regs,
    o: &Fields,
    bounds: Option<Rect>,
    zero_bounds: bool,
) -> Result<(), OutOfMemory>
    requires { FitBounds (edges_of_optional bounds) }
    ensures ok { OnOk result (out.new.items ≡ out.old.items ++ order_bytes regs.old zero_bounds o.now (edges_of_optional bounds)) }
    ensures registers { OnOk result (regs.new ≡ registers_after regs.old o.now (edges_of_optional bounds)) }
    ensures memory { OnErr result (AppendsFront out.old.items (order_bytes regs.old zero_bounds o.now (edges_of_optional bounds)) out.new.items) }
    ensures read_back { (depth : Depth) (rest : List ℕ) → order_at depth regs.old (order_bytes regs.old zero_bounds o.now (edges_of_optional bounds) ++ rest) ≡ Ok (seen_primary regs.old o.now (edges_of_optional bounds), rest) }
{
    let new = optional_bounds_of(bounds);
    let values = o.values();
    put_order(
        out,
        regs.last,
        &regs.lasts,
        &regs.bounds,
        o,
        new,
        zero_bounds,
    )?;
    regs.last = o.kind();
    regs.lasts.keep(o.kind(), values, o.bytes());
    keep_bounds(&mut regs.bounds, new);
    Ok(())
}

/// Writes the bounds of an order at the end, which are then the last ones: nothing where they are the last ones and the viewer confirmed zero bounds deltas ([MS-RDPEGDI] 2.2.2.2.1.1.1.1).
///
/// Each edge must have two bytes, signed. An `Err` leaves a front of the bytes there, and registers that no clause describes.
pub fn write_bounds(
    out: &mut Vec<u8>,
    regs: &mut Regs,
    r: Rect,
    zero_bounds: bool,
) -> Result<(), OutOfMemory>
    requires { FitEdges (edges_of r) }
    ensures ok { OnOk result (out.new.items ≡ out.old.items ++ bounds_bytes (keeps_edges zero_bounds regs.old.bounds (Some (edges_of r))) regs.old.bounds (Some (edges_of r))) }
    ensures registers { OnOk result (regs.new ≡ record regs.old { bounds = edges_of r }) }
    ensures memory { OnErr result (AppendsFront out.old.items (bounds_bytes (keeps_edges zero_bounds regs.old.bounds (Some (edges_of r))) regs.old.bounds (Some (edges_of r))) out.new.items) }
    ensures read_back { (rest : List ℕ) → bounds_at true (keeps_edges zero_bounds regs.old.bounds (Some (edges_of r))) regs.old.bounds
        (bounds_bytes (keeps_edges zero_bounds regs.old.bounds (Some (edges_of r))) regs.old.bounds (Some (edges_of r)) ++ rest) ≡ Ok (Some (edges_of r), rest) }
{
    let new = bounds_of(r);
    let keeps = keeps_bounds(zero_bounds, &regs.bounds, Some(new));
    let mut tail = Tail::new();
    put_bounds(&mut tail, keeps, &regs.bounds, Some(new));
    put_bytes(out, tail.bytes())?;
    regs.bounds = new;
    Ok(())
}
