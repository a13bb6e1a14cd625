//! The body of a Bitmap update of one rectangle ([MS-RDPBCGR] 2.2.9.1.1.3.1.2): what `head` has, and the pixels from the bottom row up, packed or as they are.

ghost use Rattle.std.specs.Prelude.{◌≡◌, ◌≤◌, ◌*◌, ◌++◌, [], length, List, ℕ, option_copied, OnOk, OnErr, IsTrue};
ghost use Rattle.wire_num.specs.Written.{AppendsFront};
ghost use Rattle.px_core.specs.declared.depth.Depth.TheVariants.{Bits24};
ghost use Rattle.px_core.specs.Colors.{are_colors};
ghost use Rattle.px_core.specs.Depth.{bytes_in, shown_colors};
ghost use Rattle.px_core.specs.Pixels.{pixels_bytes};
ghost use Rattle.px_core.specs.Picture.{turned_over};
ghost use Rattle.run_lengths.specs.WirePixels.{data_of};
ghost use Rattle.rle_enc.specs.Packed.{data_given, IsTilePacked};
ghost use Rattle.order_means.specs.UpdateBodies.{tile_body};
ghost use Rattle.bitmap_upd.specs.Place.{IsUpdated};

use crate::OutOfMemory;
use crate::head::{place, tile_head};
use px_core::{Depth, Rect, bytes_in};
use rle_enc::{packed_tile, put_both, put_turned};
use std::alloc::Global;
use std::marker::Model;

/// The body of a Bitmap update of one rectangle at a depth, before it is written: what stands before the pixels, the session's pixels row
/// by row from the top, and their packed bytes, where they go packed. All but what stands before them it borrows.
#[derive(Drop)]
pub struct TileBody<'a> {
    head: [u8; 22],
    pixels: &'a [u32],
    w: usize,
    h: usize,
    depth: Depth,
    packed: Option<&'a [u8]>,
}

impl<'a> Model for TileBody<'a> {
    ghost use Rattle.std.specs.Prelude.{◌≡◌, ◌≤◌, ◌*◌, ◌++◌, List, [], ℕ, length, option_copied};
    ghost use Rattle.px_core.specs.Depth.{shown_colors};
    ghost use Rattle.px_core.specs.Pixels.{pixels_bytes};
    ghost use Rattle.px_core.specs.Picture.{turned_over};
    ghost use Rattle.rle_enc.specs.Packed.{data_given};

    ghost Value = { List ℕ };

    ghost view = { λ s. s.head
        ++ (data_given (option_copied s.packed) (pixels_bytes s.depth (shown_colors s.depth (turned_over s.w s.h s.pixels.now)))).bytes };

    ghost invariant = { λ s. (length s.head ≡ 22) × (length s.pixels.now ≡ s.w * s.h) × (length s.pixels.now ≤ 4096)
        × (length (data_given (option_copied s.packed) []).bytes ≤ 12288) };
}

impl<'a> TileBody<'a> {
    /// The body of a rectangle's colours, which go row by row from the top and are shown at a depth, and of the packed bytes that they go as,
    /// where they go packed.
    pub fn of(
        r: Rect,
        pixels: &'a [u32],
        packed: Option<&'a [u8]>,
        no_header: bool,
        depth: Depth,
    ) -> TileBody<'a>
        requires place { IsUpdated r }
        requires number { length pixels.now ≡ r.w * r.h }
        requires packed { IsTilePacked depth no_header r.w r.h pixels.now (option_copied packed) }
        ensures { result ≡ tile_body depth no_header r pixels.now }
    {
        let size = bytes_of(packed, pixels.len(), depth);
        let head = tile_head(
            place(r.x),
            place(r.y),
            r.w as u16,
            r.h as u16,
            packed.is_some(),
            size,
            depth,
        );
        TileBody {
            head,
            pixels,
            w: r.w as usize,
            h: r.h as usize,
            depth,
            packed,
        }
    }

    /// How many bytes it has.
    pub fn size(&self) -> u16
        ensures { result ≡ length self.now }
    {
        self.head.len() as u16 + bytes_of(self.packed, self.pixels.len(), self.depth)
    }

    /// Writes it at the end. An `Err` is want of memory and leaves a front of the body there.
    pub fn put(&self, out: &mut Vec<u8>) -> Result<(), OutOfMemory>
        ensures ok { OnOk result (out.new.items ≡ out.old.items ++ self.now) }
        ensures memory { OnErr result (AppendsFront out.old.items self.now out.new.items) }
    {
        match self.packed {
            Some(bytes) => put_both(out, &self.head, bytes),
            None => put_raw(out, &self.head, self.pixels, self.w, self.h, self.depth),
        }
    }
}

/// Writes the body of a Bitmap update of one rectangle for a viewer of 24 bits at the end. The pixels go row by row from the top, and
/// `no_header` says whether the viewer takes packed pixels without a header.
///
/// An `Err` is want of memory and leaves a front of the body there.
pub fn write_tile(
    alloc: Global,
    out: &mut Vec<u8>,
    r: Rect,
    pixels: &[u32],
    no_header: bool,
) -> Result<(), OutOfMemory>
    requires place { IsUpdated r }
    requires number { length pixels.now ≡ r.w * r.h }
    requires colors { IsTrue (are_colors pixels.now) }
    ensures ok { OnOk result (out.new.items ≡ out.old.items ++ tile_body Bits24 no_header r pixels.now) }
    ensures memory { OnErr result (AppendsFront out.old.items (tile_body Bits24 no_header r pixels.now) out.new.items) }
{
    write_tile_at(alloc, out, r, pixels, no_header, Depth::Bits24)
}

/// Writes the body of a Bitmap update of one rectangle at the end. The pixels are colours of 24 bits, go row by row from the top, and are
/// written as they are shown at a depth; `no_header` says whether the viewer takes packed pixels without a header.
///
/// An `Err` is want of memory and leaves a front of the body there.
pub fn write_tile_at(
    alloc: Global,
    out: &mut Vec<u8>,
    r: Rect,
    pixels: &[u32],
    no_header: bool,
    depth: Depth,
) -> Result<(), OutOfMemory>
    requires place { IsUpdated r }
    requires number { length pixels.now ≡ r.w * r.h }
    requires colors { IsTrue (are_colors pixels.now) }
    ensures ok { OnOk result (out.new.items ≡ out.old.items ++ tile_body depth no_header r pixels.now) }
    ensures memory { OnErr result (AppendsFront out.old.items (tile_body depth no_header r pixels.now) out.new.items) }
{
    let packed = packed_tile(alloc, pixels, r.w as usize, r.h as usize, no_header, depth)?;
    let body = TileBody::of(r, pixels, packed.as_deref(), no_header, depth);
    body.put(out)
}

/// How many bytes so many pixels of a depth go as, of which the packed bytes may be there.
fn bytes_of(packed: Option<&[u8]>, pixels: usize, depth: Depth) -> u16
    requires few { pixels ≤ 4096 }
    requires short { length (data_given (option_copied packed) []).bytes ≤ 12288 }
    ensures value { (raw : List ℕ) → length raw ≡ bytes_in depth * pixels → result ≡ length (data_given (option_copied packed.entry) raw).bytes }
    ensures bound { result ≤ 12288 }
{
    match packed {
        Some(bytes) => bytes.len() as u16,
        None => (bytes_in(depth) * pixels) as u16,
    }
}

/// Writes a head and the rows of colours from the bottom up at the end, as they are shown at a depth. An `Err` leaves a front of them
/// there.
fn put_raw(
    out: &mut Vec<u8>,
    head: &[u8],
    colors: &[u32],
    w: usize,
    h: usize,
    depth: Depth,
) -> Result<(), OutOfMemory>
    requires { length colors.now ≡ w * h }
    ensures ok { OnOk result (out.new.items ≡ out.old.items ++ (head.now ++ pixels_bytes depth (shown_colors depth (turned_over w h colors.now)))) }
    ensures memory { OnErr result (AppendsFront out.old.items
        (head.now ++ pixels_bytes depth (shown_colors depth (turned_over w h colors.now))) out.new.items) }
{
    out.extend_from_slice(head)?;
    put_turned(out, colors, w, h, depth)
}
