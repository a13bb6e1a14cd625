ghost use Rattle.std.specs.Prelude.{◌≡◌, ◌<◌, ◌≤◌, length, take, []};
ghost use Rattle.order_fields.specs.OrderTable.{field_list, values_in, lasts_after, first_registers, IsFieldList};
ghost use Rattle.order_fields.specs.Kept.{lasts_of};

use crate::table::{
    DST_BLT, GLYPH_INDEX, MEM_BLT, MEM3_BLT, OPAQUE_RECT, PAT_BLT, SAVE_BITMAP, SCR_BLT,
};

/// The most counted bytes that an order has.
const MOST_BYTES: usize = 255;

/// The last values of each order type, in the table's order, and the last counted bytes of GlyphIndex.
#[derive(Drop)]
pub struct Lasts {
    dst_blt: [i64; 5],
    pat_blt: [i64; 12],
    scr_blt: [i64; 7],
    opaque_rect: [i64; 7],
    save_bitmap: [i64; 6],
    mem_blt: [i64; 9],
    mem3_blt: [i64; 16],
    glyph_index: [i64; 21],
    glyph_bytes: [u8; 255],
    glyph_count: usize,
}

impl Lasts {
    /// All values zero, and no counted bytes.
    pub fn new() -> Lasts
        ensures first { lasts_of result ≡ first_registers.lasts }
        ensures count { result.glyph_count ≤ 255 }
    {
        Lasts {
            dst_blt: [0; 5],
            pat_blt: [0; 12],
            scr_blt: [0; 7],
            opaque_rect: [0; 7],
            save_bitmap: [0; 6],
            mem_blt: [0; 9],
            mem3_blt: [0; 16],
            glyph_index: [0; 21],
            glyph_bytes: [0; MOST_BYTES],
            glyph_count: 0,
        }
    }

    /// The last values of a type; none of another type.
    pub fn values(&self, kind: u8) -> &[i64]
        ensures { result.now ≡ (values_in (lasts_of self.now) kind).numbers }
    {
        match kind {
            DST_BLT => &self.dst_blt,
            PAT_BLT => &self.pat_blt,
            SCR_BLT => &self.scr_blt,
            OPAQUE_RECT => &self.opaque_rect,
            SAVE_BITMAP => &self.save_bitmap,
            MEM_BLT => &self.mem_blt,
            MEM3_BLT => &self.mem3_blt,
            GLYPH_INDEX => &self.glyph_index,
            _ => &[],
        }
    }

    /// The last counted bytes of a type; none of a type without such a field.
    pub fn bytes(&self, kind: u8) -> &[u8]
        requires { self.now.glyph_count ≤ 255 }
        ensures { result.now ≡ (values_in (lasts_of self.now) kind).bytes }
    {
        match kind {
            GLYPH_INDEX => &self.glyph_bytes[..self.glyph_count],
            _ => &[],
        }
    }

    /// Puts the last values of a type at the front of others; the result is how many they are.
    pub fn put_front(&self, kind: u8, front: &mut [i64]) -> usize
        requires { 21 ≤ length front.old }
        ensures values { take result front.new ≡ (values_in (lasts_of self.now) kind).numbers }
        ensures few { result ≤ 21 }
    {
        match kind {
            DST_BLT => put_front(front, &self.dst_blt),
            PAT_BLT => put_front(front, &self.pat_blt),
            SCR_BLT => put_front(front, &self.scr_blt),
            OPAQUE_RECT => put_front(front, &self.opaque_rect),
            SAVE_BITMAP => put_front(front, &self.save_bitmap),
            MEM_BLT => put_front(front, &self.mem_blt),
            MEM3_BLT => put_front(front, &self.mem3_blt),
            GLYPH_INDEX => put_front(front, &self.glyph_index),
            _ => 0,
        }
    }

    /// Keeps the values of an order as the last ones of its type.
    pub fn keep(&mut self, kind: u8, values: &[i64], bytes: &[u8])
        requires fits { IsFieldList (field_list kind values.now bytes.now) }
        requires count { self.old.glyph_count ≤ 255 }
        ensures kept { lasts_of self.new ≡ lasts_after (field_list kind values.now bytes.now) (lasts_of self.old) }
        ensures count { self.new.glyph_count ≤ 255 }
    {
        match kind {
            DST_BLT => put(&mut self.dst_blt, values),
            PAT_BLT => put(&mut self.pat_blt, values),
            SCR_BLT => put(&mut self.scr_blt, values),
            OPAQUE_RECT => put(&mut self.opaque_rect, values),
            SAVE_BITMAP => put(&mut self.save_bitmap, values),
            MEM_BLT => put(&mut self.mem_blt, values),
            MEM3_BLT => put(&mut self.mem3_blt, values),
            GLYPH_INDEX => {
                put(&mut self.glyph_index, values);
                self.glyph_bytes[..bytes.len()].copy_from_slice(bytes);
                self.glyph_count = bytes.len();
            }
            _ => {}
        }
    }
}

/// Puts values in the place of as many others.
fn put(last: &mut [i64], values: &[i64])
    requires { length values.now ≡ length last.old }
    ensures { last.new ≡ values.now }
{
    let count = last.len();
    last.copy_from_slice(&values[..count]);
}

/// Puts values at the front of others; the result is how many they are.
fn put_front(front: &mut [i64], values: &[i64]) -> usize
    requires { length values.now ≤ length front.old }
    ensures count { result ≡ length values.now }
    ensures values { take result front.new ≡ values.now }
{
    let count = values.len();
    front[..count].copy_from_slice(values);
    count
}
