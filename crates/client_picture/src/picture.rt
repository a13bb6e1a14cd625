//! A client's present picture and that of its last mark.
ghost use Rattle.std.specs.Prelude.{◌≡◌, ◌<◌, ◌≤◌, ◌*◌, ◌^◌, ℕ, List, Some, None, pos, IfOk, IfSome, IsTrue, length, replicate, option_copied};
ghost use Rattle.px_core.specs.Colors.{are_colors};
ghost use Rattle.px_core.specs.Picture.{pixel_at, rows_of};
ghost use Rattle.px_core.specs.Rectangle.{is_inside, cut_out};
ghost use Rattle.rop3_core.specs.Palette.{client_colors};
ghost use Rattle.draw_ops.specs.Formulas.{solid, replaced, shifted, imaged, glyph_area, over_rect};
ghost use Rattle.draw_ops.specs.Slots.{lookup};
ghost use Rattle.order_means.specs.ClientState.{mixing, no_operand, pairs_of, source_rect, writing};
ghost use Rattle.client_picture.specs.Bits.{IsPenNear};
ghost use Rattle.client_picture.specs.Pictures.{first_pictures, painted_within, drawn_within, marked_now, brush_operand, source_operand, HasSource};

use crate::frame::Frame;
use crate::glyphs::{draw_glyph, touch_glyph};
use crate::part::part_of;
use crate::rects::{copy_rect, cut_rect, fill_rect, mix_rect, restore_rect, write_rect};
use crate::source::Source;
use crate::touched::{copy_touched, touch_found, touch_rect};
use crate::{Color, OutOfMemory, Pixel};
use draw_ops::{Brush, Glyph};
use px_core::{Depth, Rect, Size};
use std::alloc::Global;
use std::marker::Model;

/// The longest side of a picture: a side has two bytes in the protocol.
const LONGEST: u32 = 65_535;

/// A frame without a pixel.
const EMPTY: Frame = Frame {
    left: 0,
    top: 0,
    right: 0,
    bottom: 0,
};

/// A client's picture, each pixel a colour or unknown, and the picture that it had at its last mark.
///
/// Colours are those of its depth: `65536 * red + 256 * green + blue` or, at 16 bits, `2048 * red + 32 * green + blue`. Every list of pixels goes row by row
/// from the top. `bounds` is the rectangle outside of
/// which an order changes nothing. Only `new` and `save` take memory.
#[derive(Drop)]
pub struct ClientPicture {
    alloc: Global,
    depth: Depth,
    size: Size,
    picture: Vec<Pixel>,
    marked: Vec<Pixel>,
    /// Which rows may have been painted since the last mark.
    touched: Vec<bool>,
    /// A frame that has all pixels that may have been painted since.
    frame: Frame,
    /// One row for the source of a copy.
    row: Vec<Pixel>,
}

impl Model for ClientPicture {
    ghost use Rattle.std.specs.Prelude.{◌≡◌, length};
    ghost use Rattle.client_picture.specs.Pictures.{Pictures};
    ghost use Rattle.client_picture.specs.Touched.{AreKept};

    ghost Value = { Pictures };

    ghost view = { λ s. record { depth = s.depth; size = s.size; picture = s.picture.items; marked = s.marked.items } };

    ghost invariant = { λ s. AreKept s.size s.touched.items s.frame s.picture.items s.marked.items × (length s.row.items ≡ s.size.w) };
}

impl ClientPicture {
    /// A picture of this size and depth, of which each pixel is unknown, now and at the last mark. There is no memory for a side above 65,535.
    pub fn new(alloc: Global, size: Size, depth: Depth) -> Result<ClientPicture, OutOfMemory>
        ensures { IfOk result (λ pictures. pictures ≡ first_pictures depth size) }
    {
        if LONGEST < size.w || LONGEST < size.h {
            return Err(OutOfMemory);
        }
        let count = size.w as usize * size.h as usize;
        let picture = unknown_pixels(alloc, count)?;
        let marked = unknown_pixels(alloc, count)?;
        let touched = vec![in alloc; false; size.h as usize]?;
        let row = unknown_pixels(alloc, size.w as usize)?;
        Ok(ClientPicture {
            alloc,
            depth,
            size,
            picture,
            marked,
            touched,
            frame: EMPTY,
            row,
        })
    }

    /// Gives a rectangle one colour.
    #[inline(always)]
    pub fn fill(&mut self, rect: Rect, bounds: Option<Rect>, color: Color)
        ensures { self.new ≡ painted_within bounds (over_rect rect (solid client_colors color)) self.old }
    {
        let part = part_of(self.size, rect, bounds);
        let pixels = self.picture.as_mut_slice();
        fill_rect(pixels, self.size, rect, bounds, color, part);
        let touched = self.touched.as_mut_slice();
        touch_found(touched, &mut self.frame, self.size, rect, bounds, part);
    }

    /// A raster operation on a rectangle, with a brush as its pattern and an image as its source; one that is missing counts as 0.
    pub fn mix(
        &mut self,
        rect: Rect,
        bounds: Option<Rect>,
        rop: u8,
        brush: Option<&Brush>,
        source: Option<Source<'_>>,
    )
        requires { IfSome source (HasSource rect) }
        ensures { self.new ≡ painted_within bounds (mixing self.old.depth rect rop (brush_operand (option_copied brush.entry))
            (source_operand rect source.entry)) self.old }
    {
        let pixels = self.picture.as_mut_slice();
        mix_rect(
            pixels, self.size, rect, bounds, self.depth, rop, brush, source,
        );
        let touched = self.touched.as_mut_slice();
        touch_rect(touched, &mut self.frame, self.size, rect, bounds);
    }

    /// A raster operation on a rectangle, with the picture itself, from (sx, sy) on, as its source. It may overlap the rectangle.
    pub fn copy(&mut self, rect: Rect, bounds: Option<Rect>, rop: u8, sx: i32, sy: i32)
        requires { IsTrue (is_inside self.old.size (source_rect rect sx sy)) }
        ensures { self.new ≡ painted_within bounds (mixing self.old.depth rect rop no_operand
            (shifted (rows_of self.old.size.w self.old.size.h self.old.picture) None rect sx sy)) self.old }
    {
        copy_rect(
            self.picture.as_mut_slice(),
            self.size,
            rect,
            bounds,
            self.depth,
            rop,
            sx,
            sy,
            self.row.as_mut_slice(),
        );
        let touched = self.touched.as_mut_slice();
        touch_rect(touched, &mut self.frame, self.size, rect, bounds);
    }

    /// Writes an image into a rectangle, from its upper left pixel on. The rectangle may be narrower and lower than the image.
    pub fn write(&mut self, rect: Rect, bounds: Option<Rect>, w: u16, h: u16, pixels: &[u32])
        requires whole { length pixels.now ≡ w * h }
        requires colors { IsTrue (are_colors pixels.now) }
        requires wide { rect.w ≤ w }
        requires high { rect.h ≤ h }
        ensures { self.new ≡ painted_within bounds (over_rect rect (replaced (imaged client_colors (rows_of w h pixels.now) rect (pos 0) (pos 0)))) self.old }
    {
        let source = Source {
            pixels,
            w,
            h,
            sx: 0,
            sy: 0,
        };
        let pixels = self.picture.as_mut_slice();
        write_rect(pixels, self.size, rect, bounds, source);
        let touched = self.touched.as_mut_slice();
        touch_rect(touched, &mut self.frame, self.size, rect, bounds);
    }

    /// Writes a run of glyphs in one colour, from a pen at (x, y). The run is pairs of a glyph's number and a delta, which moves the pen to
    /// the right before the glyph is drawn. There is nothing to draw where no glyph is, and bits past a glyph's bytes are 0.
    pub fn write_run(
        &mut self,
        bounds: Option<Rect>,
        glyphs: &[Option<Glyph>],
        x: i32,
        y: i32,
        color: Color,
        run: &[u8],
    )
        requires short { length run.now ≤ 65535 }
        ensures { (pairs : List (ℕ × ℕ)) → pairs_of run.now ≡ Some pairs
            → self.new ≡ painted_within bounds (writing (λ index. lookup index glyphs.now) x y color pairs) self.old }
    {
        let mut moved = 0;
        for k in 0..run.len() / 2 {
            moved += u32::from(run[2 * k + 1]);
            let pen = i64::from(x) + i64::from(moved);
            self.write_number(bounds, glyphs, run[2 * k], pen, i64::from(y), color);
        }
    }

    /// Writes the glyph of a number, where there is one, with the pen at (x, y).
    fn write_number(
        &mut self,
        bounds: Option<Rect>,
        glyphs: &[Option<Glyph>],
        number: u8,
        x: i64,
        y: i64,
        color: Color,
    )
        requires { IsPenNear x y }
        ensures { self.new ≡ drawn_within bounds (glyph_area (lookup number glyphs.now) x y) color self.old }
    {
        match glyph_at(glyphs, number) {
            None => {}
            Some(glyph) => self.write_glyph(bounds, glyph, x, y, color),
        }
    }

    /// Writes a glyph with the pen at (x, y).
    fn write_glyph(&mut self, bounds: Option<Rect>, glyph: &Glyph, x: i64, y: i64, color: Color)
        requires { IsPenNear x y }
        ensures { self.new ≡ drawn_within bounds (glyph_area (Some glyph.now) x y) color self.old }
    {
        let pixels = self.picture.as_mut_slice();
        draw_glyph(pixels, self.size, bounds, glyph, x, y, color);
        let touched = self.touched.as_mut_slice();
        touch_glyph(touched, &mut self.frame, self.size, bounds, glyph, x, y);
    }

    /// The pixels of a rectangle inside the picture, to be saved.
    pub fn save(&self, rect: Rect) -> Result<Vec<Pixel>, OutOfMemory>
        requires { IsTrue (is_inside self.now.size rect) }
        ensures { IfOk result (λ pixels. pixels.items ≡ cut_out self.now.size self.now.picture None rect) }
    {
        let mut pixels = unknown_pixels(self.alloc, rect.w as usize * rect.h as usize)?;
        cut_rect(
            self.picture.as_slice(),
            self.size,
            rect,
            pixels.as_mut_slice(),
        );
        Ok(pixels)
    }

    /// Puts saved pixels back into a rectangle of their sides.
    pub fn restore(&mut self, rect: Rect, bounds: Option<Rect>, pixels: &[Pixel])
        requires inside { IsTrue (is_inside self.old.size rect) }
        requires whole { length pixels.now ≡ rect.w * rect.h }
        ensures { self.new ≡ painted_within bounds (over_rect rect (replaced (shifted (rows_of rect.w rect.h pixels.now) None rect (pos 0) (pos 0)))) self.old }
    {
        restore_rect(self.picture.as_mut_slice(), self.size, rect, bounds, pixels);
        let touched = self.touched.as_mut_slice();
        touch_rect(touched, &mut self.frame, self.size, rect, bounds);
    }

    /// A mark: the picture at the last mark is the present one from now on. Only rows that were painted since the mark before are copied, and
    /// only the rows between the first and the last of them are gone over.
    pub fn mark(&mut self)
        ensures { self.new ≡ marked_now self.old }
    {
        copy_touched(
            self.touched.as_mut_slice(),
            self.frame,
            self.size,
            self.picture.as_slice(),
            self.marked.as_mut_slice(),
        );
        self.frame = EMPTY;
    }

    /// The colour of pixel (x, y), which lies on the picture; `None` where it is unknown.
    pub fn pixel(&self, x: u32, y: u32) -> Option<u32>
        requires column { x < self.now.size.w }
        requires row { y < self.now.size.h }
        ensures { result ≡ pixel_at self.now.size self.now.picture None x y }
    {
        self.picture[self.size.w as usize * y as usize + x as usize].color()
    }

    /// The colour that pixel (x, y) had at the last mark; `None` where it was unknown or there was no mark.
    pub fn marked(&self, x: u32, y: u32) -> Option<u32>
        requires column { x < self.now.size.w }
        requires row { y < self.now.size.h }
        ensures value { result ≡ pixel_at self.now.size self.now.marked None x y }
        ensures bound { IfSome result (λ color. color < 2 ^ 24) }
    {
        self.marked[self.size.w as usize * y as usize + x as usize].color()
    }

    /// The depth of its colours.
    pub fn depth(&self) -> Depth
        ensures { result ≡ self.now.depth }
    {
        self.depth
    }

    /// The sides in pixels.
    pub fn size(&self) -> Size
        ensures { result ≡ self.now.size }
    {
        self.size
    }
}

/// So many unknown pixels.
fn unknown_pixels(alloc: Global, count: usize) -> Result<Vec<Pixel>, OutOfMemory>
    ensures { IfOk result (λ pixels. pixels.items ≡ replicate count None) }
{
    let pixels = vec![in alloc; Pixel::unknown(); count]?;
    Ok(pixels)
}

/// The glyph of a number, where there is one.
fn glyph_at(glyphs: &[Option<Glyph>], number: u8) -> Option<&Glyph>
    ensures { option_copied result ≡ lookup number glyphs.now }
{
    let slot = glyphs.get(usize::from(number))?;
    slot.as_ref()
}
