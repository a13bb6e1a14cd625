//! What of a pending drawing is kept beside the drawing itself.

ghost use Rattle.std.specs.Prelude.{◌≡◌, ◌+◌, ◌<◌, ◌≤◌, ◌^◌, [], ◌∷◌, ◌↔◌, ◌||◌, true, is_some, IfOk, IsTrue, None, length, option_copied};
ghost use Rattle.draw_ops.specs.declared.shape.Shape.{Shape};
ghost use Rattle.draw_ops.specs.Slots.{lookup};
ghost use Rattle.draw_ops.specs.Drawing.{restoring, state_after_drawings};
ghost use Rattle.draw_ops.specs.Fits.{FitsState, AllFitState};
ghost use Rattle.session_rules.specs.Pending.{pending_of, pending_drawings};
ghost use Rattle.session_core.specs.About.{about_of, held_in};
ghost use Rattle.session_core.specs.Putting.{IsFound};
ghost use Rattle.session_core.specs.declared.shown.Shown.TheVariants.{Named};
ghost use Rattle.session_core.specs.Showing.{named_rect, line_box, side, rect_shown, image_shown, brush_shown, glyphs_shown, shown_with};
ghost use Rattle.session_core.specs.Showing.{all_shown, shown_list, row_of};

use crate::OutOfMemory;
use crate::about::About;
use crate::cells::{lesser, run_rect};
use crate::found::Found;
use crate::row::ShownRow;
use crate::slots::{
    block_sides, brush_after, glyphs_after, image_after, shared_brush, shared_image,
};
use board_app::{Board, BoardBefore};
use draw_ops::{Drawing, Shape};
use input_pdu::Event;
use px_core::Rect;
use std::alloc::Global;
use std::slice;
use std::sync::Arc;
use surface_parts::{LoadedBrush, LoadedGlyph, LoadedImage};
use tile_surface::Tiles;

/// The image and the brush that a drawing reads.
#[derive(Drop)]
pub struct Pair {
    pub image: LoadedImage,
    pub brush: LoadedBrush,
}

/// The rectangle that a text touches, and the glyphs of its run.
#[derive(Drop)]
pub struct Signs {
    pub rect: Rect,
    pub glyphs: Vec<LoadedGlyph>,
}

/// What is kept of a drawing beside itself: the rectangle that it touches, where that isn't the one that it names, and what its slots
/// held at its place. A further handle of it copies no more than one image's or brush's.
#[derive(Drop)]
pub enum Shown {
    /// A drawing that touches the rectangle that it names, or the box of a line's ends, and whose slots held nothing.
    Named,
    /// The rectangle of another drawing whose slots held nothing.
    Bare(Rect),
    Image(LoadedImage),
    Brush(LoadedBrush),
    Both(Arc<Pair>),
    Signs(Arc<Signs>),
}

impl Shown {
    /// The rectangle that the drawing touches.
    pub fn rect(&self, d: &Drawing) -> Rect
        ensures { result ≡ rect_shown d.now.shape self.now }
    {
        match self {
            Shown::Bare(rect) => *rect,
            Shown::Signs(signs) => signs.rect,
            _ => named_rect(&d.shape),
        }
    }

    /// The rectangle that a drawing touches which names this one.
    pub fn rect_over(&self, named: Rect) -> Rect
        ensures { (shape : Shape) → named ≡ named_rect shape → result ≡ rect_shown shape self.now }
    {
        match self {
            Shown::Bare(rect) => *rect,
            Shown::Signs(signs) => signs.rect,
            _ => named,
        }
    }

    /// The image that it draws.
    pub fn image(&self) -> Option<&LoadedImage>
        ensures { option_copied result ≡ image_shown self.now }
    {
        match self {
            Shown::Image(image) => Some(image),
            Shown::Both(both) => Some(&both.image),
            _ => None,
        }
    }

    /// The brush that it draws with.
    pub fn brush(&self) -> Option<&LoadedBrush>
        ensures { option_copied result ≡ brush_shown self.now }
    {
        match self {
            Shown::Brush(brush) => Some(brush),
            Shown::Both(both) => Some(&both.brush),
            _ => None,
        }
    }

    /// The glyphs of its run, in the run's order.
    pub fn glyphs(&self) -> &[LoadedGlyph]
        ensures { result.now ≡ glyphs_shown self.now }
    {
        match self {
            Shown::Signs(signs) => signs.glyphs.as_slice(),
            _ => &[],
        }
    }

    /// One more handle of it: pixels, bits and lists are shared, not copied.
    pub fn share(&self) -> Result<Shown, OutOfMemory>
        ensures image { IfOk result (λ shown. image_shown shown ≡ image_shown self.now) }
        ensures brush { IfOk result (λ shown. brush_shown shown ≡ brush_shown self.now) }
        ensures glyphs { IfOk result (λ shown. glyphs_shown shown ≡ glyphs_shown self.now) }
    {
        Ok(match self {
            Shown::Named => Shown::Named,
            Shown::Bare(rect) => Shown::Bare(*rect),
            Shown::Image(image) => Shown::Image(image.share()?),
            Shown::Brush(brush) => Shown::Brush(brush.share()?),
            Shown::Both(both) => Shown::Both(Arc::try_clone(both)?),
            Shown::Signs(signs) => Shown::Signs(Arc::try_clone(signs)?),
        })
    }
}

/// The rectangle that a shape names, of a line the box of its ends.
fn named_rect(shape: &Shape) -> Rect
    ensures { result ≡ named_rect shape.now }
{
    match shape {
        Shape::Fill { rect, .. }
        | Shape::Dst { rect, .. }
        | Shape::Pat { rect, .. }
        | Shape::Copy { rect, .. }
        | Shape::Blit { rect, .. }
        | Shape::Blit3 { rect, .. }
        | Shape::Save { rect, .. } => *rect,
        Shape::Line { x0, y0, x1, y1, .. } => line_box(*x0, *y0, *x1, *y1),
        _ => NO_RECT,
    }
}

/// The box of a line's ends.
pub fn line_box(x0: i32, y0: i32, x1: i32, y1: i32) -> Rect
    ensures { result ≡ line_box x0 y0 x1 y1 }
{
    Rect {
        x: lesser(x0, x1),
        y: lesser(y0, y1),
        w: side(x0, x1),
        h: side(y0, y1),
    }
}

/// How long a stretch with both its ends is; a length that no number has becomes the greatest number.
fn side(a: i32, b: i32) -> u32
    ensures { result ≡ side a b }
{
    a.abs_diff(b).min(u32::MAX - 1) + 1
}

/// What each of an entry's drawings shows. What one alone shows takes no memory of its own, and an entry without drawings takes none.
#[derive(Drop)]
pub enum ShownList {
    Nothing,
    One(Shown),
    /// What of the board a reaction depends on that makes one drawing, which shows the rectangle that it names.
    Plain(BoardBefore),
    Reaction(Box<Found>),
}

impl ShownList {
    /// What each shows, in the order of the drawings.
    pub fn list(&self) -> ShownRow<'_>
        ensures { row_of result ≡ shown_list self.now }
    {
        match self {
            ShownList::Nothing => ShownRow::Kept(&[]),
            ShownList::One(shown) => ShownRow::Kept(slice::from_ref(shown)),
            ShownList::Plain(_) => ShownRow::Alone(Shown::Named),
            ShownList::Reaction(found) => ShownRow::Kept(found.shown()),
        }
    }
}

/// What is kept of a board's reaction to an event: nothing where it draws nothing, else what of the board its drawings depend on, and
/// what they show.
pub fn reaction_list(
    alloc: Global,
    board: &Board,
    e: Event,
    shown: Vec<Shown>,
) -> Result<ShownList, OutOfMemory>
    ensures shown { IfOk result (λ list. shown_list list ≡ shown.items) }
    ensures board { IfOk result (λ list. IsFound board.now e list) }
{
    if shown.is_empty() {
        return Ok(ShownList::Nothing);
    }
    let before = board.before(e);
    if is_named(&shown) {
        return Ok(ShownList::Plain(before));
    }
    let found = Box::new(alloc, Found::new(before, shown))?;
    Ok(ShownList::Reaction(found))
}

/// Whether one drawing is shown, over the rectangle that it names.
fn is_named(shown: &[Shown]) -> bool
    ensures { IsTrue result ↔ (shown.now ≡ Named ∷ []) }
{
    matches!(shown, [Shown::Named])
}

/// What each of some drawings shows, which are drawn one after the other on a surface.
pub fn shown_all(alloc: Global, surface: &Tiles, ds: &[Drawing]) -> Result<Vec<Shown>, OutOfMemory>
    requires fit { AllFitState surface.now.size surface.now.state ds.now }
    requires few { surface.now.state.count + length ds.now < 2 ^ 64 }
    ensures { IfOk result (λ shown. all_shown ds.now shown.items ≡ pending_drawings surface.now.size surface.now.state ds.now) }
{
    let mut shown = Vec::with_capacity(alloc, ds.len())?;
    for i in 0..ds.len() {
        shown.push(shown_at(alloc, surface, &ds[..i], &ds[i])?)?;
    }
    Ok(shown)
}

/// What a drawing shows behind some others.
fn shown_at(
    alloc: Global,
    surface: &Tiles,
    before: &[Drawing],
    d: &Drawing,
) -> Result<Shown, OutOfMemory>
    requires fits { FitsState surface.now.size (state_after_drawings surface.now.size surface.now.state before.now) d.now }
    requires before { AllFitState surface.now.size surface.now.state before.now }
    requires few { surface.now.state.count + length before.now < 2 ^ 64 }
    ensures { IfOk result (λ shown. shown_with d.now shown
        ≡ pending_of surface.now.size (state_after_drawings surface.now.size surface.now.state before.now) d.now) }
{
    match &d.shape {
        Shape::Pat { brush, .. } => {
            let brush = brush_after(surface, before, *brush)?;
            with_slots(alloc, &d.shape, None, brush)
        }
        Shape::Blit { image, .. } => {
            let image = image_after(surface, before, *image)?;
            with_slots(alloc, &d.shape, image, None)
        }
        Shape::Blit3 { image, brush, .. } => {
            let image = image_after(surface, before, *image)?;
            let brush = brush_after(surface, before, *brush)?;
            with_slots(alloc, &d.shape, image, brush)
        }
        Shape::Text {
            x,
            y,
            font,
            run,
            ..
        } => {
            surface.recall_sound();
            let glyphs = glyphs_after(alloc, surface, before, *font, run.pairs())?;
            let rect = run_rect(&glyphs, run.pairs(), *x, *y);
            with_glyphs(alloc, rect, glyphs)
        }
        Shape::Restore { slot, x, y } => Ok(Shown::Bare(restored_rect(
            surface, before, *slot, *x, *y,
        ))),
        // Its ends lie near the surface, so that their box has its sides.
        Shape::Line { .. } => Ok(Shown::Named),
        _ => Ok(Shown::Named),
    }
}

/// The rectangle of a drawing that touches nothing.
pub const NO_RECT: Rect = Rect {
    x: 0,
    y: 0,
    w: 0,
    h: 0,
};

/// What is kept of a shape that reads an image, a brush or both, each of which may be missing.
fn with_slots(
    alloc: Global,
    shape: &Shape,
    image: Option<LoadedImage>,
    brush: Option<LoadedBrush>,
) -> Result<Shown, OutOfMemory>
    ensures rect { IfOk result (λ shown. rect_shown shape.now shown ≡ named_rect shape.now) }
    ensures image { IfOk result (λ shown. image_shown shown ≡ image) }
    ensures brush { IfOk result (λ shown. brush_shown shown ≡ brush) }
    ensures glyphs { IfOk result (λ shown. glyphs_shown shown ≡ []) }
{
    match (image, brush) {
        (Some(image), Some(brush)) => {
            let both = Arc::new(alloc, Pair { image, brush })?;
            Ok(Shown::Both(both))
        }
        (Some(image), None) => Ok(Shown::Image(image)),
        (None, Some(brush)) => Ok(Shown::Brush(brush)),
        (None, None) => Ok(Shown::Bare(named_rect(shape))),
    }
}

/// A text's rectangle with its glyphs.
fn with_glyphs(alloc: Global, rect: Rect, glyphs: Vec<LoadedGlyph>) -> Result<Shown, OutOfMemory>
    ensures rect { (shape : Shape) → IfOk result (λ shown. rect_shown shape shown ≡ rect) }
    ensures image { IfOk result (λ shown. image_shown shown ≡ None) }
    ensures brush { IfOk result (λ shown. brush_shown shown ≡ None) }
    ensures glyphs { IfOk result (λ shown. glyphs_shown shown ≡ glyphs.items) }
{
    let signs = Arc::new(alloc, Signs { rect, glyphs })?;
    Ok(Shown::Signs(signs))
}

/// The rectangle of a block that is restored behind some drawings.
fn restored_rect(surface: &Tiles, before: &[Drawing], slot: u8, x: i32, y: i32) -> Rect
    requires { slot ≤ 15 }
    ensures { result ≡ (restoring (lookup slot (state_after_drawings surface.now.size surface.now.state before.now).blocks) x y).rect }
{
    match block_sides(surface, before, slot) {
        Some(sides) => Rect {
            x,
            y,
            w: sides.w,
            h: sides.h,
        },
        None => NO_RECT,
    }
}

/// What a drawing shows that is drawn on a surface, and names this.
pub fn shown_one(
    alloc: Global,
    surface: &Tiles,
    d: &Drawing,
    about: About,
) -> Result<Shown, OutOfMemory>
    requires fits { FitsState surface.now.size surface.now.state d.now }
    requires few { surface.now.state.count < 2 ^ 64 }
    requires about { about ≡ about_of d.now.shape }
    ensures { IfOk result (λ shown. all_shown (d.now ∷ []) (shown ∷ []) ≡ pending_drawings surface.now.size surface.now.state (d.now ∷ [])) }
{
    if about.image.is_some() || about.brush.is_some() {
        shown_slots(alloc, surface, d, about)
    } else {
        shown_at(alloc, surface, &[], d)
    }
}

/// What a drawing shows that draws an image, or with a brush.
fn shown_slots(
    alloc: Global,
    surface: &Tiles,
    d: &Drawing,
    about: About,
) -> Result<Shown, OutOfMemory>
    requires about { about ≡ about_of d.now.shape }
    requires some { (is_some about.image || is_some about.brush) ≡ true }
    ensures { IfOk result (λ shown. shown_with d.now shown ≡ pending_of surface.now.size surface.now.state d.now) }
{
    let image = image_in(surface, about.image)?;
    let brush = brush_in(surface, about.brush)?;
    with_slots(alloc, &d.shape, image, brush)
}

/// The image in the slot that is named, if any is.
fn image_in(surface: &Tiles, slot: Option<u8>) -> Result<Option<LoadedImage>, OutOfMemory>
    ensures { IfOk result (λ image. image ≡ held_in slot surface.now.state.images) }
{
    match slot {
        Some(slot) => shared_image(surface.image(slot)),
        None => Ok(None),
    }
}

/// The brush in the slot that is named, if any is.
fn brush_in(surface: &Tiles, slot: Option<u8>) -> Result<Option<LoadedBrush>, OutOfMemory>
    ensures { IfOk result (λ brush. brush ≡ held_in slot surface.now.state.brushes) }
{
    match slot {
        Some(slot) => shared_brush(surface.brush(slot)),
        None => Ok(None),
    }
}
