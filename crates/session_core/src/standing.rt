//! What a session's journal has reached.

ghost use Rattle.std.specs.Prelude.{◌≡◌, ℕ, ◌+◌, ◌<◌, ◌≤◌, ◌==◌, length, IsTrue, IfOk, false, None, All};
ghost use Rattle.std.specs.Bool.{OnTrue, OnFalse};
ghost use Rattle.px_core.specs.declared.surface.Size.{Size};
ghost use Rattle.px_core.specs.Rectangle.{is_session_size};
ghost use Rattle.draw_ops.specs.Ranges.{HasColors};
ghost use Rattle.draw_ops.specs.Fits.{broken_rule, slot_misfit, AllFitState};
ghost use Rattle.input_pdu.specs.declared.event.Event.{Event};
ghost use Rattle.board_app.specs.Boards.{board_of};
ghost use Rattle.session_rules.specs.Board.{board_reaction};
ghost use Rattle.session_rules.specs.declared.entry.Entry.TheVariants.{Join, Leave, Give, Input, Draw};
ghost use Rattle.session_rules.specs.Journal.{most_viewers, most_joins, reached_after_entry, is_present, holds, may_hold, shape_pixels};
ghost use Rattle.session_core.specs.Members.{viewers_of, tiles_asked, is_stopped};
ghost use Rattle.session_core.specs.Standing.{reached_of, IsOpening};

use crate::OutOfMemory;
use crate::members::{Members, successor};
use board_app::Board;
use draw_ops::Drawing;
use px_core::Size;
use session_rules::Role;
use std::alloc::Global;
use tile_surface::Tiles;

/// How many inputs, gives and draws a journal may have (profile).
pub const MOST_ENTRIES: u32 = 1_048_576;

/// The surface and the board, who is present and who holds control, and what is counted.
#[derive(Drop)]
pub struct Standing {
    pub surface: Tiles,
    pub board: Board,
    pub members: Members,
    /// Who holds control; 0 for nobody.
    pub holder: u32,
    pub joins: u32,
    /// How many entries of a limited number there are: inputs, gives and draws.
    pub limited: u32,
    /// The pixels of the images that were loaded by drawings of viewers.
    pub image_pixels: u32,
}

impl Standing {
    /// What a session of this size starts with.
    pub fn new(alloc: Global, size: Size) -> Result<Standing, OutOfMemory>
        requires { IsTrue (is_session_size size.w size.h) }
        ensures { IfOk result (λ standing. IsOpening size standing) }
    {
        let surface = Tiles::new(alloc, size)?;
        let members = Members::new(alloc)?;
        Ok(Standing {
            surface,
            board: Board::new(size),
            members,
            holder: 0,
            joins: 0,
            limited: 0,
            image_pixels: 0,
        })
    }

    /// A viewer joins, and gets the next number; also control, where nobody has it and the role allows it.
    pub fn admit(&mut self, role: Role) -> u32
        requires joins { self.old.joins < most_joins }
        requires room { length self.old.members < most_viewers }
        ensures number { result ≡ self.old.joins + 1 }
        ensures reached { (size : Size) (n : ℕ) → reached_of self.new (n + 1)
            ≡ reached_after_entry size (reached_of self.old n) (Join (self.old.joins + 1) role) }
        ensures surface { self.new.surface ≡ self.old.surface }
        ensures board { self.new.board ≡ self.old.board }
        ensures asked { tiles_asked self.new.members ≡ tiles_asked self.old.members }
        ensures stopped { is_stopped self.new.members ≡ is_stopped self.old.members }
    {
        self.joins += 1;
        self.members.push(self.joins, role);
        if self.holder == 0 && may_hold(role) {
            self.holder = self.joins;
        }
        self.joins
    }

    /// A viewer leaves; where it held control, another gets it.
    pub fn dismiss(&mut self, v: u32)
        requires { IsTrue (is_present v (viewers_of self.old.members)) }
        ensures reached { (size : Size) (n : ℕ) → reached_of self.new (n + 1) ≡ reached_after_entry size (reached_of self.old n) (Leave v) }
        ensures surface { self.new.surface ≡ self.old.surface }
        ensures board { self.new.board ≡ self.old.board }
        ensures asked { (u : ℕ) → (v == u) ≡ false → tiles_asked self.new.members u ≡ tiles_asked self.old.members u }
        ensures stopped { (u : ℕ) → (v == u) ≡ false → is_stopped self.new.members u ≡ is_stopped self.old.members u }
    {
        self.members.remove(v);
        if self.holder == v {
            self.holder = successor(self.members.list());
        }
    }

    /// Control goes to a viewer.
    pub fn give(&mut self, to: u32)
        requires { self.old.limited < 1048576 }
        ensures reached { (size : Size) (n by : ℕ) → reached_of self.new (n + 1) ≡ reached_after_entry size (reached_of self.old n) (Give by to) }
        ensures surface { self.new.surface ≡ self.old.surface }
        ensures board { self.new.board ≡ self.old.board }
        ensures members { self.new.members ≡ self.old.members }
    {
        self.holder = to;
        self.limited += 1;
    }

    /// Whether a viewer holds control.
    pub fn holds(&self, v: u32) -> bool
        ensures { (n : ℕ) → result ≡ holds (reached_of self.now n) v }
    {
        v == self.holder && v != 0
    }

    /// A drawing that fits, and loads an image of so many pixels, is drawn; whether there was memory for it. Without, nothing changes.
    pub fn draw(&mut self, d: &Drawing, pixels: u64) -> bool
        requires loads { pixels ≡ shape_pixels d.now.shape }
        requires rules { broken_rule self.old.surface.size d.now ≡ None }
        requires slots { slot_misfit self.old.surface.size self.old.surface.state d.now.shape ≡ None }
        requires colors { HasColors d.now }
        requires entries { self.old.limited < 1048576 }
        requires pixels { self.old.image_pixels + shape_pixels d.now.shape ≤ 67108864 }
        ensures reached { OnTrue result ((n by : ℕ) → reached_of self.new (n + 1)
            ≡ reached_after_entry self.old.surface.size (reached_of self.old n) (Draw by d.now)) }
        ensures size { self.new.surface.size ≡ self.old.surface.size }
        ensures board { self.new.board ≡ self.old.board }
        ensures members { self.new.members ≡ self.old.members }
        ensures unchanged { OnFalse result (self.new ≡ self.old) }
    {
        if self.surface.draw_fit(d).is_err() {
            return false;
        }
        self.limited += 1;
        self.image_pixels += pixels as u32;
        true
    }

    /// The drawings of a reaction are drawn, and its board is kept; whether there was memory for it. Without, nothing changes.
    pub fn react(&mut self, board: Board, ds: &[Drawing]) -> bool
        requires fit { AllFitState self.old.surface.size self.old.surface.state ds.now }
        requires colors { All HasColors ds.now }
        requires entries { self.old.limited < 1048576 }
        requires size { board.size ≡ self.old.board.size }
        ensures reached { OnTrue result ((n by : ℕ) (event : Event) → ds.now ≡ (board_reaction self.old.surface.size (board_of self.old.board) event).drawings
            → board_of board ≡ (board_reaction self.old.surface.size (board_of self.old.board) event).board
            → reached_of self.new (n + 1) ≡ reached_after_entry self.old.surface.size (reached_of self.old n) (Input by event)) }
        ensures size { self.new.surface.size ≡ self.old.surface.size }
        ensures board { self.new.board.size ≡ self.old.board.size }
        ensures members { self.new.members ≡ self.old.members }
        ensures unchanged { OnFalse result (self.new ≡ self.old) }
    {
        if self.surface.draw_all(ds).is_err() {
            return false;
        }
        self.board = board;
        self.limited += 1;
        true
    }
}

/// Whether a viewer of this role may hold control.
fn may_hold(role: Role) -> bool
    ensures { result ≡ may_hold role }
{
    !matches!(role, Role::View)
}
