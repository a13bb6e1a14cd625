//! A frame apart from its session: all that its bytes are made of.
use crate::{Orders, TakenTile};
use px_core::Size;
use save_plan::Blocks;
use std::marker::Model;

/// A frame that was taken, apart from its session: all that its bytes are made of.
#[derive(Drop)]
pub struct Take {
    pub(crate) size: Size,
    pub(crate) first: bool,
    pub(crate) serial: u64,
    pub(crate) before: u64,
    pub(crate) number: u64,
    pub(crate) sent: Orders,
    pub(crate) tiles: Vec<TakenTile>,
    pub(crate) held_before: Blocks,
    pub(crate) held: Blocks,
}

impl Model for Take {
    ghost use Rattle.frame_plan.specs.Takes.{TakeModel};
    ghost use Rattle.frame_plan.specs.Orders.{drawings_in, cached_in};

    ghost Value = { TakeModel };

    ghost view = { λ s. record {
      size = s.size;
      serial = s.serial;
      before = s.before;
      number = s.number;
      held_before = s.held_before;
      frame = record { first = s.first; sent = drawings_in s.sent; tiles = s.tiles.items; held = s.held };
      cached = cached_in s.sent;
    } };
}

impl Take {
    ghost use Rattle.std.specs.Prelude.{◌≡◌};
    ghost use Rattle.frame_plan.specs.Orders.{drawings_in, cached_in};

    /// The size of the session's picture.
    pub fn size(&self) -> Size
        ensures { result ≡ self.now.size }
    {
        self.size
    }

    /// Whether it is the viewer's first frame.
    pub fn is_first(&self) -> bool
        ensures { result ≡ self.now.frame.first }
    {
        self.first
    }

    /// How many frames the viewer was given before it.
    pub fn serial(&self) -> u64
        ensures { result ≡ self.now.serial }
    {
        self.serial
    }

    /// The number of the viewer's last frame before it; 0 where there was none.
    pub fn before(&self) -> u64
        ensures { result ≡ self.now.before }
    {
        self.before
    }

    /// Its number: the length of the journal that the take found.
    pub fn number(&self) -> u64
        ensures { result ≡ self.now.number }
    {
        self.number
    }

    /// The drawings that go as orders, in order, each with what it takes from the viewer's caches.
    pub fn sent(&self) -> &Orders
        ensures orders { drawings_in result.now ≡ self.now.frame.sent }
        ensures cached { cached_in result.now ≡ self.now.cached }
    {
        &self.sent
    }

    /// The tiles that go as bitmaps, by ascending number.
    pub fn tiles(&self) -> &[TakenTile]
        ensures { result.now ≡ self.now.frame.tiles }
    {
        &self.tiles
    }

    /// The blocks that the viewer held before it.
    pub fn held_before(&self) -> &Blocks
        ensures { result.now ≡ self.now.held_before }
    {
        &self.held_before
    }

    /// The blocks that the viewer holds after it.
    pub fn held(&self) -> &Blocks
        ensures { result.now ≡ self.now.frame.held }
    {
        &self.held
    }
}
