//! The saved blocks of a client ([MS-RDPEGDI] 2.2.2.2.1.1.2.12).

ghost use Rattle.std.specs.Prelude.{◌≡◌, ◌≤◌, ◌<◌, ◌∷◌, [], ◌+◌, ◌*◌, nat_le, length, vec_len, vec_capacity, IfSome, OnOk, OnErr, option_copied};
ghost use Rattle.order_means.specs.ClientState.{positions, are_apart, apart_from, block_at};
ghost use Rattle.client_caches.specs.Blocks.{is_that, capped};

use client_picture::Pixel;
use std::alloc::Global;
use std::marker::Model;
use wire_num::OutOfMemory;

/// Positions are rounded up to this many rows.
const ROW_UNIT: u64 = 20;

/// A saved block: its position, its sides in pixels, and its pixels row by row from the top, which may be unknown.
#[derive(Drop)]
pub struct KeptBlock {
    position: u32,
    w: u32,
    h: u32,
    pixels: Vec<Pixel>,
}

impl Model for KeptBlock {
    ghost use Rattle.std.specs.Prelude.{◌≡◌, ◌*◌, length};
    ghost use Rattle.order_means.specs.ClientState.{Block};

    ghost Value = { Block };

    ghost view = { λ s. record { position = s.position; w = s.w; h = s.h; pixels = s.pixels.items } };

    ghost invariant = { λ s. length s.pixels.items ≡ s.w * s.h };
}

impl KeptBlock {
    /// A block of its position, its sides, and its pixels, which fill it.
    pub fn new(position: u32, w: u32, h: u32, pixels: Vec<Pixel>) -> KeptBlock
        requires { length pixels.items ≡ w * h }
        ensures { result ≡ record { position = position; w = w; h = h; pixels = pixels.items } }
    {
        KeptBlock {
            position,
            w,
            h,
            pixels,
        }
    }

    /// The pixels, row by row from the top.
    pub fn pixels(&self) -> &[Pixel]
        ensures value { result.now ≡ self.now.pixels }
        ensures filled { length self.now.pixels ≡ self.now.w * self.now.h }
    {
        self.pixels.as_slice()
    }

    /// Whether it has just this position and these sides.
    fn is_that(&self, position: u32, w: u32, h: u32) -> bool
        ensures { result ≡ is_that position w h self.now }
    {
        self.position == position && self.w == w && self.h == h
    }

    /// Whether two blocks share no position.
    fn is_apart(&self, other: &KeptBlock) -> bool
        ensures { result ≡ are_apart self.now other.now }
    {
        ends_before(self.position, self.w, self.h, other.position)
            || ends_before(other.position, other.w, other.h, self.position)
    }
}

/// The positions that a block takes, as many as 64 bits can count.
fn positions(w: u32, h: u32) -> u64
    ensures { result ≡ capped (positions w h) }
{
    let rows = (u64::from(h) + (ROW_UNIT - 1)) / ROW_UNIT;
    u64::from(w).saturating_mul(ROW_UNIT * rows)
}

/// Whether the positions of a block end at a position or before it.
pub fn ends_before(position: u32, w: u32, h: u32, end: u32) -> bool
    ensures { result ≡ nat_le (position + positions w h) end }
{
    u64::from(position).saturating_add(positions(w, h)) <= u64::from(end)
}

/// The saved blocks of a client, of which no two share a position; the one saved last stands first.
#[derive(Drop)]
pub struct ClientBlocks {
    blocks: Vec<KeptBlock>,
}

impl Model for ClientBlocks {
    ghost use Rattle.std.specs.Prelude.{List};
    ghost use Rattle.order_means.specs.ClientState.{Block};

    ghost Value = { List Block };

    ghost view = { λ s. s.blocks.items };
}

impl ClientBlocks {
    /// No block.
    pub fn new(alloc: Global) -> ClientBlocks
        ensures { result ≡ [] }
    {
        ClientBlocks {
            blocks: Vec::new(alloc),
        }
    }

    /// Keeps a block, and drops each that shares a position with it. An `Err` leaves the blocks as they were.
    pub fn keep(&mut self, block: KeptBlock) -> Result<(), OutOfMemory>
        ensures kept { OnOk result (self.new ≡ block ∷ apart_from block self.old) }
        ensures unchanged { OnErr result (self.new ≡ self.old) }
    {
        self.blocks.reserve(1)?;
        keep_apart(&mut self.blocks, &block);
        put_first(&mut self.blocks, block);
        Ok(())
    }

    /// The block of just this position and these sides.
    pub fn at(&self, position: u32, w: u32, h: u32) -> Option<&KeptBlock>
        ensures block { option_copied result ≡ block_at position w h self.now }
        ensures sides { IfSome result (λ block. (block.now.w ≡ w) × (block.now.h ≡ h)) }
    {
        for block in &self.blocks {
            if block.is_that(position, w, h) {
                return Some(block);
            }
        }
        None
    }
}

/// Drops each block that shares a position with this one.
fn keep_apart(blocks: &mut Vec<KeptBlock>, block: &KeptBlock)
    ensures apart { blocks.new.items ≡ apart_from block.now blocks.old.items }
    ensures fewer { vec_len blocks.new ≤ vec_len blocks.old }
    ensures capacity { vec_capacity blocks.new ≡ vec_capacity blocks.old }
{
    blocks.retain(|other| block.is_apart(other));
}

/// Puts a block before the others, where there is room for it.
fn put_first(blocks: &mut Vec<KeptBlock>, block: KeptBlock)
    requires { vec_len blocks.old < vec_capacity blocks.old }
    ensures { blocks.new.items ≡ block ∷ blocks.old.items }
{
    blocks.push_reserved(block);
    blocks.rotate_right(1);
}
