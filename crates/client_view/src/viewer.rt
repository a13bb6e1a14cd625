//! What a viewer keeps beside the packet that it reads.

ghost use Rattle.std.specs.Prelude.{IfOk};
ghost use Rattle.client_view.specs.Views.{IsFirst};

use caps_sets::Confirmed;
use client_caches::{ClientBlocks, ClientCaches};
use client_picture::ClientPicture;
use order_fields::Regs;
use px_core::Size;
use std::alloc::Global;
use wire_num::OutOfMemory;

/// What a viewer confirmed; its registers, its caches, its saved blocks, its pictures; and the counts of its marks, of primary orders and of rectangles of
/// Bitmap updates, which stand still at 2^64 - 1.
#[derive(Drop)]
pub(crate) struct Viewer {
    pub confirmed: Confirmed,
    pub regs: Regs,
    pub caches: ClientCaches,
    pub blocks: ClientBlocks,
    pub pictures: ClientPicture,
    pub marks: u64,
    pub orders: u64,
    pub tiles: u64,
}

impl Viewer {
    /// A viewer before the first update.
    pub(crate) fn new(
        alloc: Global,
        confirmed: Confirmed,
        size: Size,
    ) -> Result<Viewer, OutOfMemory>
        ensures { IfOk result (IsFirst confirmed size) }
    {
        let caches = ClientCaches::new(alloc, &confirmed)?;
        let pictures = ClientPicture::new(alloc, size, confirmed.depth)?;
        Ok(Viewer {
            confirmed,
            regs: Regs::new(),
            caches,
            blocks: ClientBlocks::new(alloc),
            pictures,
            marks: 0,
            orders: 0,
            tiles: 0,
        })
    }
}
