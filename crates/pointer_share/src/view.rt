//! What a viewer shows of the pointer: its cells, and the shape that was shown last.

ghost use Rattle.std.specs.Prelude.{◌≡◌, true, false, IfOk, OnErr};
ghost use Rattle.draw_ops.specs.Slots.{empty_slots, filled_slot};
ghost use Rattle.pointer_share.specs.Views.{View};
ghost use Rattle.pointer_share.specs.Outlines.{HasView, kept_after, outlined, Feeds, IsNewView};

use crate::fault::{Cause, ViewFault};
use crate::message::{Sent, held, read_sent};
use crate::packet::PDUTYPE2_POINTER;
use std::alloc::Global;
use std::marker::Model;
use update_read::find_content;
use wire_num::OutOfMemory;

/// What a viewer with a pointer cache makes of its packets. Of each shape its outline is kept.
#[derive(Drop)]
pub struct PointerView {
    wide: bool,
    cells: Vec<Option<(u8, u8)>>,
    shown: Option<(u8, u8)>,
}

impl Model for PointerView {
    ghost use Rattle.pointer_share.specs.Outlines.{ViewOf};

    ghost Value = { ViewOf };

    ghost view = { λ v. record { wide = v.wide; cells = v.cells.items; shown = v.shown } };
}

impl PointerView {
    /// The view of a viewer with so many cells, which was told nothing. It reads shapes of 8 columns and no others.
    pub fn new(alloc: Global, cells: u16) -> Result<PointerView, OutOfMemory>
        ensures { IfOk result (IsNewView false cells) }
    {
        opened(alloc, cells, false)
    }

    /// The view of a cautious viewer, which reads shapes of 16 columns and no others.
    pub fn cautious(alloc: Global, cells: u16) -> Result<PointerView, OutOfMemory>
        ensures { IfOk result (IsNewView true cells) }
    {
        opened(alloc, cells, true)
    }

    /// Reads a whole packet, and says whether it is a pointer packet; any other leaves the view as it is. It takes no memory. After an `Err`
    /// the view is as before.
    pub fn feed(&mut self, packet: &[u8]) -> Result<bool, ViewFault>
        ensures told { (v : View) → HasView self.old v → Feeds self.old.wide v packet.now result self.new }
        ensures wide { self.new.wide ≡ self.old.wide }
        ensures unchanged { OnErr result (self.new ≡ self.old) }
    {
        let mut content = match find_content(PDUTYPE2_POINTER, packet) {
            Ok(content) => content,
            Err(_) => return Ok(false),
        };
        match read_sent(&mut content, self.wide, &self.cells) {
            Ok(sent) => {
                self.obey(sent);
                Ok(true)
            }
            Err(Cause::Broken) => Err(ViewFault::BadPointer { at: content.at() }),
            Err(Cause::Missing { index }) => Err(ViewFault::NoEntry { index }),
        }
    }

    /// The blue byte of the colour of the shape that is shown, and the bits of its top row; none where nothing was shown.
    pub fn shape(&self) -> Option<(u8, u8)>
        ensures kept { result ≡ self.now.shown }
        ensures shown { (v : View) → HasView self.now v → result ≡ outlined self.now.wide v.shown }
    {
        self.shown
    }

    /// Obeys a message.
    fn obey(&mut self, sent: Sent)
        ensures { self.new ≡ kept_after self.old sent }
    {
        match sent {
            Sent::Brings { index, outline } => {
                set_cell(&mut self.cells, usize::from(index), outline);
                self.shown = Some(outline);
            }
            Sent::Points { index } => self.shown = held(&self.cells, index),
        }
    }
}

/// A view of so many cells.
fn opened(alloc: Global, cells: u16, wide: bool) -> Result<PointerView, OutOfMemory>
    ensures { IfOk result (IsNewView wide cells) }
{
    let cells = no_cells(alloc, usize::from(cells))?;
    Ok(PointerView {
        wide,
        cells,
        shown: None,
    })
}

/// So many empty cells.
fn no_cells(alloc: Global, count: usize) -> Result<Vec<Option<(u8, u8)>>, OutOfMemory>
    ensures { IfOk result (λ cells. cells.items ≡ empty_slots count) }
{
    let mut cells = Vec::with_capacity(alloc, count)?;
    for _ in 0..count {
        cells.push(None)?;
    }
    Ok(cells)
}

/// Fills a cell; there is none past the last.
fn set_cell(cells: &mut Vec<Option<(u8, u8)>>, index: usize, outline: (u8, u8))
    ensures { cells.new.items ≡ filled_slot index outline cells.old.items }
{
    if index < cells.len() {
        cells[index] = Some(outline);
    }
}
