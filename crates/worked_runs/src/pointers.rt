//! Captures with what they show of the pointer.

use crate::ending::Ending;
use crate::expected::first_difference;
use crate::files;
use crate::row::number;
use crate::turns::otherwise;
use crate::verdict::{Found, Trouble, Way};
use caps_sets::Confirmed;
use capture_show::{CaptureReader, Told};
use edge_io::{Bytes, OutOfMemory};
use fast_path::next_in_stream;
use pointer_share::{PointerView, ViewFault};
use std::alloc::{AllocError, Global};
use std::rt::Files;
use tpkt_x224::Packet;

/// The word where no shape is shown.
const NONE: &str = "none";

/// Reads a capture for a viewer, and compares the shape that it shows behind each of its lines with bytes with the row's.
pub fn run_row<R: Files + AllocGlobal>(rt: &R, words: &[&str]) -> Result<(), Trouble> {
    let [name, viewer, shapes @ ..] = words else {
        return Err(Trouble::NoForm);
    };
    let alloc = rt.alloc();
    let viewer = number(viewer, u16::MAX.into())? as u16;
    let capture = files::read_of(rt, name, "capture")?;
    let found = shapes_of(alloc, viewer, capture)?;
    let wanted = shapes.join(alloc, " ")?;
    match first_difference(found.as_bytes(), wanted.as_bytes()) {
        Some(at) => otherwise(Way::Whole, Found::Byte(at)),
        None => Ok(()),
    }
}

/// The words of the shapes that a viewer shows behind each of its lines with bytes, with a space between them.
fn shapes_of(alloc: Global, viewer: u16, capture: Vec<u8>) -> Result<String, Trouble> {
    let mut input = Bytes::new(capture, Vec::new(alloc));
    let mut reader = CaptureReader::new(alloc, viewer)?;
    let mut view = PointerView::new(alloc, 0)?;
    let mut shapes = Vec::new(alloc);
    for _ in 0..u64::MAX {
        match reader.next_line(&mut input)? {
            Told::Joined { confirmed, .. } => view = view_of(alloc, &confirmed)?,
            Told::Bytes => {
                feed(&mut view, reader.bytes())?;
                push_word(alloc, &mut shapes, view.shape())?;
            }
            Told::Other => {}
            Told::End => break,
            Told::Broken { .. } | Told::Failed => return not_shown(),
        }
    }
    Ok(shapes.join(alloc, " ")?)
}

/// The view of a viewer that confirmed this, before its first packet.
fn view_of(alloc: Global, confirmed: &Confirmed) -> Result<PointerView, OutOfMemory> {
    let cells = confirmed.pointer_cells();
    if confirmed.cautious {
        PointerView::cautious(alloc, cells)
    } else {
        PointerView::new(alloc, cells)
    }
}

/// Feeds a view the packets of a line one by one, of which there are no more than bytes.
fn feed(view: &mut PointerView, line: &[u8]) -> Result<(), Trouble> {
    let mut left = line;
    for _ in 0..line.len() {
        if left.is_empty() {
            break;
        }
        let Some((packet, behind)) = first_packet(left) else {
            return not_shown();
        };
        must_read(view, packet)?;
        left = behind;
    }
    Ok(())
}

/// A view must not refuse a packet.
fn must_read(view: &mut PointerView, packet: &[u8]) -> Result<(), Trouble> {
    match view.feed(packet) {
        Ok(_) => Ok(()),
        Err(ViewFault::BadPointer { .. } | ViewFault::NoEntry { .. }) => not_shown(),
        Err(ViewFault::OutOfMemory) => Err(Trouble::OutOfMemory),
    }
}

/// The whole packet at the head of bytes, and what stands behind it.
fn first_packet(bytes: &[u8]) -> Option<(&[u8], &[u8])> {
    match next_in_stream(bytes) {
        Packet::Whole(size) => bytes.split_at_checked(size),
        Packet::Part | Packet::NotTpkt | Packet::BadLength => None,
    }
}

/// Appends the word of a shape: the blue byte of its colour, and the bits of its top row.
fn push_word(
    alloc: Global,
    words: &mut Vec<String>,
    shape: Option<(u8, u8)>,
) -> Result<(), AllocError> {
    match shape {
        Some((blue, top)) => words.push(format!(in alloc; "{blue:02x}:{top:02x}")?)?,
        None => words.push(String::from_str(alloc, NONE)?)?,
    }
    Ok(())
}

/// The trouble that a capture, or what the viewer was sent in it, isn't accepted.
fn not_shown<T>() -> Result<T, Trouble> {
    otherwise(Way::Whole, Found::Ending(Ending::NotShown))
}
