//! A picture, written row by row.
ghost use Rattle.std.specs.Prelude.{◌<◌, None, IfErr};
ghost use Rattle.px_core.specs.Picture.{pixel_at};
ghost use Rattle.client_view.specs.Widened.{widened_picture};
ghost use Rattle.capture_show.specs.Answers.{Writes, WriteCause, IsWriteFault};
ghost use Rattle.capture_show.specs.Shown.{row_text, rows_text, picture_text};

use crate::text::{add_row, picture_head};
use crate::writing::{put, put_made};
use crate::{OutOfMemory, ShowFault};
use client_view::Client;
use edge_io::Sink;
use std::alloc::Global;

/// Writes the picture of a client's last mark, with what was counted. An `Err` leaves a front of it there.
pub(crate) fn write_picture<K: Sink>(
    alloc: Global,
    client: &Client,
    output: &mut K,
) -> Result<(), ShowFault>
    ensures written { Writes result (picture_text client.now.viewer.pictures.size client.now.viewer.marks client.now.viewer.orders
        client.now.viewer.tiles (widened_picture client.now.viewer.pictures.depth client.now.viewer.pictures.marked)) (K.told output.old) (K.told output.new) }
    ensures fault { IfErr result IsWriteFault }
    ensures cause { WriteCause result (K.faults output.old) (K.faults output.new) }
{
    let head = picture_head(
        alloc,
        client.size(),
        client.marks(),
        client.orders(),
        client.tiles(),
    );
    match put_made(output, head) {
        Ok(()) => write_rows(alloc, client, output),
        Err(fault) => Err(fault),
    }
}

/// Writes the pixels of the last mark. An `Err` leaves a front of them there.
fn write_rows<K: Sink>(alloc: Global, client: &Client, output: &mut K) -> Result<(), ShowFault>
    ensures written { Writes result (rows_text client.now.viewer.pictures.size.w
        (λ x y. pixel_at client.now.viewer.pictures.size (widened_picture client.now.viewer.pictures.depth client.now.viewer.pictures.marked) None x y) client.now.viewer.pictures.size.h)
        (K.told output.old) (K.told output.new) }
    ensures fault { IfErr result IsWriteFault }
    ensures cause { WriteCause result (K.faults output.old) (K.faults output.new) }
{
    let mut row = Vec::new(alloc);
    for y in 0..client.size().h {
        write_row(client, y, &mut row, output)?;
    }
    Ok(())
}

/// Writes the pixels that a row had at the last mark; `row` is room for them. An `Err` leaves a front of them there.
fn write_row<K: Sink>(
    client: &Client,
    y: u32,
    row: &mut Vec<u8>,
    output: &mut K,
) -> Result<(), ShowFault>
    requires { y < client.now.viewer.pictures.size.h }
    ensures written { Writes result (row_text (λ x. pixel_at client.now.viewer.pictures.size (widened_picture client.now.viewer.pictures.depth client.now.viewer.pictures.marked) None x y)
        client.now.viewer.pictures.size.w) (K.told output.old) (K.told output.new) }
    ensures fault { IfErr result IsWriteFault }
    ensures cause { WriteCause result (K.faults output.old) (K.faults output.new) }
{
    row.clear();
    match add_row(row, client, y) {
        Ok(()) => put(output, row),
        Err(OutOfMemory) => Err(ShowFault::OutOfMemory),
    }
}
