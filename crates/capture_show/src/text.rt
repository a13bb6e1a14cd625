//! Texts that say what is shown: a picture in portable pixel format (PPM, `P6`), or one line.
//!
//! | part | what it is |
//! |---|---|
//! | `P6` | the format, and a line feed |
//! | `# marks M orders O tiles T` | a remark: what was counted, and a line feed |
//! | `W H` | the sides, and a line feed |
//! | `255` | the greatest value, and a line feed |
//! | pixels | red, green and blue, row by row from the top |
ghost use Rattle.std.specs.Prelude.{◌≡◌, ◌++◌, ◌<◌, decimal, IfOk, OnOk, None};
ghost use Rattle.px_core.specs.Picture.{pixel_at};
ghost use Rattle.client_view.specs.Widened.{widened_picture};
ghost use Rattle.capture_show.specs.Shown.{line_of, pixel_text, row_text, picture_head};

use crate::OutOfMemory;
use client_view::Client;
use line_text::write_decimal;
use px_core::Size;
use std::alloc::Global;

/// A line of a word and a number.
pub(crate) fn number_line(alloc: Global, word: &[u8], number: u64) -> Result<Vec<u8>, OutOfMemory>
    ensures { IfOk result (λ text. text.items ≡ line_of (word.now ++ decimal number)) }
{
    let mut text = word.to_vec(alloc)?;
    write_decimal(alloc, &mut text, number)?;
    text.extend_from_slice(b"\n")?;
    Ok(text)
}

/// The head of a picture, with what was counted.
pub(crate) fn picture_head(
    alloc: Global,
    size: Size,
    marks: u64,
    orders: u64,
    tiles: u64,
) -> Result<Vec<u8>, OutOfMemory>
    ensures { IfOk result (λ text. text.items ≡ picture_head size marks orders tiles) }
{
    let mut head = Vec::new(alloc);
    add_number(alloc, &mut head, b"P6\n# marks ", marks)?;
    add_number(alloc, &mut head, b" orders ", orders)?;
    add_number(alloc, &mut head, b" tiles ", tiles)?;
    add_number(alloc, &mut head, b"\n", u64::from(size.w))?;
    add_number(alloc, &mut head, b" ", u64::from(size.h))?;
    head.extend_from_slice(b"\n255\n")?;
    Ok(head)
}

/// Appends a word and a number.
fn add_number(alloc: Global, out: &mut Vec<u8>, word: &[u8], number: u64) -> Result<(), OutOfMemory>
    ensures { OnOk result (out.new.items ≡ out.old.items ++ (word.now ++ decimal number)) }
{
    out.extend_from_slice(word)?;
    write_decimal(alloc, out, number)
}

/// Appends the pixels that a row had at the last mark.
pub(crate) fn add_row(out: &mut Vec<u8>, client: &Client, y: u32) -> Result<(), OutOfMemory>
    requires { y < client.now.viewer.pictures.size.h }
    ensures { OnOk result (out.new.items ≡ out.old.items ++ row_text
        (λ x. pixel_at client.now.viewer.pictures.size (widened_picture client.now.viewer.pictures.depth client.now.viewer.pictures.marked) None x y) client.now.viewer.pictures.size.w) }
{
    for x in 0..client.size().w {
        out.extend_from_slice(&pixel_text(client.marked(x, y)))?;
    }
    Ok(())
}

/// Red, green and blue of a pixel; an unknown one is black.
fn pixel_text(pixel: Option<u32>) -> [u8; 3]
    ensures { result ≡ pixel_text pixel }
{
    match pixel {
        Some(color) => [
            (color / 65_536 % 256) as u8,
            (color / 256 % 256) as u8,
            (color % 256) as u8,
        ],
        None => [0, 0, 0],
    }
}
