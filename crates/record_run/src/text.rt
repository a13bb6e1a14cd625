//! Texts that say what a record shows: a picture in portable pixel format (PPM, `P6`), or one line.
//!
//! | part | what it is |
//! |---|---|
//! | `P6` | the format, and a line feed |
//! | `# entries N` | a remark: after how many entries, and a line feed |
//! | `W H` | the sides, and a line feed |
//! | `255` | the greatest value, and a line feed |
//! | pixels | red, green and blue, row by row from the top |
ghost use Rattle.std.specs.Prelude.{◌≡◌, ◌++◌, decimal, IfOk, OnOk};
ghost use Rattle.byteorder.specs.Endian.{big_bytes};
ghost use Rattle.record_rules.specs.Fields.{colors_bytes};
ghost use Rattle.record_run.specs.Shown.{line_of, with_number, picture_head};

use crate::OutOfMemory;
use line_text::write_decimal;
use px_core::Size;
use std::alloc::Global;

/// A line of a word and a number.
pub(crate) fn number_line(alloc: Global, word: &[u8], number: u64) -> Result<Vec<u8>, OutOfMemory>
    ensures { IfOk result (λ text. text.items ≡ line_of (with_number word.now number)) }
{
    let mut text = Vec::new(alloc);
    add_number(alloc, &mut text, word, number)?;
    text.extend_from_slice(b"\n")?;
    Ok(text)
}

/// The head of a picture after so many entries.
pub(crate) fn picture_head(alloc: Global, size: Size, stop: u64) -> Result<Vec<u8>, OutOfMemory>
    ensures { IfOk result (λ text. text.items ≡ picture_head size stop) }
{
    let mut head = Vec::new(alloc);
    add_number(alloc, &mut head, b"P6\n# entries ", stop)?;
    add_number(alloc, &mut head, b"\n", u64::from(size.w))?;
    add_number(alloc, &mut head, b" ", u64::from(size.h))?;
    head.extend_from_slice(b"\n255\n")?;
    Ok(head)
}

/// Appends a word and a number.
fn add_number(alloc: Global, out: &mut Vec<u8>, word: &[u8], number: u64) -> Result<(), OutOfMemory>
    ensures { OnOk result (out.new.items ≡ out.old.items ++ with_number word.now number) }
{
    out.extend_from_slice(word)?;
    write_decimal(alloc, out, number)
}

/// Appends pixels: red, green and blue of each.
pub(crate) fn add_pixels(out: &mut Vec<u8>, pixels: &[u32]) -> Result<(), OutOfMemory>
    ensures { OnOk result (out.new.items ≡ out.old.items ++ colors_bytes pixels.now) }
{
    for color in pixels {
        add_color(out, *color)?;
    }
    Ok(())
}

/// Appends a pixel: red, green and blue.
fn add_color(out: &mut Vec<u8>, color: u32) -> Result<(), OutOfMemory>
    ensures { OnOk result (out.new.items ≡ out.old.items ++ big_bytes 3 color) }
{
    let [_, red, green, blue] = color.to_be_bytes();
    out.extend_from_slice(&[red, green, blue])?;
    Ok(())
}
