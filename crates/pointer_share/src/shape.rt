//! The bytes of a pointer's shape ([MS-RDPBCGR] 2.2.9.1.1.4.4).

ghost use Rattle.std.specs.Prelude.{◌≡◌, ◌≤◌, ◌<◌, ◌++◌, ◌+◌, ◌*◌, ◌/◌, ◌%◌, ◌∷◌, [], if◌then◌else◌, OnOk};
ghost use Rattle.byteorder.specs.Endian.{little_bytes};
ghost use Rattle.frame_rules.specs.Pointers.{rows_of, pointer_color, part_of, row_colors, wide_colors, colors_up, masks_up};
ghost use Rattle.pointer_share.specs.Parts.{parts_of, rows_in};

use wire_num::OutOfMemory;

/// The arrow, which is shown where nothing was typed.
const ARROW: Rows = Rows {
    first: 0x80,
    second: 0xC0,
    third: 0xE0,
    fourth: 0xF0,
    fifth: 0xF8,
    sixth: 0xFC,
    seventh: 0xFE,
    last: 0xFF,
};

/// The rows of a pointer, from the top.
#[derive(Clone, Copy)]
pub struct Rows {
    first: u8,
    second: u8,
    third: u8,
    fourth: u8,
    fifth: u8,
    sixth: u8,
    seventh: u8,
    last: u8,
}

/// A colour.
#[derive(Clone, Copy)]
pub struct Color {
    blue: u8,
    green: u8,
    red: u8,
}

/// What the holders' colours are multiples of, and the number of colours.
const SHADE: u32 = 1_118_481;

const COLORS: u32 = 16_777_216;

/// The rows of a pointer, from the top: the sign of its code, or the arrow.
pub fn rows_of(code: u8) -> Rows
    requires { code ≤ 126 }
    ensures { rows_in result ≡ rows_of code }
{
    if code == 0 {
        return ARROW;
    }
    Rows {
        first: rotated(code, 1),
        second: rotated(code, 2),
        third: rotated(code, 4),
        fourth: rotated(code, 8),
        fifth: rotated(code, 16),
        sixth: rotated(code, 32),
        seventh: rotated(code, 64),
        last: rotated(code, 128),
    }
}

/// A code times a power of two, the bits above the eighth at its end.
fn rotated(code: u8, power: u16) -> u8
    requires small { code * power ≤ 32767 }
    requires fits { (code * power) % 256 + (code * power) / 256 ≤ 255 }
    ensures { result ≡ (code * power) % 256 + (code * power) / 256 }
{
    let n = u16::from(code) * power;
    (n % 256 + n / 256) as u8
}

/// The colour of a holder: blue, green and red.
pub fn color_of(holder: u8) -> Color
    requires { holder < 16 }
    ensures { parts_of result ≡ little_bytes 3 (pointer_color holder) }
{
    let color = (u32::from(holder) + 1) * SHADE % COLORS;
    let [blue, green, red, _] = color.to_le_bytes();
    Color { blue, green, red }
}

/// A byte of a pixel's colour, where the row has the column of this bit.
fn part_of(row: u8, bit: u8, part: u8) -> u8
    requires { 0 < bit }
    ensures { result ≡ part_of row bit part }
{
    if row / bit % 2 == 1 { part } else { 0 }
}

/// The colours of a row of eight columns.
fn row_colors(blue: u8, green: u8, red: u8, row: u8) -> [u8; 24]
    ensures { result ≡ row_colors (blue ∷ green ∷ red ∷ []) row }
{
    [
        part_of(row, 128, blue),
        part_of(row, 128, green),
        part_of(row, 128, red),
        part_of(row, 64, blue),
        part_of(row, 64, green),
        part_of(row, 64, red),
        part_of(row, 32, blue),
        part_of(row, 32, green),
        part_of(row, 32, red),
        part_of(row, 16, blue),
        part_of(row, 16, green),
        part_of(row, 16, red),
        part_of(row, 8, blue),
        part_of(row, 8, green),
        part_of(row, 8, red),
        part_of(row, 4, blue),
        part_of(row, 4, green),
        part_of(row, 4, red),
        part_of(row, 2, blue),
        part_of(row, 2, green),
        part_of(row, 2, red),
        part_of(row, 1, blue),
        part_of(row, 1, green),
        part_of(row, 1, red),
    ]
}

/// Writes the colours of a row at the end.
fn put_row(out: &mut Vec<u8>, wide: bool, color: Color, row: u8) -> Result<(), OutOfMemory>
    ensures { OnOk result (out.new.items ≡ out.old.items ++ wide_colors wide (parts_of color) row) }
{
    out.extend_from_slice(&row_colors(color.blue, color.green, color.red, row))?;
    if wide {
        out.extend_from_slice(&[0; 24])?;
    }
    Ok(())
}

/// Writes the colours of rows at the end, the bottom row first.
pub fn put_colors(
    out: &mut Vec<u8>,
    wide: bool,
    color: Color,
    rows: Rows,
) -> Result<(), OutOfMemory>
    ensures { OnOk result (out.new.items ≡ out.old.items ++ colors_up wide (parts_of color) (rows_in rows)) }
{
    put_row(out, wide, color, rows.last)?;
    put_row(out, wide, color, rows.seventh)?;
    put_row(out, wide, color, rows.sixth)?;
    put_row(out, wide, color, rows.fifth)?;
    put_row(out, wide, color, rows.fourth)?;
    put_row(out, wide, color, rows.third)?;
    put_row(out, wide, color, rows.second)?;
    put_row(out, wide, color, rows.first)?;
    Ok(())
}

/// The mask of the right half of a row.
fn right_of(wide: bool) -> u8
    ensures { result ≡ (if wide then 0xFF else 0) }
{
    if wide { 0xFF } else { 0 }
}

/// The mask of rows, the bottom row first.
pub fn mask_of(wide: bool, rows: Rows) -> [u8; 16]
    ensures { result ≡ masks_up wide (rows_in rows) }
{
    let right = right_of(wide);
    [
        255 - rows.last,
        right,
        255 - rows.seventh,
        right,
        255 - rows.sixth,
        right,
        255 - rows.fifth,
        right,
        255 - rows.fourth,
        right,
        255 - rows.third,
        right,
        255 - rows.second,
        right,
        255 - rows.first,
        right,
    ]
}
