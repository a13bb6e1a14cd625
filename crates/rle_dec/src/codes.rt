//! The table of codes ([MS-RDPBCGR] 2.2.9.1.1.3.1.2.4).
ghost use Rattle.std.specs.Prelude.{◌≡◌, ◌≤◌, IfSome};
ghost use Rattle.run_lengths.specs.Codes.{row, row_of};

use px_core::{Depth, white};
use run_lengths::{Length, Row, RunKind};

const RUN: Length = Length::InCode(1, 32);

const MASK: Length = Length::InCode(8, 1);

const LITE_RUN: Length = Length::InCode(1, 16);

const LITE_MASK: Length = Length::InCode(8, 1);

const MASK_OF_FIRST: u8 = 0x03;

const MASK_OF_SECOND: u8 = 0x05;

const BLACK: u32 = 0;

/// The row of a code, or none.
pub fn find_row(code: u8, depth: Depth) -> Option<Row>
    ensures is { result ≡ row_of depth code }
    ensures first { IfSome result (λ r. r.first ≤ code) }
{
    match code {
        0x00..=0x1F => Some(table_row(0x00, 0x1F, false, RunKind::BackgroundRun, RUN)),
        0x20..=0x3F => Some(table_row(0x20, 0x3F, false, RunKind::ForegroundRun, RUN)),
        0x40..=0x5F => Some(table_row(0x40, 0x5F, false, RunKind::MaskImage, MASK)),
        0x60..=0x7F => Some(table_row(0x60, 0x7F, false, RunKind::ColorRun, RUN)),
        0x80..=0x9F => Some(table_row(0x80, 0x9F, false, RunKind::ColorImage, RUN)),
        0xC0..=0xCF => Some(table_row(0xC0, 0xCF, true, RunKind::ForegroundRun, LITE_RUN)),
        0xD0..=0xDF => Some(table_row(0xD0, 0xDF, true, RunKind::MaskImage, LITE_MASK)),
        0xE0..=0xEF => Some(table_row(0xE0, 0xEF, false, RunKind::DitheredRun, LITE_RUN)),
        0xF0 => Some(table_row(0xF0, 0xF0, false, RunKind::BackgroundRun, Length::TwoBytes)),
        0xF1 => Some(table_row(0xF1, 0xF1, false, RunKind::ForegroundRun, Length::TwoBytes)),
        0xF2 => Some(table_row(0xF2, 0xF2, false, RunKind::MaskImage, Length::TwoBytes)),
        0xF3 => Some(table_row(0xF3, 0xF3, false, RunKind::ColorRun, Length::TwoBytes)),
        0xF4 => Some(table_row(0xF4, 0xF4, false, RunKind::ColorImage, Length::TwoBytes)),
        0xF6 => Some(table_row(0xF6, 0xF6, true, RunKind::ForegroundRun, Length::TwoBytes)),
        0xF7 => Some(table_row(0xF7, 0xF7, true, RunKind::MaskImage, Length::TwoBytes)),
        0xF8 => Some(table_row(0xF8, 0xF8, false, RunKind::DitheredRun, Length::TwoBytes)),
        0xF9 => Some(table_row(
            0xF9,
            0xF9,
            false,
            RunKind::FixedMask(MASK_OF_FIRST),
            Length::Fixed(8),
        )),
        0xFA => Some(table_row(
            0xFA,
            0xFA,
            false,
            RunKind::FixedMask(MASK_OF_SECOND),
            Length::Fixed(8),
        )),
        0xFD => Some(table_row(
            0xFD,
            0xFD,
            false,
            RunKind::FixedColor(white(depth)),
            Length::Fixed(1),
        )),
        0xFE => Some(table_row(
            0xFE,
            0xFE,
            false,
            RunKind::FixedColor(BLACK),
            Length::Fixed(1),
        )),
        _ => None,
    }
}

fn table_row(first: u8, last: u8, sets_foreground: bool, kind: RunKind, length: Length) -> Row
    ensures { result ≡ row first last sets_foreground kind length }
{
    Row {
        first,
        last,
        sets_foreground,
        kind,
        length,
    }
}
