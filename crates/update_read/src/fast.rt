//! The updates of a packet of the fast path ([MS-RDPBCGR] 2.2.9.1.2).
//!
//! | offset | size | field | value |
//! |---|---|---|---|
//! | 0 | 1 | action, and flags | `00`, looked at as soon as it is there, and only where the viewer takes the fast path |
//! | 1 | 1 or 2 | length | of the packet: in one byte below 128, or in two, the highest first, with the top bit set; at least its own bytes and the one before, looked at as soon as it is there |
//! | 2 or 3 | | updates | one at least, to the packet's end, looked at where it is whole |
//!
//! An update:
//!
//! | offset | size | field | value |
//! |---|---|---|---|
//! | 0 | 1 | code, with its bits of fragments and compression | `00` orders, `01` bitmap, `03` synchronize |
//! | 1 | 2 | size | of the data |
//! | 3 | size | data | |

ghost use Rattle.std.specs.Prelude.{◌≡◌, ◌≤◌, ◌<◌, IfOk, IfSome};
ghost use Rattle.wire_num.specs.Cursor.{ReadsFieldsAs};
ghost use Rattle.order_means.specs.Updates.{form_of, fast_update_at};
ghost use Rattle.update_read.specs.Forms.{told_form, told_forms, data_at};
ghost use Rattle.update_read.specs.Cutters.{fast_length, told_found, IsFound};

use crate::BodyForm;
use crate::state::Found;
use wire_num::{Cursor, Range, Short};

const CODE_ORDERS: u8 = 0x00;

const CODE_BITMAP: u8 = 0x01;

const CODE_SYNCHRONIZE: u8 = 0x03;

/// A first length byte from this on is followed by another one.
const LONG: u8 = 0x80;

/// The bytes of the header with a length of one byte, or of two.
const SHORT_SIZE: usize = 2;

const LONG_SIZE: usize = 3;

/// How many bytes the header of a packet has, its length included, and that length; none where it isn't all there.
#[tactic(auto, using(crate::proofs::FastJudged::no_second, crate::proofs::FastJudged::short_second, crate::proofs::FastJudged::long_second, crate::proofs::FastJudged::third))]
pub(crate) fn fast_length(packet: &[u8]) -> Option<(usize, usize)>
    ensures value { result ≡ fast_length packet.now }
    ensures most { IfSome result (λ m. m.1 ≤ 32767) }
{
    let count = packet.len();
    if count < SHORT_SIZE {
        return None;
    }
    let first = packet[1];
    if first < LONG {
        return Some((SHORT_SIZE, usize::from(first)));
    }
    if count < LONG_SIZE {
        return None;
    }
    Some((
        LONG_SIZE,
        256 * usize::from(first - LONG) + usize::from(packet[2]),
    ))
}

/// How an update came, by its code.
fn form_of(code: u8) -> Option<BodyForm>
    ensures { told_forms result ≡ form_of code }
{
    match code {
        CODE_ORDERS => Some(BodyForm::FastOrders),
        CODE_BITMAP => Some(BodyForm::FastBitmap),
        CODE_SYNCHRONIZE => Some(BodyForm::FastSynchronize),
        _ => None,
    }
}

/// Reads the size and the data behind a code.
fn read_fast_data(form: BodyForm, cursor: &mut Cursor<'_>) -> Result<Found, Short>
    ensures fields { ReadsFieldsAs (told_found cursor.old.bytes) (data_at (told_form form)) result cursor.old cursor.new }
    ensures place { IfOk result (λ found. IsFound found cursor.new) }
{
    let count = cursor.u16_le()?;
    let from = cursor.at();
    cursor.bytes(usize::from(count))?;
    let to = cursor.at();
    Ok(Found {
        form,
        body: Range { from, to },
        behind: to,
    })
}

/// Reads an update.
pub(crate) fn read_fast_update(cursor: &mut Cursor<'_>) -> Result<Found, Short>
    ensures fields { ReadsFieldsAs (told_found cursor.old.bytes) fast_update_at result cursor.old cursor.new }
    ensures place { IfOk result (λ found. IsFound found cursor.new) }
{
    let first = cursor.at();
    let code = cursor.u8()?;
    match form_of(code) {
        Some(form) => read_fast_data(form, cursor),
        None => {
            cursor.go_to(first);
            Err(Short { at: first })
        }
    }
}
