//! The share data PDU of an update ([MS-RDPBCGR] 2.2.8.1.1.1 and 2.2.9.1.1), and one of another kind up to its kind.
//!
//! | offset | size | field | value |
//! |---|---|---|---|
//! | 0 | 2 | totalLength | at least 6, and at most what is there |
//! | 2 | 2 | pduType | the low four bits of its first byte are 7 |
//! | 4 | 2 | pduSource | |
//! | 6 | 4 | shareID | |
//! | 10 | 1 | pad | |
//! | 11 | 1 | streamId | |
//! | 12 | 2 | uncompressedLength | |
//! | 14 | 1 | pduType2 | `02`, or another kind |
//! | 15 | 1 | generalCompressedType | `00` |
//! | 16 | 2 | generalCompressedLength | |
//! | 18 | | the update's body, to the total | |

ghost use Rattle.std.specs.Prelude.{◌≡◌, ◌≤◌, nat_le, ◌&&◌, true, [], length, IfOk};
ghost use Rattle.wire_num.specs.Cursor.{ReadsFieldAs, ReadsFieldsAs, rest};
ghost use Rattle.share_pdu.specs.Share.{headers_at, share_at};
ghost use Rattle.order_means.specs.PointerPackets.{pdu_type_at, head_at, kind_at, compression_at, content_at};
ghost use Rattle.update_read.specs.PacketParts.{total_at, IsPart, ReadsBody, FindsContent};

use wire_num::{Cursor, Range, Short};

/// PDUTYPE_DATAPDU, in the low four bits of pduType.
const PDUTYPE_DATAPDU: u8 = 0x07;

const TYPE_UNIT: u8 = 0x10;

const PDUTYPE2_UPDATE: u8 = 0x02;

const UNCOMPRESSED: u8 = 0x00;

/// The bytes of totalLength, and the least total that is read.
const TOTAL_SIZE: usize = 2;

const LEAST_TOTAL: usize = 6;

/// Reads pduType, which says a data PDU.
fn read_pdu_type<'a>(cursor: &mut Cursor<'a>) -> Result<&'a [u8], Short>
    ensures { ReadsFieldAs (λ part. part.now) pdu_type_at result cursor.old cursor.new }
{
    let at = cursor.at();
    let kind = cursor.bytes(2)?;
    if kind[0] % TYPE_UNIT != PDUTYPE_DATAPDU {
        return Err(refused(cursor, at));
    }
    Ok(kind)
}

/// Reads the headers up to uncompressedLength.
fn read_head<'a>(cursor: &mut Cursor<'a>) -> Result<&'a [u8], Short>
    ensures { ReadsFieldsAs (λ part. part.now) head_at result cursor.old cursor.new }
{
    read_pdu_type(cursor)?;
    cursor.bytes(2)?;
    cursor.bytes(4)?;
    cursor.bytes(1)?;
    cursor.bytes(1)?;
    cursor.bytes(2)
}

/// Reads the headers up to pduType2, which says this kind.
fn read_kind(kind: u8, cursor: &mut Cursor<'_>) -> Result<(), Short>
    ensures { ReadsFieldsAs (λ _. []) (kind_at kind) result cursor.old cursor.new }
{
    read_head(cursor)?;
    cursor.expect(&[kind])
}

/// Reads the headers behind pduType2.
fn read_compression<'a>(cursor: &mut Cursor<'a>) -> Result<&'a [u8], Short>
    ensures { ReadsFieldsAs (λ part. part.now) compression_at result cursor.old cursor.new }
{
    cursor.expect(&[UNCOMPRESSED])?;
    cursor.bytes(2)
}

/// Reads an update's headers behind the total.
#[tactic(auto, using(crate::proofs::Headers::both_parts))]
fn read_headers<'a>(cursor: &mut Cursor<'a>) -> Result<&'a [u8], Short>
    ensures { ReadsFieldsAs (λ part. part.now) headers_at result cursor.old cursor.new }
{
    read_kind(PDUTYPE2_UPDATE, cursor)?;
    read_compression(cursor)
}

/// The refusal of the field at an offset, where the cursor is then.
fn refused(cursor: &mut Cursor<'_>, at: usize) -> Short
    requires { at ≤ length cursor.old.bytes }
    ensures refused { result ≡ record { at = at } }
    ensures place { cursor.new ≡ record { bytes = cursor.old.bytes; at = at } }
{
    cursor.go_to(at);
    Short { at }
}

/// Whether a total is one, and at most what is there.
fn fits(total: usize, left: usize) -> bool
    ensures test { result ≡ (nat_le 6 total && nat_le total left) }
    ensures least { result ≡ true → 6 ≤ total }
    ensures room { result ≡ true → total ≤ left }
{
    LEAST_TOTAL <= total && total <= left
}

/// Reads the total, and gives what stands within it.
fn read_total<'a>(cursor: &mut Cursor<'a>) -> Result<Cursor<'a>, Short>
    ensures field { ReadsFieldAs (λ content. rest content) total_at result cursor.old cursor.new }
    ensures part { IfOk result (λ content. IsPart content cursor.old cursor.new) }
{
    let first = cursor.at();
    let left = cursor.left();
    let total = usize::from(cursor.u16_le()?);
    if !fits(total, left) {
        return Err(refused(cursor, first));
    }
    match cursor.within(total - TOTAL_SIZE) {
        Ok(content) => Ok(content),
        Err(_) => Err(refused(cursor, first)),
    }
}

/// Reads a share data PDU to the end, and gives the part of the slice that is the update's body.
pub fn read_share(cursor: &mut Cursor<'_>) -> Result<Range, Short>
    ensures { ReadsBody share_at result cursor.old cursor.new }
{
    let mut content = read_total(cursor)?;
    match read_headers(&mut content) {
        Ok(_) => Ok(Range {
            from: content.at(),
            to: cursor.at(),
        }),
        Err(_) => Err(refused(cursor, content.at())),
    }
}

/// Reads a share data PDU up to its kind, and gives what stands behind that, to the end of the total.
pub fn read_content<'a>(kind: u8, cursor: &mut Cursor<'a>) -> Result<Cursor<'a>, Short>
    ensures { FindsContent cursor.old.bytes (content_at kind (rest cursor.old)) result }
{
    let mut content = read_total(cursor)?;
    read_kind(kind, &mut content)?;
    Ok(content)
}
