//! The Client Info PDU ([MS-RDPBCGR] 2.2.1.11.1), from its security header on.
//!
//! | offset | size | field | value |
//! |---|---|---|---|
//! | 0 | 2 | flags of the security header | with `0040` SEC_INFO_PKT |
//! | 2 | 2 | flagsHi | not read |
//! | 4 | 4 | CodePage | not read |
//! | 8 | 4 | flags | `00000010` INFO_UNICODE: texts are UTF-16, else single bytes |
//! | 12 | 2 | cbDomain | bytes of each text, without its terminator |
//! | 14 | 2 | cbUserName | |
//! | 16 | 2 | cbPassword | |
//! | 18 | 2 | cbAlternateShell | |
//! | 20 | 2 | cbWorkingDir | |
//! | 22 | | Domain, UserName, Password, AlternateShell, WorkingDir | each with its terminator, two zero bytes or one |
//!
//! What follows isn't read. A user name of more than 64 characters, with one that isn't ASCII, or with half a code unit is the
//! empty name (profile).

ghost use Rattle.std.specs.Prelude.{◌≡◌, ◌↔◌, ◌≤◌, ◌+◌, ℕ, List, [], Ok, Err, IfOk, OnOk, length, take, drop};
ghost use Rattle.wire_num.specs.Layout.{fields_at};
ghost use Rattle.wire_num.specs.Cursor.{rest, ReadsField, ReadsFieldAs, ReadsFields, ReadsFieldsAs, ReadsRows};
ghost use Rattle.wire_num.specs.Field.{map_read, wanted};
ghost use Rattle.wire_num.specs.Number.{little_at};
ghost use Rattle.wire_num.specs.FieldValue.{passing_at, has_bits};
ghost use Rattle.info_lic.specs.ClientInfo.{info_start, counts_of, terminator, text, other_texts, info_texts, user_in, named, utf16_units, named_by};
ghost use Rattle.info_lic.specs.ClientInfo.{name_in, info_at, name_of};
ghost use Rattle.info_lic.specs.Grammar.{IsClientInfo};
ghost use Rattle.info_lic.specs.Faults.{IsFirstFault};

use crate::info_fault::InfoFault;
use crate::name::{NAME_LENGTH, Name};
use wire_num::{Cursor, Short};

/// The flag of a Client Info PDU in its security header.
const SEC_INFO_PKT: u16 = 0x0040;

/// The bytes of flagsHi, and of CodePage.
const FLAGS_HI_SIZE: usize = 2;

const CODE_PAGE_SIZE: usize = 4;

/// Texts are UTF-16.
const INFO_UNICODE: u32 = 0x0000_0010;

/// What stands behind a text of UTF-16, and behind one of single bytes.
const WIDE_TERMINATOR: [u8; 2] = [0, 0];

const TERMINATOR: [u8; 1] = [0];

/// The bytes of a code unit of UTF-16.
const UNIT_SIZE: usize = 2;

/// How texts are written, and how many bytes each has without its terminator.
#[derive(Clone, Copy, Debug, PartialEq, Eq)]
pub struct Counts {
    /// They are UTF-16.
    pub unicode: bool,
    pub domain: u16,
    pub user: u16,
    pub password: u16,
    pub shell: u16,
    pub directory: u16,
}

/// Reads the user name of a Client Info PDU, from its security header on ([MS-RDPBCGR] 2.2.1.11.1).
pub fn read_info(body: &[u8]) -> Result<Name, InfoFault>
    ensures { result ≡ name_of body.now }
{
    let mut cursor = Cursor::new(body);
    match read_client_info(&mut cursor) {
        Ok(name) => Ok(name),
        Err(_) => Err(InfoFault::BadInfo { at: cursor.at() }),
    }
}

/// The law of Client Info PDUs: one is read exactly where its fields stand there, and its name is the user name's characters,
/// where they are a name, else the empty one. It is refused exactly for the first fault there, at its place.
pub fn infos_are_read_exactly()
    ensures exact { (bytes name : List ℕ) → (name_of bytes ≡ Ok name) ↔ IsClientInfo bytes name }
    ensures refused { (bytes : List ℕ) (fault : InfoFault) → (name_of bytes ≡ Err fault) ↔ IsFirstFault bytes fault }
{}

/// Reads all fields, and gives the user name.
#[tactic(auto, unfolding(crate::specs::ClientInfo::info_at))]
fn read_client_info(cursor: &mut Cursor<'_>) -> Result<Name, Short>
    ensures { ReadsFields info_at result cursor.old cursor.new }
{
    let counts = read_counts(cursor)?;
    let user = read_texts(counts, cursor)?;
    Ok(name_in(counts.unicode, user))
}

/// Reads what stands before the texts.
#[tactic(auto, unfolding(crate::specs::ClientInfo::info_start, wire_num::specs::FieldValue::passing_at))]
fn read_counts(cursor: &mut Cursor<'_>) -> Result<Counts, Short>
    ensures { ReadsFields (λ bs. map_read counts_of (fields_at info_start bs)) result cursor.old cursor.new }
{
    read_security_flags(cursor)?;
    cursor.bytes(FLAGS_HI_SIZE)?;
    cursor.bytes(CODE_PAGE_SIZE)?;
    let flags = cursor.u32_le()?;
    Ok(Counts {
        unicode: flags & INFO_UNICODE == INFO_UNICODE,
        domain: cursor.u16_le()?,
        user: cursor.u16_le()?,
        password: cursor.u16_le()?,
        shell: cursor.u16_le()?,
        directory: cursor.u16_le()?,
    })
}

/// Reads the flags of the security header.
#[tactic(auto, unfolding(wire_num::specs::FieldValue::passing_at))]
fn read_security_flags(cursor: &mut Cursor<'_>) -> Result<u16, Short>
    ensures { ReadsField (passing_at (has_bits 64) (little_at 2)) result cursor.old cursor.new }
{
    let at = cursor.at();
    let flags = cursor.u16_le()?;
    if flags & SEC_INFO_PKT != SEC_INFO_PKT {
        cursor.go_to(at);
        return Err(Short { at });
    }
    Ok(flags)
}

/// Reads the texts, and gives the bytes of the user name.
#[tactic(auto, unfolding(crate::specs::ClientInfo::info_texts))]
fn read_texts<'a>(counts: Counts, cursor: &mut Cursor<'a>) -> Result<&'a [u8], Short>
    ensures fields { ReadsFieldsAs (λ _. []) (fields_at (info_texts counts)) result cursor.old cursor.new }
    ensures user { IfOk result (λ user. user.now ≡ user_in counts (rest cursor.old)) }
{
    read_text(counts.domain, counts.unicode, cursor)?;
    let user = read_text(counts.user, counts.unicode, cursor)?;
    read_other_texts(counts, cursor)?;
    Ok(user)
}

/// Reads the texts behind the user name.
#[tactic(auto, unfolding(crate::specs::ClientInfo::other_texts))]
fn read_other_texts(counts: Counts, cursor: &mut Cursor<'_>) -> Result<(), Short>
    ensures { ReadsFieldsAs (λ _. []) (fields_at (other_texts counts)) result cursor.old cursor.new }
{
    read_text(counts.password, counts.unicode, cursor)?;
    read_text(counts.shell, counts.unicode, cursor)?;
    read_text(counts.directory, counts.unicode, cursor)?;
    Ok(())
}

/// Reads a text of so many bytes, and its terminator.
fn read_text<'a>(size: u16, unicode: bool, cursor: &mut Cursor<'a>) -> Result<&'a [u8], Short>
    ensures rows { ReadsRows (text (terminator unicode) size) result cursor.old cursor.new }
    ensures bytes { IfOk result (λ part. part.now ≡ take size (rest cursor.old)) }
    ensures behind { OnOk result (rest cursor.new ≡ drop (size + length (terminator unicode)) (rest cursor.old)) }
{
    let part = cursor.bytes(size as usize)?;
    read_terminator(unicode, cursor)?;
    Ok(part)
}

/// Reads the zeros behind a text.
fn read_terminator(unicode: bool, cursor: &mut Cursor<'_>) -> Result<(), Short>
    ensures { ReadsFieldAs (λ _. []) (wanted (terminator unicode)) result cursor.old cursor.new }
{
    if unicode {
        cursor.expect(&WIDE_TERMINATOR)
    } else {
        cursor.expect(&TERMINATOR)
    }
}

/// The name that a text's bytes write.
fn name_in(unicode: bool, text: &[u8]) -> Name
    ensures { result ≡ name_in unicode text.now }
{
    if unicode {
        wide_name(text)
    } else {
        narrow_name(text)
    }
}

/// The name that single bytes write.
fn narrow_name(text: &[u8]) -> Name
    ensures { result ≡ named text.now }
{
    if text.len() <= NAME_LENGTH && text.is_ascii() {
        Name::new(text)
    } else {
        Name::new(&[])
    }
}

/// The name that code units of UTF-16 write.
fn wide_name(text: &[u8]) -> Name
    ensures { result ≡ named_by (utf16_units text.now) }
{
    let mut name = [0; NAME_LENGTH];
    let mut count = 0;
    let mut left = text;
    while left.len() >= UNIT_SIZE {
        let low = left[0];
        let high = left[1];
        if count == NAME_LENGTH || high != 0 || !low.is_ascii() {
            return Name::new(&[]);
        }
        name[count] = low;
        count += 1;
        left = &left[UNIT_SIZE..];
    }
    if left.is_empty() {
        Name::new(&name[..count])
    } else {
        Name::new(&[])
    }
}
