//! X.224 Connection Request and Confirm, and MCS Connect-Initial and Connect-Response ([MS-RDPBCGR] 2.2.1.1 to 2.2.1.4).

ghost use Rattle.std.specs.Prelude.{◌≡◌, [], OnOk};
ghost use Rattle.wire_num.specs.Cursor.{ReadsRows, ReadsFieldsAs, rest};
ghost use Rattle.wire_num.specs.Layout.{End, Within, Basic, Packed, fields_at};
ghost use Rattle.viewer_rules.specs.HostAnswers.{connection_confirm, server_blocks_rows, server_blocks_answer, conference_answer, user_data_answer};
ghost use Rattle.viewer_rules.specs.HostAnswers.{response_rows, response_answer, connect_response_answer};
ghost use Rattle.viewer_wire.specs.Reads.{ReadsPacket};

use crate::headers::{TPKT_SIZE, X224_DATA};
use crate::rows::expect_each;
use wire_num::{Cursor, Short};

/// An X.224 Connection Request.
pub const CONNECTION_REQUEST: [u8; 19] = [
    3, 0, 0, 19, 14, 0xE0, 0, 0, 0, 0, 0, 1, 0, 8, 0, 0, 0, 0, 0,
];

/// Length indicator and code.
const CONNECTION_CONFIRM: [u8; 2] = [14, 0xD0];

/// The references: that of the request, and the server's.
const DESTINATION: [u8; 2] = [0, 0];

const SOURCE: [u8; 2] = [0x12, 0x34];

const CLASS: u8 = 0;

/// Standard RDP security.
const NEGOTIATION_RESPONSE: [u8; 8] = [2, 0, 8, 0, 0, 0, 0, 0];

/// The tag of a Connect-Response.
const CONNECT_RESPONSE: [u8; 2] = [0x7F, 0x66];

/// Result; calledConnectId; domainParameters, with eight integers; the tag of userData.
const RESPONSE: [&[u8]; 12] = [
    &[10, 1, 0],
    &[2, 1, 0],
    &[0x30, 26],
    &[2, 1, 34],
    &[2, 1, 3],
    &[2, 1, 0],
    &[2, 1, 1],
    &[2, 1, 0],
    &[2, 1, 1],
    &[2, 3, 0, 0xFF, 0xF8],
    &[2, 1, 2],
    &[4],
];

const T124_KEY: [u8; 7] = [0, 5, 0, 20, 0x7C, 0, 1];

/// conferenceCreateResponse.
const CREATE_RESPONSE: [u8; 9] = [20, 0x76, 10, 1, 1, 0, 1, 0xC0, 0];

/// The server's key, "McDn".
const SERVER_KEY: [u8; 4] = [0x4D, 0x63, 0x44, 0x6E];

/// SC_CORE, clientRequestedProtocols; SC_NET: length, MCSChannelId, channelCount, channelIdArray, Pad; SC_SECURITY.
const SERVER_BLOCKS: [&[u8]; 12] = [
    &[1, 12, 12, 0, 4, 0, 8, 0],
    &[0, 0, 0, 0],
    &[3, 12],
    &[16, 0],
    &[0xEB, 3],
    &[3, 0],
    &[0xEC, 3],
    &[0xED, 3],
    &[0xEE, 3],
    &[0, 0],
    &[2, 12, 12, 0],
    &[0; 8],
];

/// Reads an X.224 Connection Confirm.
pub(crate) fn read_confirm(packet: &[u8]) -> Result<(), Short>
    ensures { ReadsPacket (λ _. []) (fields_at connection_confirm) result packet.now }
{
    let mut cursor = Cursor::new(packet);
    match read_confirm_packet(&mut cursor) {
        Ok(()) => Ok(()),
        Err(_) => Err(Short { at: cursor.at() }),
    }
}

/// Length indicator and code; destination reference; source reference; class; negotiation response.
#[tactic(auto, unfolding(viewer_rules::specs::HostAnswers::connection_confirm))]
fn read_confirm_packet(cursor: &mut Cursor<'_>) -> Result<(), Short>
    ensures { ReadsFieldsAs (λ _. []) (fields_at connection_confirm) result cursor.old cursor.new }
{
    cursor.bytes(TPKT_SIZE)?;
    cursor.expect(&CONNECTION_CONFIRM)?;
    cursor.expect(&DESTINATION)?;
    cursor.expect(&SOURCE)?;
    cursor.expect(&[CLASS])?;
    cursor.expect(&NEGOTIATION_RESPONSE)?;
    cursor.end()
}

/// Reads an MCS Connect-Response.
pub(crate) fn read_response(packet: &[u8]) -> Result<(), Short>
    ensures { ReadsPacket (λ _. []) (fields_at connect_response_answer) result packet.now }
{
    let mut cursor = Cursor::new(packet);
    match read_response_packet(&mut cursor) {
        Ok(()) => Ok(()),
        Err(_) => Err(Short { at: cursor.at() }),
    }
}

/// The headers, the tag, and counted fields.
#[tactic(auto, unfolding(viewer_rules::specs::HostAnswers::connect_response_answer))]
fn read_response_packet(cursor: &mut Cursor<'_>) -> Result<(), Short>
    ensures { ReadsFieldsAs (λ _. []) (fields_at connect_response_answer) result cursor.old cursor.new }
{
    cursor.bytes(TPKT_SIZE)?;
    cursor.expect(&X224_DATA)?;
    cursor.expect(&CONNECT_RESPONSE)?;
    read_counted_response(cursor)
}

/// The fields of a Connect-Response, counted, and nothing behind it.
fn read_counted_response(cursor: &mut Cursor<'_>) -> Result<(), Short>
    ensures fields { ReadsFieldsAs (λ _. []) (fields_at (Within Basic response_answer End)) result cursor.old cursor.new }
    ensures end { OnOk result (rest cursor.new ≡ []) }
{
    let length = cursor.ber_len()?;
    let mut content = cursor.within(length as usize)?;
    match read_response_fields(&mut content) {
        Ok(()) => cursor.end(),
        Err(short) => {
            cursor.go_to(content.at());
            Err(short)
        }
    }
}

/// The fields up to the tag of userData, and these.
fn read_response_fields(cursor: &mut Cursor<'_>) -> Result<(), Short>
    ensures fields { ReadsFieldsAs (λ _. []) (fields_at response_answer) result cursor.old cursor.new }
    ensures end { OnOk result (rest cursor.new ≡ []) }
{
    match read_response_rows(cursor) {
        Ok(()) => read_counted_user_data(cursor),
        Err(short) => Err(short),
    }
}

fn read_response_rows(cursor: &mut Cursor<'_>) -> Result<(), Short>
    ensures { ReadsRows response_rows result cursor.old cursor.new }
{
    expect_each(cursor, &RESPONSE)
}

/// User data, counted, and nothing behind it.
fn read_counted_user_data(cursor: &mut Cursor<'_>) -> Result<(), Short>
    ensures fields { ReadsFieldsAs (λ _. []) (fields_at (Within Basic user_data_answer End)) result cursor.old cursor.new }
    ensures end { OnOk result (rest cursor.new ≡ []) }
{
    let length = cursor.ber_len()?;
    let mut content = cursor.within(length as usize)?;
    match read_user_data(&mut content) {
        Ok(()) => cursor.end(),
        Err(short) => {
            cursor.go_to(content.at());
            Err(short)
        }
    }
}

/// The key of T.124, and a Conference Create Response.
#[tactic(auto, unfolding(viewer_rules::specs::HostAnswers::user_data_answer))]
fn read_user_data(cursor: &mut Cursor<'_>) -> Result<(), Short>
    ensures fields { ReadsFieldsAs (λ _. []) (fields_at user_data_answer) result cursor.old cursor.new }
    ensures end { OnOk result (rest cursor.new ≡ []) }
{
    cursor.expect(&T124_KEY)?;
    read_counted_conference(cursor)
}

/// A Conference Create Response, counted, and nothing behind it.
fn read_counted_conference(cursor: &mut Cursor<'_>) -> Result<(), Short>
    ensures fields { ReadsFieldsAs (λ _. []) (fields_at (Within Packed conference_answer End)) result cursor.old cursor.new }
    ensures end { OnOk result (rest cursor.new ≡ []) }
{
    let length = cursor.per_len()?;
    let mut content = cursor.within(length as usize)?;
    match read_conference(&mut content) {
        Ok(()) => cursor.end(),
        Err(short) => {
            cursor.go_to(content.at());
            Err(short)
        }
    }
}

/// conferenceCreateResponse; the server's key; the server's data blocks.
#[tactic(auto, unfolding(viewer_rules::specs::HostAnswers::conference_answer))]
fn read_conference(cursor: &mut Cursor<'_>) -> Result<(), Short>
    ensures fields { ReadsFieldsAs (λ _. []) (fields_at conference_answer) result cursor.old cursor.new }
    ensures end { OnOk result (rest cursor.new ≡ []) }
{
    cursor.expect(&CREATE_RESPONSE)?;
    cursor.expect(&SERVER_KEY)?;
    read_counted_blocks(cursor)
}

/// The server's data blocks, counted, and nothing behind it.
fn read_counted_blocks(cursor: &mut Cursor<'_>) -> Result<(), Short>
    ensures fields { ReadsFieldsAs (λ _. []) (fields_at (Within Packed server_blocks_answer End)) result cursor.old cursor.new }
    ensures end { OnOk result (rest cursor.new ≡ []) }
{
    let length = cursor.per_len()?;
    let mut content = cursor.within(length as usize)?;
    match read_blocks(&mut content) {
        Ok(()) => cursor.end(),
        Err(short) => {
            cursor.go_to(content.at());
            Err(short)
        }
    }
}

fn read_blocks(cursor: &mut Cursor<'_>) -> Result<(), Short>
    ensures fields { ReadsFieldsAs (λ _. []) (fields_at server_blocks_answer) result cursor.old cursor.new }
    ensures end { OnOk result (rest cursor.new ≡ []) }
{
    match read_block_rows(cursor) {
        Ok(()) => cursor.end(),
        Err(short) => Err(short),
    }
}

fn read_block_rows(cursor: &mut Cursor<'_>) -> Result<(), Short>
    ensures { ReadsRows server_blocks_rows result cursor.old cursor.new }
{
    expect_each(cursor, &SERVER_BLOCKS)
}
