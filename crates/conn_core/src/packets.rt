//! What comes of a whole packet, by what the client is to send next ([MS-RDPBCGR] 1.3.1.1): of a fast-path packet, or of a TPKT packet.
//!
//! | offset | size | field | value |
//! |---|---|---|---|
//! | 0 | 4 | TPKT header | not read |
//! | 4 | 3 | X.224 Data header | `02 F0 80`; the first packet, a Connection Request, has another one |
//! | 7 | | MCS PDU | by the stage |

ghost use Rattle.std.specs.Prelude.{◌≡◌, true, length, [], Ok, IfOk};
ghost use Rattle.wire_num.specs.Layout.{fields_at};
ghost use Rattle.wire_num.specs.Cursor.{ReadsFieldsAs, rest};
ghost use Rattle.mcs_dom.specs.DomainPdu.{HasBodyAtEnd};
ghost use Rattle.conn_rules.specs.Headers.{mcs_headers};
ghost use Rattle.fast_path.specs.Events.{fast_events};
ghost use Rattle.conn_rules.specs.Packets.{info_data, share_data, joins_judged, shares_judged, mcs_judged, behind_headers, tpkt_judged, input_wanted};
ghost use Rattle.conn_rules.specs.Packets.{input_judged, fast_judged, packet_judged};
ghost use Rattle.conn_rules.specs.Deeds.{done};
ghost use Rattle.conn_rules.specs.Info.{welcomed};
ghost use Rattle.conn_rules.specs.Answers.{alone};
ghost use Rattle.conn_core.specs.Judges.{IsJudgedBeside, found_steps, IsWritable, IsPart};

use crate::connecting::{judge_initial, judge_request};
use crate::deeds::{judge_deed, tells};
use crate::domain::{
    FOREIGN, IO_CHANNEL, LEAVES, MCS_PLACE, UNEXPECTED, goes_to, judge_attach, judge_dropped,
    judge_early, judge_erect, judge_join, read_pdu, user_channel,
};
use crate::fault::Fault;
use crate::found::{Found, forget};
use crate::refusals::{BAD_INFO, BAD_INPUT, BAD_TPDU, NOT_TPKT};
use crate::shares::read_deed;
use conn_rules::{Answer, Client, ConnStep, News, Refusal, Reply, SharePhase, Stage};
use fast_path::{is_fast, read_fast};
use info_lic::{InfoFault, Name, read_info};
use input_pdu::InputFault;
use mcs_dom::DomainPdu;
use wire_num::{Cursor, Range, Short};

/// The bytes of a TPKT header.
const TPKT_SIZE: usize = 4;
/// The X.224 Data header: length indicator, code, end of the unit.
const DATA_HEADER: [u8; 3] = [2, 0xF0, 0x80];

/// What comes of a whole packet. `found` takes what is found in the share PDU in it.
pub fn judge_packet(stage: Stage, packet: &[u8], found: &mut Found) -> Result<Answer, Fault>
    ensures exact { IsJudgedBeside (found_steps found.new.events.items found.new.areas.items) result (packet_judged stage packet.now) }
    ensures writable { IfOk result (λ answer. IsWritable answer.reply) }
{
    forget(found);
    if is_fast(packet) {
        judge_fast(stage, packet, found)
    } else {
        judge_tpkt(stage, packet, found)
    }
}

/// What comes of a TPKT packet.
fn judge_tpkt(stage: Stage, packet: &[u8], found: &mut Found) -> Result<Answer, Fault>
    requires events { found.old.events.items ≡ [] }
    requires areas { found.old.areas.items ≡ [] }
    ensures exact { IsJudgedBeside (found_steps found.new.events.items found.new.areas.items) result (tpkt_judged stage packet.now) }
    ensures writable { IfOk result (λ answer. IsWritable answer.reply) }
{
    match stage {
        Stage::Request => alone(judge_request(packet), found),
        Stage::Initial { .. }
        | Stage::Erect { .. }
        | Stage::Attach { .. }
        | Stage::Joins { .. }
        | Stage::Shares { .. } => judge_data(stage, packet, found),
        Stage::Over | Stage::Refused { .. } => alone(Ok(goes_to(stage)), found),
    }
}

/// What comes of a fast-path packet: before the place of the Confirm Active its first byte is refused.
fn judge_fast(stage: Stage, packet: &[u8], found: &mut Found) -> Result<Answer, Fault>
    requires events { found.old.events.items ≡ [] }
    requires areas { found.old.areas.items ≡ [] }
    ensures exact { IsJudgedBeside (found_steps found.new.events.items found.new.areas.items) result (fast_judged stage packet.now) }
    ensures writable { IfOk result (λ answer. IsWritable answer.reply) }
{
    match stage {
        Stage::Request
        | Stage::Initial { .. }
        | Stage::Erect { .. }
        | Stage::Attach { .. }
        | Stage::Joins { .. } => Err(Fault::Refused(Refusal { k: NOT_TPKT, at: 0 })),
        Stage::Shares { channels, phase } => judge_input(channels, phase, packet, found),
        Stage::Over | Stage::Refused { .. } => alone(Ok(goes_to(stage)), found),
    }
}

/// What comes of the events of a fast-path packet.
fn judge_input(
    channels: u8,
    phase: SharePhase,
    packet: &[u8],
    found: &mut Found,
) -> Result<Answer, Fault>
    requires events { found.old.events.items ≡ [] }
    requires areas { found.old.areas.items ≡ [] }
    ensures exact { IsJudgedBeside (found_steps found.new.events.items found.new.areas.items) result (input_judged channels phase (fast_events packet.now)) }
    ensures writable { IfOk result (λ answer. IsWritable answer.reply) }
{
    match read_fast(packet, &mut found.events) {
        Ok(()) => Ok(input_taken(channels, phase)),
        Err(InputFault::BadInput { at }) => Err(Fault::Refused(Refusal { k: BAD_INPUT, at })),
        Err(InputFault::OutOfMemory) => Err(Fault::OutOfMemory),
    }
}

/// What comes of events that were read: once the client is ready they are told.
fn input_taken(channels: u8, phase: SharePhase) -> Answer
    ensures answer { done channels phase (input_wanted phase) ≡ Ok result }
    ensures writable { IsWritable result.reply }
{
    match phase {
        SharePhase::Confirm { .. } | SharePhase::Finish { .. } => {
            goes_to(Stage::Shares { channels, phase })
        }
        SharePhase::Ready => tells(News::Pdu, Stage::Shares { channels, phase }),
    }
}

/// What comes of a packet in which nothing is found.
fn alone(judged: Result<Answer, Refusal>, found: &Found) -> Result<Answer, Fault>
    requires events { found.now.events.items ≡ [] }
    requires areas { found.now.areas.items ≡ [] }
    requires writable { IfOk judged (λ answer. IsWritable answer.reply) }
    ensures exact { IsJudgedBeside (found_steps found.now.events.items found.now.areas.items) result (alone judged) }
    ensures writable { IfOk result (λ answer. IsWritable answer.reply) }
{
    match judged {
        Ok(answer) => Ok(answer),
        Err(refusal) => Err(Fault::Refused(refusal)),
    }
}

/// What comes of a packet with the X.224 Data header.
fn judge_data(stage: Stage, packet: &[u8], found: &mut Found) -> Result<Answer, Fault>
    requires events { found.old.events.items ≡ [] }
    requires areas { found.old.areas.items ≡ [] }
    ensures exact { IsJudgedBeside (found_steps found.new.events.items found.new.areas.items) result (behind_headers packet.now (fields_at mcs_headers packet.now) stage) }
    ensures writable { IfOk result (λ answer. IsWritable answer.reply) }
{
    let mut cursor = Cursor::new(packet);
    match read_headers(&mut cursor) {
        Ok(()) => judge_mcs(stage, cursor.rest(), found),
        Err(_) => Err(Fault::Refused(Refusal {
            k: BAD_TPDU,
            at: cursor.at(),
        })),
    }
}

/// Goes past the headers before the MCS PDU.
#[tactic(auto, unfolding(conn_rules::specs::Headers::mcs_headers))]
fn read_headers(cursor: &mut Cursor<'_>) -> Result<(), Short>
    ensures { ReadsFieldsAs (λ _. []) (fields_at mcs_headers) result cursor.old cursor.new }
{
    cursor.bytes(TPKT_SIZE)?;
    cursor.expect(&DATA_HEADER)?;
    Ok(())
}

/// What comes of an MCS PDU.
fn judge_mcs(stage: Stage, mcs: &[u8], found: &mut Found) -> Result<Answer, Fault>
    requires events { found.old.events.items ≡ [] }
    requires areas { found.old.areas.items ≡ [] }
    ensures exact { IsJudgedBeside (found_steps found.new.events.items found.new.areas.items) result (mcs_judged stage mcs.now) }
    ensures writable { IfOk result (λ answer. IsWritable answer.reply) }
{
    match stage {
        Stage::Request | Stage::Over | Stage::Refused { .. } => alone(Ok(goes_to(stage)), found),
        Stage::Initial { asked } => alone(judge_initial(asked, mcs), found),
        Stage::Erect { client } => {
            let pdu = read_pdu(mcs)?;
            alone(judge_erect(client, pdu), found)
        }
        Stage::Attach { client } => {
            let pdu = read_pdu(mcs)?;
            alone(judge_attach(client, pdu), found)
        }
        Stage::Joins { client, user, io } => {
            let pdu = read_pdu(mcs)?;
            alone(judge_joins(client, user, io, mcs, pdu), found)
        }
        Stage::Shares { channels, phase } => {
            let pdu = read_pdu(mcs)?;
            judge_shares(channels, phase, mcs, pdu, found)
        }
    }
}

/// What comes of an MCS PDU during the joins.
fn judge_joins(
    client: Client,
    user: bool,
    io: bool,
    mcs: &[u8],
    pdu: DomainPdu,
) -> Result<Answer, Refusal>
    requires { HasBodyAtEnd (length mcs.now) pdu }
    ensures exact { result ≡ joins_judged client user io mcs.now pdu }
    ensures writable { IfOk result (λ answer. IsWritable answer.reply) }
{
    match pdu {
        DomainPdu::Erect | DomainPdu::Attach => Err(UNEXPECTED),
        DomainPdu::Join {
            user: initiator,
            channel,
        } => judge_join(client, user, io, initiator, channel),
        DomainPdu::Data {
            user: initiator,
            channel,
            body,
        } => {
            if user && io {
                judge_info(client, mcs, initiator, channel, body)
            } else {
                judge_early(client.channels, initiator)
            }
        }
        DomainPdu::Bye { .. } => Ok(LEAVES),
    }
}

/// What comes of data once the user channel and 1003 are joined.
fn judge_info(
    client: Client,
    mcs: &[u8],
    initiator: u16,
    channel: u16,
    body: Range,
) -> Result<Answer, Refusal>
    requires { IsPart (length mcs.now) body }
    ensures exact { result ≡ info_data client true mcs.now initiator channel body }
    ensures writable { IfOk result (λ answer. IsWritable answer.reply) }
{
    if channel != IO_CHANNEL {
        let next = Stage::Joins {
            client,
            user: true,
            io: true,
        };
        return judge_dropped(client.channels, initiator, channel, next);
    }
    match read_info(&mcs[body.from..body.to]) {
        Ok(name) => {
            if initiator != user_channel(client.channels) {
                return Err(FOREIGN);
            }
            Ok(welcomed(client, name))
        }
        Err(InfoFault::BadInfo { at }) => Err(Refusal {
            k: BAD_INFO,
            at: MCS_PLACE.saturating_add(body.from).saturating_add(at),
        }),
    }
}

/// The answer to a Client Info of this name.
fn welcomed(client: Client, name: Name) -> Answer
    ensures answer { welcomed client name ≡ Ok result }
    ensures writable { IsWritable result.reply }
{
    Answer {
        reply: Reply::Welcome(client),
        news: News::Step(ConnStep::Named(name)),
        next: Stage::Shares {
            channels: client.channels,
            phase: SharePhase::Confirm {
                depth: client.depth,
            },
        },
    }
}

/// What comes of an MCS PDU after the Client Info.
fn judge_shares(
    channels: u8,
    phase: SharePhase,
    mcs: &[u8],
    pdu: DomainPdu,
    found: &mut Found,
) -> Result<Answer, Fault>
    requires body { HasBodyAtEnd (length mcs.now) pdu }
    requires events { found.old.events.items ≡ [] }
    requires areas { found.old.areas.items ≡ [] }
    ensures exact { IsJudgedBeside (found_steps found.new.events.items found.new.areas.items) result (shares_judged channels phase mcs.now pdu) }
    ensures writable { IfOk result (λ answer. IsWritable answer.reply) }
{
    match pdu {
        DomainPdu::Erect | DomainPdu::Attach | DomainPdu::Join { .. } => {
            Err(Fault::Refused(UNEXPECTED))
        }
        DomainPdu::Data {
            user,
            channel,
            body,
        } => judge_share(channels, phase, mcs, user, channel, body, found),
        DomainPdu::Bye { .. } => alone(Ok(LEAVES), found),
    }
}

/// What comes of data after the Client Info.
fn judge_share(
    channels: u8,
    phase: SharePhase,
    mcs: &[u8],
    initiator: u16,
    channel: u16,
    body: Range,
    found: &mut Found,
) -> Result<Answer, Fault>
    requires body { IsPart (length mcs.now) body }
    requires events { found.old.events.items ≡ [] }
    requires areas { found.old.areas.items ≡ [] }
    ensures exact { IsJudgedBeside (found_steps found.new.events.items found.new.areas.items) result (share_data channels phase mcs.now initiator channel body) }
    ensures writable { IfOk result (λ answer. IsWritable answer.reply) }
{
    if channel != IO_CHANNEL {
        let next = Stage::Shares { channels, phase };
        return alone(judge_dropped(channels, initiator, channel, next), found);
    }
    let place = MCS_PLACE.saturating_add(body.from);
    let deed = read_deed(phase, place, &mcs[body.from..body.to], found)?;
    Ok(judge_deed(channels, initiator, phase, place, deed)?)
}
