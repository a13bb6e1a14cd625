//! The MCS domain PDUs of a client in their sequence, and where data may go ([MS-RDPBCGR] 1.3.1.1).

ghost use Rattle.std.specs.Prelude.{◌≡◌, length, Ok, IfOk};
ghost use Rattle.mcs_dom.specs.DomainPdu.{HasBodyAtEnd};
ghost use Rattle.conn_rules.specs.Channels.{user_channel, is_virtual_or_user};
ghost use Rattle.conn_rules.specs.Domain.{erect_judged, attach_judged, own, joined, dropped, too_early};
ghost use Rattle.conn_rules.specs.Answers.{goes_to, replies};
ghost use Rattle.conn_rules.specs.Packets.{mcs_place, pdu_in};
ghost use Rattle.conn_core.specs.Judges.{IsWritable};

use crate::refusals::{BAD_DOMAIN, WRONG_CHANNEL};
use conn_rules::{Answer, Client, ConnStep, News, Refusal, Reply, Stage};
use mcs_dom::{DomainPdu, read_domain};

/// Where the MCS PDU of a packet begins: behind the TPKT header and the X.224 Data header.
pub const MCS_PLACE: usize = 7;
/// Where its initiator is, and its channel.
const INITIATOR: usize = MCS_PLACE + 1;

const CHANNEL: usize = MCS_PLACE + 3;
/// The I/O channel.
pub const IO_CHANNEL: u16 = 1003;
/// The first static virtual channel.
const FIRST_VIRTUAL: u16 = 1004;

/// A PDU that isn't expected is refused at its first byte.
pub const UNEXPECTED: Refusal = Refusal {
    k: BAD_DOMAIN,
    at: MCS_PLACE,
};
/// Another initiator than the client's own user channel is refused at its field.
pub const FOREIGN: Refusal = Refusal {
    k: WRONG_CHANNEL,
    at: INITIATOR,
};
/// A channel that isn't the client's is refused at its field.
const NO_CHANNEL: Refusal = Refusal {
    k: WRONG_CHANNEL,
    at: CHANNEL,
};
/// An ultimatum ends the stream.
pub const LEAVES: Answer = Answer {
    reply: Reply::Nothing,
    news: News::Step(ConnStep::Bye),
    next: Stage::Over,
};

/// The answer that goes on without a reply.
pub fn goes_to(next: Stage) -> Answer
    ensures answer { goes_to next ≡ Ok result }
    ensures writable { IsWritable result.reply }
{
    Answer {
        reply: Reply::Nothing,
        news: News::Nothing,
        next,
    }
}

/// Reads an MCS PDU.
pub fn read_pdu(mcs: &[u8]) -> Result<DomainPdu, Refusal>
    ensures exact { result ≡ pdu_in mcs.now }
    ensures range { IfOk result (HasBodyAtEnd (length mcs.now)) }
{
    match read_domain(mcs) {
        Ok(pdu) => Ok(pdu),
        Err(fault) => Err(Refusal {
            k: BAD_DOMAIN,
            at: MCS_PLACE.saturating_add(fault.at),
        }),
    }
}

/// What an MCS PDU gives that is to be an Erect Domain Request.
pub fn judge_erect(client: Client, pdu: DomainPdu) -> Result<Answer, Refusal>
    ensures exact { result ≡ erect_judged client mcs_place pdu }
    ensures writable { IfOk result (λ answer. IsWritable answer.reply) }
{
    match pdu {
        DomainPdu::Erect => Ok(goes_to(Stage::Attach { client })),
        DomainPdu::Attach | DomainPdu::Join { .. } | DomainPdu::Data { .. } => Err(UNEXPECTED),
        DomainPdu::Bye { .. } => Ok(LEAVES),
    }
}

/// What an MCS PDU gives that is to be an Attach User Request.
pub fn judge_attach(client: Client, pdu: DomainPdu) -> Result<Answer, Refusal>
    ensures exact { result ≡ attach_judged client mcs_place pdu }
    ensures writable { IfOk result (λ answer. IsWritable answer.reply) }
{
    match pdu {
        DomainPdu::Attach => Ok(Answer {
            reply: Reply::Attached {
                user: user_channel(client.channels),
            },
            news: News::Nothing,
            next: Stage::Joins {
                client,
                user: false,
                io: false,
            },
        }),
        DomainPdu::Erect | DomainPdu::Join { .. } | DomainPdu::Data { .. } => Err(UNEXPECTED),
        DomainPdu::Bye { .. } => Ok(LEAVES),
    }
}

/// The user channel of a client with so many static virtual channels.
pub fn user_channel(channels: u8) -> u16
    ensures { result ≡ user_channel channels }
{
    FIRST_VIRTUAL + u16::from(channels)
}

/// Whether a channel is one of a client's static virtual channels, or its user channel.
fn is_virtual_or_user(channels: u8, channel: u16) -> bool
    ensures { result ≡ is_virtual_or_user channels channel }
{
    FIRST_VIRTUAL <= channel && channel <= user_channel(channels)
}

/// What a join gives; `user` and `io` say which of the first two channels were joined before.
pub fn judge_join(
    client: Client,
    user: bool,
    io: bool,
    initiator: u16,
    channel: u16,
) -> Result<Answer, Refusal>
    ensures exact { result ≡ own client.channels mcs_place initiator (joined client mcs_place user io channel) }
    ensures writable { IfOk result (λ answer. IsWritable answer.reply) }
{
    if initiator != user_channel(client.channels) {
        return Err(FOREIGN);
    }
    if channel == IO_CHANNEL {
        Ok(joins(client, user, true, channel))
    } else if channel == user_channel(client.channels) {
        Ok(joins(client, true, io, channel))
    } else if is_virtual_or_user(client.channels, channel) {
        Ok(joins(client, user, io, channel))
    } else {
        Err(NO_CHANNEL)
    }
}

/// The answer to a join.
fn joins(client: Client, user: bool, io: bool, channel: u16) -> Answer
    ensures answer { replies (Reply.Joined (user_channel client.channels) channel) (Stage.Joins client user io) ≡ Ok result }
    ensures writable { IsWritable result.reply }
{
    Answer {
        reply: Reply::Joined {
            user: user_channel(client.channels),
            channel,
        },
        news: News::Nothing,
        next: Stage::Joins { client, user, io },
    }
}

/// What data give on another channel than 1003: they are dropped on the client's own channels.
pub fn judge_dropped(
    channels: u8,
    initiator: u16,
    channel: u16,
    next: Stage,
) -> Result<Answer, Refusal>
    ensures exact { result ≡ own channels mcs_place initiator (dropped channels mcs_place channel next) }
    ensures writable { IfOk result (λ answer. IsWritable answer.reply) }
{
    if initiator != user_channel(channels) {
        Err(FOREIGN)
    } else if is_virtual_or_user(channels, channel) {
        Ok(goes_to(next))
    } else {
        Err(NO_CHANNEL)
    }
}

/// What data give before the user channel and 1003 are joined.
pub fn judge_early(channels: u8, initiator: u16) -> Result<Answer, Refusal>
    ensures exact { result ≡ too_early channels mcs_place initiator }
    ensures writable { IfOk result (λ answer. IsWritable answer.reply) }
{
    if initiator != user_channel(channels) {
        Err(FOREIGN)
    } else {
        Err(NO_CHANNEL)
    }
}
