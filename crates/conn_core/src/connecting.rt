//! The X.224 Connection Request and the MCS Connect-Initial in the sequence ([MS-RDPBCGR] 1.3.1.1).

ghost use Rattle.std.specs.Prelude.{◌≡◌, ◌≤◌, IfOk};
ghost use Rattle.tpkt_x224.specs.Request.{request_of};
ghost use Rattle.mcs_ber.specs.ConnectInitial.{user_data_of};
ghost use Rattle.gcc_per.specs.ClientData.{client_data_of};
ghost use Rattle.conn_rules.specs.Numbers.{place_behind};
ghost use Rattle.conn_rules.specs.Connecting.{protocols_of, request_judged, remembered, client_judged, initial_judged};
ghost use Rattle.conn_rules.specs.Packets.{mcs_place};
ghost use Rattle.conn_core.specs.Judges.{IsWritable};

use crate::domain::MCS_PLACE;
use crate::refusals::{BAD_BER, BAD_GCC, BAD_TPDU, DEPTH_NOT_OFFERED, TOO_MANY_CHANNELS};
use conn_rules::{Answer, Client, News, Refusal, Reply, Stage};
use gcc_per::{ClientData, GccFault, read_client};
use mcs_ber::read_initial;
use tpkt_x224::read_request;

/// What a packet gives that is to be a Connection Request.
pub fn judge_request(packet: &[u8]) -> Result<Answer, Refusal>
    ensures exact { result ≡ request_judged (request_of packet.now) }
    ensures writable { IfOk result (λ answer. IsWritable answer.reply) }
{
    match read_request(packet) {
        Ok(request) => Ok(Answer {
            reply: Reply::Confirm(request),
            news: News::Nothing,
            next: Stage::Initial {
                asked: protocols_of(request.asked),
            },
        }),
        Err(fault) => Err(Refusal {
            k: BAD_TPDU,
            at: fault.at,
        }),
    }
}

/// The protocols that a request asks for, none without a negotiation request.
fn protocols_of(asked: Option<u32>) -> u32
    ensures { result ≡ protocols_of asked }
{
    match asked {
        Some(asked) => asked,
        None => 0,
    }
}

/// What an MCS PDU gives that is to be a Connect-Initial, from a client that asked for these protocols.
pub fn judge_initial(asked: u32, mcs: &[u8]) -> Result<Answer, Refusal>
    ensures exact { result ≡ initial_judged asked mcs_place mcs.now (user_data_of mcs.now) }
    ensures writable { IfOk result (λ answer. IsWritable answer.reply) }
{
    match read_initial(mcs) {
        Ok(place) => judge_client(
            asked,
            MCS_PLACE.saturating_add(place.from),
            &mcs[place.from..place.to],
        ),
        Err(fault) => Err(Refusal {
            k: BAD_BER,
            at: MCS_PLACE.saturating_add(fault.at),
        }),
    }
}

/// What client data give that begin at a place.
fn judge_client(asked: u32, from: usize, user: &[u8]) -> Result<Answer, Refusal>
    ensures exact { result ≡ client_judged asked from (client_data_of user.now) }
    ensures writable { IfOk result (λ answer. IsWritable answer.reply) }
{
    match read_client(user) {
        Ok(given) => Ok(Answer {
            reply: Reply::Response {
                channels: given.channels as u8,
                asked,
            },
            news: News::Nothing,
            next: Stage::Erect {
                client: remembered(given),
            },
        }),
        Err(GccFault::BadGcc { at }) => Err(Refusal {
            k: BAD_GCC,
            at: from.saturating_add(at),
        }),
        Err(GccFault::DepthNotOffered { at }) => Err(Refusal {
            k: DEPTH_NOT_OFFERED,
            at: from.saturating_add(at),
        }),
        Err(GccFault::TooManyChannels { at }) => Err(Refusal {
            k: TOO_MANY_CHANNELS,
            at: from.saturating_add(at),
        }),
    }
}

/// What is remembered of client data.
fn remembered(given: ClientData) -> Client
    requires { given.channels ≤ 31 }
    ensures { result ≡ remembered given }
{
    Client {
        channels: given.channels as u8,
        width: given.asked_width,
        height: given.asked_height,
        build: given.build,
        depth: given.depth,
    }
}
