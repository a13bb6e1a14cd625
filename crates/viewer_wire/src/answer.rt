//! What a packet of the host is answered with.

ghost use Rattle.std.specs.Prelude.{◌≡◌, ◌++◌, ℕ, List, [], None, Ok};
ghost use Rattle.px_core.specs.Depth.{bits_in};
ghost use Rattle.caps_sets.specs.declared.confirmed.Confirmed.{Confirmed};
ghost use Rattle.viewer_rules.specs.declared.stage.Stage.TheVariants as stage;
ghost use Rattle.viewer_rules.specs.ClientPackets.{connect_initial, erect_domain, attach_user, client_info};
ghost use Rattle.viewer_rules.specs.ViewerHandshake.{answering, channel_of, joins, after_join, after_final, welcomed, packet_answered};
ghost use Rattle.viewer_wire.specs.Reads.{sides, Answers};

use crate::channels::{FIRST_USER, read_attach, read_join};
use crate::client_info::put_info;
use crate::connect_initial::put_initial;
use crate::connecting::{read_confirm, read_response};
use crate::data::{put_attach, put_join};
use crate::demand::read_demand;
use crate::finals::put_five;
use crate::share::{read_final, read_licence};
use caps_sets::Confirmed;
use info_lic::Name;
use px_core::{Depth, Size};
use share_pdu::Final;
use viewer_rules::{Channel, Stage};

/// What is awaited after a packet, and the session's size where the packet tells it.
#[derive(Clone, Copy, PartialEq, Eq)]
pub struct Answer {
    pub next: Stage,
    pub size: Option<Size>,
}

/// Why a packet isn't answered.
#[derive(Clone, Copy, Debug, PartialEq, Eq)]
pub enum AnswerFault {
    /// A field isn't the one that is awaited: the first such field stands so many bytes behind the packet's first one.
    Refused(usize),
    /// No memory was left.
    OutOfMemory,
}

/// The number of the I/O channel; those of the three static virtual channels follow.
const IO_CHANNEL: u16 = 1003;

/// Answers a packet of the host at a stage: `text` becomes what is sent then, and `body` is taken for its data. An `Err` leaves anything in both.
pub fn answer_packet(
    stage: Stage,
    packet: &[u8],
    name: Name,
    confirmed: &Confirmed,
    body: &mut Vec<u8>,
    text: &mut Vec<u8>,
) -> Result<Answer, AnswerFault>
    ensures { Answers result text.new.items (packet_answered name confirmed.now stage packet.now) }
{
    text.clear();
    match stage {
        Stage::Confirm => answer_confirm(packet, confirmed, text),
        Stage::Response => answer_response(packet, text),
        Stage::Attach => answer_attach(packet, text),
        Stage::Joins { user, next } => answer_join(packet, user, next, name, body, text),
        Stage::Licence { user } => answer_licence(packet, user),
        Stage::Demand { user } => answer_demand(packet, user, confirmed, body, text),
        Stage::Finish { user, next } => answer_final(packet, user, next),
        Stage::Shown | Stage::Over | Stage::Refused { .. } => Ok(awaiting(stage)),
    }
}

/// No size is told.
fn awaiting(next: Stage) -> Answer
    ensures { result ≡ record { next = next; size = None } }
{
    Answer { next, size: None }
}

fn answer_confirm(
    packet: &[u8],
    confirmed: &Confirmed,
    text: &mut Vec<u8>,
) -> Result<Answer, AnswerFault>
    requires { text.old.items ≡ [] }
    ensures { (name : List ℕ) → Answers result text.new.items (packet_answered name confirmed.now stage.Confirm packet.now) }
{
    match read_confirm(packet) {
        Ok(()) => send_initial(confirmed.depth, text),
        Err(short) => Err(AnswerFault::Refused(short.at)),
    }
}

fn send_initial(depth: Depth, text: &mut Vec<u8>) -> Result<Answer, AnswerFault>
    requires { text.old.items ≡ [] }
    ensures { Answers result text.new.items (Ok (answering (connect_initial (bits_in depth)) stage.Response)) }
{
    match put_initial(text, depth) {
        Ok(()) => Ok(awaiting(Stage::Response)),
        Err(_) => Err(AnswerFault::OutOfMemory),
    }
}

fn answer_response(packet: &[u8], text: &mut Vec<u8>) -> Result<Answer, AnswerFault>
    requires { text.old.items ≡ [] }
    ensures { (name : List ℕ) (c : Confirmed) → Answers result text.new.items (packet_answered name c stage.Response packet.now) }
{
    match read_response(packet) {
        Ok(()) => send_attach(text),
        Err(short) => Err(AnswerFault::Refused(short.at)),
    }
}

fn send_attach(text: &mut Vec<u8>) -> Result<Answer, AnswerFault>
    requires { text.old.items ≡ [] }
    ensures { Answers result text.new.items (Ok (answering (erect_domain ++ attach_user) stage.Attach)) }
{
    match put_attach(text) {
        Ok(()) => Ok(awaiting(Stage::Attach)),
        Err(_) => Err(AnswerFault::OutOfMemory),
    }
}

fn answer_attach(packet: &[u8], text: &mut Vec<u8>) -> Result<Answer, AnswerFault>
    requires { text.old.items ≡ [] }
    ensures { (name : List ℕ) (c : Confirmed) → Answers result text.new.items (packet_answered name c stage.Attach packet.now) }
{
    match read_attach(packet) {
        Ok(above) => send_join(FIRST_USER + above, Channel::User, text),
        Err(short) => Err(AnswerFault::Refused(short.at)),
    }
}

/// Asks to join a channel.
fn send_join(user: u16, which: Channel, text: &mut Vec<u8>) -> Result<Answer, AnswerFault>
    requires { text.old.items ≡ [] }
    ensures { Answers result text.new.items (Ok (joins user which)) }
{
    match put_join(text, user, channel_of(user, which)) {
        Ok(()) => Ok(awaiting(Stage::Joins { user, next: which })),
        Err(_) => Err(AnswerFault::OutOfMemory),
    }
}

/// The number of a channel.
fn channel_of(user: u16, which: Channel) -> u16
    ensures { result ≡ channel_of user which }
{
    match which {
        Channel::User => user,
        Channel::Io => IO_CHANNEL,
        Channel::First => IO_CHANNEL + 1,
        Channel::Second => IO_CHANNEL + 2,
        Channel::Third => IO_CHANNEL + 3,
    }
}

fn answer_join(
    packet: &[u8],
    user: u16,
    which: Channel,
    name: Name,
    body: &mut Vec<u8>,
    text: &mut Vec<u8>,
) -> Result<Answer, AnswerFault>
    requires { text.old.items ≡ [] }
    ensures { (c : Confirmed) → Answers result text.new.items (packet_answered name c (stage.Joins user which) packet.now) }
{
    match read_join(packet, user, channel_of(user, which)) {
        Ok(()) => send_after_join(user, which, name, body, text),
        Err(short) => Err(AnswerFault::Refused(short.at)),
    }
}

/// Asks to join the next channel, or tells the name.
fn send_after_join(
    user: u16,
    which: Channel,
    name: Name,
    body: &mut Vec<u8>,
    text: &mut Vec<u8>,
) -> Result<Answer, AnswerFault>
    requires { text.old.items ≡ [] }
    ensures { Answers result text.new.items (Ok (after_join name user which)) }
{
    match which {
        Channel::User => send_join(user, Channel::Io, text),
        Channel::Io => send_join(user, Channel::First, text),
        Channel::First => send_join(user, Channel::Second, text),
        Channel::Second => send_join(user, Channel::Third, text),
        Channel::Third => send_name(user, name, body, text),
    }
}

fn send_name(
    user: u16,
    name: Name,
    body: &mut Vec<u8>,
    text: &mut Vec<u8>,
) -> Result<Answer, AnswerFault>
    requires { text.old.items ≡ [] }
    ensures { Answers result text.new.items (Ok (answering (client_info user name) (stage.Licence user))) }
{
    match put_info(text, body, user, name) {
        Ok(()) => Ok(awaiting(Stage::Licence { user })),
        Err(_) => Err(AnswerFault::OutOfMemory),
    }
}

fn answer_licence(packet: &[u8], user: u16) -> Result<Answer, AnswerFault>
    ensures { (name : List ℕ) (c : Confirmed) → Answers result [] (packet_answered name c (stage.Licence user) packet.now) }
{
    match read_licence(packet) {
        Ok(()) => Ok(awaiting(Stage::Demand { user })),
        Err(short) => Err(AnswerFault::Refused(short.at)),
    }
}

fn answer_demand(
    packet: &[u8],
    user: u16,
    confirmed: &Confirmed,
    body: &mut Vec<u8>,
    text: &mut Vec<u8>,
) -> Result<Answer, AnswerFault>
    requires { text.old.items ≡ [] }
    ensures { (name : List ℕ) → Answers result text.new.items (packet_answered name confirmed.now (stage.Demand user) packet.now) }
{
    match read_demand(packet, confirmed.depth) {
        Ok(size) => send_five(user, size, confirmed, body, text),
        Err(short) => Err(AnswerFault::Refused(short.at)),
    }
}

fn send_five(
    user: u16,
    size: Size,
    confirmed: &Confirmed,
    body: &mut Vec<u8>,
    text: &mut Vec<u8>,
) -> Result<Answer, AnswerFault>
    requires { text.old.items ≡ [] }
    ensures { Answers result text.new.items (Ok (welcomed confirmed.now user (sides size))) }
{
    match put_five(text, body, user, confirmed) {
        Ok(()) => Ok(Answer {
            next: Stage::Finish {
                user,
                next: Final::Synchronize,
            },
            size: Some(size),
        }),
        Err(_) => Err(AnswerFault::OutOfMemory),
    }
}

fn answer_final(packet: &[u8], user: u16, which: Final) -> Result<Answer, AnswerFault>
    ensures { (name : List ℕ) (c : Confirmed) → Answers result [] (packet_answered name c (stage.Finish user which) packet.now) }
{
    match read_final(packet, which, user) {
        Ok(()) => Ok(awaiting(after_final(user, which))),
        Err(short) => Err(AnswerFault::Refused(short.at)),
    }
}

/// What is awaited after a PDU of the finalisation.
fn after_final(user: u16, which: Final) -> Stage
    ensures { result ≡ after_final user which }
{
    match which {
        Final::Synchronize => Stage::Finish {
            user,
            next: Final::Cooperate,
        },
        Final::Cooperate => Stage::Finish {
            user,
            next: Final::Granted,
        },
        Final::Granted => Stage::Finish {
            user,
            next: Final::FontMap,
        },
        Final::FontMap => Stage::Shown,
    }
}
