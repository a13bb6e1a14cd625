//! What is heard of a stream: whole packets are answered and told, and what is left waits for the next bytes.

ghost use Rattle.std.specs.Prelude.{◌≡◌, ◌<◌, ◌≤◌, ℕ, ◌+◌, [], false, length, take, Ok, IfOk, OnOk, OnErr};
ghost use Rattle.tpkt_x224.specs.declared.tpkt.Packet.TheVariants.{Whole, Part};
ghost use Rattle.fast_path.specs.Heads.{is_fast, stream_packet_at};
ghost use Rattle.conn_rules.specs.Hearing.{is_over, takes_fast_input, head_of, length_place, judged_heard, heard};
ghost use Rattle.conn_rules.specs.Packets.{packet_judged};
ghost use Rattle.conn_rules.specs.Answers.{telling};
ghost use Rattle.conn_core.specs.Feeds.{Appends, AppendsSome};
ghost use Rattle.conn_core.specs.Stream.{hearing, refused_talk, part_heard, IsStanding};
ghost use Rattle.conn_core.specs.Judges.{IsWritable, found_steps};

use crate::fault::Fault;
use crate::found::Found;
use crate::news::tell;
use crate::packets::judge_packet;
use crate::refusals::{BAD_LENGTH, NOT_TPKT};
use crate::replies::write_reply;
use crate::talk::Talk;
use conn_rules::{Answer, ConnStep, Stage};
use fast_path::{is_fast, lacking_in_stream, next_in_stream};
use tpkt_x224::Packet;
use wire_num::OutOfMemory;

/// The place of a TPKT packet's length in it, and of a fast-path packet's.
const LENGTH: u64 = 2;

const FAST_LENGTH: u64 = 1;

/// Vectors that are taken again and again: for what is found in a packet, and for the data of a packet that is written.
#[derive(Drop)]
pub struct Room {
    pub found: Found,
    pub body: Vec<u8>,
}

/// Hears bytes: appends replies to `out` and steps to `steps`. An `Err` leaves a front of both there.
pub fn hear(
    talk: &mut Talk,
    part: &mut Vec<u8>,
    room: &mut Room,
    bytes: &[u8],
    out: &mut Vec<u8>,
    steps: &mut Vec<ConnStep>,
) -> Result<(), OutOfMemory>
    requires { IsStanding (hearing talk.old part.old.items) }
    ensures heard { OnOk result (hearing talk.new part.new.items ≡ (heard (hearing talk.old part.old.items) bytes.now).after) }
    ensures appended { OnOk result (Appends (heard (hearing talk.old part.old.items) bytes.now) out.old.items out.new.items steps.old.items steps.new.items) }
    ensures memory { OnErr result (AppendsSome (heard (hearing talk.old part.old.items) bytes.now) out.old.items out.new.items steps.old.items steps.new.items) }
    ensures standing { OnOk result (IsStanding (hearing talk.new part.new.items)) }
    ensures size { talk.new.size ≡ talk.old.size }
{
    let mut left = bytes;
    while !left.is_empty() {
        if is_over(talk.stage) {
            return Ok(());
        }
        let n = hear_some(talk, part, room, left, out, steps)?;
        left = &left[n..];
    }
    Ok(())
}

/// Hears the first bytes: as many as the part of a packet that is there lacks, or all of them. Gives how many they are.
#[tactic(auto, using(fast_path::proofs::Lacking::alone, conn_rules::proofs::Pieces::part_head))]
fn hear_some(
    talk: &mut Talk,
    part: &mut Vec<u8>,
    room: &mut Room,
    bytes: &[u8],
    out: &mut Vec<u8>,
    steps: &mut Vec<ConnStep>,
) -> Result<usize, OutOfMemory>
    requires standing { IsStanding (hearing talk.old part.old.items) }
    requires open { is_over talk.old.stage ≡ false }
    requires some { 0 < length bytes.now }
    ensures heard { IfOk result (λ n. hearing talk.new part.new.items ≡ (heard (hearing talk.old part.old.items) (take n bytes.now)).after) }
    ensures appended { IfOk result (λ n. Appends (heard (hearing talk.old part.old.items) (take n bytes.now)) out.old.items out.new.items steps.old.items steps.new.items) }
    ensures memory { OnErr result (AppendsSome (heard (hearing talk.old part.old.items) bytes.now) out.old.items out.new.items steps.old.items steps.new.items) }
    ensures some { IfOk result (λ n. 0 < n) }
    ensures few { IfOk result (λ n. n ≤ length bytes.now) }
    ensures size { talk.new.size ≡ talk.old.size }
{
    let n = lacking_in_stream(part).min(bytes.len());
    part.extend_from_slice(&bytes[..n])?;
    hear_part(talk, part, room, out, steps)?;
    Ok(n)
}

/// Whether nothing more is looked at.
fn is_over(stage: Stage) -> bool
    ensures { result ≡ is_over stage }
{
    match stage {
        Stage::Request
        | Stage::Initial { .. }
        | Stage::Erect { .. }
        | Stage::Attach { .. }
        | Stage::Joins { .. }
        | Stage::Shares { .. } => false,
        Stage::Over | Stage::Refused { .. } => true,
    }
}

/// Hears the part of a packet that is there, once more of it came: nothing, or all of it.
fn hear_part(
    talk: &mut Talk,
    part: &mut Vec<u8>,
    room: &mut Room,
    out: &mut Vec<u8>,
    steps: &mut Vec<ConnStep>,
) -> Result<(), OutOfMemory>
    requires wide { talk.old.size.w ≤ 65535 }
    requires high { talk.old.size.h ≤ 65535 }
    requires open { is_over talk.old.stage ≡ false }
    requires alone { (n : ℕ) → stream_packet_at part.old.items ≡ Whole n → n ≡ length part.old.items }
    ensures heard { OnOk result (hearing talk.new part.new.items ≡ (part_heard talk.old part.old.items).after) }
    ensures appended { OnOk result (Appends (part_heard talk.old part.old.items) out.old.items out.new.items steps.old.items steps.new.items) }
    ensures memory { OnErr result (AppendsSome (part_heard talk.old part.old.items) out.old.items out.new.items steps.old.items steps.new.items) }
    ensures size { talk.new.size ≡ talk.old.size }
{
    match head_of(talk.stage, part) {
        Packet::Whole(_) => {
            hear_packet(talk, part, room, out, steps)?;
            part.clear();
        }
        Packet::Part => {}
        Packet::NotTpkt => {
            refuse(talk, NOT_TPKT, 0);
            part.clear();
        }
        Packet::BadLength => {
            refuse(talk, BAD_LENGTH, length_place(part));
            part.clear();
        }
    }
    Ok(())
}

/// What stands at the head of what is left, as the stage sees it: before the place of the Confirm Active a fast-path packet's first
/// byte is another version.
fn head_of(stage: Stage, rest: &[u8]) -> Packet
    ensures { result ≡ head_of stage rest.now }
{
    if is_fast(rest) && !takes_fast_input(stage) {
        Packet::NotTpkt
    } else {
        next_in_stream(rest)
    }
}

/// Whether fast-path packets may come.
fn takes_fast_input(stage: Stage) -> bool
    ensures { result ≡ takes_fast_input stage }
{
    match stage {
        Stage::Request
        | Stage::Initial { .. }
        | Stage::Erect { .. }
        | Stage::Attach { .. }
        | Stage::Joins { .. } => false,
        Stage::Shares { .. } | Stage::Over | Stage::Refused { .. } => true,
    }
}

/// The place of a packet's length in it.
fn length_place(rest: &[u8]) -> u64
    ensures { result ≡ length_place (is_fast rest.now) }
{
    if is_fast(rest) { FAST_LENGTH } else { LENGTH }
}

/// Refuses the stream so many bytes behind the first one of the packet at hand.
fn refuse(talk: &mut Talk, k: u8, n: u64)
    ensures { talk.new ≡ refused_talk talk.old k n }
{
    talk.stage = Stage::Refused {
        k,
        at: talk.place.saturating_add(n),
    };
}

/// Hears a whole packet.
fn hear_packet(
    talk: &mut Talk,
    packet: &[u8],
    room: &mut Room,
    out: &mut Vec<u8>,
    steps: &mut Vec<ConnStep>,
) -> Result<(), OutOfMemory>
    requires wide { talk.old.size.w ≤ 65535 }
    requires high { talk.old.size.h ≤ 65535 }
    ensures heard { OnOk result (hearing talk.new [] ≡ (judged_heard (hearing talk.old []) packet.now (packet_judged talk.old.stage packet.now)).after) }
    ensures appended { OnOk result (Appends (judged_heard (hearing talk.old []) packet.now
        (packet_judged talk.old.stage packet.now)) out.old.items out.new.items steps.old.items steps.new.items) }
    ensures memory { OnErr result (AppendsSome (judged_heard (hearing talk.old []) packet.now
        (packet_judged talk.old.stage packet.now)) out.old.items out.new.items steps.old.items steps.new.items) }
    ensures size { talk.new.size ≡ talk.old.size }
{
    match judge_packet(talk.stage, packet, &mut room.found) {
        Ok(answer) => hear_answer(talk, packet, answer, room, out, steps),
        Err(Fault::Refused(refusal)) => {
            refuse(talk, refusal.k, refusal.at as u64);
            Ok(())
        }
        Err(Fault::OutOfMemory) => Err(OutOfMemory),
    }
}

/// Replies and tells what a packet was judged to be, with what was found in it.
fn hear_answer(
    talk: &mut Talk,
    packet: &[u8],
    answer: Answer,
    room: &mut Room,
    out: &mut Vec<u8>,
    steps: &mut Vec<ConnStep>,
) -> Result<(), OutOfMemory>
    requires wide { talk.old.size.w ≤ 65535 }
    requires high { talk.old.size.h ≤ 65535 }
    requires writable { IsWritable answer.reply }
    ensures heard { OnOk result (hearing talk.new [] ≡ (judged_heard (hearing talk.old []) packet.now
        (Ok (telling answer (found_steps room.old.found.events.items room.old.found.areas.items)))).after) }
    ensures appended { OnOk result (Appends (judged_heard (hearing talk.old []) packet.now
        (Ok (telling answer (found_steps room.old.found.events.items room.old.found.areas.items)))) out.old.items out.new.items steps.old.items steps.new.items) }
    ensures memory { OnErr result (AppendsSome (judged_heard (hearing talk.old []) packet.now
        (Ok (telling answer (found_steps room.old.found.events.items room.old.found.areas.items)))) out.old.items out.new.items steps.old.items steps.new.items) }
    ensures size { talk.new.size ≡ talk.old.size }
{
    write_reply(out, talk.size, &mut room.body, answer.reply)?;
    tell(talk.stage, answer.news, &room.found, steps)?;
    talk.stage = answer.next;
    talk.place = talk.place.saturating_add(packet.len() as u64);
    Ok(())
}
