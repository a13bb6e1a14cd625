//! A connection: a client's stream in any pieces.

ghost use Rattle.std.specs.Prelude.{◌≡◌, ℕ, true, false, length, IsTrue, IfOk, Err};
ghost use Rattle.std.specs.Bool.{OnTrue};
ghost use Rattle.px_core.specs.Rectangle.{is_session_size};
ghost use Rattle.conn_rules.specs.Hearing.{heard, first_hearing, end_of, end_by};
ghost use Rattle.conn_core.specs.Kept.{Answers, Feeds, FeedsAppend};

use crate::conn_fault::ConnFault;
use crate::found::Found;
use crate::hear::{Room, hear};
use crate::talk::Talk;
use conn_rules::{ConnStep, Stage};
use px_core::Size;
use std::alloc::Global;
use std::marker::Model;
use wire_num::OutOfMemory;

/// The most bytes of a packet.
const MOST_PACKET: usize = 65_535;
/// The most events of a packet: its data have at most 16,383 bytes, of which 22 stand before the events of 12 bytes each.
const MOST_EVENTS: usize = 1_364;
/// The most areas of a packet: numberOfAreas is a byte.
const MOST_AREAS: usize = 255;
/// More bytes than the data of any packet have that is written here.
const MOST_BODY: usize = 512;

/// The host's side of a connection to one client: its stream is answered, and told step by step.
#[derive(Drop)]
pub struct Conn {
    talk: Talk,
    part: Vec<u8>,
    room: Room,
    spent: bool,
}

impl Model for Conn {
    ghost use Rattle.std.specs.Prelude.{◌≡◌, false};
    ghost use Rattle.conn_core.specs.Kept.{ConnOf};

    ghost Value = { ConnOf };

    ghost use Rattle.conn_core.specs.Stream.{hearing, IsStanding};

    ghost view = { λ c. record { hearing = hearing c.talk c.part.items; spent = c.spent } };

    ghost invariant = { λ c. c.spent ≡ false → IsStanding (hearing c.talk c.part.items) };
}

impl Conn {
    /// A connection before the first byte, in a session with a picture of this size. It takes the room of a packet, once.
    pub fn new(alloc: Global, size: Size) -> Result<Conn, OutOfMemory>
        requires { IsTrue (is_session_size size.w size.h) }
        ensures { IfOk result (λ conn. conn ≡ record { hearing = first_hearing size; spent = false }) }
    {
        Ok(Conn {
            talk: Talk {
                size,
                stage: Stage::Request,
                place: 0,
            },
            part: Vec::with_capacity(alloc, MOST_PACKET)?,
            room: Room {
                found: Found {
                    events: Vec::with_capacity(alloc, MOST_EVENTS)?,
                    areas: Vec::with_capacity(alloc, MOST_AREAS)?,
                },
                body: Vec::with_capacity(alloc, MOST_BODY)?,
            },
            spent: false,
        })
    }

    /// Hears the next bytes of the stream: appends replies to `out` and steps to `steps`, and refuses the stream where it is to be
    /// refused, then and from then on. After a Bye or a Shutdown further bytes are dropped. After want of memory the connection is
    /// spent, and answers it again; `out` and `steps` then hold a front of what is heard.
    pub fn feed(
        &mut self,
        bytes: &[u8],
        out: &mut Vec<u8>,
        steps: &mut Vec<ConnStep>,
    ) -> Result<(), ConnFault>
        ensures heard { Feeds result (heard self.old.hearing bytes.now) self.new }
        ensures appended { FeedsAppend result (heard self.old.hearing bytes.now) out.old.items out.new.items steps.old.items steps.new.items }
        ensures spent { OnTrue self.old.spent ((result ≡ Err ConnFault.OutOfMemory) × (out.new.items ≡ out.old.items) × (steps.new.items ≡ steps.old.items)) }
    {
        if self.spent {
            return Err(ConnFault::OutOfMemory);
        }
        match hear(
            &mut self.talk,
            &mut self.part,
            &mut self.room,
            bytes,
            out,
            steps,
        ) {
            Ok(()) => answer_of(self.talk.stage),
            Err(OutOfMemory) => {
                self.spent = true;
                Err(ConnFault::OutOfMemory)
            }
        }
    }

    /// How many bytes are there of a packet that isn't whole.
    pub fn part(&self) -> usize
        ensures part { result ≡ length self.now.hearing.part }
        ensures end { end_of self.now.hearing ≡ end_by self.now.hearing.stage result }
    {
        self.part.len()
    }
}

/// The answer of a stream that stands so.
fn answer_of(stage: Stage) -> Result<(), ConnFault>
    ensures { Answers result stage }
{
    match stage {
        Stage::Request
        | Stage::Initial { .. }
        | Stage::Erect { .. }
        | Stage::Attach { .. }
        | Stage::Joins { .. }
        | Stage::Shares { .. }
        | Stage::Over => Ok(()),
        Stage::Refused { k, at } => Err(ConnFault::Refused { k, at }),
    }
}
