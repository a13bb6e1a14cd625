//! A viewer's half of a connection, in any pieces.

ghost use Rattle.std.specs.Prelude.{◌≡◌, ◌++◌, Err, IfOk, IfSome, OnOk, OnErr};
ghost use Rattle.std.specs.Option.{option_copied};
ghost use Rattle.viewer_rules.specs.ClientPackets.{connection_request};
ghost use Rattle.viewer_rules.specs.Shown.{has_ended};
ghost use Rattle.viewer_rules.specs.ViewerHandshake.{Watching, watched, first_watching};
ghost use Rattle.look_net.specs.Looks.{HasClient, IsWatching, FeedsLook, FeedsText};

use crate::LookFault;
use crate::watch::{has_ended, watch};
use crate::watcher::{Viewer, Watcher};
use caps_sets::Confirmed;
use client_view::Client;
use info_lic::Name;
use std::alloc::Global;
use std::marker::Model;
use viewer_rules::Stage;
use wire_num::OutOfMemory;

/// The most bytes of a packet.
const MOST_PACKET: usize = 65_535;

/// More bytes than any packet has that is written here.
const MOST_WRITTEN: usize = 512;

/// An X.224 Connection Request ([MS-RDPBCGR] 2.2.1.1).
const CONNECTION_REQUEST: [u8; 19] = [3, 0, 0, 19, 14, 0xE0, 0, 0, 0, 0, 0, 1, 0, 8, 0, 0, 0, 0, 0];

/// A viewer's half of a connection: it answers its host's stream, and from the Font Map on a client reads it.
#[derive(Drop)]
pub struct Look {
    viewer: Viewer,
    watcher: Watcher,
    part: Vec<u8>,
    end: Option<LookFault>,
}

impl Model for Look {
    ghost use Rattle.look_net.specs.Looks.{LookOf};

    ghost Value = { LookOf };

    ghost view = { λ l. record {
      name = l.viewer.name;
      confirmed = l.viewer.confirmed;
      stage = l.watcher.stage;
      place = l.watcher.place;
      start = l.watcher.start;
      part = l.part.items;
      client = l.watcher.client;
      end = l.end;
    } };

    ghost use Rattle.std.specs.Prelude.{◌≡◌};
    ghost use Rattle.tpkt_x224.specs.declared.tpkt.Packet.TheVariants.{Part};
    ghost use Rattle.fast_path.specs.Heads.{stream_packet_at};

    ghost invariant = { λ l. stream_packet_at l.part.items ≡ Part };
}

impl Look {
    /// A viewer of this name that confirms this, before the host's first byte.
    pub fn new(alloc: Global, name: Name, confirmed: Confirmed) -> Result<Look, OutOfMemory>
        ensures watching { IfOk result (IsWatching first_watching) }
        ensures name { IfOk result (λ look. look.name ≡ name) }
        ensures confirmed { IfOk result (λ look. look.confirmed ≡ confirmed) }
    {
        let watcher = Watcher {
            stage: Stage::Confirm,
            place: 0,
            start: 0,
            client: None,
            body: Vec::with_capacity(alloc, MOST_WRITTEN)?,
            text: Vec::with_capacity(alloc, MOST_WRITTEN)?,
        };
        Ok(Look {
            viewer: Viewer {
                alloc,
                name,
                confirmed,
            },
            watcher,
            part: Vec::with_capacity(alloc, MOST_PACKET)?,
            end: None,
        })
    }

    /// Appends what goes before the host's first byte: a Connection Request. An `Err` appends nothing.
    pub fn start(&self, out: &mut Vec<u8>) -> Result<(), OutOfMemory>
        ensures ok { OnOk result (out.new.items ≡ out.old.items ++ connection_request) }
        ensures memory { OnErr result (out.new.items ≡ out.old.items) }
    {
        out.extend_from_slice(&CONNECTION_REQUEST)?;
        Ok(())
    }

    /// Reads the next bytes of the host, and appends what is due to `out`. It refuses the stream where it is to be refused, then and from then on; what is due
    /// for
    /// the packets before is appended. Behind an ultimatum nothing is looked at. After want of memory the look is spent, and answers it again; `out` then has
    /// what is due for a front of the bytes, each packet's text whole.
    pub fn feed(&mut self, bytes: &[u8], out: &mut Vec<u8>) -> Result<(), LookFault>
        ensures fed { (w : Watching) → IsWatching w self.old → FeedsLook result (watched self.old.name self.old.confirmed w bytes.now) self.new }
        ensures text { (w : Watching) → IsWatching w self.old
            → FeedsText result (λ read. (watched self.old.name self.old.confirmed w read).text) bytes.now out.old.items out.new.items }
        ensures name { self.new.name ≡ self.old.name }
        ensures confirmed { self.new.confirmed ≡ self.old.confirmed }
        ensures ended { IfSome self.old.end (λ fault. (result ≡ Err fault) × (self.new ≡ self.old) × (out.new.items ≡ out.old.items)) }
    {
        if let Some(fault) = self.end {
            return Err(fault);
        }
        match watch(&self.viewer, &mut self.watcher, &mut self.part, bytes, out) {
            Ok(()) => Ok(()),
            Err(fault) => {
                self.end = Some(fault);
                Err(fault)
            }
        }
    }

    /// The client that reads what is shown; `None` before Demand Active.
    pub fn view(&self) -> Option<&Client>
        ensures value { option_copied result ≡ self.now.client }
        ensures shown { (w : Watching) → IsWatching w self.now → HasClient self.now.confirmed w.at.size w.at.shown (option_copied result) }
    {
        self.watcher.client.as_ref()
    }

    /// Whether the host has ended the connection.
    pub fn ended(&self) -> bool
        ensures value { result ≡ has_ended self.now.stage }
        ensures ended { (w : Watching) → IsWatching w self.now → result ≡ has_ended w.at.stage }
    {
        has_ended(self.watcher.stage)
    }
}
