//! A client that reads what a viewer is sent.

ghost use Rattle.std.specs.Prelude.{◌≡◌, ◌+◌, List, length, IfOk, OnOk};
ghost use Rattle.order_means.specs.FrameMarks.{ClientReading, first_reading, read_on};
ghost use Rattle.client_view.specs.Clients.{IsReading};
ghost use Rattle.demo_run.specs.Scene.{demo_size};
ghost use Rattle.demo_run.specs.Counts.{kept};
ghost use Rattle.demo_run.specs.Watching.{IsAccepted, ReadsOn, IsNew};

use crate::OutOfMemory;
use caps_sets::Confirmed;
use client_view::{Client, ClientFault};
use px_core::Size;
use std::alloc::Global;

/// A viewer's client, and how many frames it read, and their bytes; the counts stand still at 2^64 - 1.
#[derive(Drop)]
pub(crate) struct Watcher {
    pub client: Client,
    pub takes: u64,
    pub bytes: u64,
}

impl Watcher {
    /// A client before the first frame.
    pub(crate) fn new(
        alloc: Global,
        confirmed: Confirmed,
        size: Size,
    ) -> Result<Watcher, OutOfMemory>
        ensures { IfOk result (IsNew confirmed size) }
    {
        let client = Client::new(alloc, confirmed, size)?;
        Ok(Watcher {
            client,
            takes: 0,
            bytes: 0,
        })
    }

    /// Reads a frame. After want of memory nothing more is to be read.
    pub(crate) fn watch(&mut self, frame: &[u8]) -> Result<(), OutOfMemory>
        requires { IsAccepted self.old frame.now }
        ensures { OnOk result (ReadsOn self.old frame.now self.new) }
    {
        match self.client.feed(frame) {
            Ok(()) => {
                self.takes = self.takes.saturating_add(1);
                self.bytes = self.bytes.saturating_add(frame.len() as u64);
                Ok(())
            }
            Err(ClientFault::OutOfMemory) => Err(OutOfMemory),
            Err(ClientFault::Refused { .. }) => unreachable!(),
            Err(ClientFault::Named { .. }) => unreachable!(),
        }
    }
}
