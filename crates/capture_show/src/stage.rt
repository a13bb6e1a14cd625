//! How far a capture was read for a viewer.
ghost use Rattle.std.specs.Prelude.{◌≡◌, IfOk, OnOk};
ghost use Rattle.capture_show.specs.Steps.{Joins, FeedsClient, FeedsBehind, Feeds, Finishes, Breaks, Advances, place_of};

use crate::OutOfMemory;
use crate::capture_reader::Told;
use caps_sets::Confirmed;
use client_view::{Client, ClientFault};
use px_core::Size;
use std::alloc::Global;
use update_read::PacketSieve;

/// How far a capture was read for a viewer.
#[derive(Drop)]
pub(crate) enum Stage {
    /// No line has joined the viewer.
    NotJoined,
    /// Its bytes are read, those that the sieve doesn't hold or take out.
    Reads { client: Client, sieve: PacketSieve },
    /// They are refused at this place.
    Refused { at: u64 },
    /// A line breaks the rules of captures.
    Broken { line: u64 },
}

/// The stage after a line that told this; where it gave the viewer bytes, they are these. `kept` is room for those that the sieve hands on.
pub(crate) fn advance(
    alloc: Global,
    stage: &mut Stage,
    told: Told,
    bytes: &[u8],
    kept: &mut Vec<u8>,
) -> Result<(), OutOfMemory>
    ensures { OnOk result (Advances told stage.old bytes.now stage.new) }
{
    match told {
        Told::Joined { size, confirmed } => join(alloc, stage, size, confirmed),
        Told::Bytes => feed(stage, bytes, kept),
        Told::Broken { line } => {
            break_at(stage, line);
            Ok(())
        }
        Told::Other | Told::End | Told::Failed => Ok(()),
    }
}

/// The stage after the viewer has joined.
fn join(
    alloc: Global,
    stage: &mut Stage,
    size: Size,
    confirmed: Confirmed,
) -> Result<(), OutOfMemory>
    ensures { OnOk result (Joins stage.old size confirmed stage.new) }
{
    if matches!(stage, Stage::NotJoined) {
        *stage = Stage::Reads {
            client: Client::new(alloc, confirmed, size)?,
            sieve: PacketSieve::new(alloc),
        };
    }
    Ok(())
}

/// The stage after the viewer has got bytes.
fn feed(stage: &mut Stage, bytes: &[u8], kept: &mut Vec<u8>) -> Result<(), OutOfMemory>
    ensures { OnOk result (Feeds stage.old bytes.now stage.new) }
{
    if let Stage::Reads { client, sieve } = stage {
        if let Some(at) = feed_behind(client, sieve, bytes, kept)? {
            *stage = Stage::Refused { at };
        }
    }
    Ok(())
}

/// Gives a client behind a sieve bytes, and says at which place it refuses them.
fn feed_behind(
    client: &mut Client,
    sieve: &mut PacketSieve,
    bytes: &[u8],
    kept: &mut Vec<u8>,
) -> Result<Option<u64>, OutOfMemory>
    ensures { IfOk result (λ at. FeedsBehind client.old sieve.old bytes.now client.new sieve.new at) }
{
    kept.clear();
    sieve.sieve(bytes, kept)?;
    feed_client(client, kept)
}

/// The stage where no bytes are left: an unfinished packet is read as it stands.
pub(crate) fn finish(stage: &mut Stage) -> Result<(), OutOfMemory>
    ensures { OnOk result (Finishes stage.old stage.new) }
{
    if let Stage::Reads { client, sieve } = stage {
        if let Some(at) = feed_client(client, sieve.held())? {
            *stage = Stage::Refused { at };
        }
    }
    Ok(())
}

/// Gives a client bytes, and says at which place it refuses them.
#[tactic(auto, using(crate::proofs::Steps::refuses_at))]
fn feed_client(client: &mut Client, bytes: &[u8]) -> Result<Option<u64>, OutOfMemory>
    ensures { IfOk result (λ at. FeedsClient client.old bytes.now client.new at) }
{
    match client.feed(bytes) {
        Ok(()) => Ok(None),
        Err(fault) => match place_of(fault) {
            Some(at) => Ok(Some(at)),
            None => Err(OutOfMemory),
        },
    }
}

/// The place where bytes are refused; `None` is want of memory.
fn place_of(fault: ClientFault) -> Option<u64>
    ensures { result ≡ place_of fault }
{
    match fault {
        ClientFault::Refused { at } => Some(at),
        ClientFault::Named { at, .. } => Some(at),
        ClientFault::OutOfMemory => None,
    }
}

/// The stage after a line that breaks the rules, which counts where it is the first.
fn break_at(stage: &mut Stage, line: u64)
    ensures { Breaks stage.old line stage.new }
{
    match stage {
        Stage::Broken { .. } => {}
        _ => *stage = Stage::Broken { line },
    }
}
