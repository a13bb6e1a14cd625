//! The desk of one viewer's pointer: what the viewer was told of it, and what there is to tell.

ghost use Rattle.std.specs.Prelude.{◌≡◌, ℕ, ◌<◌, List, length, true, false, IfOk, IfErr, OnOk, OnErr, Err};
ghost use Rattle.pointer_share.specs.declared.fault.DeskFault.TheVariants.{NoCache, OutOfMemory as no_memory};
ghost use Rattle.frame_rules.specs.Pointers.{pointer_at, pointer_key};
ghost use Rattle.frame_rules.specs.Told.{told_packet, told_after, is_last};
ghost use Rattle.pointer_share.specs.Desk.{HasTold, IsNew, packet_bytes, IsKey};

use crate::fault::DeskFault;
use crate::packet::told_packet;
use cache_plan::{Cache, CacheFault};
use session_core::Session;
use std::alloc::Global;
use std::marker::Model;
use wire_num::OutOfMemory;

/// How many holders are told apart, and the codes below which a code lies.
const HOLDERS: u32 = 16;

const CODES: u16 = 256;

/// What one viewer with a pointer cache was told of the pointer, and the pointer that was noted last.
#[derive(Drop)]
pub struct PointerDesk {
    alloc: Global,
    wide: bool,
    cache: Cache,
    told: Option<u16>,
    noted: u16,
}

impl Model for PointerDesk {
    ghost use Rattle.pointer_share.specs.Desk.{DeskOf, IsKey};

    ghost Value = { DeskOf };

    ghost view = { λ d. record { wide = d.wide; cache = d.cache; told = d.told; noted = d.noted } };

    ghost invariant = { λ d. IsKey d.noted };
}

impl PointerDesk {
    /// The desk of a viewer with so many cells, which was told nothing. `NoCache` comes exactly where there are none.
    pub fn new(alloc: Global, cells: u16) -> Result<PointerDesk, DeskFault>
        ensures made { IfOk result (IsNew false cells) }
        ensures no_cache { cells ≡ 0 → result ≡ Err NoCache }
        ensures memory { 0 < cells → IfErr result (λ fault. fault ≡ no_memory) }
    {
        made(alloc, cells, false)
    }

    /// The desk of a cautious viewer, whose shapes have 16 columns.
    pub fn cautious(alloc: Global, cells: u16) -> Result<PointerDesk, DeskFault>
        ensures made { IfOk result (IsNew true cells) }
        ensures no_cache { cells ≡ 0 → result ≡ Err NoCache }
        ensures memory { 0 < cells → IfErr result (λ fault. fault ≡ no_memory) }
    {
        made(alloc, cells, true)
    }

    /// Notes the pointer of a session's whole journal. It takes no memory.
    pub fn note(&mut self, session: &Session)
        ensures { self.new ≡ record self.old { noted = pointer_key (pointer_at session.now.head.size session.now.journal (length session.now.journal)) } }
    {
        self.noted = noted(session);
    }

    /// The packet that tells the viewer the pointer that was noted, where that isn't the one last told. After an `Err` the desk is as
    /// before.
    pub fn packet(&mut self) -> Result<Option<Vec<u8>>, OutOfMemory>
        ensures told { (keys : List ℕ) → HasTold self.old keys
            → IfOk result (λ packet. packet_bytes packet ≡ told_packet self.old.wide self.old.cache.entries keys self.old.noted) }
        ensures after { OnOk result ((keys : List ℕ) → HasTold self.old keys → HasTold self.new (told_after keys self.old.noted)) }
        ensures wide { self.new.wide ≡ self.old.wide }
        ensures cells { self.new.cache.entries ≡ self.old.cache.entries }
        ensures noted { self.new.noted ≡ self.old.noted }
        ensures unchanged { OnErr result (self.new ≡ self.old) }
    {
        let key = self.noted;
        if is_last(self.told, key) {
            return Ok(None);
        }
        let answer = self.cache.peek(u64::from(key));
        let packet = told_packet(self.alloc, self.wide, answer, key)?;
        self.cache.use_key(u64::from(key))?;
        self.told = Some(key);
        Ok(Some(packet))
    }
}

/// A desk of so many cells.
fn made(alloc: Global, cells: u16, wide: bool) -> Result<PointerDesk, DeskFault>
    ensures made { IfOk result (IsNew wide cells) }
    ensures no_cache { cells ≡ 0 → result ≡ Err NoCache }
    ensures memory { 0 < cells → IfErr result (λ fault. fault ≡ no_memory) }
{
    match Cache::new(alloc, cells) {
        Ok(cache) => Ok(PointerDesk {
            alloc,
            wide,
            cache,
            told: None,
            noted: 0,
        }),
        Err(CacheFault::Unusable) => Err(DeskFault::NoCache),
        Err(CacheFault::OutOfMemory) => Err(DeskFault::OutOfMemory),
    }
}

/// Whether a key is the one that was told last.
fn is_last(told: Option<u16>, key: u16) -> bool
    ensures { result ≡ is_last told key }
{
    match told {
        Some(last) => last == key,
        None => false,
    }
}

/// The key of a session's pointer.
fn noted(session: &Session) -> u16
    ensures { result ≡ pointer_key (pointer_at session.now.head.size session.now.journal (length session.now.journal)) }
{
    let holder = (session.holder() % HOLDERS) as u16;
    let code = match session.typed() {
        Some(code) => u16::from(code),
        None => 0,
    };
    CODES * holder + code
}
