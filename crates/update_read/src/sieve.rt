//! A host's bytes without the packets of pointers.

ghost use Rattle.std.specs.Prelude.{◌≡◌, ◌≤◌, ◌++◌, ◌∷◌, [], take, length, IfOk, OnOk};
ghost use Rattle.order_means.specs.PointerPackets.{is_pointer};
ghost use Rattle.order_means.specs.Packets.{held_in, kept_piece};
ghost use Rattle.order_means.specs.Packets.PacketStage.{Between};
ghost use Rattle.update_read.specs.Sieves.{Sieves};
ghost use Rattle.update_read.specs.Wholes.{whole_size, has_kind_at, may_be_pointer};

use crate::OutOfMemory;
use crate::content::find_content;
use crate::reach::{Reach, next_reach};
use crate::whole::whole_size;
use std::alloc::Global;
use std::marker::Model;

/// The pduType2 of a Pointer PDU, PDUTYPE2_POINTER.
const PDUTYPE2_POINTER: u8 = 0x1B;

/// The offset of pduType2 in a packet, behind a length of one byte.
const KIND_OFFSET: usize = 28;

/// Takes the packets of Pointer PDUs out of a host's bytes, which come in any pieces. It holds the bytes of an unfinished packet, at most
/// 65,534.
#[derive(Drop)]
pub struct PacketSieve {
    reach: Reach,
    held: Vec<u8>,
}

impl Model for PacketSieve {
    ghost use Rattle.order_means.specs.Packets.{PacketStage};
    ghost use Rattle.update_read.specs.Sieves.{packet_stage, IsHeld};

    ghost Value = { PacketStage };

    ghost view = { λ s. packet_stage s.reach s.held.items };

    ghost invariant = { λ s. IsHeld s.reach s.held.items };
}

impl PacketSieve {
    /// A sieve before the first byte.
    pub fn new(alloc: Global) -> PacketSieve
        ensures { result ≡ Between }
    {
        PacketSieve {
            reach: Reach::Between,
            held: Vec::new(alloc),
        }
    }

    /// Takes the next bytes, and appends those of the whole packets that aren't of pointers, in their order. After want of memory nothing is
    /// said of what was appended, or of the sieve.
    pub fn sieve(&mut self, bytes: &[u8], out: &mut Vec<u8>) -> Result<(), OutOfMemory>
        ensures { OnOk result (Sieves bytes.now self.old self.new out.old.items out.new.items) }
    {
        let mut at = 0;
        while at < bytes.len() {
            let count = self.pass(&bytes[at..], out)?;
            if count == 0 {
                self.push(bytes[at], out)?;
                at += 1;
            } else {
                at += count;
            }
        }
        Ok(())
    }

    /// The bytes of an unfinished packet.
    pub fn held(&self) -> &[u8]
        ensures bytes { result.now ≡ held_in self.now }
        ensures most { length result.now ≤ 65534 }
    {
        &self.held
    }

    /// Takes some of these bytes from the front, maybe none: the whole packet with which they begin, where none is held, or bytes by which none ends;
    /// and says how many.
    fn pass(&mut self, bytes: &[u8], out: &mut Vec<u8>) -> Result<usize, OutOfMemory>
        ensures count { IfOk result (λ n. n ≤ length bytes.now) }
        ensures passed { IfOk result (λ n. Sieves (take n bytes.now) self.old self.new out.old.items out.new.items) }
    {
        if let Reach::Between = self.reach {
            return pass_whole(bytes, out);
        }
        self.hold(bytes)
    }

    /// Holds some of these bytes from the front, maybe none, by which no packet ends, and says how many.
    fn hold(&mut self, bytes: &[u8]) -> Result<usize, OutOfMemory>
        ensures count { IfOk result (λ n. n ≤ length bytes.now) }
        ensures held { IfOk result (λ n. Sieves (take n bytes.now) self.old self.new [] []) }
    {
        let Reach::Inside { missing } = self.reach else {
            return Ok(0);
        };
        let count = missing.min(bytes.len());
        self.held.extend_from_slice(&bytes[..count])?;
        self.reach = Reach::Inside {
            missing: missing - count,
        };
        Ok(count)
    }

    /// Takes the next byte.
    fn push(&mut self, byte: u8, out: &mut Vec<u8>) -> Result<(), OutOfMemory>
        ensures { OnOk result (Sieves (byte ∷ []) self.old self.new out.old.items out.new.items) }
    {
        self.held.push(byte)?;
        self.reach = next_reach(self.reach, &self.held);
        match self.reach {
            Reach::Between | Reach::Passing => {
                let kept = keep(&self.held, out);
                self.held.clear();
                kept
            }
            Reach::Head | Reach::Fast | Reach::Inside { .. } => Ok(()),
        }
    }
}

/// Takes the whole packet with which these bytes begin, where none is held, and says how many bytes it has; 0 where there is none.
fn pass_whole(bytes: &[u8], out: &mut Vec<u8>) -> Result<usize, OutOfMemory>
    ensures count { IfOk result (λ n. n ≡ whole_size bytes.now) }
    ensures most { IfOk result (λ n. n ≤ length bytes.now) }
    ensures passed { IfOk result (λ n. Sieves (take n bytes.now) Between Between out.old.items out.new.items) }
{
    let count = whole_size(bytes);
    if count > 0 {
        keep(&bytes[..count], out)?;
    }
    Ok(count)
}

/// Appends a piece, where it isn't the packet of a Pointer PDU.
fn keep(piece: &[u8], out: &mut Vec<u8>) -> Result<(), OutOfMemory>
    ensures { OnOk result (out.new.items ≡ out.old.items ++ kept_piece piece.now) }
{
    if is_pointer(piece) {
        return Ok(());
    }
    out.extend_from_slice(piece)?;
    Ok(())
}

/// Whether these bytes are one packet, and that of a Pointer PDU. Most aren't by the byte alone that may say their kind.
#[tactic(auto, using(crate::proofs::KindByte::no_pointer))]
fn is_pointer(packet: &[u8]) -> bool
    ensures { result ≡ is_pointer packet.now }
{
    if !may_be_pointer(packet) {
        return false;
    }
    find_content(PDUTYPE2_POINTER, packet).is_ok()
}

/// Whether the kind of a Pointer PDU stands where pduType2 may stand, behind a length of one byte or of two.
fn may_be_pointer(packet: &[u8]) -> bool
    ensures { result ≡ may_be_pointer packet.now }
{
    has_kind_at(packet, KIND_OFFSET) || has_kind_at(packet, KIND_OFFSET + 1)
}

/// Whether it stands at this offset.
fn has_kind_at(packet: &[u8], at: usize) -> bool
    ensures { result ≡ has_kind_at packet.now at }
{
    at < packet.len() && packet[at] == PDUTYPE2_POINTER
}
