//! The entries of a session as bytes of a record, in pieces.
ghost use Rattle.std.specs.Prelude.{◌≡◌, ◌≤◌, [], length, IfOk};
ghost use Rattle.grow_lock.specs.Journal.{StartsWith};
ghost use Rattle.grow_lock.specs.Passes.{IsPassOf};
ghost use Rattle.journal_book.specs.Books.{IsPiece, IsNextPiece};

use crate::OutOfMemory;
use grow_lock::{GrowLock, Pass};
use record_file::write_entry;
use session_core::Session;
use std::alloc::Global;
use std::sync::Wait;

/// A piece ends behind the first entry with which it has so many bytes (profile).
const PIECE: usize = 0x1_0000;

/// Encodes the entries behind the first ones, up to a piece, and says how many stand before its end. Where there is an entry,
/// the piece has one.
pub fn encode_from(session: &Session, from: u64, out: &mut Vec<u8>) -> Result<u64, OutOfMemory>
    requires from { from ≤ length session.now.journal }
    requires empty { out.old.items ≡ [] }
    ensures piece { IfOk result (λ to. IsPiece session.now.journal from to out.new.items) }
    ensures ends { IfOk result (λ to. to ≡ from → from ≡ length session.now.journal) }
{
    session.recall_legal();
    let mut to = from;
    while to < session.length() && out.len() < PIECE {
        write_entry(out, session.entry(to))?;
        to += 1;
    }
    Ok(to)
}

/// The next piece of the journal, from a turn of the session, and how many entries stand before its end. The turn is over
/// when it answers.
pub fn next_piece<R: Wait>(
    rt: &R,
    alloc: Global,
    lock: &GrowLock<Session>,
    pass: Pass<Session>,
    from: u64,
) -> (Pass<Session>, Result<(u64, Vec<u8>), OutOfMemory>)
    requires lock { IsPassOf lock.now pass }
    requires from { from ≤ length pass.seen }
    ensures lock { IsPassOf lock.now result.0 }
    ensures seen { StartsWith result.0.seen pass.seen }
    ensures mine { result.0.mine ≡ pass.mine }
    ensures share { result.0.share ≡ pass.share }
    ensures piece { IfOk result.1 (λ p. IsNextPiece result.0.seen from p.0 p.1.items) }
{
    let mut turn = lock.enter(rt, pass);
    let mut out = Vec::new(alloc);
    let to = encode_from(turn.value(), from, &mut out);
    let pass = lock.leave(turn);
    match to {
        Ok(to) => (pass, Ok((to, out))),
        Err(OutOfMemory) => (pass, Err(OutOfMemory)),
    }
}
