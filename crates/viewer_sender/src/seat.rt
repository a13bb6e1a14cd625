//! What goes to one viewer, with its pointer: the seat's takes, for each of which the session's pointer is noted, and their bytes, which go behind
//! the packet that tells that pointer, where it isn't the one told last.
ghost use Rattle.std.specs.Prelude.{◌≡◌, ◌≤◌, ◌+◌, ◌++◌, [], true, false, length, Ok, Err, IfOk, OnOk, OnErr, IsTrue};
ghost use Rattle.session_core.specs.SessionModel.{is_here, asked_by};
ghost use Rattle.frame_rules.specs.Frame.{FrameOf};
ghost use Rattle.frame_rules.specs.Encoder.{Encoder, encoder_after_frame};
ghost use Rattle.frame_plan.specs.Takes.{taken_as};
ghost use Rattle.frame_plan.specs.Plans.{is_work, taken_if, desk_if, asked_if};
ghost use Rattle.frame_plan.specs.declared.taken.Taken.TheVariants.{Nothing};
ghost use Rattle.pointer_share.specs.Desk.{bytes_of};
ghost use Rattle.viewer_sender.specs.declared.fault.SendFault.TheVariants as fault;
ghost use Rattle.viewer_sender.specs.Senders.{StandsFor, IsIdle, desk_of, with_desk, with_encoded};
ghost use Rattle.viewer_sender.specs.OwnTakes.{IsOwnTake, IsOwn};
ghost use Rattle.viewer_sender.specs.Seats.{IsNewSeat, key_of, desk_after, IsPointed, IsEncoded, bytes_given, HasSent};

use crate::sender::Sender;
use crate::{OutOfMemory, SendFault};
use caps_sets::Confirmed;
use frame_plan::{Take, Taken};
use pointer_share::{PointerDesk, desk_for, note, told_bytes};
use session_core::Session;
use std::alloc::Global;
use std::marker::Model;

/// What is kept of one viewer: its sender, and the desk of its pointer, if it has pointer cells.
#[derive(Drop)]
pub struct Seat {
    sender: Sender,
    desk: Option<PointerDesk>,
}

impl Model for Seat {
    ghost use Rattle.viewer_sender.specs.Seats.{SeatModel};

    ghost Value = { SeatModel };

    ghost view = { λ s. record { sender = s.sender; desk = s.desk } };
}

impl Seat {
    /// The seat of a viewer who was given no frame, and was told no pointer.
    pub fn new(alloc: Global, v: u32, confirmed: Confirmed) -> Result<Seat, OutOfMemory>
        ensures { IfOk result (IsNewSeat v confirmed) }
    {
        let sender = Sender::new(alloc, v, confirmed)?;
        let desk = desk_for(alloc, &confirmed)?;
        Ok(Seat { sender, desk })
    }

    /// The viewer's number.
    pub fn viewer(&self) -> u32
        ensures { result ≡ self.now.sender.v }
    {
        self.sender.viewer()
    }

    /// The number of its last frame; 0 before the first.
    pub fn number(&self) -> u64
        ensures { result ≡ self.now.sender.number }
    {
        self.sender.number()
    }

    /// Takes the frame that is due to the viewer, who is present and has seen a front of the journal, and notes the session's pointer for it;
    /// `Nothing`, with which nothing is noted, where the viewer is suppressed, or the journal hasn't grown since its last frame and no tile is asked
    /// for. An `Err` leaves the session and the seat as they were.
    pub fn take(&mut self, alloc: Global, session: &mut Session) -> Result<Taken, OutOfMemory>
        requires present { IsTrue (is_here session.old self.old.sender.v) }
        requires seen { self.old.sender.number ≤ length session.old.journal }
        ensures taken { IfOk result (λ taken. taken ≡ taken_if (is_work session.old (desk_of self.old.sender)) session.old (desk_of self.old.sender)) }
        ensures own { IfOk result (IsOwn self.old.sender.confirmed) }
        ensures sender { OnOk result (self.new.sender ≡ with_desk self.old.sender
            (desk_if (is_work session.old (desk_of self.old.sender)) session.old (desk_of self.old.sender))) }
        ensures noted { self.new.desk ≡ desk_after result (key_of session.old) self.old.desk }
        ensures asked { OnOk result (asked_by session.new ≡ asked_if (is_work session.old (desk_of self.old.sender)) self.old.sender.v (asked_by session.old)) }
        ensures head { session.new.head ≡ session.old.head }
        ensures journal { session.new.journal ≡ session.old.journal }
        ensures suppressed { session.new.suppressed ≡ session.old.suppressed }
        ensures nothing { result ≡ Ok Nothing → session.new ≡ session.old }
        ensures unchanged { OnErr result ((session.new ≡ session.old) × (self.new ≡ self.old)) }
    {
        let taken = self.sender.take(alloc, session);
        note_taken(&taken, &mut self.desk, session);
        taken
    }

    /// The packets of a take's frame, behind the packet that tells the pointer that was noted last, where that isn't the one told last; the takes of a seat are
    /// encoded in their order, each once.
    ///
    /// After want of memory the seat is spent, and `Spent` comes from then on.
    pub fn encode(&mut self, alloc: Global, take: Take) -> Result<Vec<u8>, SendFault>
        requires next { take.serial ≡ self.old.sender.encoded }
        requires own { IsOwnTake self.old.sender.confirmed take }
        ensures bytes { IfOk result (λ out. IsEncoded self.old self.new take out.items) }
        ensures after { OnOk result ((e : Encoder) (f : FrameOf) → StandsFor self.old.sender e → take.frame ≡ taken_as take.size f
            → StandsFor self.new.sender (encoder_after_frame take.size self.old.sender.confirmed e f)) }
        ensures rest { OnOk result (self.new.sender ≡ with_encoded self.old.sender self.new.sender.registers self.new.sender.caches) }
        ensures spent { self.old.sender.spent ≡ true → result ≡ Err fault.Spent }
        ensures only_spent { result ≡ Err fault.Spent → (self.old.sender.spent ≡ true) × (self.new ≡ self.old) }
        ensures memory { result ≡ Err fault.OutOfMemory → self.new.sender
            ≡ record self.old.sender { spent = true; registers = self.new.sender.registers; caches = self.new.sender.caches } }
    {
        match self.sender.encode(alloc, take) {
            Ok(frame) => self.point(frame),
            Err(fault) => Err(fault),
        }
    }

    /// The frame that was encoded last, behind the packet that tells its pointer; where memory is wanted it is lost.
    fn point(&mut self, frame: Vec<u8>) -> Result<Vec<u8>, SendFault>
        requires some { 1 ≤ self.old.sender.encoded }
        ensures bytes { IfOk result (λ out. IsPointed self.old.desk self.new.desk frame.items out.items) }
        ensures same { OnOk result (self.new.sender ≡ self.old.sender) }
        ensures memory { OnErr result ((result ≡ Err fault.OutOfMemory)
            × (self.new.sender ≡ record self.old.sender { encoded = self.new.sender.encoded; spent = true })
            × (self.old.sender.encoded ≡ self.new.sender.encoded + 1)) }
    {
        match pointed(&mut self.desk, frame) {
            Ok(bytes) => Ok(bytes),
            Err(OutOfMemory) => {
                self.sender.lose_last();
                Err(SendFault::OutOfMemory)
            }
        }
    }

    /// The bytes of the frame that is due to the viewer, behind the packet that tells its pointer, where that is due; `None` where no frame is. After
    /// an `Err` no other is to be asked for.
    pub fn next_frame(
        &mut self,
        alloc: Global,
        session: &mut Session,
    ) -> Result<Option<Vec<u8>>, OutOfMemory>
        requires present { IsTrue (is_here session.old self.old.sender.v) }
        requires seen { self.old.sender.number ≤ length session.old.journal }
        requires idle { IsIdle self.old.sender }
        ensures head { session.new.head ≡ session.old.head }
        ensures journal { session.new.journal ≡ session.old.journal }
        ensures suppressed { session.new.suppressed ≡ session.old.suppressed }
        ensures asked { OnOk result (asked_by session.new ≡ asked_if (is_work session.old (desk_of self.old.sender)) self.old.sender.v (asked_by session.old)) }
        ensures sent { IfOk result (λ bytes. HasSent (is_work session.old (desk_of self.old.sender)) session.old self.old self.new (bytes_given bytes)) }
    {
        match self.take(alloc, session)? {
            Taken::Nothing => Ok(None),
            Taken::Frame(take) => match self.encode(alloc, take) {
                Ok(bytes) => Ok(Some(bytes)),
                Err(SendFault::OutOfMemory) => Err(OutOfMemory),
                Err(SendFault::Spent) => unreachable!(),
            },
        }
    }
}

/// Notes a session's pointer where a take at it gave a frame.
fn note_taken(taken: &Result<Taken, OutOfMemory>, desk: &mut Option<PointerDesk>, session: &Session)
    ensures { desk.new ≡ desk_after taken.now (key_of session.now) desk.old }
{
    match taken {
        Ok(Taken::Frame(_)) => note(desk, session),
        Ok(Taken::Nothing) => {}
        Err(_) => {}
    }
}

/// A frame behind the packet that goes before it, in bytes. Where none goes before it the frame itself is given back. After an `Err`
/// nothing is said of the desk.
fn pointed(desk: &mut Option<PointerDesk>, frame: Vec<u8>) -> Result<Vec<u8>, OutOfMemory>
    ensures { IfOk result (λ out. IsPointed desk.old desk.new frame.items out.items) }
{
    let packet = told_bytes(desk)?;
    behind(packet, frame)
}

/// A frame behind a packet, if there is one.
fn behind(packet: Option<Vec<u8>>, frame: Vec<u8>) -> Result<Vec<u8>, OutOfMemory>
    ensures { IfOk result (λ out. out.items ≡ bytes_of packet ++ frame.items) }
{
    match packet {
        None => Ok(frame),
        Some(mut packet) => {
            packet.extend_from_slice(&frame)?;
            Ok(packet)
        }
    }
}
