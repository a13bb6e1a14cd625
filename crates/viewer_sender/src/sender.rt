//! What goes to one viewer: its takes, and their bytes.
ghost use Rattle.std.specs.Prelude.{◌≡◌, ◌≤◌, ◌+◌, [], true, false, length, Ok, Err, IfOk, OnOk, OnErr, IsTrue};
ghost use Rattle.session_core.specs.SessionModel.{is_here, asked_by};
ghost use Rattle.frame_rules.specs.Frame.{FrameOf};
ghost use Rattle.frame_rules.specs.FrameBytes.{frame_bytes};
ghost use Rattle.frame_rules.specs.Encoder.{Encoder, first_encoder, encoder_after_frame};
ghost use Rattle.frame_rules.specs.Describes.{HasAllCaches};
ghost use Rattle.frame_plan.specs.Takes.{taken_as};
ghost use Rattle.frame_plan.specs.Plans.{is_work, taken_if, desk_if, asked_if};
ghost use Rattle.frame_plan.specs.declared.taken.Taken.TheVariants.{Nothing};
ghost use Rattle.viewer_sender.specs.declared.fault.SendFault.TheVariants as fault;
ghost use Rattle.viewer_sender.specs.Senders.{StandsFor, desk_of, with_desk, with_encoded};
ghost use Rattle.viewer_sender.specs.OwnTakes.{IsOwnTake, IsOwn};
ghost use Rattle.viewer_sender.specs.Shown.{Shows};

use crate::frame::write_frame;
use crate::writer::FrameWriter;
use crate::{OutOfMemory, SendFault};
use caps_sets::Confirmed;
use frame_plan::{Desk, Take, Taken, plan};
use session_core::Session;
use std::alloc::Global;
use std::marker::Model;

/// What is kept of one viewer: its desk, from which frames are taken, and the writer of their bytes.
#[derive(Drop)]
pub struct Sender {
    desk: Desk,
    writer: FrameWriter,
    encoded: u64,
    spent: bool,
}

impl Model for Sender {
    ghost use Rattle.viewer_sender.specs.Senders.{SenderModel, IsSender};

    ghost Value = { SenderModel };

    ghost view = { λ s. record {
      v = s.desk.v;
      confirmed = s.desk.confirmed;
      number = s.desk.number;
      held = s.desk.held;
      taken = s.desk.taken;
      encoded = s.encoded;
      spent = s.spent;
      registers = s.writer.registers;
      caches = s.writer.caches;
    } };

    ghost invariant = { λ s. IsSender s.desk.confirmed s.writer s.spent };
}

impl Sender {
    /// The sender of a viewer who was given no frame.
    pub fn new(alloc: Global, v: u32, confirmed: Confirmed) -> Result<Sender, OutOfMemory>
        ensures viewer { IfOk result (λ s. (s.v ≡ v) × (s.confirmed ≡ confirmed) × (s.number ≡ 0) × (s.held ≡ [])) }
        ensures idle { IfOk result (λ s. (s.taken ≡ 0) × (s.encoded ≡ 0) × (s.spent ≡ false)) }
        ensures stands { IfOk result (λ s. StandsFor s first_encoder) }
    {
        has_all_caches(&confirmed);
        let desk = Desk::new(alloc, v, confirmed)?;
        let writer = FrameWriter::new(alloc, confirmed)?;
        Ok(Sender {
            desk,
            writer,
            encoded: 0,
            spent: false,
        })
    }

    /// Takes the frame that is due to the viewer, who is present and has seen a front of the journal; `Nothing` where the viewer is
    /// suppressed, or the journal hasn't grown since its last frame and no tile is asked for. An `Err` leaves the session and the sender
    /// as they were.
    pub fn take(&mut self, alloc: Global, session: &mut Session) -> Result<Taken, OutOfMemory>
        requires present { IsTrue (is_here session.old self.old.v) }
        requires seen { self.old.number ≤ length session.old.journal }
        ensures taken { IfOk result (λ taken. taken ≡ taken_if (is_work session.old (desk_of self.old)) session.old (desk_of self.old)) }
        ensures own { IfOk result (IsOwn self.old.confirmed) }
        ensures sender { OnOk result (self.new ≡ with_desk self.old (desk_if (is_work session.old (desk_of self.old)) session.old (desk_of self.old))) }
        ensures asked { OnOk result (asked_by session.new ≡ asked_if (is_work session.old (desk_of self.old)) self.old.v (asked_by session.old)) }
        ensures head { session.new.head ≡ session.old.head }
        ensures journal { session.new.journal ≡ session.old.journal }
        ensures suppressed { session.new.suppressed ≡ session.old.suppressed }
        ensures nothing { result ≡ Ok Nothing → session.new ≡ session.old }
        ensures unchanged { OnErr result ((session.new ≡ session.old) × (self.new ≡ self.old)) }
    {
        session.recall_legal();
        self.desk.recall_apart();
        plan(alloc, session, &mut self.desk)
    }

    /// The packets of a take's frame; the takes of a sender are encoded in their order, each once.
    ///
    /// After want of memory the sender is spent, and `Spent` comes from then on.
    pub fn encode(&mut self, alloc: Global, take: Take) -> Result<Vec<u8>, SendFault>
        requires next { take.serial ≡ self.old.encoded }
        requires own { IsOwnTake self.old.confirmed take }
        ensures bytes { IfOk result (λ out. (e : Encoder) (f : FrameOf) → StandsFor self.old e → take.frame ≡ taken_as take.size f
            → out.items ≡ frame_bytes take.size self.old.confirmed e.registers e.uses f) }
        ensures after { OnOk result ((e : Encoder) (f : FrameOf) → StandsFor self.old e → take.frame ≡ taken_as take.size f
            → StandsFor self.new (encoder_after_frame take.size self.old.confirmed e f)) }
        ensures shows { IfOk result (λ out. Shows self.old self.new take out.items) }
        ensures rest { OnOk result (self.new ≡ with_encoded self.old self.new.registers self.new.caches) }
        ensures spent { self.old.spent ≡ true → result ≡ Err fault.Spent }
        ensures only_spent { result ≡ Err fault.Spent → (self.old.spent ≡ true) × (self.new ≡ self.old) }
        ensures memory { result ≡ Err fault.OutOfMemory → self.new
            ≡ record self.old { spent = true; registers = self.new.registers; caches = self.new.caches } }
    {
        self.write_next(alloc, &take)
    }

    /// The viewer's number.
    pub(crate) fn viewer(&self) -> u32
        ensures { result ≡ self.now.v }
    {
        self.desk.viewer()
    }

    /// The number of its last frame; 0 before the first.
    pub(crate) fn number(&self) -> u64
        ensures { result ≡ self.now.number }
    {
        self.desk.number()
    }

    /// The frame that was encoded last was lost: it isn't counted, and the sender is spent.
    pub(crate) fn lose_last(&mut self)
        requires { 1 ≤ self.old.encoded }
        ensures sender { self.new ≡ record self.old { encoded = self.new.encoded; spent = true } }
        ensures count { self.old.encoded ≡ self.new.encoded + 1 }
    {
        self.encoded -= 1;
        self.spent = true;
    }

    /// The packets of a take's frame, which is then counted.
    fn write_next(&mut self, alloc: Global, take: &Take) -> Result<Vec<u8>, SendFault>
        requires own { IsOwnTake self.old.confirmed take.now }
        ensures bytes { IfOk result (λ out. (e : Encoder) (f : FrameOf) → StandsFor self.old e → take.now.frame ≡ taken_as take.now.size f
            → out.items ≡ frame_bytes take.now.size self.old.confirmed e.registers e.uses f) }
        ensures after { OnOk result ((e : Encoder) (f : FrameOf) → StandsFor self.old e → take.now.frame ≡ taken_as take.now.size f
            → StandsFor self.new (encoder_after_frame take.now.size self.old.confirmed e f)) }
        ensures rest { OnOk result (self.new ≡ with_encoded self.old self.new.registers self.new.caches) }
        ensures spent { self.old.spent ≡ true → result ≡ Err fault.Spent }
        ensures only_spent { result ≡ Err fault.Spent → (self.old.spent ≡ true) × (self.new ≡ self.old) }
        ensures memory { result ≡ Err fault.OutOfMemory → self.new
            ≡ record self.old { spent = true; registers = self.new.registers; caches = self.new.caches } }
    {
        if self.spent {
            return Err(SendFault::Spent);
        }
        let Some(encoded) = self.encoded.checked_add(1) else {
            self.spent = true;
            return Err(SendFault::OutOfMemory);
        };
        match write_frame(alloc, &mut self.writer, take) {
            Ok(packets) => {
                self.encoded = encoded;
                Ok(packets)
            }
            Err(OutOfMemory) => {
                self.spent = true;
                Err(SendFault::OutOfMemory)
            }
        }
    }
}

/// What a viewer confirmed has all caches; it does nothing.
fn has_all_caches(confirmed: &Confirmed)
    ensures { HasAllCaches confirmed.now }
{
    let _three = confirmed.bitmaps.sizes();
    let _ten = confirmed.glyphs.sizes();
}
