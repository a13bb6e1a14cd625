//! A session with the seats of its viewers.

ghost use Rattle.std.specs.Prelude.{◌≡◌, ℕ, List, [], length, IsTrue, IfOk, OnOk, true};
ghost use Rattle.px_core.specs.Rectangle.{is_session_size, IsPlaced};
ghost use Rattle.draw_ops.specs.Ranges.{HasColors};
ghost use Rattle.session_rules.specs.Steps.Step.{JoinStep, LeaveStep, TakeStep, RefreshStep, SuppressStep, InputStep, DrawStep};
ghost use Rattle.session_core.specs.Heads.{rows_of};
ghost use Rattle.session_core.specs.SessionModel.{new_session, reached_by, is_here, AreInvited};
ghost use Rattle.frame_rules.specs.Encoder.{Encoder};
ghost use Rattle.script_rules.specs.CaptureText.{Run};
ghost use Rattle.script_lines.specs.Keywords.{step_of};
ghost use Rattle.script_lines.specs.Lines.{IsStepInRange};
ghost use Rattle.script_run.specs.Answers.{answer_text};
ghost use Rattle.script_run.specs.Runs.{IsRunOf, IsInCourse, Advances, DoesOwn, SaysOwn};

use crate::answer::{draw_answer, input_answer, join_refusal, take_answer};
use crate::seats::place_here;
use crate::{OutOfMemory, StepAnswer};
use caps_sets::Confirmed;
use draw_ops::Drawing;
use info_lic::Name;
use input_pdu::Event;
use px_core::{Rect, Size};
use script_lines::ViewerStep;
use session_core::{Invite, Session};
use std::alloc::Global;
use std::marker::Model;
use viewer_sender::Seat;

/// A session with the seats of its viewers.
#[derive(Drop)]
pub struct Running {
    alloc: Global,
    session: Session,
    seats: Vec<Seat>,
}

impl Model for Running {
    ghost use Rattle.std.specs.Prelude.{true};
    ghost use Rattle.script_run.specs.Hosts.{HostModel};

    ghost Value = { HostModel };

    ghost view = { λ r. record { begun = true; session = r.session; seats = r.seats.items } };
}

impl Running {
    /// A new session, with nobody present.
    pub fn new(alloc: Global, size: Size, rows: &[Invite]) -> Result<Running, OutOfMemory>
        requires size { IsTrue (is_session_size size.w size.h) }
        requires rows { AreInvited (rows_of rows.now) }
        ensures { IfOk result (λ running. running
            ≡ record { begun = true; session = new_session (record { size = size; rows = rows_of rows.now }); seats = [] }) }
    {
        let session = Session::new(alloc, size, rows)?;
        Ok(Running {
            alloc,
            session,
            seats: Vec::new(alloc),
        })
    }

    /// Whether a viewer is present.
    pub fn present(&self, viewer: u32) -> bool
        ensures { result ≡ is_here self.now.session viewer }
    {
        self.session.present(viewer)
    }

    /// Who holds control; 0 for nobody.
    pub fn holder(&self) -> u32
        ensures { result ≡ (reached_by self.now.session).holder }
    {
        self.session.holder()
    }

    /// How many entries the journal has.
    pub fn entries(&self) -> u64
        ensures { result ≡ length self.now.session.journal }
    {
        self.session.length()
    }

    /// A viewer joins, where it is let in, and gets a seat.
    pub fn join(&mut self, name: &Name, confirmed: Confirmed) -> Result<StepAnswer, OutOfMemory>
        ensures begun { self.new.begun ≡ true }
        ensures head { self.new.session.head ≡ self.old.session.head }
        ensures done { IfOk result (λ answer. (run : Run Encoder) (preset : List (List ℕ)) → IsRunOf self.old run
            → Advances self.old.session.head run (record { step = JoinStep name.now; preset = preset; confirmed = confirmed })
            (answer_text self.old.session.head.size 0 preset answer) self.new) }
    {
        match self.session.join(name) {
            Ok(viewer) => {
                let seat = Seat::new(self.alloc, viewer, confirmed)?;
                self.seats.push(seat)?;
                Ok(StepAnswer::Joined { viewer })
            }
            Err(fault) => {
                let answer = join_refusal(fault)?;
                Ok(answer)
            }
        }
    }

    /// A step of a viewer that is present.
    pub fn step(&mut self, viewer: u32, step: ViewerStep) -> Result<StepAnswer, OutOfMemory>
        requires present { IsTrue (is_here self.old.session viewer) }
        requires range { IsStepInRange step }
        requires course { IsInCourse self.old }
        ensures begun { self.new.begun ≡ true }
        ensures head { self.new.session.head ≡ self.old.session.head }
        ensures done { IfOk result (λ answer. DoesOwn self.old self.new viewer (step_of viewer step) answer) }
        ensures told { IfOk result (λ answer. SaysOwn self.old (step_of viewer step) answer) }
    {
        match step {
            ViewerStep::Leave => self.leave(viewer),
            ViewerStep::Take => self.take(viewer),
            ViewerStep::Suppress { stop } => self.suppress(viewer, stop),
            ViewerStep::Refresh { rect } => self.refresh(viewer, rect),
            ViewerStep::Input { event } => self.input(viewer, event),
            ViewerStep::Draw { drawing } => self.draw(viewer, drawing),
        }
    }

    /// A viewer leaves, and its seat goes.
    fn leave(&mut self, viewer: u32) -> Result<StepAnswer, OutOfMemory>
        requires present { IsTrue (is_here self.old.session viewer) }
        requires course { IsInCourse self.old }
        ensures begun { self.new.begun ≡ true }
        ensures head { self.new.session.head ≡ self.old.session.head }
        ensures done { IfOk result (λ answer. DoesOwn self.old self.new viewer (LeaveStep viewer) answer) }
        ensures told { IfOk result (λ answer. SaysOwn self.old (LeaveStep viewer) answer) }
    {
        self.session.recall_legal();
        let i = place_here(&self.seats, viewer);
        self.session.leave(viewer);
        self.seats.remove(i);
        Ok(StepAnswer::Left)
    }

    /// A viewer takes the frame that is due to it.
    fn take(&mut self, viewer: u32) -> Result<StepAnswer, OutOfMemory>
        requires present { IsTrue (is_here self.old.session viewer) }
        requires course { IsInCourse self.old }
        ensures begun { self.new.begun ≡ true }
        ensures head { self.new.session.head ≡ self.old.session.head }
        ensures done { IfOk result (λ answer. DoesOwn self.old self.new viewer (TakeStep viewer) answer) }
        ensures told { IfOk result (λ answer. SaysOwn self.old (TakeStep viewer) answer) }
    {
        let i = place_here(&self.seats, viewer);
        let seat = &mut self.seats[i];
        let sent = seat.next_frame(self.alloc, &mut self.session)?;
        Ok(take_answer(sent))
    }

    /// A viewer wants no more output, or wants it again.
    fn suppress(&mut self, viewer: u32, stop: bool) -> Result<StepAnswer, OutOfMemory>
        requires { IsTrue (is_here self.old.session viewer) }
        ensures begun { self.new.begun ≡ true }
        ensures head { self.new.session.head ≡ self.old.session.head }
        ensures done { IfOk result (λ answer. DoesOwn self.old self.new viewer (SuppressStep viewer stop) answer) }
        ensures told { IfOk result (λ answer. SaysOwn self.old (SuppressStep viewer stop) answer) }
    {
        self.session.suppress(viewer, stop);
        Ok(StepAnswer::Accepted)
    }

    /// A viewer asks for the tiles of a rectangle.
    fn refresh(&mut self, viewer: u32, rect: Rect) -> Result<StepAnswer, OutOfMemory>
        requires present { IsTrue (is_here self.old.session viewer) }
        requires placed { IsPlaced rect }
        ensures begun { self.new.begun ≡ true }
        ensures head { self.new.session.head ≡ self.old.session.head }
        ensures done { IfOk result (λ answer. DoesOwn self.old self.new viewer (RefreshStep viewer rect) answer) }
        ensures told { IfOk result (λ answer. SaysOwn self.old (RefreshStep viewer rect) answer) }
    {
        self.session.refresh(viewer, rect);
        Ok(StepAnswer::Accepted)
    }

    /// An input event of a viewer.
    fn input(&mut self, viewer: u32, event: Event) -> Result<StepAnswer, OutOfMemory>
        requires { IsTrue (is_here self.old.session viewer) }
        ensures begun { self.new.begun ≡ true }
        ensures head { self.new.session.head ≡ self.old.session.head }
        ensures done { IfOk result (λ answer. DoesOwn self.old self.new viewer (InputStep viewer event) answer) }
        ensures told { IfOk result (λ answer. SaysOwn self.old (InputStep viewer event) answer) }
    {
        let answer = input_answer(self.session.input(viewer, event))?;
        Ok(answer)
    }

    /// A drawing of a viewer.
    fn draw(&mut self, viewer: u32, drawing: Drawing) -> Result<StepAnswer, OutOfMemory>
        requires present { IsTrue (is_here self.old.session viewer) }
        requires colors { HasColors drawing }
        ensures begun { self.new.begun ≡ true }
        ensures head { self.new.session.head ≡ self.old.session.head }
        ensures done { IfOk result (λ answer. DoesOwn self.old self.new viewer (DrawStep viewer drawing) answer) }
        ensures told { IfOk result (λ answer. SaysOwn self.old (DrawStep viewer drawing) answer) }
    {
        let answer = draw_answer(self.session.draw(viewer, drawing))?;
        Ok(answer)
    }
}
