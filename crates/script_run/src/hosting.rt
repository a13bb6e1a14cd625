//! A script's run in its course.

ghost use Rattle.std.specs.Prelude.{◌≡◌, ◌<◌, ℕ, List, [], ◌∷◌, ◌++◌, length, false, true, IsTrue, IfOk, OnOk, OnErr};
ghost use Rattle.px_core.specs.Rectangle.{is_session_size};
ghost use Rattle.session_rules.specs.Journal.{is_present};
ghost use Rattle.session_rules.specs.Steps.Step.{JoinStep};
ghost use Rattle.session_core.specs.Heads.{rows_of};
ghost use Rattle.session_core.specs.SessionModel.{is_here};
ghost use Rattle.script_rules.specs.Script.{is_name, is_invited, without_preset};
ghost use Rattle.script_rules.specs.CaptureText.{Run, run_at_first, encoder_frames};
ghost use Rattle.script_lines.specs.Keywords.{step_of};
ghost use Rattle.script_lines.specs.Lines.{IsStepInRange};
ghost use Rattle.frame_rules.specs.Encoder.{Encoder};
ghost use Rattle.script_run.specs.Answers.{answer_text, SaysOutcome};
ghost use Rattle.script_run.specs.Hosts.{with_invited};
ghost use Rattle.script_run.specs.Runs.{IsRunOf, IsInCourse, Advances};

use crate::running::Running;
use crate::{OutOfMemory, StepAnswer};
use caps_sets::Confirmed;
use info_lic::Name;
use px_core::Size;
use script_lines::ViewerStep;
use session_core::{Invite, is_new_name};
use session_rules::Role;
use std::alloc::Global;
use std::marker::Model;

/// A script's run in its course: first its rows come, then its steps.
///
/// Where an answer is want of memory, the step may be done in part, and nothing more is to be asked.
#[derive(Drop)]
pub struct ScriptHost {
    alloc: Global,
    size: Size,
    rows: Vec<Invite>,
    running: Option<Running>,
}

impl Model for ScriptHost {
    ghost use Rattle.session_core.specs.Heads.{rows_of};
    ghost use Rattle.script_run.specs.Hosts.{HostModel, host_of, IsHost};

    ghost Value = { HostModel };

    ghost view = { λ h. host_of (record { size = h.size; rows = rows_of h.rows.items }) h.running };

    ghost invariant = { λ h. IsHost (record { size = h.size; rows = rows_of h.rows.items }) h.running };
}

impl ScriptHost {
    /// The run of a script of this size, of which no row was read.
    pub fn new(alloc: Global, size: Size) -> ScriptHost
        requires { IsTrue (is_session_size size.w size.h) }
        ensures begun { result.begun ≡ false }
        ensures head { result.session.head ≡ record { size = size; rows = [] } }
        ensures run { IsRunOf result (run_at_first encoder_frames size) }
    {
        ScriptHost {
            alloc,
            size,
            rows: Vec::new(alloc),
            running: None,
        }
    }

    /// A row comes, before any step: a viewer may join by this name, as this. An `Err` changes nothing.
    pub fn invite(&mut self, name: &[u8], role: Role) -> Result<(), OutOfMemory>
        requires early { self.old.begun ≡ false }
        requires name { IsTrue (is_name name.now) }
        requires fresh { is_invited name.now self.old.session.head.rows ≡ false }
        requires room { length self.old.session.head.rows < 64 }
        ensures begun { self.new.begun ≡ self.old.begun }
        ensures head { OnOk result (self.new.session.head ≡ with_invited self.old.session.head (record { name = name.now; role = role })) }
        ensures run { OnOk result ((run : Run Encoder) → IsRunOf self.old run → IsRunOf self.new run) }
        ensures unchanged { OnErr result (self.new ≡ self.old) }
    {
        self.rows.push(Invite {
            name: Name::new(name),
            role,
        })?;
        Ok(())
    }

    /// A viewer joins by a row that has this name, where it is let in, and is sent frames, and told pointers, by what it confirmed.
    pub fn join(&mut self, name: &[u8], confirmed: Confirmed) -> Result<StepAnswer, OutOfMemory>
        requires { IsTrue (is_name name.now) }
        ensures begun { OnOk result (self.new.begun ≡ true) }
        ensures head { self.new.session.head ≡ self.old.session.head }
        ensures done { IfOk result (λ answer. (run : Run Encoder) (preset : List (List ℕ)) → IsRunOf self.old run
            → Advances self.old.session.head run (record { step = JoinStep name.now; preset = preset; confirmed = confirmed })
            (answer_text self.old.session.head.size 0 preset answer) self.new) }
    {
        let name = Name::new(name);
        match &mut self.running {
            Some(running) => running.join(&name, confirmed),
            None => self.begin(&name, confirmed),
        }
    }

    /// A step of a viewer that is present.
    pub fn step(&mut self, viewer: u32, step: ViewerStep) -> Result<StepAnswer, OutOfMemory>
        requires present { IsTrue (is_here self.old.session viewer) }
        requires range { IsStepInRange step }
        requires course { IsInCourse self.old }
        ensures begun { self.new.begun ≡ self.old.begun }
        ensures head { self.new.session.head ≡ self.old.session.head }
        ensures done { IfOk result (λ answer. (run : Run Encoder) (preset : List (List ℕ)) → IsRunOf self.old run
            → Advances self.old.session.head run (without_preset (step_of viewer step))
            (answer_text self.old.session.head.size viewer preset answer) self.new) }
        ensures told { IfOk result (λ answer. (run : Run Encoder) → IsRunOf self.old run
            → SaysOutcome self.old.session.head run (step_of viewer step) answer) }
    {
        match &mut self.running {
            Some(running) => running.step(viewer, step),
            None => unreachable!(),
        }
    }

    /// The first step: the session is made, and a viewer joins.
    fn begin(&mut self, name: &Name, confirmed: Confirmed) -> Result<StepAnswer, OutOfMemory>
        requires { self.old.begun ≡ false }
        ensures begun { OnOk result (self.new.begun ≡ true) }
        ensures head { self.new.session.head ≡ self.old.session.head }
        ensures done { IfOk result (λ answer. (run : Run Encoder) (preset : List (List ℕ)) → IsRunOf self.old run
            → Advances self.old.session.head run (record { step = JoinStep name.now; preset = preset; confirmed = confirmed })
            (answer_text self.old.session.head.size 0 preset answer) self.new) }
    {
        let mut running = Running::new(self.alloc, self.size, &self.rows)?;
        let answer = running.join(name, confirmed)?;
        self.running = Some(running);
        Ok(answer)
    }

    /// The size of the picture, in pixels.
    pub fn size(&self) -> Size
        ensures size { result ≡ self.now.session.head.size }
        ensures session { IsTrue (is_session_size result.w result.h) }
    {
        self.size
    }

    /// Whether a step was asked for, so that no row may come.
    pub fn has_begun(&self) -> bool
        ensures begun { result ≡ self.now.begun }
    {
        self.running.is_some()
    }

    /// How many rows there are.
    pub fn row_count(&self) -> usize
        ensures { result ≡ length self.now.session.head.rows }
    {
        self.rows.len()
    }

    /// Whether a row has this name.
    pub fn is_invited(&self, name: &[u8]) -> bool
        ensures { result ≡ is_invited name.now self.now.session.head.rows }
    {
        !is_new_name(name, &self.rows)
    }

    /// Whether a viewer is present.
    pub fn present(&self, viewer: u32) -> bool
        ensures here { result ≡ is_here self.now.session viewer }
        ensures in_run { (run : Run Encoder) → IsRunOf self.now run → result ≡ is_present viewer run.play.reached.viewers }
    {
        match &self.running {
            Some(running) => running.present(viewer),
            None => false,
        }
    }

    /// Who holds control; 0 for nobody.
    pub fn holder(&self) -> u32
        ensures { (run : Run Encoder) → IsRunOf self.now run → result ≡ run.play.reached.holder }
    {
        match &self.running {
            Some(running) => running.holder(),
            None => 0,
        }
    }

    /// How many entries the journal has.
    pub fn entries(&self) -> u64
        ensures { result ≡ length self.now.session.journal }
    {
        match &self.running {
            Some(running) => running.entries(),
            None => 0,
        }
    }
}
