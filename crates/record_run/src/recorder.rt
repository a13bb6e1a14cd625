//! A session in the course of a script, with what each step writes of its record.

ghost use Rattle.std.specs.Prelude.{◌≡◌, ◌<◌, ◌++◌, [], length, false, IsTrue, OnOk};
ghost use Rattle.px_core.specs.Rectangle.{is_session_size};
ghost use Rattle.session_rules.specs.Steps.Step.{JoinStep};
ghost use Rattle.session_core.specs.SessionModel.{is_here};
ghost use Rattle.script_rules.specs.Script.{ScriptReading, is_name, is_invited, with_row};
ghost use Rattle.script_lines.specs.Keywords.{step_of};
ghost use Rattle.script_lines.specs.Lines.{IsStepInRange};
ghost use Rattle.record_run.specs.Recorders.{Keeps, DoesStep};
ghost use Rattle.record_run.specs.Recording.{head_text};

use crate::OutOfMemory;
use crate::entries::{do_step, join};
use caps_sets::Confirmed;
use info_lic::Name;
use px_core::Size;
use record_file::write_head;
use script_lines::{LineRule, ViewerStep};
use script_run::Course;
use session_core::{Invite, Session, is_new_name};
use session_rules::Role;
use std::alloc::Global;
use std::marker::Model;

/// A session in the course of a script: first its rows come, then its steps. What each of these writes is appended to a buffer.
///
/// Where an answer is want of memory, a step may be done in part, and nothing more is to be asked.
#[derive(Drop)]
pub(crate) struct Recorder {
    alloc: Global,
    size: Size,
    rows: Vec<Invite>,
    session: Option<Session>,
}

impl Model for Recorder {
    ghost use Rattle.session_core.specs.Heads.{rows_of};
    ghost use Rattle.record_run.specs.Recorders.{RecorderModel, recorder_of, IsRecorder};

    ghost Value = { RecorderModel };

    ghost view = { λ r. recorder_of (record { size = r.size; rows = rows_of r.rows.items }) r.session };

    ghost invariant = { λ r. IsRecorder (record { size = r.size; rows = rows_of r.rows.items }) r.session };
}

impl Course for Recorder {
    ghost use Rattle.session_core.specs.SessionModel.{reached_by};
    ghost use Rattle.record_run.specs.Reading.{records};
    ghost use Rattle.record_run.specs.Recorders.{seen_of};

    ghost writing = { records };

    ghost seen = { λ m. seen_of m };

    // The journal has reached what the reading has, whatever is sent.
    ghost keeps = { λ m r run. r.play.reached ≡ reached_by m.session };

    fn begin(alloc: Global, size: Size) -> Recorder {
        Recorder::new(alloc, size)
    }

    fn has_begun(&self) -> bool {
        self.session.is_some()
    }

    fn row_count(&self) -> usize {
        self.rows.len()
    }

    fn is_invited(&self, name: &[u8]) -> bool {
        !is_new_name(name, &self.rows)
    }

    fn present(&self, viewer: u32) -> bool {
        match &self.session {
            Some(session) => session.present(viewer),
            None => false,
        }
    }

    fn invite(&mut self, name: &[u8], role: Role) -> Result<(), OutOfMemory> {
        self.add_row(name, role)
    }

    fn join(
        &mut self,
        _: Global,
        out: &mut Vec<u8>,
        name: &[u8],
        _: &[u8],
        _: Confirmed,
    ) -> Result<Option<Vec<u8>>, OutOfMemory> {
        self.record_join(name, out)?;
        Ok(None)
    }

    fn step(
        &mut self,
        _: Global,
        out: &mut Vec<u8>,
        viewer: u32,
        step: ViewerStep,
    ) -> Result<Option<Vec<u8>>, OutOfMemory> {
        self.record_step(viewer, step, out)?;
        Ok(None)
    }

    fn refuse(&self, _: Global, out: &mut Vec<u8>, _: u32, _: LineRule) -> Result<(), OutOfMemory> {
        self.write_unbegun(out)
    }

    fn end(&self, out: &mut Vec<u8>) -> Result<(), OutOfMemory> {
        self.write_unbegun(out)
    }

    fn refuse_first(_: Global, _: &mut Vec<u8>, _: LineRule) -> Result<(), OutOfMemory> {
        Ok(())
    }
}

impl Recorder {
    /// A script of this size, of which no row was read.
    fn new(alloc: Global, size: Size) -> Recorder
        requires { IsTrue (is_session_size size.w size.h) }
        ensures begun { result.begun ≡ false }
        ensures head { result.session.head ≡ record { size = size; rows = [] } }
        ensures journal { result.session.journal ≡ [] }
    {
        Recorder {
            alloc,
            size,
            rows: Vec::new(alloc),
            session: None,
        }
    }

    /// A row comes, before any step: a viewer may join by this name, as this.
    fn add_row(&mut self, name: &[u8], role: Role) -> Result<(), OutOfMemory>
        requires early { self.old.begun ≡ false }
        requires name { IsTrue (is_name name.now) }
        requires fresh { is_invited name.now self.old.session.head.rows ≡ false }
        requires room { length self.old.session.head.rows < 64 }
        ensures { OnOk result ((r : ScriptReading) → Keeps self.old r → Keeps self.new (with_row r (record { name = name.now; role = role }))) }
    {
        self.rows.push(Invite {
            name: Name::new(name),
            role,
        })?;
        Ok(())
    }

    /// A viewer joins by a row that has this name, where it is let in.
    fn record_join(&mut self, name: &[u8], out: &mut Vec<u8>) -> Result<(), OutOfMemory>
        requires { IsTrue (is_name name.now) }
        ensures { OnOk result ((r : ScriptReading) → Keeps self.old r → DoesStep r (JoinStep name.now) self.new out.old.items out.new.items) }
    {
        let name = Name::new(name);
        match &mut self.session {
            Some(session) => join(session, &name, out),
            None => self.begin_record(&name, out),
        }
    }

    /// A step of a viewer that is present.
    fn record_step(
        &mut self,
        viewer: u32,
        step: ViewerStep,
        out: &mut Vec<u8>,
    ) -> Result<(), OutOfMemory>
        requires present { IsTrue (is_here self.old.session viewer) }
        requires range { IsStepInRange step }
        ensures { OnOk result ((r : ScriptReading) → Keeps self.old r → DoesStep r (step_of viewer step) self.new out.old.items out.new.items) }
    {
        match &mut self.session {
            Some(session) => do_step(session, viewer, step, out),
            None => unreachable!(),
        }
    }

    /// The first step: the head is written, the session is made, and a viewer joins.
    fn begin_record(&mut self, name: &Name, out: &mut Vec<u8>) -> Result<(), OutOfMemory>
        requires { self.old.begun ≡ false }
        ensures { OnOk result ((r : ScriptReading) → Keeps self.old r → DoesStep r (JoinStep name.now) self.new out.old.items out.new.items) }
    {
        write_head(out, self.size, &self.rows)?;
        let mut session = Session::new(self.alloc, self.size, &self.rows)?;
        join(&mut session, name, out)?;
        self.session = Some(session);
        Ok(())
    }

    /// Writes the head, where no step has stood.
    fn write_unbegun(&self, out: &mut Vec<u8>) -> Result<(), OutOfMemory>
        ensures { OnOk result ((r : ScriptReading) → Keeps self.now r → out.new.items ≡ out.old.items ++ head_text r) }
    {
        match &self.session {
            Some(_) => Ok(()),
            None => write_head(out, self.size, &self.rows),
        }
    }
}
