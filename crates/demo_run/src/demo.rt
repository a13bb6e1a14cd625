//! The demonstration in its course.

ghost use Rattle.std.specs.Prelude.{◌≡◌, ◌<◌, ◌++◌, ◌∷◌, [], List, length, IfOk, OnOk, IsTrue};
ghost use Rattle.px_core.specs.Picture.{listed};
ghost use Rattle.script_lines.specs.Keywords.{step_of};
ghost use Rattle.script_rules.specs.Script.{Asked, without_preset};
ghost use Rattle.demo_run.specs.Numbers.{generator_of};
ghost use Rattle.demo_run.specs.Scene.{joins, draw_by, image_load, brush_load, glyph_load, loads};
ghost use Rattle.demo_run.specs.Load.{play_after, steps_from, last_takes};
ghost use Rattle.demo_run.specs.Asks.{IsDrawn, IsViewer};
ghost use Rattle.demo_run.specs.Watching.{refusals_in, IsAcceptedAt, IsNoted};
ghost use Rattle.demo_run.specs.Standing.{Stands, Goes};

use crate::OutOfMemory;
use crate::loads::{brush_load, glyph_load, image_load};
use crate::numbers::generator_of;
use crate::seats::{OWNER, seated, watchers};
use crate::stepping::{NextStep, VIEWERS, draw, next_step};
use crate::watcher::Watcher;
use script_lines::ViewerStep;
use script_run::{ScriptHost, StepAnswer};
use std::alloc::Global;

/// How many images, brushes and glyphs are loaded.
const IMAGES: u8 = 8;

const BRUSHES: u8 = 4;

const GLYPHS: u8 = 8;

/// The session, a client for each viewer, and how many steps were refused, at most 2^64 - 1.
#[derive(Drop)]
pub(crate) struct Demo {
    pub alloc: Global,
    pub host: ScriptHost,
    pub watchers: Vec<Watcher>,
    pub refused: u64,
}

impl Demo {
    /// The demonstration after all viewers have joined, each of which is let in.
    pub(crate) fn new(alloc: Global) -> Result<Demo, OutOfMemory>
        ensures { IfOk result (Stands joins) }
    {
        Ok(Demo {
            alloc,
            host: seated(alloc)?,
            watchers: watchers(alloc)?,
            refused: 0,
        })
    }

    /// The first viewer loads images, brushes and glyphs.
    pub(crate) fn load_all(&mut self) -> Result<(), OutOfMemory>
        requires { Goes self.old }
        ensures { OnOk result ((done : List Asked) → Stands done self.old → Stands (done ++ loads) self.new) }
    {
        self.load_images()?;
        self.load_brushes()?;
        self.load_glyphs()
    }

    fn load_images(&mut self) -> Result<(), OutOfMemory>
        requires { Goes self.old }
        ensures { OnOk result ((done : List Asked) → Stands done self.old → Stands (done ++ listed 8 0 (λ slot. draw_by 1 (image_load slot))) self.new) }
    {
        for slot in 0..IMAGES {
            self.ask(draw(OWNER, image_load(self.alloc, slot)?))?;
        }
        Ok(())
    }

    fn load_brushes(&mut self) -> Result<(), OutOfMemory>
        requires { Goes self.old }
        ensures { OnOk result ((done : List Asked) → Stands done self.old → Stands (done ++ listed 4 0 (λ slot. draw_by 1 (brush_load slot))) self.new) }
    {
        for slot in 0..BRUSHES {
            self.ask(draw(OWNER, brush_load(self.alloc, slot)?))?;
        }
        Ok(())
    }

    fn load_glyphs(&mut self) -> Result<(), OutOfMemory>
        requires { Goes self.old }
        ensures { OnOk result ((done : List Asked) → Stands done self.old → Stands (done ++ listed 8 0 (λ code. draw_by 1 (glyph_load code))) self.new) }
    {
        for code in 0..GLYPHS {
            self.ask(draw(OWNER, glyph_load(self.alloc, code)?))?;
        }
        Ok(())
    }

    /// So many steps are drawn from a seed.
    pub(crate) fn draw_steps(&mut self, seed: u64, steps: u32) -> Result<(), OutOfMemory>
        requires { Goes self.old }
        ensures { OnOk result ((done : List Asked) → Stands done self.old
            → Stands (done ++ steps_from (play_after done) (generator_of seed) steps) self.new) }
    {
        let mut words = generator_of(seed);
        for _i in 0..steps {
            let next = next_step(self.alloc, &mut words, self.host.holder())?;
            self.ask(next)?;
        }
        Ok(())
    }

    /// Each viewer takes once.
    pub(crate) fn take_all(&mut self) -> Result<(), OutOfMemory>
        requires { Goes self.old }
        ensures { OnOk result ((done : List Asked) → Stands done self.old → Stands (done ++ last_takes) self.new) }
    {
        for i in 0..VIEWERS {
            self.ask(NextStep {
                viewer: i + 1,
                step: ViewerStep::Take,
            })?;
        }
        Ok(())
    }

    /// Does a step; a frame is read by its viewer's client, and dropped.
    fn ask(&mut self, next: NextStep) -> Result<(), OutOfMemory>
        requires going { Goes self.old }
        requires viewer { IsViewer next.viewer }
        requires drawn { IsDrawn next.step }
        ensures { OnOk result ((done : List Asked) → Stands done self.old → Stands (done ++ without_preset (step_of next.viewer next.step) ∷ []) self.new) }
    {
        let viewer = next.viewer;
        let answer = self.host.step(viewer, next.step)?;
        self.refused = self.refused.saturating_add(refusals_in(&answer));
        note(&mut self.watchers, (viewer - 1) as usize, &answer)
    }
}

/// What an answer counts as a refusal.
fn refusals_in(answer: &StepAnswer) -> u64
    ensures { result ≡ refusals_in answer.now }
{
    match answer {
        StepAnswer::Refused { .. } => 1,
        StepAnswer::Joined { .. } => 0,
        StepAnswer::Left => 0,
        StepAnswer::Accepted => 0,
        StepAnswer::Nothing => 0,
        StepAnswer::Frame { .. } => 0,
    }
}

/// The watcher at a place reads the frame of an answer that is one.
fn note(watchers: &mut Vec<Watcher>, place: usize, answer: &StepAnswer) -> Result<(), OutOfMemory>
    requires place { place < length watchers.old.items }
    requires accepted { IsAcceptedAt place answer.now watchers.old.items }
    ensures { OnOk result (IsNoted place answer.now watchers.old.items watchers.new.items) }
{
    match answer {
        StepAnswer::Frame { bytes } => watchers[place].watch(bytes),
        StepAnswer::Refused { .. } => Ok(()),
        StepAnswer::Joined { .. } => Ok(()),
        StepAnswer::Left => Ok(()),
        StepAnswer::Accepted => Ok(()),
        StepAnswer::Nothing => Ok(()),
    }
}
