//! The step that is drawn next.

ghost use Rattle.std.specs.Prelude.{◌≡◌, true, false, None, IfOk, OnOk};
ghost use Rattle.px_core.specs.Colors.{are_colors};
ghost use Rattle.draw_ops.specs.Ranges.{colors_of};
ghost use Rattle.input_pdu.specs.declared.event.Event.TheVariants.{Scan};
ghost use Rattle.session_rules.specs.Journal.{f12};
ghost use Rattle.session_rules.specs.Steps.Step.{InputStep, DrawStep};
ghost use Rattle.script_lines.specs.Keywords.{step_of};
ghost use Rattle.demo_run.specs.Numbers.{Drawn};
ghost use Rattle.demo_run.specs.Steps.{kind_of, take_drawn, step_of_kind, step_drawn};
ghost use Rattle.demo_run.specs.Asks.{IsDrawn, IsViewer};

use crate::drawing::{blit, copy, dst, fill, line, pat, restore, save, text};
use crate::numbers::below;
use crate::{OutOfMemory, StepKind};
use draw_ops::{Drawing, Shape};
use rand_pcg::Lcg64Xsh32;
use script_lines::ViewerStep;
use session_rules::Event;
use std::alloc::Global;

/// How many numbers stand for a kind of step.
const KINDS: u32 = 16;

/// How many viewers there are.
pub(crate) const VIEWERS: u32 = 16;

/// The scan code of F12 ([MS-RDPBCGR] 2.2.8.1.1.3.1.1.1), by which the holder gives control on.
const F12: u16 = 0x58;

/// A step, and the viewer whose step it is.
#[derive(Drop)]
pub(crate) struct NextStep {
    pub viewer: u32,
    pub step: ViewerStep,
}

/// Which step one of sixteen numbers stands for.
fn kind_of(n: u32) -> StepKind
    ensures { result ≡ kind_of n }
{
    match n {
        0..=2 => StepKind::Fill,
        3 => StepKind::Copy,
        4 => StepKind::Dst,
        5 => StepKind::Line,
        6 => StepKind::Pat,
        7..=8 => StepKind::Blit,
        9 => StepKind::Text,
        10 => StepKind::Save,
        11 => StepKind::Restore,
        12 => StepKind::Give,
        _ => StepKind::Take,
    }
}

/// The next step, where this viewer holds control.
pub(crate) fn next_step(
    alloc: Global,
    words: &mut Lcg64Xsh32,
    holder: u32,
) -> Result<NextStep, OutOfMemory>
    requires { IsViewer holder }
    ensures value { IfOk result (λ next. step_of next.viewer next.step ≡ (step_drawn holder words.old).value) }
    ensures after { OnOk result (words.new ≡ (step_drawn holder words.old).after) }
    ensures viewer { IfOk result (λ next. IsViewer next.viewer) }
    ensures drawn { IfOk result (λ next. IsDrawn next.step) }
{
    let kind = kind_of(below(words, KINDS));
    step_of_kind(alloc, kind, words, holder)
}

/// A step of this kind.
fn step_of_kind(
    alloc: Global,
    kind: StepKind,
    words: &mut Lcg64Xsh32,
    holder: u32,
) -> Result<NextStep, OutOfMemory>
    requires { IsViewer holder }
    ensures value { IfOk result (λ next. step_of next.viewer next.step ≡ (step_of_kind kind holder words.old).value) }
    ensures after { OnOk result (words.new ≡ (step_of_kind kind holder words.old).after) }
    ensures viewer { IfOk result (λ next. IsViewer next.viewer) }
    ensures drawn { IfOk result (λ next. IsDrawn next.step) }
{
    match kind {
        StepKind::Fill => Ok(draw(holder, fill(words))),
        StepKind::Copy => Ok(draw(holder, copy(words))),
        StepKind::Dst => Ok(draw(holder, dst(words))),
        StepKind::Line => Ok(draw(holder, line(words))),
        StepKind::Pat => Ok(draw(holder, pat(words))),
        StepKind::Blit => Ok(draw(holder, blit(words))),
        StepKind::Text => Ok(draw(holder, text(alloc, words)?)),
        StepKind::Save => Ok(draw(holder, save(words))),
        StepKind::Restore => Ok(draw(holder, restore(words))),
        StepKind::Give => Ok(give(holder)),
        StepKind::Take => Ok(take(words)),
    }
}

/// A viewer draws a shape, without a clip.
pub(crate) fn draw(viewer: u32, shape: Shape) -> NextStep
    requires { are_colors (colors_of shape) ≡ true }
    ensures viewer { result.viewer ≡ viewer }
    ensures value { step_of viewer result.step ≡ DrawStep viewer (record { shape = shape; clip = None }) }
    ensures drawn { IsDrawn result.step }
{
    let drawing = Drawing { shape, clip: None };
    NextStep {
        viewer,
        step: ViewerStep::Draw { drawing },
    }
}

/// The holder gives control on.
fn give(holder: u32) -> NextStep
    ensures viewer { result.viewer ≡ holder }
    ensures value { step_of holder result.step ≡ InputStep holder (Scan f12 false) }
    ensures drawn { IsDrawn result.step }
{
    let event = Event::Scan {
        code: F12,
        up: false,
    };
    NextStep {
        viewer: holder,
        step: ViewerStep::Input { event },
    }
}

/// One of the viewers takes.
fn take(words: &mut Lcg64Xsh32) -> NextStep
    ensures value { step_of result.viewer result.step ≡ (take_drawn words.old).value }
    ensures after { words.new ≡ (take_drawn words.old).after }
    ensures viewer { IsViewer result.viewer }
    ensures drawn { IsDrawn result.step }
{
    let n = below(words, VIEWERS);
    NextStep {
        viewer: 1 + n,
        step: ViewerStep::Take,
    }
}
