//! A client, and what it asks for step by step.

ghost use Rattle.std.specs.Prelude.{◌≡◌, ◌≢◌, [], ◌∷◌, IsTrue, IfOk, IfErr, OnOk, IfSome};
ghost use Rattle.px_core.specs.Rectangle.{is_session_size};
ghost use Rattle.conn_rules.specs.Placed.{IsStepPlaced, ArePlaced};
ghost use Rattle.answer_run.specs.Asking.{owners_head};
ghost use Rattle.answer_run.specs.Solos.{IsSeated};
ghost use Rattle.answer_run.specs.Visits.{IsReady, Visits, Comes, Asks, WritesCause, IsWriteFault};

use crate::AnswerFault;
use crate::host::Host;
use crate::put::put;
use crate::solo::{Solo, input, join, refresh, suppress, take};
use conn_rules::ConnStep;
use edge_io::Sink;
use info_lic::Name;
use std::alloc::Global;
use wire_num::OutOfMemory;

/// A client.
#[derive(Drop)]
pub enum Visitor {
    /// It isn't ready, and gave this name last.
    Coming { name: Name },
    /// It was let in.
    Viewing { solo: Solo },
}

/// Does steps one after the other, and writes their frames; says whether the client is let in, so far as it came. An `Err` leaves a
/// front of the frames there.
pub fn do_steps<K: Sink>(
    host: &Host,
    visitor: &mut Visitor,
    steps: &[ConnStep],
    output: &mut K,
) -> Result<bool, AnswerFault>
    requires size { IsTrue (is_session_size host.now.size.w host.now.size.h) }
    requires owner { host.now.owner ≢ [] }
    requires ready { IsReady visitor.old }
    requires placed { ArePlaced steps.now }
    ensures done { Visits result (owners_head host.now.size host.now.owner) steps.now visitor.old visitor.new (K.told output.old) (K.told output.new) }
    ensures ready { OnOk result (IsReady visitor.new) }
    ensures fault { IfErr result IsWriteFault }
    ensures cause { WritesCause result (K.faults output.old) (K.faults output.new) }
{
    for step in steps {
        match do_step(host, visitor, *step, output) {
            Ok(true) => {}
            Ok(false) => return Ok(false),
            Err(fault) => return Err(fault),
        }
    }
    Ok(true)
}

/// Does a step, and writes its frame; says whether the client is let in, so far as it came.
fn do_step<K: Sink>(
    host: &Host,
    visitor: &mut Visitor,
    step: ConnStep,
    output: &mut K,
) -> Result<bool, AnswerFault>
    requires size { IsTrue (is_session_size host.now.size.w host.now.size.h) }
    requires owner { host.now.owner ≢ [] }
    requires ready { IsReady visitor.old }
    requires placed { IsStepPlaced step }
    ensures done { Visits result (owners_head host.now.size host.now.owner) (step ∷ []) visitor.old visitor.new (K.told output.old) (K.told output.new) }
    ensures ready { OnOk result (IsReady visitor.new) }
    ensures fault { IfErr result IsWriteFault }
    ensures cause { WritesCause result (K.faults output.old) (K.faults output.new) }
{
    match visitor {
        Visitor::Coming { name } => {
            let name = *name;
            match come(host, &name, step, output) {
                Ok(Some(came)) => {
                    *visitor = came;
                    Ok(true)
                }
                Ok(None) => Ok(false),
                Err(fault) => Err(fault),
            }
        }
        Visitor::Viewing { solo } => match ask(host.alloc, solo, step, output) {
            Ok(()) => Ok(true),
            Err(fault) => Err(fault),
        },
    }
}

/// Does a step of a client that isn't ready: what it is then, with its first frame written where it is let in; `None` where it isn't.
fn come<K: Sink>(
    host: &Host,
    name: &Name,
    step: ConnStep,
    output: &mut K,
) -> Result<Option<Visitor>, AnswerFault>
    requires size { IsTrue (is_session_size host.now.size.w host.now.size.h) }
    requires owner { host.now.owner ≢ [] }
    ensures done { Comes result (owners_head host.now.size host.now.owner) name.now step (K.told output.old) (K.told output.new) }
    ensures ready { IfOk result (λ came. IfSome came IsReady) }
    ensures fault { IfErr result IsWriteFault }
    ensures cause { WritesCause result (K.faults output.old) (K.faults output.new) }
{
    match step {
        ConnStep::Named(other) => Ok(Some(Visitor::Coming { name: other })),
        ConnStep::Ready(confirmed) => match join(host, name, confirmed) {
            Ok(Some(mut solo)) => match show(host.alloc, &mut solo, output) {
                Ok(()) => Ok(Some(Visitor::Viewing { solo })),
                Err(fault) => Err(fault),
            },
            Ok(None) => Ok(None),
            Err(OutOfMemory) => Err(AnswerFault::OutOfMemory),
        },
        ConnStep::Event(_) => Ok(Some(Visitor::Coming { name: *name })),
        ConnStep::Refresh(_) => Ok(Some(Visitor::Coming { name: *name })),
        ConnStep::Suppress(_) => Ok(Some(Visitor::Coming { name: *name })),
        ConnStep::Shutdown => Ok(Some(Visitor::Coming { name: *name })),
        ConnStep::Bye => Ok(Some(Visitor::Coming { name: *name })),
        ConnStep::Packet => Ok(Some(Visitor::Coming { name: *name })),
    }
}

/// Does what a viewer asks for by a step.
fn ask<K: Sink>(
    alloc: Global,
    solo: &mut Solo,
    step: ConnStep,
    output: &mut K,
) -> Result<(), AnswerFault>
    requires seated { IsSeated solo.old }
    requires placed { IsStepPlaced step }
    ensures done { Asks result step solo.old solo.new (K.told output.old) (K.told output.new) }
    ensures seated { OnOk result (IsSeated solo.new) }
    ensures fault { IfErr result IsWriteFault }
    ensures cause { WritesCause result (K.faults output.old) (K.faults output.new) }
{
    match step {
        ConnStep::Event(event) => match input(solo, event) {
            Ok(()) => Ok(()),
            Err(OutOfMemory) => Err(AnswerFault::OutOfMemory),
        },
        ConnStep::Refresh(area) => {
            refresh(solo, area);
            Ok(())
        }
        ConnStep::Suppress(stop) => {
            suppress(solo, stop);
            Ok(())
        }
        ConnStep::Packet => show(alloc, solo, output),
        ConnStep::Named(_) => Ok(()),
        ConnStep::Ready(_) => Ok(()),
        ConnStep::Shutdown => Ok(()),
        ConnStep::Bye => Ok(()),
    }
}

/// Writes the frame that is due.
fn show<K: Sink>(alloc: Global, solo: &mut Solo, output: &mut K) -> Result<(), AnswerFault>
    requires { IsSeated solo.old }
    ensures done { Asks result ConnStep.Packet solo.old solo.new (K.told output.old) (K.told output.new) }
    ensures seated { OnOk result (IsSeated solo.new) }
    ensures fault { IfErr result IsWriteFault }
    ensures cause { WritesCause result (K.faults output.old) (K.faults output.new) }
{
    match take(alloc, solo) {
        Ok(bytes) => put(output, &bytes),
        Err(OutOfMemory) => Err(AnswerFault::OutOfMemory),
    }
}
