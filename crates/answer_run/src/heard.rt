//! What was heard of a client's stream is done.

ghost use Rattle.std.specs.Prelude.{◌≡◌, ◌≢◌, [], None, IsTrue, IfOk, IfErr, All};
ghost use Rattle.px_core.specs.Rectangle.{is_session_size};
ghost use Rattle.frame_rules.specs.Describes.{HasAllCaches};
ghost use Rattle.conn_rules.specs.Placed.{ArePlaced};
ghost use Rattle.answer_run.specs.Asking.{owners_head};
ghost use Rattle.answer_run.specs.Service.{last_word};
ghost use Rattle.answer_run.specs.Visits.{IsReady, HasCaches, WritesCause, IsWriteFault};
ghost use Rattle.answer_run.specs.Serves.{DoesHeard, EndsHeard, end_if};

use crate::host::Host;
use crate::put::{put, put_last};
use crate::visitor::{Visitor, do_steps};
use crate::{AnswerFault, Ending};
use caps_sets::Confirmed;
use conn_rules::ConnStep;
use edge_io::Sink;
use std::alloc::Global;

/// Writes the replies, does the steps, and writes an ultimatum where the service ends with one; says how it ends, if it does. The stream
/// may be refused behind these steps. An `Err` leaves a front of what is due.
pub fn do_heard<K: Sink>(
    host: &Host,
    visitor: &mut Visitor,
    replies: &[u8],
    steps: &[ConnStep],
    refusal: Option<Ending>,
    output: &mut K,
) -> Result<Option<Ending>, AnswerFault>
    requires size { IsTrue (is_session_size host.now.size.w host.now.size.h) }
    requires owner { host.now.owner ≢ [] }
    requires ready { IsReady visitor.old }
    requires placed { ArePlaced steps.now }
    ensures done { DoesHeard result (owners_head host.now.size host.now.owner) replies.now steps.now refusal visitor.old visitor.new (K.told output.old)
        (K.told output.new) }
    ensures ready { IfOk result (λ how. how ≡ None → IsReady visitor.new) }
    ensures fault { IfErr result IsWriteFault }
    ensures cause { WritesCause result (K.faults output.old) (K.faults output.new) }
{
    match put(output, replies) {
        Ok(()) => {}
        Err(fault) => return Err(fault),
    }
    match do_steps(host, visitor, steps, output) {
        Ok(let_in) => end_heard(
            host.alloc,
            end_of(let_in, refusal, last_word(steps)),
            output,
        ),
        Err(fault) => Err(fault),
    }
}

/// How a service ends with what was heard, by whether the client is let in, where the stream is refused or not, and what it said.
fn end_of(let_in: bool, refusal: Option<Ending>, word: Option<Ending>) -> Option<Ending>
    ensures { result ≡ end_if let_in refusal word }
{
    if !let_in {
        return Some(Ending::NotInvited);
    }
    match refusal {
        Some(refusal) => Some(refusal),
        None => word,
    }
}

/// Writes the ultimatum of an end, where there is one.
fn end_heard<K: Sink>(
    alloc: Global,
    end: Option<Ending>,
    output: &mut K,
) -> Result<Option<Ending>, AnswerFault>
    ensures done { EndsHeard result end (K.told output.old) (K.told output.new) }
    ensures fault { IfErr result IsWriteFault }
    ensures cause { WritesCause result (K.faults output.old) (K.faults output.new) }
{
    match end {
        None => Ok(None),
        Some(how) => match put_last(alloc, output, how) {
            Ok(()) => Ok(Some(how)),
            Err(fault) => Err(fault),
        },
    }
}

/// The first step that ends a service.
fn last_word(steps: &[ConnStep]) -> Option<Ending>
    ensures { result ≡ last_word steps.now }
{
    for step in steps {
        match step {
            ConnStep::Bye => return Some(Ending::Left),
            ConnStep::Shutdown => return Some(Ending::AskedForEnd),
            ConnStep::Named(_)
            | ConnStep::Ready(_)
            | ConnStep::Event(_)
            | ConnStep::Refresh(_)
            | ConnStep::Suppress(_)
            | ConnStep::Packet => {}
        }
    }
    None
}

/// What steps confirm has all caches; it does nothing.
pub fn have_caches(steps: &[ConnStep])
    ensures { All HasCaches steps.now }
{
    for step in steps {
        has_caches(step);
    }
}

/// What a step confirms has all caches; it does nothing.
fn has_caches(step: &ConnStep)
    ensures { HasCaches step.now }
{
    match step {
        ConnStep::Ready(confirmed) => has_all_caches(confirmed),
        ConnStep::Named(_)
        | ConnStep::Event(_)
        | ConnStep::Refresh(_)
        | ConnStep::Suppress(_)
        | ConnStep::Shutdown
        | ConnStep::Bye
        | ConnStep::Packet => {}
    }
}

/// What a client confirmed has all caches; it does nothing.
fn has_all_caches(confirmed: &Confirmed)
    ensures { HasAllCaches confirmed.now }
{
    let _three = confirmed.bitmaps.sizes();
    let _ten = confirmed.glyphs.sizes();
}
