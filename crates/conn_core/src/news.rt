//! What a packet tells, appended step by step.

ghost use Rattle.std.specs.Prelude.{◌≡◌, ◌∷◌, ◌++◌, [], OnOk, OnErr};
ghost use Rattle.conn_rules.specs.Told.{event_steps, area_steps, news_steps, is_ready, end_steps, told_steps};
ghost use Rattle.conn_core.specs.Judges.{found_steps};
ghost use Rattle.conn_core.specs.Feeds.{TellsFront};

use crate::found::Found;
use conn_rules::{ConnStep, News, SharePhase, Stage};
use input_pdu::Event;
use px_core::Rect;
use wire_num::OutOfMemory;

/// Appends what a packet tells that came at this stage, by what was found in it. An `Err` leaves a front of the steps there.
pub fn tell(
    stage: Stage,
    news: News,
    found: &Found,
    steps: &mut Vec<ConnStep>,
) -> Result<(), OutOfMemory>
    ensures ok { OnOk result (steps.new.items ≡ steps.old.items ++ told_steps stage news (found_steps found.now.events.items found.now.areas.items)) }
    ensures memory { OnErr result (TellsFront steps.old.items (told_steps stage news (found_steps found.now.events.items found.now.areas.items)) steps.new.items) }
{
    let ready = is_ready(stage);
    tell_news(news, found, steps)?;
    tell_end(ready, steps)?;
    Ok(())
}

/// Whether the client is ready.
fn is_ready(stage: Stage) -> bool
    ensures { result ≡ is_ready stage }
{
    match stage {
        Stage::Shares {
            phase: SharePhase::Ready,
            ..
        } => true,
        Stage::Shares {
            phase: SharePhase::Confirm { .. },
            ..
        } => false,
        Stage::Shares {
            phase: SharePhase::Finish { .. },
            ..
        } => false,
        Stage::Request
        | Stage::Initial { .. }
        | Stage::Erect { .. }
        | Stage::Attach { .. }
        | Stage::Joins { .. }
        | Stage::Over
        | Stage::Refused { .. } => false,
    }
}

/// Appends the end of a packet that follows Ready.
fn tell_end(ready: bool, steps: &mut Vec<ConnStep>) -> Result<(), OutOfMemory>
    ensures ok { OnOk result (steps.new.items ≡ steps.old.items ++ end_steps ready) }
    ensures memory { OnErr result (TellsFront steps.old.items (end_steps ready) steps.new.items) }
{
    if ready {
        steps.push(ConnStep::Packet)?;
    }
    Ok(())
}

/// Appends its news.
fn tell_news(news: News, found: &Found, steps: &mut Vec<ConnStep>) -> Result<(), OutOfMemory>
    ensures ok { OnOk result (steps.new.items ≡ steps.old.items ++ news_steps news (found_steps found.now.events.items found.now.areas.items)) }
    ensures memory { OnErr result (TellsFront steps.old.items (news_steps news (found_steps found.now.events.items found.now.areas.items)) steps.new.items) }
{
    match news {
        News::Nothing => Ok(()),
        News::Step(step) => tell_step(step, steps),
        News::Pdu => tell_found(found, steps),
    }
}

/// Appends a step.
fn tell_step(step: ConnStep, steps: &mut Vec<ConnStep>) -> Result<(), OutOfMemory>
    ensures ok { OnOk result (steps.new.items ≡ steps.old.items ++ step ∷ []) }
    ensures memory { OnErr result (steps.new.items ≡ steps.old.items) }
{
    steps.push(step)?;
    Ok(())
}

/// Appends what was found.
fn tell_found(found: &Found, steps: &mut Vec<ConnStep>) -> Result<(), OutOfMemory>
    ensures ok { OnOk result (steps.new.items ≡ steps.old.items ++ found_steps found.now.events.items found.now.areas.items) }
    ensures memory { OnErr result (TellsFront steps.old.items (found_steps found.now.events.items found.now.areas.items) steps.new.items) }
{
    tell_events(&found.events, steps)?;
    tell_areas(&found.areas, steps)?;
    Ok(())
}

/// Appends events.
fn tell_events(events: &[Event], steps: &mut Vec<ConnStep>) -> Result<(), OutOfMemory>
    ensures ok { OnOk result (steps.new.items ≡ steps.old.items ++ event_steps events.now) }
    ensures memory { OnErr result (TellsFront steps.old.items (event_steps events.now) steps.new.items) }
{
    for event in events {
        steps.push(ConnStep::Event(*event))?;
    }
    Ok(())
}

/// Appends areas.
fn tell_areas(areas: &[Rect], steps: &mut Vec<ConnStep>) -> Result<(), OutOfMemory>
    ensures ok { OnOk result (steps.new.items ≡ steps.old.items ++ area_steps areas.now) }
    ensures memory { OnErr result (TellsFront steps.old.items (area_steps areas.now) steps.new.items) }
{
    for area in areas {
        steps.push(ConnStep::Refresh(*area))?;
    }
    Ok(())
}
