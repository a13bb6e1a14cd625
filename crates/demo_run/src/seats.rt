//! The viewers: their rows, what they confirm, and their joins.

ghost use Rattle.std.specs.Prelude.{◌≡◌, ◌≤◌, ◌<◌, IfOk, OnOk, IsTrue, Some, is_some, false, []};
ghost use Rattle.line_text.specs.Words.{words_of};
ghost use Rattle.caps_sets.specs.Presets.{presets, confirmed_by};
ghost use Rattle.frame_rules.specs.Encoder.{Encoder};
ghost use Rattle.px_core.specs.Picture.{listed};
ghost use Rattle.script_rules.specs.Script.{is_name};
ghost use Rattle.script_rules.specs.CaptureText.{Run, run_at_first, encoder_frames};
ghost use Rattle.script_run.specs.Runs.{IsRunOf};
ghost use Rattle.demo_run.specs.Scene.{demo_size, demo_head, name_of, role_of, preset_of, joins};
ghost use Rattle.demo_run.specs.Asks.{IsViewer};
ghost use Rattle.demo_run.specs.Standing.{run_of, AreNew};

use crate::OutOfMemory;
use crate::stepping::VIEWERS;
use crate::watcher::Watcher;
use caps_sets::{Confirmed, preset};
use line_text::write_decimal;
use px_core::Size;
use script_run::ScriptHost;
use session_rules::Role;
use std::alloc::Global;

/// The picture's size.
pub(crate) const SIZE: Size = Size { w: 256, h: 192 };

/// The owner's number.
pub(crate) const OWNER: u32 = 1;

/// What stands before a viewer's number in its name.
const NAME: &[u8] = b"v";

/// A session whose viewers have joined, each by its row.
pub(crate) fn seated(alloc: Global) -> Result<ScriptHost, OutOfMemory>
    ensures head { IfOk result (λ host. host.session.head ≡ demo_head) }
    ensures run { IfOk result (λ host. IsRunOf host (run_of joins)) }
{
    let mut host = ScriptHost::new(alloc, SIZE);
    invite_all(alloc, &mut host)?;
    join_all(alloc, &mut host)?;
    Ok(host)
}

/// A row for each viewer.
fn invite_all(alloc: Global, host: &mut ScriptHost) -> Result<(), OutOfMemory>
    requires begun { host.old.begun ≡ false }
    requires head { host.old.session.head ≡ record { size = demo_size; rows = [] } }
    requires run { IsRunOf host.old (run_at_first encoder_frames demo_size) }
    ensures head { OnOk result (host.new.session.head ≡ demo_head) }
    ensures run { OnOk result (IsRunOf host.new (run_at_first encoder_frames demo_size)) }
{
    for i in 0..VIEWERS {
        let v = i + 1;
        let name = name_of(alloc, v)?;
        host.invite(&name, role_of(v))?;
    }
    Ok(())
}

/// Each viewer joins.
fn join_all(alloc: Global, host: &mut ScriptHost) -> Result<(), OutOfMemory>
    requires head { host.old.session.head ≡ demo_head }
    requires run { IsRunOf host.old (run_at_first encoder_frames demo_size) }
    ensures head { OnOk result (host.new.session.head ≡ demo_head) }
    ensures run { OnOk result (IsRunOf host.new (run_of joins)) }
{
    for i in 0..VIEWERS {
        let v = i + 1;
        let name = name_of(alloc, v)?;
        host.join(&name, preset_of(v))?;
    }
    Ok(())
}

/// A client for each viewer.
pub(crate) fn watchers(alloc: Global) -> Result<Vec<Watcher>, OutOfMemory>
    ensures { IfOk result (λ watchers. AreNew 16 watchers.items) }
{
    let mut watchers = Vec::new(alloc);
    for i in 0..VIEWERS {
        watchers.push(Watcher::new(alloc, preset_of(i + 1), SIZE)?)?;
    }
    Ok(watchers)
}

/// The name of a viewer.
fn name_of(alloc: Global, v: u32) -> Result<Vec<u8>, OutOfMemory>
    ensures { IfOk result (λ name. name.items ≡ name_of v) }
{
    let mut name = Vec::new(alloc);
    name.extend_from_slice(NAME)?;
    write_decimal(alloc, &mut name, u64::from(v))?;
    Ok(name)
}

/// The role of a viewer.
fn role_of(v: u32) -> Role
    ensures { result ≡ role_of v }
{
    if v == OWNER {
        Role::Owner
    } else {
        Role::Control
    }
}

/// What a viewer confirms.
fn preset_of(v: u32) -> Confirmed
    ensures { result ≡ (preset_of v).confirmed }
{
    match v % 4 {
        1 => known_preset(b"full"),
        2 => known_preset(b"marked"),
        3 => known_preset(b"plain"),
        _ => known_preset(b"bare"),
    }
}

/// What the words of a preset confirm.
fn known_preset(words: &[u8]) -> Confirmed
    requires { IsTrue (is_some (confirmed_by presets (words_of words.now))) }
    ensures { Some result ≡ confirmed_by presets (words_of words.now) }
{
    match preset(words) {
        Some(confirmed) => confirmed,
        None => unreachable!(),
    }
}
