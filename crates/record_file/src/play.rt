//! An entry of a record, put through the session's own calls.

ghost use Rattle.std.specs.Prelude.{◌≡◌, IfOk, Err, false};
ghost use Rattle.draw_ops.specs.Ranges.{HasColors};
ghost use Rattle.session_rules.specs.declared.entry.Entry.TheVariants.{Join, Leave, Give, Input, Draw};
ghost use Rattle.session_rules.specs.Journal.{is_f12, is_same_role};
ghost use Rattle.session_core.specs.Heads.{rows_of};
ghost use Rattle.session_core.specs.Faults.{join_answer, input_answer, draw_answer};
ghost use Rattle.record_file.specs.Reads.{IsColored};
ghost use Rattle.record_file.specs.Plays.{IsPlayed, IsRefusal, first_name};

use crate::{Entry, Invite, OutOfMemory};
use draw_ops::Drawing;
use info_lic::Name;
use input_pdu::Event;
use session_core::{DrawRefusal, InputRefusal, JoinFault, Session};
use session_rules::Role;

/// The scan code of F12, by which control is given, and which never reaches the board.
const F12: u16 = 0x58;

/// Puts an entry through a session's calls; whether it is legal. Of a session that was handed one that isn't, nothing is said.
pub fn play(session: &mut Session, rows: &[Invite], entry: Entry) -> Result<bool, OutOfMemory>
    requires rows { rows_of rows.now ≡ session.old.head.rows }
    requires colors { IsColored entry }
    ensures head { session.new.head ≡ session.old.head }
    ensures played { IfOk result (λ legal. IsPlayed legal entry session.old session.new) }
{
    match entry {
        Entry::Join { v, role } => join(session, rows, v, role),
        Entry::Leave { v } => Ok(leave(session, v)),
        Entry::Give { by, to } => give(session, by, to),
        Entry::Input { by, event } => input(session, by, event),
        Entry::Draw { by, d } => draw(session, by, d),
    }
}

/// A viewer joins by the first row of its role, and gets its number, which is to be the next one.
fn join(session: &mut Session, rows: &[Invite], v: u32, role: Role) -> Result<bool, OutOfMemory>
    requires rows { rows_of rows.now ≡ session.old.head.rows }
    ensures head { session.new.head ≡ session.old.head }
    ensures played { IfOk result (λ legal. IsPlayed legal (Join v role) session.old session.new) }
{
    session.recall_legal();
    let Some(name) = first_name(rows, role) else {
        return Ok(false);
    };
    match session.join(&name) {
        Ok(number) => Ok(number == v),
        Err(fault) => refused_join(fault),
    }
}

/// The name of the first row that has a role.
fn first_name(rows: &[Invite], role: Role) -> Option<Name>
    ensures { result ≡ first_name role (rows_of rows.now) }
{
    for row in rows {
        if is_same_role(role, row.role) {
            return Some(row.name);
        }
    }
    None
}

/// Whether two roles are the same.
fn is_same_role(role: Role, other: Role) -> bool
    ensures { result ≡ is_same_role role other }
{
    match role {
        Role::Owner => matches!(other, Role::Owner),
        Role::Control => matches!(other, Role::Control),
        Role::View => matches!(other, Role::View),
    }
}

/// A viewer leaves that is present.
fn leave(session: &mut Session, v: u32) -> bool
    ensures head { session.new.head ≡ session.old.head }
    ensures played { IsPlayed result (Leave v) session.old session.new }
{
    if !session.present(v) {
        return false;
    }
    session.leave(v);
    true
}

/// Viewer `by` presses F12, by which control is to go to viewer `to`.
fn give(session: &mut Session, by: u32, to: u32) -> Result<bool, OutOfMemory>
    ensures head { session.new.head ≡ session.old.head }
    ensures played { IfOk result (λ legal. IsPlayed legal (Give by to) session.old session.new) }
{
    session.recall_legal();
    if !session.present(by) {
        return Ok(false);
    }
    let f12 = Event::Scan {
        code: F12,
        up: false,
    };
    match session.input(by, f12) {
        Ok(()) => Ok(session.holder() == to),
        Err(fault) => refused_input(fault),
    }
}

/// The board reacts to an event of a viewer that is present. F12 isn't handed on.
fn input(session: &mut Session, by: u32, event: Event) -> Result<bool, OutOfMemory>
    ensures head { session.new.head ≡ session.old.head }
    ensures played { IfOk result (λ legal. IsPlayed legal (Input by event) session.old session.new) }
{
    session.recall_legal();
    if is_f12(event) || !session.present(by) {
        return Ok(false);
    }
    match session.input(by, event) {
        Ok(()) => Ok(true),
        Err(fault) => refused_input(fault),
    }
}

/// Whether an event is one of F12.
fn is_f12(event: Event) -> bool
    ensures { result ≡ is_f12 event }
{
    match event {
        Event::Scan { code, .. } => code == F12,
        _ => false,
    }
}

/// A viewer that is present draws.
fn draw(session: &mut Session, by: u32, d: Drawing) -> Result<bool, OutOfMemory>
    requires { HasColors d }
    ensures head { session.new.head ≡ session.old.head }
    ensures played { IfOk result (λ legal. IsPlayed legal (Draw by d) session.old session.new) }
{
    session.recall_legal();
    if !session.present(by) {
        return Ok(false);
    }
    match session.draw(by, d) {
        Ok(()) => Ok(true),
        Err(fault) => refused_draw(fault),
    }
}

/// What a name that doesn't join says of a Join: it isn't legal, or no memory was left.
fn refused_join(fault: JoinFault) -> Result<bool, OutOfMemory>
    ensures { IfOk result (λ legal. (legal ≡ false) × IsRefusal (join_answer (Err fault))) }
{
    match fault {
        JoinFault::NotInvited | JoinFault::RoomFull | JoinFault::JoinsSpent => Ok(false),
        JoinFault::OutOfMemory => Err(OutOfMemory),
    }
}

/// What an event that isn't accepted says of its entry: it isn't legal, or no memory was left.
fn refused_input(fault: InputRefusal) -> Result<bool, OutOfMemory>
    ensures { IfOk result (λ legal. (legal ≡ false) × IsRefusal (input_answer (Err fault))) }
{
    match fault {
        InputRefusal::NotHolder { .. } | InputRefusal::JournalFull => Ok(false),
        InputRefusal::OutOfMemory => Err(OutOfMemory),
    }
}

/// What a drawing that isn't accepted says of its entry: it isn't legal, or no memory was left.
fn refused_draw(fault: DrawRefusal) -> Result<bool, OutOfMemory>
    ensures { IfOk result (λ legal. (legal ≡ false) × IsRefusal (draw_answer (Err fault))) }
{
    match fault {
        DrawRefusal::NotHolder { .. }
        | DrawRefusal::BadDrawing { .. }
        | DrawRefusal::EmptySlot { .. }
        | DrawRefusal::SlotSize { .. }
        | DrawRefusal::JournalFull => Ok(false),
        DrawRefusal::OutOfMemory => Err(OutOfMemory),
    }
}
