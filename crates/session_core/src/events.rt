//! Which input events are accepted, and what comes of them.

ghost use Rattle.std.specs.Prelude.{◌≡◌, ℕ, ◌+◌, ◌-◌, ◌<◌, ◌^◌, IfOk, IsTrue};
ghost use Rattle.px_core.specs.Rectangle.{is_session_size};
ghost use Rattle.board_app.specs.Boards.{board_of};
ghost use Rattle.session_rules.specs.Agreement.{BoardAgrees};
ghost use Rattle.session_rules.specs.Board.{board_reaction};
ghost use Rattle.session_rules.specs.Journal.{Head, is_f12, is_owner_here, role_of};
ghost use Rattle.session_rules.specs.Steps.{is_release};
ghost use Rattle.session_core.specs.Reacting.{IsGiveRefused, IsReactRefused, Reacts};
ghost use Rattle.session_core.specs.Standing.{reached_of};

use crate::faults::InputRefusal;
use crate::members::{next_of, role_of};
use crate::ranges::recall_event_range;
use crate::standing::{MOST_ENTRIES, Standing};
use crate::{OutOfMemory, ShownList, reaction_list, shown_all};
use board_app::Board;
use draw_ops::Drawing;
use input_pdu::Event;
use session_rules::Role;
use std::alloc::Global;

/// The scan code of F12.
const F12: u16 = 0x58;

/// What the board makes of an event: the board after it, its drawings, and what is kept of them.
#[derive(Drop)]
pub struct Reaction {
    pub board: Board,
    pub drawings: Vec<Drawing>,
    pub shown: ShownList,
}

/// Whether an event is one of F12, which never reaches the board.
pub fn is_f12(e: Event) -> bool
    ensures { result ≡ is_f12 e }
{
    match e {
        Event::Scan { code, .. } => code == F12,
        _ => false,
    }
}

/// Whether a key is released.
pub fn is_release(e: Event) -> bool
    ensures { result ≡ is_release e }
{
    match e {
        Event::Scan { up, .. } => up,
        Event::Unicode { up, .. } => up,
        _ => false,
    }
}

/// To whom F12 of a viewer gives control; else the first refusal.
pub fn may_give(standing: &Standing, v: u32) -> Result<u32, InputRefusal>
    ensures { (head : Head) (n : ℕ) → IsGiveRefused head (reached_of standing.now n) v result }
{
    let holder = standing.holder;
    let to = if standing.holds(v) {
        next_of(standing.members.list(), v)
    } else if is_owner(standing, v) {
        v
    } else {
        return Err(InputRefusal::NotHolder { holder });
    };
    if MOST_ENTRIES <= standing.limited {
        return Err(InputRefusal::JournalFull);
    }
    Ok(to)
}

/// Whether a viewer is an owner that is present.
fn is_owner(standing: &Standing, v: u32) -> bool
    ensures { (n : ℕ) → result ≡ is_owner_here (role_of v (reached_of standing.now n).viewers) }
{
    match role_of(standing.members.list(), v) {
        Some(role) => matches!(role, Role::Owner),
        None => false,
    }
}

/// Whether the board reacts to an event of a viewer that isn't F12; else the first refusal.
pub fn may_react(standing: &Standing, v: u32, e: Event) -> Result<(), InputRefusal>
    ensures { (head : Head) (n : ℕ) → IsReactRefused head (reached_of standing.now n) v e result }
{
    recall_event_range(e);
    let holder = standing.holder;
    if !standing.holds(v) {
        return Err(InputRefusal::NotHolder { holder });
    }
    if MOST_ENTRIES <= standing.limited {
        return Err(InputRefusal::JournalFull);
    }
    Ok(())
}

/// What the board makes of an event.
pub fn react_to(alloc: Global, standing: &Standing, e: Event) -> Result<Reaction, OutOfMemory>
    requires size { IsTrue (is_session_size standing.now.surface.size.w standing.now.surface.size.h) }
    requires same { standing.now.board.size ≡ standing.now.surface.size }
    requires agrees { BoardAgrees standing.now.surface.size standing.now.surface.state (board_of standing.now.board) }
    requires signs { (board_of standing.now.board).signs < 2 ^ 32 - 1 }
    requires few { standing.now.surface.state.count + 8 < 2 ^ 64 }
    ensures { IfOk result (λ reaction. Reacts standing.now e reaction) }
{
    let mut board = standing.board;
    let drawings = board.react(alloc, e)?;
    let all = shown_all(alloc, &standing.surface, &drawings)?;
    let shown = reaction_list(alloc, &standing.board, e, all)?;
    Ok(Reaction {
        board,
        drawings,
        shown,
    })
}
