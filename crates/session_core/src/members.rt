//! The viewers that are present.

ghost use Rattle.std.specs.Prelude.{◌≡◌, ◌==◌, ℕ, ◌+◌, ◌<◌, ◌≤◌, [], ◌∷◌, ◌++◌, length, Some, IfOk, IfSome, false, IsTrue};
ghost use Rattle.std.specs.List.{remove};
ghost use Rattle.px_core.specs.Rectangle.{is_session_size, IsPlaced};
ghost use Rattle.px_core.specs.Tiles.{either_tiles, no_tiles, tiles_of};
ghost use Rattle.px_core.specs.TileFlags.{tiles};
ghost use Rattle.session_rules.specs.Journal.{most_viewers, role_of, is_present, least_viewer, successor, next_of, without_viewer};
ghost use Rattle.session_rules.specs.Steps.{replaced_for};
ghost use Rattle.session_core.specs.Members.{viewers_of, is_wanted, place_of, asked_of, suppressed_of, tiles_asked, is_stopped};

use crate::OutOfMemory;
use px_core::{Rect, Size, TileSet};
use session_rules::Role;
use std::alloc::Global;
use std::marker::Model;

/// How many viewers may be present (profile).
pub const MOST_VIEWERS: usize = 16;

/// A viewer that is present.
#[derive(Drop)]
pub struct Member {
    pub number: u32,
    pub role: Role,
    /// The tiles that it asked for since it was served last.
    pub asked: TileSet,
    /// Whether it wants no output.
    pub suppressed: bool,
}

/// The viewers that are present, by ascending number. There is room for as many as may be.
#[derive(Drop)]
pub struct Members {
    list: Vec<Member>,
}

impl Model for Members {
    ghost use Rattle.std.specs.Prelude.{◌≤◌, List};
    ghost use Rattle.std.specs.Vec.{vec_capacity};
    ghost use Rattle.session_rules.specs.Journal.{most_viewers};
    ghost use Rattle.session_core.specs.declared.members.Member.{Member};

    ghost Value = { List Member };

    ghost view = { λ ms. ms.list.items };

    ghost invariant = { λ ms. most_viewers ≤ vec_capacity ms.list };
}

impl Members {
    /// Nobody.
    pub fn new(alloc: Global) -> Result<Members, OutOfMemory>
        ensures { IfOk result (λ ms. ms ≡ []) }
    {
        let list = Vec::with_capacity(alloc, MOST_VIEWERS)?;
        Ok(Members { list })
    }

    /// The viewers.
    pub fn list(&self) -> &[Member]
        ensures { result.now ≡ self.now }
    {
        self.list.as_slice()
    }

    /// A viewer comes, who has asked for nothing.
    pub fn push(&mut self, number: u32, role: Role)
        requires { length self.old < most_viewers }
        ensures viewers { viewers_of self.new ≡ viewers_of self.old ++ record { number = number; role = role } ∷ [] }
        ensures asked { tiles_asked self.new ≡ tiles_asked self.old }
        ensures stopped { is_stopped self.new ≡ is_stopped self.old }
    {
        self.list.push_reserved(Member {
            number,
            role,
            asked: TileSet::none(),
            suppressed: false,
        });
    }

    /// A viewer goes.
    pub fn remove(&mut self, v: u32)
        requires { IsTrue (is_present v (viewers_of self.old)) }
        ensures viewers { viewers_of self.new ≡ without_viewer v (viewers_of self.old) }
        ensures asked { (u : ℕ) → (v == u) ≡ false → tiles_asked self.new u ≡ tiles_asked self.old u }
        ensures stopped { (u : ℕ) → (v == u) ≡ false → is_stopped self.new u ≡ is_stopped self.old u }
    {
        let i = place_here(&self.list, v);
        self.list.remove(i);
    }

    /// A viewer asks for the tiles of a rectangle, beside those that it asked for before.
    pub fn ask(&mut self, v: u32, r: Rect, size: Size)
        requires present { IsTrue (is_present v (viewers_of self.old)) }
        requires placed { IsPlaced r }
        requires size { IsTrue (is_session_size size.w size.h) }
        ensures viewers { viewers_of self.new ≡ viewers_of self.old }
        ensures asked { tiles_asked self.new ≡ replaced_for v (either_tiles (tiles_asked self.old v) (tiles_of size r)) (tiles_asked self.old) }
        ensures stopped { suppressed_of self.new ≡ suppressed_of self.old }
    {
        let i = place_here(&self.list, v);
        self.list[i].asked.add(r, size);
    }

    /// A viewer has got the tiles that it asked for.
    pub fn clear(&mut self, v: u32)
        requires { IsTrue (is_present v (viewers_of self.old)) }
        ensures viewers { viewers_of self.new ≡ viewers_of self.old }
        ensures asked { tiles_asked self.new ≡ replaced_for v no_tiles (tiles_asked self.old) }
        ensures stopped { suppressed_of self.new ≡ suppressed_of self.old }
    {
        let i = place_here(&self.list, v);
        self.list[i].asked = TileSet::none();
    }

    /// A viewer wants no more output, or wants it again.
    pub fn stop(&mut self, v: u32, stop: bool)
        requires { IsTrue (is_present v (viewers_of self.old)) }
        ensures viewers { viewers_of self.new ≡ viewers_of self.old }
        ensures asked { asked_of self.new ≡ asked_of self.old }
        ensures stopped { is_stopped self.new ≡ replaced_for v stop (is_stopped self.old) }
    {
        let i = place_here(&self.list, v);
        self.list[i].suppressed = stop;
    }
}

/// Which viewer is looked for.
#[derive(Clone, Copy)]
pub enum Wanted {
    Owner,
    Control,
    /// One that may hold control.
    Holder,
    /// One that may hold control, with a number above this one.
    HolderAbove(u32),
}

/// Whether a viewer is one that is looked for.
fn is_wanted(wanted: Wanted, m: &Member) -> bool
    ensures { result ≡ is_wanted wanted (record { number = m.now.number; role = m.now.role }) }
{
    match wanted {
        Wanted::Owner => matches!(m.role, Role::Owner),
        Wanted::Control => matches!(m.role, Role::Control),
        Wanted::Holder => !matches!(m.role, Role::View),
        Wanted::HolderAbove(holder) => !matches!(m.role, Role::View) && holder < m.number,
    }
}

/// The first viewer that is looked for.
pub fn least(members: &[Member], wanted: Wanted) -> Option<u32>
    ensures { result ≡ least_viewer (is_wanted wanted) (viewers_of members.now) }
{
    for m in members {
        if is_wanted(wanted, m) {
            return Some(m.number);
        }
    }
    None
}

/// Who holds control after the holder left.
pub fn successor(members: &[Member]) -> u32
    ensures { result ≡ successor (viewers_of members.now) }
{
    least(members, Wanted::Owner)
        .or(least(members, Wanted::Control))
        .unwrap_or(0)
}

/// To whom the holder gives control.
pub fn next_of(members: &[Member], holder: u32) -> u32
    ensures { result ≡ next_of (viewers_of members.now) holder }
{
    least(members, Wanted::HolderAbove(holder))
        .or(least(members, Wanted::Holder))
        .unwrap_or(0)
}

/// The role of a viewer that is present.
pub fn role_of(members: &[Member], v: u32) -> Option<Role>
    ensures { result ≡ role_of v (viewers_of members.now) }
{
    for m in members {
        if m.number == v {
            return Some(m.role);
        }
    }
    None
}

/// The tiles that a viewer asked for who is present.
pub fn asked_by(members: &[Member], v: u32) -> &TileSet
    requires { IsTrue (is_present v (viewers_of members.now)) }
    ensures { tiles result.now ≡ tiles_asked members.now v }
{
    let i = place_here(members, v);
    &members[i].asked
}

/// Whether a viewer is suppressed.
pub fn is_suppressed(members: &[Member], v: u32) -> bool
    ensures { result ≡ is_stopped members.now v }
{
    for m in members {
        if m.number == v {
            return m.suppressed;
        }
    }
    false
}

/// The place of a viewer.
fn place_of(members: &[Member], v: u32) -> Option<usize>
    ensures { result ≡ place_of v members.now }
{
    for i in 0..members.len() {
        if members[i].number == v {
            return Some(i);
        }
    }
    None
}

/// The place of a viewer that is present.
fn place_here(members: &[Member], v: u32) -> usize
    requires { IsTrue (is_present v (viewers_of members.now)) }
    ensures place { place_of v members.now ≡ Some result }
    ensures within { result < length members.now }
{
    match place_of(members, v) {
        Some(i) => i,
        None => unreachable!(),
    }
}
