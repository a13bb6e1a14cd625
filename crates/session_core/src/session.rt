//! The session, in its public calls.

ghost use Rattle.std.specs.Prelude.{◌≡◌, ◌≢◌, ℕ, ◌+◌, ◌≤◌, ◌<◌, [], ◌∷◌, ◌++◌, length, IsTrue, IfOk, OnErr, Some, true, false, slice_get};
ghost use Rattle.px_core.specs.Rectangle.{is_session_size, cut_out, whole, IsPlaced};
ghost use Rattle.px_core.specs.Tiles.{no_tiles, either_tiles, tile_rect, tiles_of};
ghost use Rattle.px_core.specs.TileFlags.{tiles};
ghost use Rattle.draw_ops.specs.Ranges.{HasColors};
ghost use Rattle.session_rules.specs.declared.entry.Entry.TheVariants.{Leave, Give, Input};
ghost use Rattle.session_rules.specs.Journal.{state_after, is_f12, IsLegalJournal};
ghost use Rattle.session_rules.specs.Steps.{replaced_for, receiver_of};
ghost use Rattle.session_rules.specs.Steps.Step.{JoinStep, InputStep, DrawStep};
ghost use Rattle.session_rules.specs.Entering.{entry_of_step, answer_at};
ghost use Rattle.session_rules.specs.Pending.{pending_between};
ghost use Rattle.session_core.specs.Touching.{touched_by, saved_by};
ghost use Rattle.session_core.specs.Heads.{rows_of};
ghost use Rattle.session_rules.specs.Typing.{last_typed};
ghost use Rattle.session_core.specs.SessionModel.{new_session, reached_by, is_here, asked_by, is_suppressed, AreInvited};
ghost use Rattle.session_core.specs.Outcomes.{IsAnswered, GoesOn};
ghost use Rattle.session_core.specs.Entered.{answer_of_entry, entry_entered};
ghost use Rattle.session_core.specs.Faults.{join_answer, input_answer, draw_answer};

use crate::about::about_drawing;
use crate::drawing::may_draw;
use crate::events::{is_f12, is_release, may_give, may_react, react_to};
use crate::faults::{DrawRefusal, InputRefusal, JoinFault};
use crate::head::{Invite, SessionHead};
use crate::joining::let_in;
use crate::kept::{Kept, make_room};
use crate::members::{asked_by, is_suppressed, role_of};
use crate::noting::{note_one, note_reaction};
use crate::standing::Standing;
use crate::typing::typed_by_event;
use crate::{Marks, OutOfMemory, SeenDrawings, ShownList, shown_one};
use draw_ops::Drawing;
use grow_lock::Grows;
use info_lic::Name;
use input_pdu::Event;
use px_core::{Rect, Size, TileSet};
use session_rules::Entry;
use std::alloc::Global;
use std::marker::Model;
use tile_surface::{LentTile, Tiles};

/// A session: its journal, which only grows, and what the journal has reached.
#[derive(Drop)]
pub struct Session {
    alloc: Global,
    head: SessionHead,
    standing: Standing,
    kept: Vec<Kept>,
    marks: Marks,
    /// The code that was typed last.
    typed: Option<u8>,
}

impl Model for Session {
    ghost use Rattle.std.specs.Vec.{vec_len, vec_capacity};
    ghost use Rattle.session_core.specs.SessionModel.{SessionModel};
    ghost use Rattle.session_core.specs.Members.{asked_of, suppressed_of};
    ghost use Rattle.session_core.specs.Keeping.{journal_of};
    ghost use Rattle.session_core.specs.Standing.{IsOpen};

    ghost Value = { SessionModel };

    ghost view = { λ s. record {
      head = s.head;
      journal = journal_of s.kept.items;
      asked = asked_of s.standing.members;
      suppressed = suppressed_of s.standing.members;
    } };

    ghost invariant = { λ s. IsOpen s.head s.standing s.kept.items s.marks s.typed (vec_len s.kept) (vec_capacity s.kept) };
}

impl Grows for Session {
    type Head = SessionHead;

    type Entry = Entry;

    ghost head = { λ s. s.head };

    ghost list = { λ s. s.journal };

    fn ready(&self) -> u64 {
        self.length()
    }
}

impl Session {
    /// A new session of this size, whose viewers join by these rows: nobody is present, and the picture is black.
    pub fn new(alloc: Global, size: Size, rows: &[Invite]) -> Result<Session, OutOfMemory>
        requires size { IsTrue (is_session_size size.w size.h) }
        requires rows { AreInvited (rows_of rows.now) }
        ensures { IfOk result (λ session. session ≡ new_session (record { size = size; rows = rows_of rows.now })) }
    {
        let mut invites = Vec::new(alloc);
        invites.extend_from_slice(rows)?;
        let standing = Standing::new(alloc, size)?;
        let marks = Marks::new(alloc)?;
        Ok(Session {
            alloc,
            head: SessionHead {
                size,
                rows: invites,
            },
            standing,
            kept: Vec::new(alloc),
            marks,
            typed: None,
        })
    }

    /// A viewer joins by the row that has its name, and gets its number: 1 for the first join, and so on. An `Err` changes nothing.
    pub fn join(&mut self, name: &Name) -> Result<u32, JoinFault>
        ensures head { self.new.head ≡ self.old.head }
        ensures answer { IsAnswered (join_answer result) (answer_at self.old.head (reached_by self.old) (JoinStep name.now)) }
        ensures journal { GoesOn (join_answer result)
            (entry_of_step self.old.head (reached_by self.old) (JoinStep name.now)) self.old.journal self.new.journal }
        ensures asked { asked_by self.new ≡ asked_by self.old }
        ensures suppressed { is_suppressed self.new ≡ is_suppressed self.old }
        ensures fresh { IfOk result (λ v. (asked_by self.new v ≡ no_tiles) × (is_suppressed self.new v ≡ false)) }
        ensures unchanged { OnErr result (self.new ≡ self.old) }
    {
        let role = let_in(&self.head, &self.standing, name)?;
        if !make_room(&mut self.kept, self.standing.members.list().len() + 2) {
            return Err(JoinFault::OutOfMemory);
        }
        let first = self.standing.surface.count();
        let v = self.standing.admit(role);
        self.kept.push_reserved(Kept {
            entry: Entry::Join { v, role },
            first,
            shown: ShownList::Nothing,
        });
        Ok(v)
    }

    /// A viewer leaves. Takes no memory.
    pub fn leave(&mut self, v: u32)
        requires { IsTrue (is_here self.old v) }
        ensures head { self.new.head ≡ self.old.head }
        ensures journal { self.new.journal ≡ self.old.journal ++ Leave v ∷ [] }
        ensures asked { asked_by self.new ≡ replaced_for v no_tiles (asked_by self.old) }
        ensures suppressed { is_suppressed self.new ≡ replaced_for v false (is_suppressed self.old) }
    {
        self.standing.dismiss(v);
        let first = self.standing.surface.count();
        self.kept.push_reserved(Kept {
            entry: Entry::Leave { v },
            first,
            shown: ShownList::Nothing,
        });
    }

    /// An input event of a viewer. An `Err` changes nothing.
    pub fn input(&mut self, v: u32, e: Event) -> Result<(), InputRefusal>
        requires { IsTrue (is_here self.old v) }
        ensures head { self.new.head ≡ self.old.head }
        ensures answer { IsAnswered (input_answer result) (answer_at self.old.head (reached_by self.old) (InputStep v e)) }
        ensures journal { GoesOn (input_answer result) (entry_of_step self.old.head (reached_by self.old) (InputStep v e)) self.old.journal self.new.journal }
        ensures asked { self.new.asked ≡ self.old.asked }
        ensures suppressed { self.new.suppressed ≡ self.old.suppressed }
        ensures unchanged { OnErr result (self.new ≡ self.old) }
    {
        if !is_f12(e) {
            return self.react(v, e);
        }
        if is_release(e) {
            return Ok(());
        }
        self.give(v)
    }

    /// A drawing of a viewer. An `Err` changes nothing.
    pub fn draw(&mut self, v: u32, d: Drawing) -> Result<(), DrawRefusal>
        requires present { IsTrue (is_here self.old v) }
        requires colors { HasColors d }
        ensures head { self.new.head ≡ self.old.head }
        ensures answer { IsAnswered (draw_answer result) (answer_at self.old.head (reached_by self.old) (DrawStep v d)) }
        ensures journal { GoesOn (draw_answer result) (entry_of_step self.old.head (reached_by self.old) (DrawStep v d)) self.old.journal self.new.journal }
        ensures asked { self.new.asked ≡ self.old.asked }
        ensures suppressed { self.new.suppressed ≡ self.old.suppressed }
        ensures unchanged { OnErr result (self.new ≡ self.old) }
    {
        let about = about_drawing(&d);
        may_draw(&self.standing, v, &d, about)?;
        let first = self.standing.surface.count();
        let shown = shown_one(self.alloc, &self.standing.surface, &d, about)?;
        if !make_room(&mut self.kept, self.standing.members.list().len() + 1) {
            return Err(DrawRefusal::OutOfMemory);
        }
        if !self.standing.draw(&d, about.pixels) {
            return Err(DrawRefusal::OutOfMemory);
        }
        let size = self.head.size();
        let number = self.kept.len() as u64 + 1;
        note_one(&mut self.marks, &d, about, &shown, size, number);
        self.kept.push_reserved(Kept {
            entry: Entry::Draw { by: v, d },
            first,
            shown: ShownList::One(shown),
        });
        Ok(())
    }

    /// A viewer asks for the tiles of a rectangle, beside those that it asked for before. Takes no memory.
    pub fn refresh(&mut self, v: u32, r: Rect)
        requires present { IsTrue (is_here self.old v) }
        requires placed { IsPlaced r }
        ensures head { self.new.head ≡ self.old.head }
        ensures journal { self.new.journal ≡ self.old.journal }
        ensures asked { asked_by self.new ≡ replaced_for v (either_tiles (asked_by self.old v) (tiles_of self.old.head.size r)) (asked_by self.old) }
        ensures suppressed { self.new.suppressed ≡ self.old.suppressed }
    {
        let size = self.head.size();
        self.standing.members.ask(v, r, size);
    }

    /// A viewer wants no more output, or wants it again. Takes no memory.
    pub fn suppress(&mut self, v: u32, stop: bool)
        requires { IsTrue (is_here self.old v) }
        ensures head { self.new.head ≡ self.old.head }
        ensures journal { self.new.journal ≡ self.old.journal }
        ensures asked { self.new.asked ≡ self.old.asked }
        ensures suppressed { is_suppressed self.new ≡ replaced_for v stop (is_suppressed self.old) }
    {
        self.standing.members.stop(v, stop);
    }

    /// A viewer got the tiles that it asked for. Takes no memory.
    pub fn served(&mut self, v: u32)
        requires { IsTrue (is_here self.old v) }
        ensures head { self.new.head ≡ self.old.head }
        ensures journal { self.new.journal ≡ self.old.journal }
        ensures asked { asked_by self.new ≡ replaced_for v no_tiles (asked_by self.old) }
        ensures suppressed { self.new.suppressed ≡ self.old.suppressed }
    {
        self.standing.members.clear(v);
    }

    /// The surface as the whole journal leaves it.
    pub fn look(&self) -> &Tiles
        ensures { result.now ≡ record {
          size = self.now.head.size;
          state = (state_after self.now.head.size self.now.journal (length self.now.journal)).surface;
        } }
    {
        &self.standing.surface
    }

    /// A handle of tile t, which has a pixel on the picture, for as long as its holder wants: its colours as the whole journal leaves them,
    /// and black past the picture. The session is as it was, also after an `Err`.
    pub fn lend(&mut self, t: u32) -> Result<LentTile, OutOfMemory>
        requires { IsTrue (tiles_of self.old.head.size (whole self.old.head.size) t) }
        ensures lent { IfOk result (λ tile. tile ≡ cut_out self.old.head.size
            (state_after self.old.head.size self.old.journal (length self.old.journal)).surface.picture 0 (tile_rect t)) }
        ensures unchanged { self.new ≡ self.old }
    {
        self.standing.surface.lend(t)
    }

    /// The size in pixels.
    pub fn size(&self) -> Size
        ensures { result ≡ self.now.head.size }
    {
        self.head.size()
    }

    /// Who holds control; 0 for nobody.
    pub fn holder(&self) -> u32
        ensures { result ≡ (reached_by self.now).holder }
    {
        self.standing.holder
    }

    /// The last pressed Unicode code from 21 to 7E (hexadecimal) in the journal, whoever typed it.
    pub fn typed(&self) -> Option<u8>
        ensures { result ≡ last_typed self.now.journal }
    {
        self.typed
    }

    /// The number of entries.
    pub fn length(&self) -> u64
        ensures { result ≡ length self.now.journal }
    {
        self.kept.len() as u64
    }

    /// The entry behind the first k.
    pub fn entry(&self, k: u64) -> &Entry
        requires { k < length self.now.journal }
        ensures { slice_get self.now.journal k ≡ Some result.now }
    {
        &self.kept[k as usize].entry
    }

    /// Whether a viewer is present.
    pub fn present(&self, v: u32) -> bool
        ensures { result ≡ is_here self.now v }
    {
        role_of(self.standing.members.list(), v).is_some()
    }

    /// The tiles that a viewer asked for since it was served last.
    pub fn asked(&self, v: u32) -> &TileSet
        requires { IsTrue (is_here self.now v) }
        ensures { tiles result.now ≡ asked_by self.now v }
    {
        asked_by(self.standing.members.list(), v)
    }

    /// Whether a viewer is suppressed; one that isn't present isn't.
    pub fn suppressed(&self, v: u32) -> bool
        ensures { result ≡ is_suppressed self.now v }
    {
        is_suppressed(self.standing.members.list(), v)
    }

    /// How many drawings the first k entries made.
    pub fn drawings_before(&self, k: u64) -> u64
        requires { k ≤ length self.now.journal }
        ensures { result ≡ length (pending_between self.now.head.size self.now.journal 0 k) }
    {
        if k < self.kept.len() as u64 {
            self.kept[k as usize].first
        } else {
            self.standing.surface.count()
        }
    }

    /// The drawings that the entry behind the first k made, where they lie, each with what its slots held; those of a reaction are made
    /// again, and an `Err` is want of memory for them.
    pub fn drawings(&self, k: u64) -> Result<SeenDrawings<'_>, OutOfMemory>
        requires { k < length self.now.journal }
        ensures { IfOk result (λ seen. seen ≡ pending_between self.now.head.size self.now.journal k (k + 1)) }
    {
        let kept = &self.kept[k as usize];
        match &kept.entry {
            Entry::Draw { d, .. } => Ok(SeenDrawings::drawn(d, &kept.shown)),
            Entry::Input { event, .. } => {
                SeenDrawings::reaction(self.alloc, self.head.size(), &kept.shown, *event)
            }
            Entry::Join { .. } => Ok(SeenDrawings::none()),
            Entry::Leave { .. } => Ok(SeenDrawings::none()),
            Entry::Give { .. } => Ok(SeenDrawings::none()),
        }
    }

    /// Adds the tiles that the drawings of the entries behind the first `before` touch to a set. It looks at each tile once, however many
    /// entries there are.
    pub fn add_touched(&self, before: u64, set: &mut TileSet)
        requires { before ≤ length self.now.journal }
        ensures { tiles set.new ≡ either_tiles (tiles set.old)
            (touched_by self.now.head.size (pending_between self.now.head.size self.now.journal before (length self.now.journal))) }
    {
        self.marks.add_past(before, self.head.size(), set);
    }

    /// Whether a drawing of the entries behind the first `before` saved into a slot.
    pub fn saved_since(&self, before: u64, slot: u8) -> bool
        requires { before ≤ length self.now.journal }
        ensures { result ≡ saved_by (pending_between self.now.head.size self.now.journal before (length self.now.journal)) slot }
    {
        self.marks.is_saved_past(before, slot)
    }

    /// No drawing saved into a slot above 15; it does nothing.
    pub fn recall_slots(&self)
        ensures { (before slot : ℕ) → before ≤ length self.now.journal
            → 16 ≤ slot → saved_by (pending_between self.now.head.size self.now.journal before (length self.now.journal)) slot ≡ false }
    {
        self.marks.recall_ends();
    }

    /// What holds of every session; it does nothing.
    pub fn recall_legal(&self)
        ensures size { IsTrue (is_session_size self.now.head.size.w self.now.head.size.h) }
        ensures rows { AreInvited self.now.head.rows }
        ensures journal { IsLegalJournal self.now.head self.now.journal }
        ensures absent { (v : ℕ) → is_here self.now v ≡ false → (asked_by self.now v ≡ no_tiles) × (is_suppressed self.now v ≡ false) }
    {
        let _count = self.kept.len();
    }
}

impl Session {
    /// F12 of a viewer is pressed. An `Err` changes nothing.
    fn give(&mut self, v: u32) -> Result<(), InputRefusal>
        ensures head { self.new.head ≡ self.old.head }
        ensures answer { IsAnswered (input_answer result) (answer_of_entry self.old.head (reached_by self.old) (Give v (receiver_of (reached_by self.old) v))) }
        ensures journal { GoesOn (input_answer result)
            (entry_entered self.old.head (reached_by self.old) (Give v (receiver_of (reached_by self.old) v))) self.old.journal self.new.journal }
        ensures asked { self.new.asked ≡ self.old.asked }
        ensures suppressed { self.new.suppressed ≡ self.old.suppressed }
        ensures unchanged { OnErr result (self.new ≡ self.old) }
    {
        let to = may_give(&self.standing, v)?;
        if !make_room(&mut self.kept, self.standing.members.list().len() + 1) {
            return Err(InputRefusal::OutOfMemory);
        }
        let first = self.standing.surface.count();
        self.standing.give(to);
        self.kept.push_reserved(Kept {
            entry: Entry::Give { by: v, to },
            first,
            shown: ShownList::Nothing,
        });
        Ok(())
    }

    /// The board reacts to an event of a viewer that isn't F12. An `Err` changes nothing.
    fn react(&mut self, v: u32, e: Event) -> Result<(), InputRefusal>
        requires { is_f12 e ≡ false }
        ensures head { self.new.head ≡ self.old.head }
        ensures answer { IsAnswered (input_answer result) (answer_of_entry self.old.head (reached_by self.old) (Input v e)) }
        ensures journal { GoesOn (input_answer result) (entry_entered self.old.head (reached_by self.old) (Input v e)) self.old.journal self.new.journal }
        ensures asked { self.new.asked ≡ self.old.asked }
        ensures suppressed { self.new.suppressed ≡ self.old.suppressed }
        ensures unchanged { OnErr result (self.new ≡ self.old) }
    {
        may_react(&self.standing, v, e)?;
        let first = self.standing.surface.count();
        let reaction = react_to(self.alloc, &self.standing, e)?;
        if !make_room(&mut self.kept, self.standing.members.list().len() + 1) {
            return Err(InputRefusal::OutOfMemory);
        }
        if !self.standing.react(reaction.board, &reaction.drawings) {
            return Err(InputRefusal::OutOfMemory);
        }
        let size = self.head.size();
        let number = self.kept.len() as u64 + 1;
        note_reaction(
            &mut self.marks,
            &reaction.drawings,
            &reaction.shown,
            size,
            number,
        );
        self.typed = typed_by_event(self.typed, e);
        self.kept.push_reserved(Kept {
            entry: Entry::Input { by: v, event: e },
            first,
            shown: reaction.shown,
        });
        Ok(())
    }
}
