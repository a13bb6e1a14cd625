//! A replay of a record, in any pieces.

ghost use Rattle.std.specs.Prelude.{◌≡◌, ◌++◌, ℕ, List, [], Some, None, Err, IfOk, IfErr, IfSome, OnOk, IsTrue, length, option_map};
ghost use Rattle.session_rules.specs.declared.entry.Entry.{Entry};
ghost use Rattle.session_rules.specs.Journal.{Head, IsLegalJournal};
ghost use Rattle.record_rules.specs.Tables.{record_bytes, is_recordable_head};
ghost use Rattle.record_rules.specs.Records.{journal_of_record};
ghost use Rattle.record_file.specs.Replaying.{replayed, picture_at};
ghost use Rattle.record_file.specs.Told.{told_picture};
ghost use Rattle.record_file.specs.Standing.{ReadsOn};
ghost use Rattle.record_file.specs.Replays.{HasRead, end_of, IsAnswered, UnlessMemory, IsNeverRefused, TellsFrontIfWhole, IsMissing};
ghost use Rattle.record_file.specs.Resuming.{IsResumed};

use crate::course::Course;
use crate::reading::read_on;
use crate::resumed::session_of;
use crate::told::Told;
use crate::{OutOfMemory, ReplayFault, Resumed};
use px_core::Size;
use std::alloc::Global;
use std::marker::Model;

/// A replay: it reads a record in any pieces, puts its entries through a session's own calls, and keeps the picture after so many of them.
#[derive(Drop)]
pub struct Replay {
    alloc: Global,
    course: Course,
    told: Told,
    end: Option<ReplayFault>,
}

impl Model for Replay {
    ghost use Rattle.record_file.specs.Replays.{ReplayOf};
    ghost use Rattle.record_file.specs.Standing.{IsSoundIfAny};

    ghost Value = { ReplayOf };

    ghost view = { λ r. record { course = r.course; told = r.told; end = r.end } };

    ghost invariant = { λ r. IsSoundIfAny r.course.playing };
}

impl Replay {
    /// A replay before the first byte, which keeps the picture after `stop` entries.
    pub fn new(alloc: Global, stop: u64) -> Result<Replay, OutOfMemory>
        ensures stop { IfOk result (λ replay. replay.told.stop ≡ stop) }
        ensures read { IfOk result (HasRead []) }
    {
        Ok(Replay {
            alloc,
            course: Course {
                part: Vec::new(alloc),
                missing: 0,
                playing: None,
            },
            told: Told {
                stop,
                size: None,
                length: 0,
                picture: None,
            },
            end: None,
        })
    }

    /// Reads the next bytes, and refuses the record at its first fault, then and from then on: each entry's form, then whether it is legal,
    /// entry by entry, as soon as all its bytes are there. What is told is then of the entries before the fault. After want of memory the
    /// replay is spent, and answers it again.
    pub fn feed(&mut self, bytes: &[u8]) -> Result<(), ReplayFault>
        ensures answer { (stream : List ℕ) → HasRead stream self.old → IsAnswered result (replayed (stream ++ bytes.now)).fault }
        ensures read { (stream : List ℕ) → HasRead stream self.old → UnlessMemory result (HasRead (stream ++ bytes.now) self.new) }
        ensures legal { (stream rest : List ℕ) (head : Head) (j : List Entry) → HasRead stream self.old → IsTrue (is_recordable_head head) → IsLegalJournal head j
            → record_bytes head j ≡ (stream ++ bytes.now) ++ rest → IsNeverRefused result × OnOk result (TellsFrontIfWhole head j (stream ++ bytes.now) self.new.told) }
        ensures stop { self.new.told.stop ≡ self.old.told.stop }
        ensures ends { IfErr result (λ fault. self.new.end ≡ Some fault) }
        ensures ended { IfSome self.old.end (λ fault. (result ≡ Err fault) × (self.new ≡ self.old)) }
    {
        match self.end {
            Some(fault) => Err(fault),
            None => self.go_on(bytes),
        }
    }

    /// How many entries were replayed.
    pub fn length(&self) -> u64
        ensures value { result ≡ self.now.told.length }
        ensures read { (stream : List ℕ) → HasRead stream self.now → result ≡ length (replayed stream).entries }
    {
        self.told.length
    }

    /// The session's size in pixels; none exactly where the head isn't whole.
    pub fn size(&self) -> Option<Size>
        ensures value { result ≡ self.now.told.size }
        ensures read { (stream : List ℕ) → HasRead stream self.now → result ≡ option_map (λ h. h.size) (replayed stream).head }
    {
        self.told.size
    }

    /// The pixels after the entries at which the replay stops, row by row from the top; none exactly where the head isn't whole or fewer
    /// entries were replayed.
    pub fn picture(&self) -> Option<&[u32]>
        ensures value { option_map (λ pixels. pixels.now) result ≡ told_picture self.now.told }
        ensures read { (stream : List ℕ) → HasRead stream self.now → option_map (λ pixels. pixels.now) result ≡ picture_at self.now.told.stop (replayed stream) }
    {
        match &self.told.picture {
            Some(pixels) => Some(pixels.as_slice()),
            None => None,
        }
    }

    /// Where the head isn't whole, and no fault was found, the place of its first field that isn't all there.
    pub fn missing(&self) -> Option<u64>
        ensures { (stream : List ℕ) → HasRead stream self.now → IsMissing result (replayed stream) (journal_of_record stream).end }
    {
        if self.end.is_some() {
            return None;
        }
        if self.course.playing.is_some() {
            return None;
        }
        Some(self.course.missing as u64)
    }

    /// The session, where the head is whole and no fault was found.
    pub fn into_session(self) -> Option<Resumed>
        ensures { (stream : List ℕ) → HasRead stream self → IsResumed result stream }
    {
        let Replay {
            alloc: _,
            course,
            told: _,
            end,
        } = self;
        match end {
            Some(_) => None,
            None => session_of(course),
        }
    }
}

impl Replay {
    /// Reads the next bytes where no fault was found.
    fn go_on(&mut self, bytes: &[u8]) -> Result<(), ReplayFault>
        requires { self.old.end ≡ None }
        ensures read { (stream : List ℕ) → HasRead stream self.old → ReadsOn result (stream ++ bytes.now) self.new.course self.new.told }
        ensures stop { self.new.told.stop ≡ self.old.told.stop }
        ensures end { self.new.end ≡ end_of result }
    {
        match read_on(self.alloc, &mut self.course, &mut self.told, bytes) {
            Ok(()) => Ok(()),
            Err(fault) => {
                self.end = Some(fault);
                Err(fault)
            }
        }
    }
}
