//! Places of entries in the journal.
ghost use Rattle.std.specs.Prelude.{◌≡◌, ◌<◌, ◌≤◌, ◌+◌, ◌++◌, ◌∷◌, [], OnOk, IfOk};

use crate::OutOfMemory;
use std::alloc::Global;
use std::marker::Model;

/// How many places room is made for at once: of an event's entry, and of the Leave.
const ROOM: usize = 2;

/// The places in the journal of a connection's entries. Contracts see the list, and for how many more there is room.
#[derive(Drop)]
pub struct Places {
    list: Vec<u64>,
}

impl Model for Places {
    ghost use Rattle.std.specs.Prelude.{◌-◌, vec_len, vec_capacity};
    ghost use Rattle.serve_rules.specs.Places.{PlacesModel};

    ghost Value = { PlacesModel };

    ghost view = { λ p. record { list = p.list.items; room = vec_capacity p.list - vec_len p.list } };
}

impl Places {
    /// No places, and room for two.
    pub fn new(alloc: Global) -> Result<Places, OutOfMemory>
        ensures list { IfOk result (λ places. places.list ≡ []) }
        ensures room { IfOk result (λ places. 2 ≤ places.room) }
    {
        let mut places = Places {
            list: Vec::new(alloc),
        };
        places.make_room()?;
        Ok(places)
    }

    /// No places, and no room. Takes no memory.
    pub fn none(alloc: Global) -> Places
        ensures list { result.list ≡ [] }
    {
        Places {
            list: Vec::new(alloc),
        }
    }

    /// The places.
    pub fn list(&self) -> &[u64]
        ensures { result.now ≡ self.now.list }
    {
        &self.list
    }

    /// Makes room for two more places.
    pub fn make_room(&mut self) -> Result<(), OutOfMemory>
        ensures list { self.new.list ≡ self.old.list }
        ensures room { self.old.room ≤ self.new.room }
        ensures more { OnOk result (2 ≤ self.new.room) }
    {
        match self.list.reserve(ROOM) {
            Ok(()) => Ok(()),
            Err(_) => Err(OutOfMemory),
        }
    }

    /// Adds a place, for which there is room. Takes no memory.
    pub fn add(&mut self, place: u64)
        requires { 0 < self.old.room }
        ensures list { self.new.list ≡ self.old.list ++ place ∷ [] }
        ensures room { self.new.room + 1 ≡ self.old.room }
    {
        self.list.push_reserved(place);
    }
}
