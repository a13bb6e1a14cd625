//! Which viewers have joined.

ghost use Rattle.std.specs.Prelude.{◌≡◌, [], false, get_or, IfOk};
ghost use Rattle.capture_show.specs.Reading.{AreJoined, AddsViewer};

use crate::OutOfMemory;
use std::alloc::Global;
use std::marker::Model;

/// How many numbers a viewer may have, 0 with them (profile).
const NUMBERS: usize = 65_536;

/// For each number of a viewer whether it has joined.
#[derive(Drop)]
pub(crate) struct Joined {
    has: Vec<bool>,
}

impl Model for Joined {
    ghost use Rattle.std.specs.Prelude.{◌≡◌, vec_len, List, Bool};
    ghost use Rattle.capture_show.specs.declared.joined.TheConstants.{NUMBERS};

    ghost Value = { List Bool };

    ghost view = { λ j. j.has.items };

    ghost invariant = { λ j. vec_len j.has ≡ NUMBERS };
}

impl Joined {
    /// Before any viewer has joined.
    pub(crate) fn new(alloc: Global) -> Result<Joined, OutOfMemory>
        ensures { IfOk result (λ joined. AreJoined [] joined) }
    {
        Ok(Joined {
            has: vec![in alloc; false; NUMBERS]?,
        })
    }

    /// Whether a viewer has joined.
    pub(crate) fn has(&self, viewer: u16) -> bool
        ensures { result ≡ get_or self.now viewer false }
    {
        self.has[usize::from(viewer)]
    }

    /// A viewer has joined.
    pub(crate) fn add(&mut self, viewer: u16)
        ensures { AddsViewer viewer self.old self.new }
    {
        self.has[usize::from(viewer)] = true;
    }
}
