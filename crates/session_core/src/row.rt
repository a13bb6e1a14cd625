//! What each of an entry's drawings shows, to be looked at.

ghost use Rattle.std.specs.Prelude.{◌≡◌};
ghost use Rattle.session_core.specs.Showing.{row_of};

use crate::shown::Shown;
use std::slice;

/// What each of an entry's drawings shows: what is kept of them, or what is known of one of which nothing is kept.
#[derive(Drop)]
pub enum ShownRow<'a> {
    Kept(&'a [Shown]),
    Alone(Shown),
}

impl<'a> ShownRow<'a> {
    /// What each shows, in the order of the drawings.
    pub fn slice(&self) -> &[Shown]
        ensures { result.now ≡ row_of self.now }
    {
        match self {
            ShownRow::Kept(shown) => shown,
            ShownRow::Alone(shown) => slice::from_ref(shown),
        }
    }
}
