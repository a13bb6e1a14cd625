//! The values that a lock may guard.
ghost use Rattle.std.specs.Prelude.{◌≡◌, List, length};

/// A value that has a head, which never changes, and a list of entries, which only grows.
pub trait Grows: Drop {
    /// What never changes, as a session's size and its rows. No value of it is made.
    type Head;

    /// One entry of the list.
    type Entry;

    ghost head: { Self → Self.Head };

    ghost list: { Self → List Self.Entry };

    /// The length of the list, which the value has ready. Takes no memory.
    fn ready(&self) -> u64
        ensures { result ≡ length (list self.now) };
}
