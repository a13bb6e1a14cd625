ghost use Rattle.std.specs.Prelude.{◌≡◌, ◌+◌, ◌++◌, ◌≤◌, [], length};

use std::marker::Model;

/// The most bytes of the fields that an entry has in a row: 18 fields of at most four.
const MOST_BYTES: usize = 72;

/// The bytes of fields that go into a record at once.
#[derive(Drop)]
pub struct Gathered {
    room: [u8; 72],
    count: usize,
}

impl Model for Gathered {
    ghost use Rattle.std.specs.Prelude.{List, ℕ, take, ◌≤◌};

    ghost Value = { List ℕ };

    ghost view = { λ g. take g.count g.room };

    ghost invariant = { λ g. g.count ≤ 72 };
}

impl Gathered {
    /// No bytes.
    pub fn new() -> Gathered
        ensures { result ≡ [] }
    {
        Gathered {
            room: [0; MOST_BYTES],
            count: 0,
        }
    }

    /// The bytes so far.
    pub fn bytes(&self) -> &[u8]
        ensures { result.now ≡ self.now }
    {
        &self.room[..self.count]
    }

    /// Puts the bytes of a slice behind the others.
    #[inline(always)]
    pub fn put(&mut self, bytes: &[u8])
        requires { length self.old + length bytes.now ≤ 72 }
        ensures { self.new ≡ self.old ++ bytes.now }
    {
        let end = self.count + bytes.len();
        self.room[self.count..end].copy_from_slice(bytes);
        self.count = end;
    }
}
