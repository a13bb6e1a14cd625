ghost use Rattle.std.specs.Prelude.{◌≡◌, ◌≤◌, ◌<◌, ◌+◌, ◌++◌, ◌∷◌, [], length};
ghost use Rattle.byteorder.specs.Endian.{little_bytes};

use std::marker::Model;

/// The most bytes of an order without its counted ones: 21 fields of at most eight, and before them its control byte, its type, three flag bytes, and
/// the flags of its bounds with four edges of two.
const MOST_BYTES: usize = 182;

/// The end of an order in the making, which is written from its last byte to its first.
#[derive(Drop)]
pub struct Tail {
    room: [u8; 182],
    from: usize,
}

impl Model for Tail {
    ghost use Rattle.std.specs.Prelude.{List, ℕ, drop, ◌≤◌};

    ghost Value = { List ℕ };

    ghost view = { λ t. drop t.from t.room };

    ghost invariant = { λ t. t.from ≤ 182 };
}

impl Tail {
    /// No bytes.
    pub fn new() -> Tail
        ensures { result ≡ [] }
    {
        Tail {
            room: [0; MOST_BYTES],
            from: MOST_BYTES,
        }
    }

    /// The bytes so far.
    pub fn bytes(&self) -> &[u8]
        ensures { result.now ≡ self.now }
    {
        &self.room[self.from..]
    }

    /// Takes all bytes away.
    pub fn clear(&mut self)
        ensures { self.new ≡ [] }
    {
        self.from = MOST_BYTES;
    }

    /// Puts a byte before the others.
    pub fn put(&mut self, byte: u8)
        requires { length self.old < 182 }
        ensures { self.new ≡ byte ∷ self.old }
    {
        self.from -= 1;
        self.room[self.from] = byte;
    }

    /// Puts two bytes before the others.
    pub fn put_pair(&mut self, first: u8, second: u8)
        requires { length self.old < 181 }
        ensures { self.new ≡ first ∷ second ∷ self.old }
    {
        self.put(second);
        self.put(first);
    }

    /// Puts the bytes of a slice before the others.
    pub fn put_bytes(&mut self, bytes: &[u8])
        requires { length bytes.now + length self.old ≤ 182 }
        ensures { self.new ≡ bytes.now ++ self.old }
    {
        let end = self.from;
        self.from -= bytes.len();
        self.room[self.from..end].copy_from_slice(bytes);
    }

    /// Puts the lowest bytes of a number before the others, the lowest first.
    pub fn put_low(&mut self, size: usize, number: u64)
        requires size { size ≤ 8 }
        requires room { size + length self.old ≤ 182 }
        ensures { self.new ≡ little_bytes size number ++ self.old }
    {
        let bytes = number.to_le_bytes();
        match size {
            0 => {}
            1 => self.put(bytes[0]),
            2 => self.put_pair(bytes[0], bytes[1]),
            _ => self.put_bytes(&bytes[..size]),
        }
    }
}
