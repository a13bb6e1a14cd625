//! A place in a slice, from which fields are read one after the other.

ghost use Rattle.std.specs.Prelude.{◌≡◌, ℕ, ◌+◌, ◌-◌, ◌≤◌, ◌<◌, ◌↔◌, length, drop, take, IfOk, OnOk, List, []};
ghost use Rattle.byteorder.specs.Endian.{big_number, little_number};
ghost use Rattle.wire_num.specs.Cursor.{CursorOf, rest, ReadsField, ReadsFieldAs, ReadsFieldsAs};
ghost use Rattle.wire_num.specs.FieldValue.{end_at, at_least, rest_count_at, passing_at, has_bits, is_at_most};
ghost use Rattle.wire_num.specs.Number.{big_at, little_at};
ghost use Rattle.wire_num.specs.Field.{bytes_at, wanted as wanted_at};
ghost use Rattle.wire_num.specs.Layout.{exactly_at};
ghost use Rattle.wire_num.specs.Length.{per_len_at, ber_len_at};

use crate::Short;
use byteorder::{BigEndian, ByteOrder, LittleEndian};
use std::marker::Model;

/// A place in a slice, from which fields are read. A refused field leaves it where it stood.
#[derive(Drop)]
pub struct Cursor<'a> {
    bytes: &'a [u8],
    at: usize,
}

impl<'a> Model for Cursor<'a> {
    ghost use Rattle.std.specs.Prelude.{◌≤◌, length};
    ghost use Rattle.wire_num.specs.Cursor.{CursorOf};

    ghost Value = { CursorOf };

    ghost view = { λ c. record { bytes = c.bytes.now; at = c.at } };

    ghost invariant = { λ c. c.at ≤ length c.bytes.now };
}

impl<'a> Cursor<'a> {
    /// A cursor at the slice's first byte.
    pub fn new(bytes: &'a [u8]) -> Cursor<'a>
        ensures { result ≡ record { bytes = bytes.now; at = 0 } }
    {
        Cursor { bytes, at: 0 }
    }

    /// The offset of the cursor in its slice, in bytes.
    pub fn at(&self) -> usize
        ensures place { result ≡ self.now.at }
        ensures inside { result ≤ length self.now.bytes }
    {
        self.at
    }

    /// How many bytes are left.
    pub fn left(&self) -> usize
        ensures { result ≡ length (rest self.now) }
    {
        self.bytes.len() - self.at
    }

    /// The bytes that are left.
    pub fn rest(&self) -> &'a [u8]
        ensures { result.now ≡ rest self.now }
    {
        &self.bytes[self.at..]
    }

    /// Goes to another offset in the slice, as that at which a cursor over a part of it was refused.
    pub fn go_to(&mut self, at: usize)
        requires { at ≤ length self.old.bytes }
        ensures { self.new ≡ record { bytes = self.old.bytes; at = at } }
    {
        self.at = at;
    }

    /// `n` bytes of any value.
    pub fn bytes(&mut self, n: usize) -> Result<&'a [u8], Short>
        ensures { ReadsFieldAs (λ part. part.now) (bytes_at n) result self.old self.new }
    {
        let left = &self.bytes[self.at..];
        if left.len() < n {
            return Err(Short { at: self.at });
        }
        self.at += n;
        Ok(&left[..n])
    }

    /// One byte.
    #[tactic(auto, using(crate::proofs::Numbers::big_at_is))]
    pub fn u8(&mut self) -> Result<u8, Short>
        ensures { ReadsField (big_at 1) result self.old self.new }
    {
        let left = &self.bytes[self.at..];
        if left.len() < 1 {
            return Err(Short { at: self.at });
        }
        self.at += 1;
        Ok(left[0])
    }

    /// A number of two bytes, the lowest first.
    #[tactic(auto, using(crate::proofs::Numbers::little_at_is))]
    pub fn u16_le(&mut self) -> Result<u16, Short>
        ensures { ReadsField (little_at 2) result self.old self.new }
    {
        let left = &self.bytes[self.at..];
        if left.len() < 2 {
            return Err(Short { at: self.at });
        }
        self.at += 2;
        Ok(LittleEndian::read_u16(left))
    }

    /// A number of two bytes, the highest first.
    #[tactic(auto, using(crate::proofs::Numbers::big_at_is))]
    pub fn u16_be(&mut self) -> Result<u16, Short>
        ensures { ReadsField (big_at 2) result self.old self.new }
    {
        let left = &self.bytes[self.at..];
        if left.len() < 2 {
            return Err(Short { at: self.at });
        }
        self.at += 2;
        Ok(BigEndian::read_u16(left))
    }

    /// A number of four bytes, the lowest first.
    #[tactic(auto, using(crate::proofs::Numbers::little_at_is))]
    pub fn u32_le(&mut self) -> Result<u32, Short>
        ensures { ReadsField (little_at 4) result self.old self.new }
    {
        let left = &self.bytes[self.at..];
        if left.len() < 4 {
            return Err(Short { at: self.at });
        }
        self.at += 4;
        Ok(LittleEndian::read_u32(left))
    }

    /// A length of the packed encoding rules: one byte, or two up to 16,383 (X.691, 10.9).
    pub fn per_len(&mut self) -> Result<u16, Short>
        ensures { ReadsField per_len_at result self.old self.new }
    {
        match &self.bytes[self.at..] {
            [short @ 0..=127, ..] => {
                self.at += 1;
                Ok(u16::from(*short))
            }
            [high @ 128..=191, low, ..] => {
                self.at += 2;
                Ok(u16::from(*high - 128) * 256 + u16::from(*low))
            }
            _ => Err(Short { at: self.at }),
        }
    }

    /// A length of the basic encoding rules: one byte, `81` and one, or `82` and two (X.690, 8.1.3).
    pub fn ber_len(&mut self) -> Result<u16, Short>
        ensures { ReadsField ber_len_at result self.old self.new }
    {
        match &self.bytes[self.at..] {
            [short @ 0..=127, ..] => {
                self.at += 1;
                Ok(u16::from(*short))
            }
            [0x81, low, ..] => {
                self.at += 2;
                Ok(u16::from(*low))
            }
            [0x82, high, low, ..] => {
                self.at += 3;
                Ok(u16::from(*high) * 256 + u16::from(*low))
            }
            _ => Err(Short { at: self.at }),
        }
    }

    /// Exactly these bytes, as one field.
    pub fn expect(&mut self, wanted: &[u8]) -> Result<(), Short>
        ensures { ReadsFieldAs (λ _. []) (wanted_at wanted.now) result self.old self.new }
    {
        let left = &self.bytes[self.at..];
        if !left.starts_with(wanted) {
            return Err(Short { at: self.at });
        }
        self.at += wanted.len();
        Ok(())
    }

    /// Nothing is left; else the refusal is at the first byte that is left.
    pub fn end(&self) -> Result<(), Short>
        ensures { ReadsFieldAs (λ _. []) end_at result self.now self.now }
    {
        if self.at < self.bytes.len() {
            return Err(Short { at: self.at });
        }
        Ok(())
    }

    /// At least `n` bytes are left; else the refusal is at the slice's end, and the cursor goes there.
    #[tactic(auto, unfolding(crate::specs::FieldValue::at_least))]
    pub fn at_least(&mut self, n: usize) -> Result<(), Short>
        ensures { ReadsFieldsAs (λ _. []) (at_least n) result self.old self.new }
    {
        if self.bytes.len() - self.at < n {
            self.at = self.bytes.len();
            return Err(Short { at: self.at });
        }
        Ok(())
    }

    /// One byte in which these bits are set.
    #[tactic(auto, using(crate::proofs::Numbers::big_at_is), unfolding(crate::specs::FieldValue::passing_at))]
    pub fn u8_with(&mut self, bits: u8) -> Result<u8, Short>
        ensures { ReadsField (passing_at (has_bits bits) (big_at 1)) result self.old self.new }
    {
        let left = &self.bytes[self.at..];
        if left.is_empty() || left[0] & bits != bits {
            return Err(Short { at: self.at });
        }
        self.at += 1;
        Ok(left[0])
    }

    /// A number of two bytes, the highest first, that is at most `most`.
    #[tactic(auto, using(crate::proofs::Numbers::big_at_is), unfolding(crate::specs::FieldValue::passing_at))]
    pub fn u16_be_up_to(&mut self, most: u16) -> Result<u16, Short>
        ensures { ReadsField (passing_at (is_at_most most) (big_at 2)) result self.old self.new }
    {
        let left = &self.bytes[self.at..];
        if left.len() < 2 || BigEndian::read_u16(left) > most {
            return Err(Short { at: self.at });
        }
        self.at += 2;
        Ok(BigEndian::read_u16(left))
    }

    /// Exactly `n` bytes are left, and the cursor goes behind them; else the refusal is at the first of them.
    #[tactic(auto, unfolding(crate::specs::Layout::exactly_at))]
    pub fn exactly(&mut self, n: usize) -> Result<&'a [u8], Short>
        ensures field { ReadsFieldAs (λ part. part.now) (exactly_at n) result self.old self.new }
        ensures fits { OnOk result (self.old.at + n ≡ length self.old.bytes) }
        ensures end { OnOk result (self.new.at ≡ length self.old.bytes) }
    {
        let left = &self.bytes[self.at..];
        if left.len() != n {
            return Err(Short { at: self.at });
        }
        self.at = self.bytes.len();
        Ok(left)
    }

    /// One byte, which counts those after it.
    #[tactic(auto, using(crate::proofs::Numbers::big_at_is), unfolding(crate::specs::FieldValue::rest_count_at))]
    pub fn rest_count(&mut self) -> Result<u8, Short>
        ensures { ReadsField rest_count_at result self.old self.new }
    {
        let left = &self.bytes[self.at..];
        if left.is_empty() || left[0] as usize != left.len() - 1 {
            return Err(Short { at: self.at });
        }
        self.at += 1;
        Ok(left[0])
    }

    /// The next `n` bytes, as a cursor with the same offsets that ends behind them.
    pub fn within(&mut self, n: usize) -> Result<Cursor<'a>, Short>
        ensures field { ReadsFieldAs (λ content. rest content) (bytes_at n) result self.old self.new }
        ensures fits { OnOk result (self.old.at + n ≤ length self.old.bytes) }
        ensures behind { OnOk result (self.new ≡ record { bytes = self.old.bytes; at = self.old.at + n }) }
        ensures offsets { IfOk result (λ content. content ≡ record { bytes = take (self.old.at + n) self.old.bytes; at = self.old.at }) }
    {
        if self.bytes.len() - self.at < n {
            return Err(Short { at: self.at });
        }
        let content = Cursor {
            bytes: &self.bytes[..self.at + n],
            at: self.at,
        };
        self.at += n;
        Ok(content)
    }
}
