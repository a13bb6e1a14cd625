//! A user's name: the bytes of an ASCII text, kept without an allocation.
#![tactic(auto)]

ghost use Rattle.std.specs.Prelude.{◌≡◌};
ghost use Rattle.info_lic.specs.Name.{IsName};

use std::marker::Model;

/// The most bytes that a name has (profile).
pub const NAME_LENGTH: usize = 64;

/// A user's name: 0 to 64 ASCII bytes. The empty name is that of nobody who is invited.
#[derive(Clone, Copy, PartialEq, Eq, Drop)]
pub struct Name {
    stored: [u8; NAME_LENGTH],
    count: u8,
}

impl Model for Name {
    ghost use Rattle.std.specs.Prelude.{ℕ, List, take, length};
    ghost use Rattle.info_lic.specs.Stored.{IsStored, filled_up};

    ghost Value = { List ℕ };

    ghost view = { λ n. take n.count n.stored };

    ghost invariant = { λ n. IsStored n.stored n.count };

    ghost inverse = { λ v. record { stored = filled_up v; count = length v } };

    ghost use Rattle.info_lic.specs.Inverse.{inverse-view};

    ghost inverse_ok = { inverse-view };
}

impl Name {
    /// The name of these bytes.
    pub fn new(bytes: &[u8]) -> Name
        requires { IsName bytes.now }
        ensures { result ≡ bytes.now }
    {
        let mut stored = [0; NAME_LENGTH];
        stored[..bytes.len()].copy_from_slice(bytes);
        Name {
            stored,
            count: bytes.len() as u8,
        }
    }

    /// The name's bytes: at most 64, all ASCII.
    pub fn bytes(&self) -> &[u8]
        ensures value { result.now ≡ self.now }
        ensures name { IsName result.now }
    {
        &self.stored[..self.count as usize]
    }
}
