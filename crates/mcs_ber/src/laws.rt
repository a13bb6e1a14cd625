//! The laws of reading: what is read stands there, and what stands there is read.

ghost use Rattle.std.specs.Prelude.{◌≡◌, ◌↔◌, ℕ, List, Ok, Err, IsErr};
ghost use Rattle.wire_num.specs.declared.range.Range.{Range};
ghost use Rattle.tpkt_x224.specs.Grammar.{IsBrokenAt};
ghost use Rattle.mcs_ber.specs.ConnectInitial.{connect_initial, user_data_of};
ghost use Rattle.mcs_ber.specs.Grammar.{IsInitial};

/// A Connect-Initial is read exactly where one stands, with the place of its user data; and a text is refused exactly where
/// none does, at its first field that isn't there.
pub fn connect_initials_are_read_exactly()
    ensures exact { (bytes : List ℕ) (place : Range) → (user_data_of bytes ≡ Ok place) ↔ IsInitial bytes place }
    ensures refused { (bytes : List ℕ) → IsErr (user_data_of bytes) ↔ ((place : Range) → IsInitial bytes place → ⊥) }
    ensures place { (bytes : List ℕ) (at : ℕ) → (user_data_of bytes ≡ Err (record { at = at })) ↔ IsBrokenAt connect_initial bytes at }
{}
