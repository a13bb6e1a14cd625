//! The laws of reading: what is read stands there, and what stands there is read.

ghost use Rattle.std.specs.Prelude.{◌≡◌, ◌↔◌, ℕ, List, Ok, Err, IsErr};
ghost use Rattle.mcs_dom.specs.declared.domain_pdu.DomainPdu.{DomainPdu};
ghost use Rattle.mcs_dom.specs.DomainPdu.{domain_pdu_of};
ghost use Rattle.mcs_dom.specs.Grammar.{IsDomainPdu, IsBrokenPdu};

/// A domain PDU is read exactly where one stands, with what it says; and a text is refused exactly where none does,
/// at the first field that isn't there of the PDU that its first byte chooses.
pub fn domain_pdus_are_read_exactly()
    ensures exact { (bytes : List ℕ) (pdu : DomainPdu) → (domain_pdu_of bytes ≡ Ok pdu) ↔ IsDomainPdu bytes pdu }
    ensures refused { (bytes : List ℕ) → IsErr (domain_pdu_of bytes) ↔ ((pdu : DomainPdu) → IsDomainPdu bytes pdu → ⊥) }
    ensures place { (bytes : List ℕ) (at : ℕ) → (domain_pdu_of bytes ≡ Err (record { at = at })) ↔ IsBrokenPdu bytes at }
{}
