//! The laws of reading: what is read stands there, and what stands there is read.

ghost use Rattle.std.specs.Prelude.{◌≡◌, ◌↔◌, [], ℕ, List, Ok, Err, IsErr};
ghost use Rattle.share_pdu.specs.declared.client_pdu.ClientPdu.{ClientPdu};
ghost use Rattle.share_pdu.specs.declared.share_fault.ShareFault.{ShareFault};
ghost use Rattle.share_pdu.specs.Bodies.{areas_of};
ghost use Rattle.share_pdu.specs.ClientPdu.{share_pdu_of};
ghost use Rattle.share_pdu.specs.Areas.{Area, IsRefreshRect, rects_of};
ghost use Rattle.share_pdu.specs.Grammar.{IsSharePdu};
ghost use Rattle.share_pdu.specs.Faults.{IsFirstFault};

/// A share PDU is read exactly where one stands at the front, with what it says; and a text is refused exactly where none does, for the
/// first fault there, at its place.
pub fn share_pdus_are_read_exactly()
    ensures exact { (bytes : List ℕ) (pdu : ClientPdu) → (share_pdu_of bytes ≡ Ok pdu) ↔ IsSharePdu bytes pdu }
    ensures none { (bytes : List ℕ) → IsErr (share_pdu_of bytes) ↔ ((pdu : ClientPdu) → IsSharePdu bytes pdu → ⊥) }
    ensures refused { (bytes : List ℕ) (fault : ShareFault) → (share_pdu_of bytes ≡ Err fault) ↔ IsFirstFault bytes fault }
{}

/// The areas of a Refresh Rect are the rectangles of those that it counts, in their order, without those that are skipped; and what is no
/// Refresh Rect has none.
pub fn areas_are_read_exactly()
    ensures areas { (bytes : List ℕ) (areas : List Area) → IsRefreshRect bytes areas → areas_of bytes ≡ rects_of areas }
    ensures none { (bytes : List ℕ) → ((areas : List Area) → IsRefreshRect bytes areas → ⊥) → areas_of bytes ≡ [] }
{}
