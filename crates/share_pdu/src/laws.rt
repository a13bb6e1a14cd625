ghost use Rattle.std.specs.Prelude.{◌≡◌, ◌<◌, ◌+◌, [], length, List, ℕ, Ok};
ghost use Rattle.share_pdu.specs.Share.{share_bytes, data_at};

/// The share data PDU that is written of a body, as an update's, is read as that body, with nothing behind it.
pub fn share_is_read_from_its_bytes()
    ensures { (kind : ℕ) (body : List ℕ) → 18 + length body < 65536 → data_at kind (share_bytes kind body) ≡ Ok (record { bytes = body; behind = length body }, []) }
{}
