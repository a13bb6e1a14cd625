//! The laws of reading: what is read stands there, and what stands there is read.

ghost use Rattle.std.specs.Prelude.{◌≡◌, ◌↔◌, ℕ, List, ◌++◌, length, take, drop, Ok, Err, IsErr};
ghost use Rattle.tpkt_x224.specs.declared.request.Request.{Request};
ghost use Rattle.tpkt_x224.specs.declared.tpkt.Packet.TheVariants.{Whole};
ghost use Rattle.tpkt_x224.specs.Tpkt.{IsPacket, packet_at};
ghost use Rattle.tpkt_x224.specs.Request.{request_header, request_of};
ghost use Rattle.tpkt_x224.specs.Data.{data_header};
ghost use Rattle.tpkt_x224.specs.Grammar.{IsRequest, CarriesData, IsBrokenAt};

/// A packet is seen exactly where one stands at the head, with its own length; a request is read exactly where one stands
/// there, with what it says, and refused where none does, at the first field of its header that isn't there; and the Data
/// header is seen exactly where it stands.
pub fn packets_are_read_exactly()
    ensures packet { (bytes : List ℕ) (n : ℕ) → (packet_at bytes ≡ Whole n)
        ↔ ((packet : List ℕ) × (more : List ℕ) × IsPacket packet × (length packet ≡ n) × (bytes ≡ packet ++ more)) }
    ensures request { (packet : List ℕ) (request : Request) → (request_of packet ≡ Ok request) ↔ IsRequest packet request }
    ensures refused { (packet : List ℕ) → IsErr (request_of packet) ↔ ((request : Request) → IsRequest packet request → ⊥) }
    ensures place { (packet : List ℕ) (at : ℕ) → (request_of packet ≡ Err (record { at = at })) ↔ IsBrokenAt request_header packet at }
    ensures data { (packet : List ℕ) → (take 3 (drop 4 packet) ≡ data_header) ↔ CarriesData packet }
{}
