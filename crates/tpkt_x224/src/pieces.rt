//! The law of any pieces: the packets of a stream are the same in whatever pieces it comes.

ghost use Rattle.std.specs.Prelude.{◌≡◌, ◌≤◌, ◌<◌, ◌↔◌, ℕ, List, [], ◌++◌, length, take, flat_map};
ghost use Rattle.std.specs.List.{AllByRecursion};
ghost use Rattle.tpkt_x224.specs.Tpkt.{IsPacket, HasWrongVersion, HasBadLength, packet_at};
ghost use Rattle.tpkt_x224.specs.declared.tpkt.Packet.{Packet};
ghost use Rattle.tpkt_x224.specs.declared.tpkt.Packet.TheVariants.{Whole, Part, NotTpkt, BadLength};
ghost use Rattle.tpkt_x224.specs.Pieces.{StartsWithPacket, IsPartOfPacket, IsStreamOf, packets_of, packets_of_pieces, after_packets};

/// `next_packet` answers `Whole` exactly where a whole packet stands at the head, and `Part` exactly where more bytes may
/// complete one. So `Part` is answered exactly where neither a whole packet nor a fault is at the head.
pub fn heads_of_streams()
    ensures whole { (bytes : List ℕ) (n : ℕ) → (packet_at bytes ≡ Whole n) ↔ ((n ≤ length bytes) × IsPacket (take n bytes)) }
    ensures part { (bytes : List ℕ) → (packet_at bytes ≡ Part) ↔ ((more : List ℕ) × (0 < length more) × IsPacket (bytes ++ more)) }
    ensures not_tpkt { (bytes : List ℕ) → (packet_at bytes ≡ NotTpkt) ↔ HasWrongVersion bytes }
    ensures bad_length { (bytes : List ℕ) → (packet_at bytes ≡ BadLength) ↔ HasBadLength bytes }
{}

/// Cutting off packets again and again gives one list of packets and one rest, in whatever pieces the stream comes. Joined
/// they are the stream; each packet is whole and has its own length; and no whole packet is left in the rest, which is a part
/// of a packet where nothing is refused. No other packets and rest are so.
pub fn packets_in_any_pieces()
    ensures joined { (bytes : List ℕ) → flat_map (λ packet. packet) (packets_of bytes).packets ++ (packets_of bytes).rest ≡ bytes }
    ensures each { (bytes : List ℕ) → AllByRecursion IsPacket (packets_of bytes).packets }
    ensures left { (bytes : List ℕ) → StartsWithPacket (packets_of bytes).rest → ⊥ }
    ensures part { (bytes : List ℕ) → (HasWrongVersion (packets_of bytes).rest → ⊥) → (HasBadLength (packets_of bytes).rest → ⊥) → IsPartOfPacket (packets_of bytes).rest }
    ensures only { (bytes : List ℕ) (packets : List (List ℕ)) (rest : List ℕ)
        → (packets_of bytes ≡ record { packets = packets; rest = rest }) ↔ IsStreamOf bytes packets rest }
    ensures two { (xs ys : List ℕ) → packets_of (xs ++ ys) ≡ after_packets (packets_of xs).packets (packets_of ((packets_of xs).rest ++ ys)) }
    ensures all { (pieces : List (List ℕ)) → packets_of_pieces [] pieces ≡ packets_of (flat_map (λ piece. piece) pieces) }
{}
