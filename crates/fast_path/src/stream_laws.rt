//! Laws of streams in which packets of both kinds come: the packets are the same in whatever pieces a stream comes.

ghost use Rattle.std.specs.Prelude.{◌≡◌, ◌≤◌, ◌<◌, ◌↔◌, ℕ, List, [], ◌++◌, length, take, flat_map};
ghost use Rattle.std.specs.List.{AllByRecursion};
ghost use Rattle.tpkt_x224.specs.declared.tpkt.Packet.{Packet};
ghost use Rattle.tpkt_x224.specs.declared.tpkt.Packet.TheVariants.{Whole, Part, NotTpkt, BadLength};
ghost use Rattle.tpkt_x224.specs.Pieces.{StartsWith, IsPartOf, IsStreamBy, packets_with, pieces_with, after_packets};
ghost use Rattle.fast_path.specs.Heads.{IsFastPacket, IsStreamPacket, HasOtherAction, HasBadStreamLength, stream_packet_at};
ghost use Rattle.fast_path.specs.Written.{fast_packet};

/// At the head of a stream a packet of either kind is `Whole` exactly where one stands, and `Part` exactly where more bytes may complete
/// one; each refusal is answered exactly where its fault stands.
pub fn heads_of_mixed_streams()
    ensures whole { (bytes : List ℕ) (n : ℕ) → (stream_packet_at bytes ≡ Whole n) ↔ ((n ≤ length bytes) × IsStreamPacket (take n bytes)) }
    ensures part { (bytes : List ℕ) → (stream_packet_at bytes ≡ Part) ↔ ((more : List ℕ) × (0 < length more) × IsStreamPacket (bytes ++ more)) }
    ensures not_tpkt { (bytes : List ℕ) → (stream_packet_at bytes ≡ NotTpkt) ↔ HasOtherAction bytes }
    ensures bad_length { (bytes : List ℕ) → (stream_packet_at bytes ≡ BadLength) ↔ HasBadStreamLength bytes }
{}

/// Cutting off packets of both kinds again and again gives one list of packets and one rest, in whatever pieces the stream comes. Joined
/// they are the stream; each packet is whole and has its own length; and no whole packet is left in the rest, which is a part of a
/// packet where nothing is refused. No other packets and rest are so.
pub fn mixed_streams_in_any_pieces()
    ensures joined { (bytes : List ℕ) → flat_map (λ packet. packet) (packets_with stream_packet_at bytes).packets ++ (packets_with stream_packet_at bytes).rest ≡ bytes }
    ensures each { (bytes : List ℕ) → AllByRecursion IsStreamPacket (packets_with stream_packet_at bytes).packets }
    ensures left { (bytes : List ℕ) → StartsWith IsStreamPacket (packets_with stream_packet_at bytes).rest → ⊥ }
    ensures part { (bytes : List ℕ) → (HasOtherAction (packets_with stream_packet_at bytes).rest → ⊥) → (HasBadStreamLength (packets_with stream_packet_at bytes).rest → ⊥)
        → IsPartOf IsStreamPacket (packets_with stream_packet_at bytes).rest }
    ensures only { (bytes : List ℕ) (packets : List (List ℕ)) (rest : List ℕ)
        → (packets_with stream_packet_at bytes ≡ record { packets = packets; rest = rest }) ↔ IsStreamBy IsStreamPacket bytes packets rest }
    ensures two { (xs ys : List ℕ)
        → packets_with stream_packet_at (xs ++ ys) ≡ after_packets (packets_with stream_packet_at xs).packets (packets_with stream_packet_at ((packets_with stream_packet_at xs).rest ++ ys)) }
    ensures all { (pieces : List (List ℕ)) → pieces_with stream_packet_at [] pieces ≡ packets_with stream_packet_at (flat_map (λ piece. piece) pieces) }
{}

/// A packet that is written is whole.
pub fn fast_packets_are_whole()
    ensures { (code : ℕ) (bytes : List ℕ) → length bytes ≤ 32761 → IsFastPacket (fast_packet code bytes) }
{}
