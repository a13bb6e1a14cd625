//! Laws of the definitions, each as the contract of a function that does nothing.

ghost use Rattle.std.specs.Prelude.{◌≡◌, ◌≤◌, ◌<◌, ◌+◌, ◌++◌, ◌∷◌, [], length, ℕ, Bool, false, List, None, Ok, All, flat_map};
ghost use Rattle.share_pdu.specs.Packet.{data_indication_at, share_packet, update_packet};
ghost use Rattle.order_means.specs.Updates.{cutting, updates_from, rest_of, refusal_in};
ghost use Rattle.order_means.specs.Updates.Stage.{Between};
ghost use Rattle.order_means.specs.PointerPackets.{pointer_packet, pointer_content, is_pointer, indicated_at, with_compression, IsRefused};
ghost use Rattle.order_means.specs.Packets.{PacketStage, before_pieces, held_in, pieces_from, pieces_in, without_pointers, pointer_packets};

/// The pieces of two parts of a stream, wherever it is cut, are those of the first and then those of the second. The pieces of bytes,
/// joined, and what is held behind them are the bytes, and from any stage these behind what was held there.
pub fn pieces_of_parts_are_those_joined()
    ensures parts { (s : PacketStage) (xs ys : List ℕ) → pieces_from s (xs ++ ys) ≡ before_pieces (pieces_from s xs).pieces (pieces_from (pieces_from s xs).next ys) }
    ensures joined { (bytes : List ℕ) → flat_map (λ p. p) (pieces_in bytes).pieces ++ held_in (pieces_in bytes).next ≡ bytes }
    ensures from { (s : PacketStage) (bytes : List ℕ) → flat_map (λ p. p) (pieces_from s bytes).pieces ++ held_in (pieces_from s bytes).next ≡ held_in s ++ bytes }
{}

/// The packet of a share data PDU at the front of a stream is one piece, and what follows it is cut by itself. A front of it is no piece
/// and is held, and a viewer, whether or not it takes the fast path, has read nothing of it and isn't done with it.
pub fn packets_are_pieces()
    ensures slow { (kind : ℕ) (body more : List ℕ) → 18 + length body < 16384
        → pieces_in (share_packet kind body ++ more) ≡ before_pieces (share_packet kind body ∷ []) (pieces_in more) }
    ensures front { (kind : ℕ) (body xs ys : List ℕ) → 18 + length body < 16384 → share_packet kind body ≡ xs ++ ys → 0 < length ys →
        ((pieces_in xs).pieces ≡ []) × (held_in (pieces_in xs).next ≡ xs)
        × ((fast : Bool) (at : ℕ) → ((updates_from fast (cutting at Between) xs).bodies ≡ [])
        × (refusal_in (updates_from fast (cutting at Between) xs).next.stage ≡ None)
        × (rest_of (updates_from fast (cutting at Between) xs).next.stage ≡ xs)) }
{}

/// In bytes that a viewer doesn't refuse is no packet of a pointer. Those that it reads to a place between packets are whole packets, too; so
/// they stay before whatever follows them, and that is cut by itself.
pub fn what_is_read_has_no_pointers()
    ensures unrefused { (fast : Bool) (at : ℕ) (bytes : List ℕ) → refusal_in (updates_from fast (cutting at Between) bytes).next.stage ≡ None
        → (without_pointers bytes ≡ bytes) × (pointer_packets bytes ≡ []) }
    ensures whole { (fast : Bool) (at : ℕ) (bytes : List ℕ) (end : ℕ) → (updates_from fast (cutting at Between) bytes).next ≡ cutting end Between →
        ((pieces_in bytes).next ≡ PacketStage.Between) × All (λ p. is_pointer p ≡ false) (pieces_in bytes).pieces }
    ensures cut { (fast : Bool) (at : ℕ) (bytes : List ℕ) (end : ℕ) → (updates_from fast (cutting at Between) bytes).next ≡ cutting end Between →
        (more : List ℕ) → pieces_in (bytes ++ more) ≡ before_pieces (pieces_in bytes).pieces (pieces_in more) }
    ensures kept { (fast : Bool) (at : ℕ) (bytes : List ℕ) (end : ℕ) → (updates_from fast (cutting at Between) bytes).next ≡ cutting end Between →
        (more : List ℕ) → without_pointers (bytes ++ more) ≡ bytes ++ without_pointers more }
    ensures none { (fast : Bool) (at : ℕ) (bytes : List ℕ) (end : ℕ) → (updates_from fast (cutting at Between) bytes).next ≡ cutting end Between →
        (more : List ℕ) → pointer_packets (bytes ++ more) ≡ pointer_packets more }
{}

/// A pointer packet at the front of a stream is taken out, and is the first of the pointer packets.
pub fn pointer_packets_are_taken_out()
    ensures taken_out { (message more : List ℕ) → length message ≤ 16365 → without_pointers (pointer_packet message ++ more) ≡ without_pointers more }
    ensures picked { (message more : List ℕ) → length message ≤ 16365 → pointer_packets (pointer_packet message ++ more) ≡ pointer_packet message ∷ pointer_packets more }
{}

/// A packet of any kind is read like an update's up to its kind, and then as an update's; so a message that is written is found behind the
/// kind, with compressed type and length before it, and an update's packet is no pointer packet.
pub fn pointer_packets_are_told_by_their_headers()
    ensures fields { (kind : ℕ) (bytes : List ℕ) → data_indication_at kind bytes ≡ with_compression (indicated_at kind bytes) }
    ensures written { (message : List ℕ) → length message ≤ 16365 → pointer_content (pointer_packet message) ≡ Ok (0 ∷ 0 ∷ 0 ∷ message, []) }
    ensures update { (body : List ℕ) → length body ≤ 16365 → IsRefused (pointer_content (update_packet body)) }
{}
