ghost use Rattle.std.specs.Prelude.{◌≡◌, ◌≢◌, ◌+◌, ◌-◌, ◌∷◌, [], List, ℕ, Bool, true, false, Some, None, take, drop, length, slice_index};
ghost use Rattle.wire_num.specs.Field.{then_read};
ghost use Rattle.wire_num.specs.Layout.{fields_at};
ghost use Rattle.tpkt_x224.specs.Tpkt.{packet_at};
ghost use Rattle.tpkt_x224.specs.declared.tpkt.Packet.TheVariants.{Whole, Part, NotTpkt, BadLength};
ghost use Rattle.fast_path.specs.Heads.{fast_packet_at};
ghost use Rattle.share_pdu.specs.Share.{share_at};
ghost use Rattle.share_pdu.specs.Packet.{indication_at};
ghost use Rattle.order_means.specs.Updates.{cutting, updates_from, before_updates, whole_packet, whole_fast, rest_of, refusal_in};
ghost use Rattle.order_means.specs.Updates.Stage.{Between};
ghost use Rattle.order_means.specs.Indication.{indication_layout};
ghost use Rattle.order_means.specs.FastHeader.{behind_header};

/// A client's stream is cut where packets are. A whole packet at its front is read behind its four header bytes, and the stream
/// goes on behind it; a part of a packet is what is left; a wrong version is refused at its byte, a wrong length at its first one.
/// Of a viewer that takes the fast path the same holds of a packet whose first byte is 0, behind its two or three header bytes.
pub fn updates_are_cut_as_packets()
    ensures whole { (fast : Bool) (at n : ℕ) (bytes : List ℕ) → packet_at bytes ≡ Whole n →
        updates_from fast (cutting at Between) bytes
        ≡ before_updates (whole_packet (at + n) (indication_at (drop 4 (take n bytes)))).bodies
        (updates_from fast (whole_packet (at + n) (indication_at (drop 4 (take n bytes)))).next (drop n bytes)) }
    ensures part { (fast : Bool) (at : ℕ) (bytes : List ℕ) → packet_at bytes ≡ Part →
        ((updates_from fast (cutting at Between) bytes).bodies ≡ [])
        × (rest_of (updates_from fast (cutting at Between) bytes).next.stage ≡ bytes)
        × (refusal_in (updates_from fast (cutting at Between) bytes).next.stage ≡ None) }
    ensures version { (at : ℕ) (bytes : List ℕ) → packet_at bytes ≡ NotTpkt →
        ((updates_from false (cutting at Between) bytes).bodies ≡ [])
        × (refusal_in (updates_from false (cutting at Between) bytes).next.stage ≡ Some at) }
    ensures length { (fast : Bool) (at : ℕ) (bytes : List ℕ) → packet_at bytes ≡ BadLength →
        ((updates_from fast (cutting at Between) bytes).bodies ≡ [])
        × (refusal_in (updates_from fast (cutting at Between) bytes).next.stage ≡ Some (at + 2)) }
    ensures fast_whole { (at n : ℕ) (bytes : List ℕ) → fast_packet_at (0 ∷ bytes) ≡ Whole n →
        updates_from true (cutting at Between) (0 ∷ bytes)
        ≡ before_updates (whole_fast (at + n) (behind_header (take n (0 ∷ bytes)))).bodies
        (updates_from true (whole_fast (at + n) (behind_header (take n (0 ∷ bytes)))).next (drop n (0 ∷ bytes))) }
    ensures fast_part { (at : ℕ) (bytes : List ℕ) → fast_packet_at (0 ∷ bytes) ≡ Part →
        ((updates_from true (cutting at Between) (0 ∷ bytes)).bodies ≡ [])
        × (rest_of (updates_from true (cutting at Between) (0 ∷ bytes)).next.stage ≡ 0 ∷ bytes)
        × (refusal_in (updates_from true (cutting at Between) (0 ∷ bytes)).next.stage ≡ None) }
    ensures fast_length { (at : ℕ) (bytes : List ℕ) → fast_packet_at (0 ∷ bytes) ≡ BadLength →
        ((updates_from true (cutting at Between) (0 ∷ bytes)).bodies ≡ [])
        × (refusal_in (updates_from true (cutting at Between) (0 ∷ bytes)).next.stage ≡ Some (at + 1)) }
    ensures first { (at v : ℕ) (bytes : List ℕ) → v ≢ 3 → v ≢ 0 →
        ((updates_from true (cutting at Between) (v ∷ bytes)).bodies ≡ [])
        × (refusal_in (updates_from true (cutting at Between) (v ∷ bytes)).next.stage ≡ Some at) }
{}

/// What stands behind a packet's four header bytes is read as a table's fields, and refused where those are; the share data PDU
/// is in the last bytes, as many as the packed count says.
pub fn indications_are_read_by_their_fields()
    ensures { (bytes : List ℕ) → indication_at bytes
        ≡ then_read (fields_at indication_layout bytes) (λ values rest. share_at (drop (length bytes - slice_index values 0) bytes)) }
{}
