ghost use Rattle.std.specs.Prelude.{◌≡◌, ◌≤◌, ◌<◌, ◌+◌, ◌-◌, ◌++◌, ◌∷◌, [], length, ℕ, suc, Bool, true, List, Option, Some};
ghost use Rattle.px_core.specs.declared.depth.Depth.{Depth};
ghost use Rattle.px_core.specs.declared.surface.Size.{Size};
ghost use Rattle.caps_sets.specs.declared.confirmed.Confirmed.{Confirmed};
ghost use Rattle.wire_num.specs.Field.{bind};
ghost use Rattle.fast_path.specs.Written.{fast_packet};
ghost use Rattle.order_fields.specs.OrderTable.{Registers, FieldList, Edges, AreRegisters, IsFieldList, FitBounds, registers_after};
ghost use Rattle.order_fields.specs.OrderStream.{orders_in, with_orders};
ghost use Rattle.order_fields.specs.OrderStream.Order.{Primary};
ghost use Rattle.order_fields.specs.OrderDelta.{order_bytes};
ghost use Rattle.share_pdu.specs.Packet.{update_packet};
ghost use Rattle.order_means.specs.Updates.{BodyForm, Cutting, body_at, cutting, form_of, updates_from, before_updates};
ghost use Rattle.order_means.specs.Updates.BodyForm.{Slow};
ghost use Rattle.order_means.specs.Updates.Stage.{Between};
ghost use Rattle.order_means.specs.FrameMarks.{ClientReading, read_on};

/// The updates of two pieces of a stream, wherever it is cut, are those of the first and then those of the second.
pub fn updates_of_pieces_are_those_joined()
    ensures { (fast : Bool) (c : Cutting) (xs ys : List ℕ)
        → updates_from fast c (xs ++ ys) ≡ before_updates (updates_from fast c xs).bodies (updates_from fast (updates_from fast c xs).next ys) }
{}

/// A viewer that reads two pieces one after the other, wherever the stream is cut, reads what it reads of them joined, and is refused where it is refused of
/// them joined.
pub fn pieces_are_read_as_joined()
    ensures { (confirmed : Confirmed) (size : Size) (r : ClientReading) (xs ys : List ℕ)
        → read_on confirmed size r (xs ++ ys) ≡ bind (read_on confirmed size r xs) (λ s. read_on confirmed size s ys) }
{}

/// The packet of an update at the front of a stream gives the update's body, at its place, and then the updates of what follows. So does a packet of the fast
/// path, with its
/// data, for a viewer that takes it.
pub fn update_is_read_from_its_packet()
    ensures slow { (fast : Bool) (at : ℕ) (bytes more : List ℕ) → 18 + length bytes < 16384 →
        updates_from fast (cutting at Between) (update_packet bytes ++ more)
        ≡ before_updates (body_at ((at + length (update_packet bytes)) - length bytes) Slow bytes ∷ []) (updates_from fast (cutting (at + length (update_packet bytes)) Between) more) }
    ensures fast { (code : ℕ) (form : BodyForm) (at : ℕ) (bytes more : List ℕ) → form_of code ≡ Some form → length bytes ≤ 32761 →
        updates_from true (cutting at Between) (fast_packet code bytes ++ more)
        ≡ before_updates (body_at ((at + length (fast_packet code bytes)) - length bytes) form bytes ∷ []) (updates_from true (cutting (at + length (fast_packet code bytes)) Between) more) }
{}

/// A primary order that is written at the front of an update's orders is read there with its fields and bounds, and the others with the registers after it.
pub fn order_is_read_before_others()
    ensures { (depth : Depth) (regs : Registers) (zero_bounds : Bool) (o : FieldList) (bounds : Option Edges) (n : ℕ) (rest : List ℕ) → AreRegisters regs → IsFieldList o → FitBounds bounds →
        orders_in depth (order_bytes regs zero_bounds o bounds ++ rest) (suc n) regs ≡ with_orders (Primary o bounds ∷ []) (orders_in depth rest n (registers_after regs o bounds)) }
{}
