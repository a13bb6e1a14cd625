ghost use Rattle.std.specs.Prelude.{◌≡◌, ◌<◌, ◌+◌, ◌++◌, Option, Some, None, Bool, true, List, [], ◌∷◌, pos, ℕ, Ok};
ghost use Rattle.px_core.specs.declared.depth.Depth.{Depth};
ghost use Rattle.px_core.specs.declared.rectangle.Rect.{Rect};
ghost use Rattle.px_core.specs.Rectangle.{boxed};
ghost use Rattle.order_fields.specs.OrderTable.{Registers, FieldList, Edges, AreRegisters, IsFieldList, FitBounds, first_registers, registers_after};
ghost use Rattle.order_fields.specs.OrderStream.{order_at, seen_primary};
ghost use Rattle.order_fields.specs.OrderDelta.{order_bytes};
ghost use Rattle.order_fields.specs.NamedDrawing.{NamedDrawing, HasPixel, HasColor, drawing_of, drawing_fields, shown_named, wire_color, color_said};
ghost use Rattle.order_fields.specs.NamedDrawing.NamedDrawing.{Opaque};

/// What is written of an order is read back to the same fields, bounds and registers: any order of the table, any registers, any bounds, at either depth.
pub fn written_order_is_read_back()
    ensures { (depth : Depth) (regs : Registers) (confirmed : Bool) (o : FieldList) (bounds : Option Edges) (rest : List ℕ) → AreRegisters regs → IsFieldList o → FitBounds bounds →
        order_at depth regs (order_bytes regs confirmed o bounds ++ rest) ≡ Ok (seen_primary regs o bounds, rest) }
{}

/// The fields of a drawing give that drawing back with its colour as it is shown: all eight orders, with both operations of SaveBitmap.
///
/// At 16 bits a colour stands in the first two of its three bytes, the lowest first, and the third isn't looked at when it is read.
pub fn fields_give_their_drawing_back()
    ensures shown { (d : Depth) (area : Rect) (n : NamedDrawing) → HasPixel n → HasColor n → drawing_of d (drawing_fields d area n) ≡ Some (shown_named d n) }
    ensures same { (area : Rect) (n : NamedDrawing) → HasPixel n → drawing_of Depth.Bits24 (drawing_fields Depth.Bits24 area n) ≡ Some n }
    ensures black { order_bytes first_registers true (drawing_fields Depth.Bits16 (boxed (pos 0) (pos 0) 64 48) (Opaque (boxed (pos 0) (pos 0) 64 48) 0)) None
        ≡ 0x19 ∷ 0x0A ∷ 0x0C ∷ 0x40 ∷ 0x30 ∷ [] }
    ensures red { order_bytes (registers_after first_registers (drawing_fields Depth.Bits16 (boxed (pos 0) (pos 0) 64 48) (Opaque (boxed (pos 0) (pos 0) 64 48) 0)) None) true
        (drawing_fields Depth.Bits16 (boxed (pos 10) (pos 20) 5 5) (Opaque (boxed (pos 10) (pos 20) 5 5) 0xFF0000)) None
        ≡ 0x11 ∷ 0x2F ∷ 0x0A ∷ 0x14 ∷ 0xC5 ∷ 0xD5 ∷ 0xF8 ∷ [] }
    ensures low_byte_first { wire_color Depth.Bits16 0x123456 ≡ 0xAA1100 }
    ensures any_third { (third : ℕ) → third < 256 → color_said Depth.Bits16 (0xAA1100 + third) ≡ 0x11AA }
{}
