//! Laws of the definitions, each as the contract of a function that does nothing.

ghost use Rattle.std.specs.Prelude.{◌≡◌, ℕ, [], ◌∷◌, ◌+◌, ◌*◌, ◌/◌, ◌%◌, ◌^◌, ◌≤◌, ◌<◌, List, ◌++◌, length, map, Bool, true, false, Option, Some};
ghost use Rattle.std.specs.Prelude.{None, Ok, pos};
ghost use Rattle.px_core.specs.declared.depth.Depth.{Depth};
ghost use Rattle.px_core.specs.declared.surface.Size.{Size};
ghost use Rattle.px_core.specs.Depth.{seen};
ghost use Rattle.px_core.specs.declared.rectangle.Rect.{Rect};
ghost use Rattle.px_core.specs.Picture.{Area, Formula, pixel_count, painted};
ghost use Rattle.px_core.specs.Rectangle.{in_clip, clipped};
ghost use Rattle.px_core.specs.Tiles.{Tiles, either_tiles, tile_number, tiles_of, tiles_in};
ghost use Rattle.draw_ops.specs.Formulas.{Painting, painted_area, picture_after};
ghost use Rattle.caps_sets.specs.declared.confirmed.Confirmed.{Confirmed};
ghost use Rattle.caps_sets.specs.Confirmed.{depth_of, takes_fast};
ghost use Rattle.session_rules.specs.declared.entry.Entry.{Entry};
ghost use Rattle.session_rules.specs.Steps.{TakeOf};
ghost use Rattle.order_fields.specs.OrderTable.{Registers, AreRegisters};
ghost use Rattle.order_fields.specs.OrderStream.{order_at, orders_in, seen as seen_orders};
ghost use Rattle.order_means.specs.ClientState.{first_client};
ghost use Rattle.order_means.specs.FrameMarks.{View, view_after_orders, with_registers, marked_if};
ghost use Rattle.frame_rules.specs.Blocks.{Held};
ghost use Rattle.frame_rules.specs.Frame.{frame_of};
ghost use Rattle.frame_rules.specs.Shown.{tile_of_place, ShowsOutside, canvas_after_tiles};
ghost use Rattle.frame_rules.specs.Encoder.{Encoder, first_encoder, take_bytes, encoder_after};
ghost use Rattle.frame_rules.specs.Describes.{DescribesClient};
ghost use Rattle.frame_rules.specs.FrameOrders.{SentOrder};
ghost use Rattle.frame_rules.specs.FrameBytes.{
  bytes_of_order,
  registers_after_order,
  bytes_of_orders,
  registers_after_orders,
  joined_bytes,
  updates_of,
  mark_bytes,
};
ghost use Rattle.frame_rules.specs.FrameRead.{as_read, FitsOrder, FitOrders, AreShort, Reads};

/// The frame of a take stays the same, however the journal goes on; so do its bytes and the encoder after it.
pub fn frame_stays_as_the_journal_goes_on()
    ensures frame { (size : Size) (c : Confirmed) (j more : List Entry) (held : Held) (t : TakeOf) → t.before ≤ t.number → t.number ≤ length j
        → frame_of size c (j ++ more) held t ≡ frame_of size c j held t }
    ensures bytes { (size : Size) (c : Confirmed) (j more : List Entry) (e : Encoder) (t : TakeOf) → t.before ≤ t.number → t.number ≤ length j
        → take_bytes size c (j ++ more) e t ≡ take_bytes size c j e t }
    ensures encoder { (size : Size) (c : Confirmed) (j more : List Entry) (e : Encoder) (t : TakeOf) → t.before ≤ t.number → t.number ≤ length j
        → encoder_after size c (j ++ more) e t ≡ encoder_after size c j e t }
{}

/// A pixel that a drawing paints lies in a tile that the drawing touches.
pub fn painted_pixel_is_in_a_touched_tile()
    ensures { (size : Size) (p : Painting ℕ) (clip : Option Rect) (x y : ℕ) → size.w ≤ 2048 → x < size.w → y < size.h
        → painted_area (in_clip clip) p (pos x) (pos y) ≡ true → tiles_of size (clipped p.rect clip) (tile_number x y) ≡ true }
{}

/// A drawing that isn't sent: once the tiles that it touches are dirty, the client's picture still shows the session's outside the dirty tiles.
pub fn skipped_drawing_keeps_what_is_shown()
    ensures { (depth : Depth) (size : Size) (p : Painting ℕ) (clip : Option Rect) (dirty : Tiles) (canvas : List (Option ℕ)) (old : List ℕ) → size.w ≤ 2048
        → ShowsOutside depth size dirty canvas old
        → ShowsOutside depth size (either_tiles dirty (tiles_of size (clipped p.rect clip))) canvas (picture_after size (in_clip clip) p old) }
{}

/// A drawing that is sent: where the client paints the same pixels, and each whose tile isn't dirty as the session does, its picture still shows the session's
/// outside the dirty tiles.
pub fn sent_drawing_keeps_what_is_shown()
    ensures { (depth : Depth) (size : Size) (area : Area) (p : Painting ℕ) (clip : Area) (f : Formula (Option ℕ)) (dirty : Tiles) (canvas : List (Option ℕ)) (old : List ℕ)
        → ((i : ℕ) → area (pos (i % size.w)) (pos (i / size.w)) ≡ painted_area clip p (pos (i % size.w)) (pos (i / size.w)))
        → ((i d : ℕ) → i < pixel_count size → dirty (tile_of_place size i) ≡ false → painted_area clip p (pos (i % size.w)) (pos (i / size.w)) ≡ true
        → f (pos (i % size.w)) (pos (i / size.w)) (seen depth d) ≡ seen depth (p.formula (pos (i % size.w)) (pos (i / size.w)) d))
        → ShowsOutside depth size dirty canvas old → ShowsOutside depth size dirty (painted size area f canvas) (picture_after size clip p old) }
{}

/// Once the dirty tiles that lie on the picture were sent, with pixels cut out of the session's picture, the client's picture is the session's as it is shown
/// at the client's depth, and every pixel of it is known.
pub fn dirty_tiles_complete_the_picture()
    ensures { (depth : Depth) (size : Size) (dirty : Tiles) (canvas : List (Option ℕ)) (picture : List ℕ) → size.w ≤ 2048 → ShowsOutside depth size dirty canvas picture
        → canvas_after_tiles depth size picture (tiles_in size dirty) canvas ≡ map (seen depth) picture }
{}

/// The encoder of a new viewer describes the client of a new viewer.
pub fn first_encoder_describes_the_first_client()
    ensures { (size : Size) (c : Confirmed) (j : List Entry) → DescribesClient size c j 0 first_encoder (first_client c size) }
{}

/// An order that was sent is read from the front of its bytes as it was sent, whatever follows: drawings of all types, cached images packed or raw, cached
/// glyphs and brushes, and markers.
pub fn sent_order_is_read()
    ensures { (c : Confirmed) (regs : Registers) (o : SentOrder) (rest : List ℕ) → AreRegisters regs → FitsOrder c o
        → order_at (depth_of c) regs (bytes_of_order c regs o ++ rest) ≡ Ok (seen_orders (as_read c o ∷ []) (registers_after_order c regs o), rest) }
{}

/// The orders of an update are read as they were sent, each with the registers that the ones before it leave.
pub fn sent_orders_are_read()
    ensures { (c : Confirmed) (regs : Registers) (os : List SentOrder) → AreRegisters regs → FitOrders c os
        → orders_in (depth_of c) (joined_bytes (bytes_of_orders c regs os)) (length os) regs
        ≡ record { orders = map (as_read c) os; after = registers_after_orders c regs os; refused = None } }
{}

/// Reading the updates that orders are gathered into is obeying these orders one by one, however they are gathered, in packets of the fast path or others; the
/// registers are then those after the last one.
pub fn gathered_orders_are_obeyed_one_by_one()
    ensures { (c : Confirmed) (size : Size) (os : List SentOrder) (v w : View) (place : ℕ) → v.client.depth ≡ depth_of c → AreRegisters v.client.registers → FitOrders c os → AreShort c v.client.registers os
        → length os < 2 ^ 16 → view_after_orders c size v (map (as_read c) os) ≡ Ok w
        → Reads c size v place (updates_of (takes_fast c) (bytes_of_orders c v.client.registers os)) (with_registers w (registers_after_orders c v.client.registers os)) }
{}

/// The mark's update is a mark, with frame markers or without, in a packet of either kind, and changes nothing else.
pub fn mark_shows_the_picture()
    ensures { (c : Confirmed) (size : Size) (v : View) (place : ℕ) → AreRegisters v.client.registers
        → Reads c size v place (mark_bytes (takes_fast c) c.marker) (marked_if true v) }
{}
