//! Laws of the definitions, each as the contract of a function that does nothing.

ghost use Rattle.std.specs.Prelude.{◌≡◌, ℕ, ℤ, ◌+◌, ◌*◌, ◌^◌, ◌<◌, ◌≤◌, ◌++◌, List, [], ◌∷◌, Bool, true, Option, Some, Ok, length};
ghost use Rattle.px_core.specs.declared.surface.Size.{Size};
ghost use Rattle.px_core.specs.declared.rectangle.Rect.{Rect};
ghost use Rattle.px_core.specs.Rectangle.{has_pixel, is_inside};
ghost use Rattle.draw_ops.specs.declared.shape.Shape.TheVariants.{Pat, Blit, Blit3, Text};
ghost use Rattle.draw_ops.specs.Content.{ImageOf, GlyphOf};
ghost use Rattle.draw_ops.specs.Slots.{SurfaceState, Loaded, lookup};
ghost use Rattle.draw_ops.specs.Drawing.{painting_of, state_after_drawing};
ghost use Rattle.caps_sets.specs.declared.confirmed.Confirmed.{Confirmed};
ghost use Rattle.caps_sets.specs.Confirmed.{takes_fast};
ghost use Rattle.session_rules.specs.declared.entry.Entry.{Entry};
ghost use Rattle.px_core.specs.declared.depth.Depth.{Depth};
ghost use Rattle.px_core.specs.Depth.{shown_colors};
ghost use Rattle.px_core.specs.Pixels.{are_pixels};
ghost use Rattle.order_fields.specs.OrderTable.{Registers, Edges};
ghost use Rattle.order_fields.specs.OrderDelta.{order_bytes};
ghost use Rattle.run_lengths.specs.WirePixels.{data_of};
ghost use Rattle.order_means.specs.UpdateBodies.{tile_packet};
ghost use Rattle.order_fields.specs.NamedDrawing.{NamedDrawing, drawing_fields};
ghost use Rattle.order_fields.specs.NamedDrawing.NamedDrawing.{Pat as PatBlt, Mem, Mem3, Glyphs};
ghost use Rattle.order_means.specs.ClientState.{ClientState, source_rect, wire_pixels};
ghost use Rattle.order_means.specs.FrameMarks.{View};
ghost use Rattle.cache_plan.specs.CacheUse.{distinct_keys};
ghost use Rattle.frame_rules.specs.Frame.{Walk};
ghost use Rattle.frame_rules.specs.FrameOrders.{Uses, entries_of, first_glyph_cache, image_use, brush_use, run_use, run_pairs, bounds_of};
ghost use Rattle.frame_rules.specs.FrameOrders.SentOrder.{Drawn};
ghost use Rattle.frame_rules.specs.FrameRead.{Reads};
ghost use Rattle.frame_rules.specs.Describes.{CachesAgree, IsSized};
ghost use Rattle.frame_laws.specs.Agreement.{Agrees, drawn};
ghost use Rattle.frame_laws.specs.Sound.{AreColors};
ghost use Rattle.frame_laws.specs.Uses.{IsServed, ImageUsed, IsBrushLoaded, BrushUsed, GlyphsUsed, ObeyedThrough};
ghost use Rattle.frame_laws.specs.Run.{AreGlyphs, AreDeltas, AreServed, keys_of};
ghost use Rattle.frame_laws.specs.Tile.{IsTileRect, view_after_cut};

/// A use of an image is obeyed, whether it misses or hits: its index has the image then, and whatever any cache holds still has its content.
pub fn image_use_is_obeyed()
    ensures { (size : Size) (c : Confirmed) (j : List Entry) (client : ClientState) (uses : Uses) (cache : ℕ) (image : Loaded ImageOf)
        → IsServed size c j cache image
        → IsSized c client → CachesAgree size c j uses client → length c.bitmaps ≡ 3
        → ImageUsed size c j client (image_use c uses cache (Some image)).uses (image_use c uses cache (Some image)).orders
        cache (image_use c uses cache (Some image)).index image.content }
{}

/// So is a use of a brush.
pub fn brush_use_is_obeyed()
    ensures { (size : Size) (c : Confirmed) (j : List Entry) (client : ClientState) (uses : Uses) (brush : Loaded (List ℕ)) → IsBrushLoaded size c j brush
        → IsSized c client → CachesAgree size c j uses client
        → BrushUsed size c j client (brush_use c uses (Some brush)).uses (brush_use c uses (Some brush)).orders
        (brush_use c uses (Some brush)).index brush.content }
{}

/// So are the uses of a run's glyphs.
pub fn run_use_is_obeyed()
    ensures { (size : Size) (c : Confirmed) (j : List Entry) (cache : ℕ) (gs : List (Loaded GlyphOf)) (client : ClientState) (uses : Uses) → cache < 10
        → 0 < entries_of c (first_glyph_cache + cache) → length c.glyphs ≡ 10 → AreServed size c j cache gs → IsSized c client
        → CachesAgree size c j uses client
        → GlyphsUsed size c j client (run_use c uses cache gs).uses (run_use c uses cache gs).orders }
{}

/// The orders of a Pat are obeyed, and session and client agree after them, in any clip; so do the caches.
pub fn pat_keeps_the_agreement()
    ensures { (size : Size) (c : Confirmed) (j : List Entry) (st : SurfaceState) (w : Walk) (client : ClientState) (uses : Uses) (brush : Loaded (List ℕ))
        (slot : ℕ) (r : Rect) (code : ℕ)
        (clip : Option Rect) → IsBrushLoaded size c j brush → lookup slot st.brushes ≡ Some brush → has_pixel r ≡ true
        → Agrees size st w client → CachesAgree size c j uses client → IsSized c client
        → ObeyedThrough size c j (state_after_drawing size st (drawn (Pat r code slot) clip)) w (brush_use c uses (Some brush)).uses client
        ((brush_use c uses (Some brush)).orders ++ Drawn r (PatBlt r code (brush_use c uses (Some brush)).index) (bounds_of r clip) ∷ []) }
{}

/// So are those of a Blit whose source lies inside its image.
pub fn blit_keeps_the_agreement()
    ensures { (size : Size) (c : Confirmed) (j : List Entry) (st : SurfaceState) (w : Walk) (client : ClientState) (uses : Uses) (cache : ℕ)
        (image : Loaded ImageOf) (slot : ℕ) (r : Rect) (code : ℕ)
        (sx sy : ℤ) (clip : Option Rect) → IsServed size c j cache image → length c.bitmaps ≡ 3 → lookup slot st.images ≡ Some image → has_pixel r ≡ true
        → is_inside (record { w = image.content.w; h = image.content.h }) (source_rect r sx sy) ≡ true → Agrees size st w client
        → CachesAgree size c j uses client → IsSized c client
        → ObeyedThrough size c j (state_after_drawing size st (drawn (Blit r code slot sx sy) clip)) w (image_use c uses cache (Some image)).uses client
        ((image_use c uses cache (Some image)).orders ++ Drawn r (Mem cache (image_use c uses cache (Some image)).index r code sx sy) (bounds_of r clip) ∷ []) }
{}

/// So are those of a Blit3: the image's use, the brush's use, and the order that draws.
pub fn blit3_keeps_the_agreement()
    ensures { (size : Size) (c : Confirmed) (j : List Entry) (st : SurfaceState) (w : Walk) (client : ClientState) (uses : Uses) (cache : ℕ)
        (image : Loaded ImageOf) (brush : Loaded (List ℕ))
        (slot brush_slot : ℕ) (r : Rect) (code : ℕ) (sx sy : ℤ) (clip : Option Rect) → IsServed size c j cache image → IsBrushLoaded size c j brush
        → length c.bitmaps ≡ 3
        → lookup slot st.images ≡ Some image → lookup brush_slot st.brushes ≡ Some brush → has_pixel r ≡ true
        → is_inside (record { w = image.content.w; h = image.content.h }) (source_rect r sx sy) ≡ true → Agrees size st w client
        → CachesAgree size c j uses client → IsSized c client
        → ObeyedThrough size c j (state_after_drawing size st (drawn (Blit3 r code slot sx sy brush_slot) clip)) w
        (brush_use c (image_use c uses cache (Some image)).uses (Some brush)).uses client
        ((image_use c uses cache (Some image)).orders ++ ((brush_use c (image_use c uses cache (Some image)).uses (Some brush)).orders
        ++ Drawn r (Mem3 cache (image_use c uses cache (Some image)).index r code sx sy
        (brush_use c (image_use c uses cache (Some image)).uses (Some brush)).index) (bounds_of r clip) ∷ [])) }
{}

/// So are those of a Text whose run has no more different glyphs than its cache has entries.
pub fn text_keeps_the_agreement()
    ensures { (size : Size) (c : Confirmed) (j : List Entry) (cache : ℕ) → cache < 10 → 0 < entries_of c (first_glyph_cache + cache) → length c.glyphs ≡ 10
        → (st : SurfaceState) (w : Walk) (client : ClientState) (uses : Uses) (gs : List (Loaded GlyphOf)) (x y : ℤ) (color font : ℕ) (run : List (ℕ × ℕ))
        (clip : Option Rect)
        → color < 2 ^ 24 → AreServed size c j cache gs → AreGlyphs st font run gs → AreDeltas run
        → length (distinct_keys (keys_of gs)) ≤ entries_of c (first_glyph_cache + cache)
        → Agrees size st w client → CachesAgree size c j uses client → IsSized c client
        → ObeyedThrough size c j (state_after_drawing size st (drawn (Text x y color font run) clip)) w (run_use c uses cache gs).uses client
        ((run_use c uses cache gs).orders ++ Drawn (painting_of size st (Text x y color font run)).rect
        (Glyphs cache x y color (run_pairs (run_use c uses cache gs).indices run))
        (bounds_of (painting_of size st (Text x y color font run)).rect clip) ∷ []) }
{}

/// The packet of a tile, of the kind that was confirmed, is read by a client of its depth: the client's picture has the tile's pixels as they are shown, packed
/// or raw.
pub fn tile_is_read()
    ensures { (size : Size) (depth : Depth) (no_header : Bool) (r : Rect) (pixels : List ℕ) → IsTileRect size r → length pixels ≡ r.w * r.h → AreColors pixels
        → (c : Confirmed) (v : View) (place : ℕ) → v.client.depth ≡ depth
        → Reads c size v place (tile_packet depth (takes_fast c) no_header r pixels) (view_after_cut size v r (shown_colors depth pixels)) }
{}

/// Pixels of a depth that go over the wire, packed or raw, are read as they were.
pub fn pixels_are_read_back()
    ensures { (depth : Depth) (no_header : Bool) (w h : ℕ) (pixels : List ℕ) → 0 < w → 0 < h → length pixels ≡ w * h → length pixels < 65536
        → are_pixels depth pixels ≡ true
        → wire_pixels depth (data_of depth no_header w pixels).is_packed w h (data_of depth no_header w pixels).bytes ≡ Ok pixels }
{}

/// An order that draws has at most 90 bytes beside those of a run.
pub fn drawing_orders_are_short()
    ensures { (depth : Depth) (regs : Registers) (zero_bounds : Bool) (area : Rect) (d : NamedDrawing) (bounds : Option Edges)
        → length (order_bytes regs zero_bounds (drawing_fields depth area d) bounds) ≤ 90 + length (drawing_fields depth area d).values.bytes }
{}
