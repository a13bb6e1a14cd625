//! Laws of the definitions, each as the contract of a function that does nothing.

ghost use Rattle.std.specs.Prelude.{◌≡◌, ℕ, ℤ, ◌+◌, ◌*◌, ◌^◌, ◌<◌, ◌≤◌, List, [], Bool, true, false, Option, Some, None, length};
ghost use Rattle.px_core.specs.declared.surface.Size.{Size};
ghost use Rattle.px_core.specs.declared.rectangle.Rect.{Rect};
ghost use Rattle.px_core.specs.Picture.{item, pixel_count};
ghost use Rattle.px_core.specs.Rectangle.{boxed, has_pixel, is_inside};
ghost use Rattle.px_core.specs.Tiles.{tiles_of, share_tile};
ghost use Rattle.draw_ops.specs.declared.shape.Drawing.{Drawing};
ghost use Rattle.draw_ops.specs.declared.shape.Shape.{Shape};
ghost use Rattle.draw_ops.specs.declared.shape.Shape.TheVariants.{Fill, Dst, Copy, Save, Restore};
ghost use Rattle.draw_ops.specs.Content.{ImageOf};
ghost use Rattle.draw_ops.specs.Slots.{SurfaceState, lookup};
ghost use Rattle.draw_ops.specs.Drawing.{state_after_drawing, state_after_drawings};
ghost use Rattle.caps_sets.specs.declared.confirmed.Confirmed.{Confirmed};
ghost use Rattle.caps_sets.specs.Confirmed.{depth_of};
ghost use Rattle.order_means.specs.ClientState.{ClientState};
ghost use Rattle.order_fields.specs.NamedDrawing.NamedDrawing.{Opaque, Dst as DstBlt, Scr, SaveBlock, RestoreBlock};
ghost use Rattle.session_rules.specs.Pending.{pending_of, pending_drawings};
ghost use Rattle.frame_rules.specs.Frame.{Walk, walked, walked_pending, jumped, with_block, given_up};
ghost use Rattle.frame_rules.specs.Blocks.{placed, positions_of, least_free, place_of, without_slot};
ghost use Rattle.frame_rules.specs.FrameOrders.{bounds_of};
ghost use Rattle.frame_rules.specs.FrameOrders.SentOrder.{Drawn};
ghost use Rattle.frame_laws.specs.Agreement.{Agrees, ObeyedAndAgrees, drawn};

/// A drawing of any shape, of which nothing is sent, keeps the agreement: what it changes lies in dirty tiles, and a block that it replaces is held no longer.
pub fn unsent_drawing_keeps_the_agreement()
    ensures in_its_turn { (size : Size) → size.w ≤ 2048 → (st : SurfaceState) (clip : Option Rect) (client : ClientState) (c : Confirmed) (s : Shape) (w : Walk)
        → (walked size c w (pending_of size st (drawn s clip)) s).sent ≡ [] → Agrees size st w client
        → Agrees size (state_after_drawing size st (drawn s clip)) (walked size c w (pending_of size st (drawn s clip)) s).walk client }
    ensures or_its_cut { (size : Size) → size.w ≤ 2048 → (st : SurfaceState) → length st.picture ≡ pixel_count size
        → ((k : ℕ) → k < length st.picture → item st.picture k 0 < 2 ^ 24) → (clip : Option Rect) (client : ClientState) (c : Confirmed) (s : Shape) (w : Walk)
        → (walked_pending size c w (pending_of size st (drawn s clip))).sent ≡ [] → Agrees size st w client
        → Agrees size (state_after_drawing size st (drawn s clip)) (walked_pending size c w (pending_of size st (drawn s clip))).walk client }
{}

/// A jump over any drawings keeps the agreement.
pub fn jump_keeps_the_agreement()
    ensures { (size : Size) → size.w ≤ 2048 → (client : ClientState) (ds : List Drawing) (st : SurfaceState) (w : Walk) → Agrees size st w client
        → Agrees size (state_after_drawings size st ds) (jumped size w (pending_drawings size st ds)) client }
{}

/// The order of a Fill is obeyed by a client of the confirmed depth, and session and client agree after it, in any clip.
pub fn fill_keeps_the_agreement()
    ensures { (c : Confirmed) (size : Size) (st : SurfaceState) (w : Walk) (client : ClientState) (r : Rect) (color : ℕ) (clip : Option Rect)
        → client.depth ≡ depth_of c → color < 2 ^ 24 → has_pixel r ≡ true → Agrees size st w client
        → ObeyedAndAgrees c size (state_after_drawing size st (drawn (Fill r color) clip)) w client (Drawn r (Opaque r color) (bounds_of r clip)) }
{}

/// The order of a Dst is obeyed, and session and client agree after it, in any clip.
pub fn dst_keeps_the_agreement()
    ensures { (c : Confirmed) (size : Size) (st : SurfaceState) (w : Walk) (client : ClientState) (r : Rect) (code : ℕ) (clip : Option Rect)
        → client.depth ≡ depth_of c → has_pixel r ≡ true → Agrees size st w client
        → ObeyedAndAgrees c size (state_after_drawing size st (drawn (Dst r code) clip)) w client (Drawn r (DstBlt r code) (bounds_of r clip)) }
{}

/// The order of a Copy whose source has no dirty tile is obeyed, and session and client agree after it, in any clip and however source and destination overlap.
pub fn copy_of_clean_tiles_keeps_the_agreement()
    ensures { (c : Confirmed) (size : Size) (st : SurfaceState) (w : Walk) (client : ClientState) (r : Rect) (code : ℕ) (sx sy : ℤ) (clip : Option Rect)
        → size.w ≤ 2048 → client.depth ≡ depth_of c
        → has_pixel r ≡ true → is_inside size (boxed sx sy r.w r.h) ≡ true → share_tile size w.dirty (tiles_of size (boxed sx sy r.w r.h)) ≡ false
        → Agrees size st w client
        → ObeyedAndAgrees c size (state_after_drawing size st (drawn (Copy r code sx sy) clip)) w client (Drawn r (Scr r code sx sy) (bounds_of r clip)) }
{}

/// The order of a Save to the least free position, of a rectangle without a dirty tile, is obeyed: the client's block has the session's pixels, and every
/// other held block is still there.
pub fn save_keeps_the_agreement()
    ensures { (size : Size) (st : SurfaceState) (w : Walk) (client : ClientState) (slot : ℕ) (r : Rect) (clip : Option Rect) (position : ℕ) (c : Confirmed)
        → size.w ≤ 2048 → client.depth ≡ depth_of c
        → has_pixel r ≡ true → is_inside size r ≡ true → slot < length st.blocks → share_tile size w.dirty (tiles_of size r) ≡ false
        → least_free (positions_of r.w r.h) (without_slot slot w.held) ≡ Some position → Agrees size st w client
        → ObeyedAndAgrees c size (state_after_drawing size st (drawn (Save slot r) clip)) (with_block slot (placed position r.w r.h) (given_up slot w)) client
        (Drawn r (SaveBlock position r) None) }
{}

/// The order of a Restore of a block that the viewer holds is obeyed, and session and client agree after it.
pub fn restore_keeps_the_agreement()
    ensures { (size : Size) (st : SurfaceState) (w : Walk) (client : ClientState) (slot : ℕ) (x y : ℤ) (block : ImageOf) (c : Confirmed) (position : ℕ)
        → client.depth ≡ depth_of c → lookup slot st.blocks ≡ Some block
        → length block.pixels ≡ block.w * block.h → has_pixel (boxed x y block.w block.h) ≡ true → is_inside size (boxed x y block.w block.h) ≡ true
        → place_of slot w.held ≡ Some (placed position block.w block.h) → Agrees size st w client
        → ObeyedAndAgrees c size (state_after_drawing size st (drawn (Restore slot x y) None)) w client
        (Drawn (boxed x y block.w block.h) (RestoreBlock position (boxed x y block.w block.h)) None) }
{}
