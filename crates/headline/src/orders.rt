//! Laws of a frame's orders, tiles and updates, each as the contract of a function that does nothing.

ghost use Rattle.std.specs.Prelude.{◌≡◌, ℕ, ◌≤◌, ◌&&◌, nat_lt, Bool, true, false, List, [], ◌∷◌, ◌++◌, length, map};
ghost use Rattle.px_core.specs.declared.surface.Size.{Size};
ghost use Rattle.px_core.specs.Rectangle.{is_session_size};
ghost use Rattle.px_core.specs.Tiles.{Tiles, either_tiles, picture_tiles, tiles_in};
ghost use Rattle.draw_ops.specs.Content.{GlyphOf};
ghost use Rattle.draw_ops.specs.Slots.{Loaded};
ghost use Rattle.caps_sets.specs.declared.confirmed.Confirmed.{Confirmed};
ghost use Rattle.caps_sets.specs.Confirmed.{takes_fast};
ghost use Rattle.order_fields.specs.OrderTable.{Registers};
ghost use Rattle.px_core.specs.declared.depth.Depth.{Depth};
ghost use Rattle.run_lengths.specs.Packer.{packed};
ghost use Rattle.px_core.specs.Pixels.{pixels_bytes};
ghost use Rattle.cache_plan.specs.CacheUse.{misses, cache_index, uses_of};
ghost use Rattle.run_lengths.specs.WirePixels.{data_of};
ghost use Rattle.session_rules.specs.declared.entry.Entry.{Entry};
ghost use Rattle.session_rules.specs.Journal.{Head, IsLegalJournal};
ghost use Rattle.session_rules.specs.Steps.{TakeOf};
ghost use Rattle.order_means.specs.ClientState.{ClientState};
ghost use Rattle.frame_rules.specs.Blocks.{Held};
ghost use Rattle.session_rules.specs.Pending.{Pending};
ghost use Rattle.frame_rules.specs.Frame.{Walk, FrameOf, sent_from, frame_over};
ghost use Rattle.frame_rules.specs.FrameOrders.{SentOrder, Uses, entries_of, use_of, run_use, run_pairs, orders_from, orders_before_tiles};
ghost use Rattle.frame_rules.specs.FrameOrders.{black_orders, tile_order, frame_orders};
ghost use Rattle.frame_rules.specs.FrameBytes.{bytes_of_orders, gathered};
ghost use Rattle.frame_rules.specs.FrameRead.{AreShort};
ghost use Rattle.frame_rules.specs.Encoder.{Encoder, encoder_frame};
ghost use Rattle.frame_rules.specs.Describes.{DescribesClient, HasAllCaches};
ghost use Rattle.headline.specs.Gathering.{AreGathered, orders_of_updates, EachFits};
ghost use Rattle.headline.specs.Runs.{indices_in, AreOrdersOfRun};
ghost use Rattle.headline.specs.TilesSent.{tiles_among, IsOneOf, IsAscending, dirty_tiles};
ghost use Rattle.headline.specs.SentOnce.{IsSentOnceOrNot, drawn_orders, AreDrawnAs, EachEndsWithItsOrder};

/// Gathering orders into updates loses none and moves none; each update has at most the user data that a packet takes, or the bytes of a packet of the
/// fast path, and ends only where the next order wouldn't have fitted, as long as each order fits into an update of its own, as those of every take over
/// a legal journal do.
pub fn orders_are_gathered_as_far_as_they_fit()
    ensures stay { (fast : Bool) (orders : List (List ℕ)) → orders_of_updates (gathered fast orders) ≡ orders }
    ensures full { (fast : Bool) (orders : List (List ℕ)) → EachFits fast orders → AreGathered fast (gathered fast orders) }
    ensures frame { (c : Confirmed) (regs : Registers) (orders : List SentOrder) → AreShort c regs orders
        → AreGathered (takes_fast c) (gathered (takes_fast c) (bytes_of_orders c regs orders)) }
    ensures take { (head : Head) (c : Confirmed) (j : List Entry) (e : Encoder) (t : TakeOf) (client : ClientState)
        → is_session_size head.size.w head.size.h ≡ true → HasAllCaches c
        → IsLegalJournal head j → t.before ≤ t.number → DescribesClient head.size c j t.before e client
        → AreGathered (takes_fast c)
        (gathered (takes_fast c) (bytes_of_orders c e.registers (orders_before_tiles head.size c e.uses (encoder_frame head.size c j e t)))) }
{}

/// Of a pending drawing nothing is sent, or, once, what it is walked as. Each drawing that is sent goes as exactly one order of its shape, in order;
/// just before it stand cache orders of what it names, and no other orders. So it is with each drawing of every frame, after the black fill of a first one.
pub fn each_sent_drawing_goes_as_one_order()
    ensures walk { (size : Size) (c : Confirmed) (w : Walk) (p : Pending) → IsSentOnceOrNot size c w p }
    ensures orders { (size : Size) (c : Confirmed) (w : Walk) (ps : List Pending) (uses : Uses)
        → AreDrawnAs (sent_from size c w ps) (drawn_orders (orders_from c uses (sent_from size c w ps))) }
    ensures caches { (size : Size) (c : Confirmed) (w : Walk) (ps : List Pending) (uses : Uses) → EachEndsWithItsOrder c uses (sent_from size c w ps) }
    ensures frame { (size : Size) (c : Confirmed) (first : Bool) (held : Held) (asked : Tiles) (picture : List ℕ) (ps : List Pending) (uses : Uses)
        → AreDrawnAs (frame_over size c first held asked picture ps).sent
        (drawn_orders (orders_from c uses (frame_over size c first held asked picture ps).sent)) }
    ensures frame_caches { (size : Size) (c : Confirmed) (first : Bool) (held : Held) (asked : Tiles) (picture : List ℕ) (ps : List Pending) (uses : Uses)
        → EachEndsWithItsOrder c uses (frame_over size c first held asked picture ps).sent }
    ensures whole { (size : Size) (c : Confirmed) (uses : Uses) (f : FrameOf) → drawn_orders (orders_before_tiles size c uses f)
        ≡ black_orders size (f.first && c.pat) ++ drawn_orders (orders_from c uses f.sent) }
{}

/// A use of a cache has a cache order exactly where it misses among the uses so far, with the index of the use; and each use is remembered.
/// The cache orders of a run's glyphs are for indices of their uses, which are those that the run's order names.
pub fn cache_orders_stand_at_misses()
    ensures miss { (c : Confirmed) (uses : Uses) (cache key : ℕ) (content : ℕ → SentOrder) → misses (entries_of c cache) (uses_of cache uses) key ≡ true
        → (use_of c uses cache key content).orders ≡ content (cache_index (entries_of c cache) (uses_of cache uses) key) ∷ [] }
    ensures hit { (c : Confirmed) (uses : Uses) (cache key : ℕ) (content : ℕ → SentOrder) → misses (entries_of c cache) (uses_of cache uses) key ≡ false
        → (use_of c uses cache key content).orders ≡ [] }
    ensures index { (c : Confirmed) (uses : Uses) (cache key : ℕ) (content : ℕ → SentOrder)
        → (use_of c uses cache key content).index ≡ cache_index (entries_of c cache) (uses_of cache uses) key }
    ensures remembered { (c : Confirmed) (uses : Uses) (cache key : ℕ) (content : ℕ → SentOrder)
        → (use_of c uses cache key content).uses ≡ (cache, key) ∷ uses }
    ensures run { (c : Confirmed) (uses : Uses) (cache : ℕ) (glyphs : List (Loaded GlyphOf))
        → AreOrdersOfRun cache (run_use c uses cache glyphs).indices (run_use c uses cache glyphs).orders }
    ensures named { (c : Confirmed) (uses : Uses) (cache : ℕ) (glyphs : List (Loaded GlyphOf)) (run : List (ℕ × ℕ)) → length glyphs ≤ length run
        → indices_in (run_pairs (run_use c uses cache glyphs).indices run) ≡ (run_use c uses cache glyphs).indices }
{}

/// The rectangles of bitmap updates in a frame are its tiles, by ascending number, with the pixels of the picture that it shows: exactly those tiles of
/// the picture that are dirty or were asked for.
pub fn rectangles_are_the_tiles_to_send()
    ensures rectangles { (size : Size) (c : Confirmed) (uses : Uses) (f : FrameOf)
        → tiles_among (frame_orders size c uses f) ≡ map (tile_order size f.picture) f.tiles }
    ensures frame { (size : Size) (c : Confirmed) (first : Bool) (held : Held) (asked : Tiles) (picture : List ℕ) (ps : List Pending)
        → (frame_over size c first held asked picture ps).tiles ≡ tiles_in size (either_tiles (dirty_tiles size c first held ps) asked) }
    ensures ascending { (size : Size) (tiles : Tiles) → IsAscending (tiles_in size tiles) }
    ensures only { (size : Size) (tiles : Tiles) (tile : ℕ) → IsOneOf tile (tiles_in size tiles)
        → (tiles tile ≡ true) × IsOneOf tile (picture_tiles size) }
    ensures each { (size : Size) (tiles : Tiles) (tile : ℕ) → tiles tile ≡ true → IsOneOf tile (picture_tiles size)
        → IsOneOf tile (tiles_in size tiles) }
{}

/// The pixels of a tile or an image go packed exactly where the viewer takes packed pixels without a header and the packed bytes are fewer, at any depth.
pub fn pixels_go_packed_where_that_is_shorter()
    ensures packed { (depth : Depth) (no_header : Bool) (w : ℕ) (pixels : List ℕ)
        → (data_of depth no_header w pixels).is_packed ≡ (no_header && nat_lt (length (packed depth w pixels)) (length (pixels_bytes depth pixels))) }
    ensures as_packed { (depth : Depth) (no_header : Bool) (w : ℕ) (pixels : List ℕ) → (data_of depth no_header w pixels).is_packed ≡ true
        → (data_of depth no_header w pixels).bytes ≡ packed depth w pixels }
    ensures as_they_are { (depth : Depth) (no_header : Bool) (w : ℕ) (pixels : List ℕ) → (data_of depth no_header w pixels).is_packed ≡ false
        → (data_of depth no_header w pixels).bytes ≡ pixels_bytes depth pixels }
{}
