//! Laws of the definitions, each as the contract of a function that does nothing.

ghost use Rattle.std.specs.Prelude.{◌≡◌, ℕ, ◌^◌, ◌≤◌, ◌<◌, true, List, length, Some, None};
ghost use Rattle.px_core.specs.declared.surface.Size.{Size};
ghost use Rattle.px_core.specs.Picture.{pixel_count};
ghost use Rattle.px_core.specs.Rectangle.{is_session_size};
ghost use Rattle.draw_ops.specs.declared.shape.Drawing.{Drawing};
ghost use Rattle.draw_ops.specs.Slots.{SurfaceState};
ghost use Rattle.draw_ops.specs.Drawing.{drawn_picture, state_after_drawing};
ghost use Rattle.caps_sets.specs.declared.confirmed.Confirmed.{Confirmed};
ghost use Rattle.session_rules.specs.declared.entry.Entry.{Entry};
ghost use Rattle.session_rules.specs.Journal.{Head, IsLegalJournal};
ghost use Rattle.session_rules.specs.Steps.{TakeOf};
ghost use Rattle.order_means.specs.ClientState.{ClientState};
ghost use Rattle.session_rules.specs.Pending.{Pending, pending_of};
ghost use Rattle.frame_rules.specs.Cautious.{cut};
ghost use Rattle.frame_rules.specs.FrameOrders.{orders_before_tiles};
ghost use Rattle.frame_rules.specs.FrameRead.{FitOrders, AreShort};
ghost use Rattle.frame_rules.specs.Encoder.{Encoder, encoder_frame};
ghost use Rattle.frame_rules.specs.Describes.{DescribesClient, HasAllCaches, FrameShowsJournal};
ghost use Rattle.frame_rules.specs.OrdersOfBytes.{FramesReadAsTheirOrders};
ghost use Rattle.frame_rules.specs.PacketKinds.{FramesGoAsConfirmed};
ghost use Rattle.frame_laws.specs.SoundState.{IsSound};
ghost use Rattle.frame_laws.specs.Drawings.{Suits};

/// Every frame shows the journal: for every session and every viewer, what a take sends is read without a refusal and without a rest, has one mark,
/// which shows, cut to the viewer's depth, the picture after the entries that the take found, and leaves a client that the encoder describes.
pub fn every_frame_shows_the_journal()
    ensures { (head : Head) (c : Confirmed) → FrameShowsJournal head c }
{}

/// The orders of a frame have values that their fields hold, each fits into an update of its own, and there are fewer than an update counts.
pub fn frame_orders_go_whole()
    ensures fit { (head : Head) (c : Confirmed) (j : List Entry) (e : Encoder) (t : TakeOf) (client : ClientState)
        → is_session_size head.size.w head.size.h ≡ true → HasAllCaches c
        → IsLegalJournal head j → t.before ≤ t.number → DescribesClient head.size c j t.before e client
        → FitOrders c (orders_before_tiles head.size c e.uses (encoder_frame head.size c j e t)) }
    ensures short { (head : Head) (c : Confirmed) (j : List Entry) (e : Encoder) (t : TakeOf) (client : ClientState)
        → is_session_size head.size.w head.size.h ≡ true → HasAllCaches c
        → IsLegalJournal head j → t.before ≤ t.number → DescribesClient head.size c j t.before e client
        → AreShort c e.registers (orders_before_tiles head.size c e.uses (encoder_frame head.size c j e t)) }
    ensures few { (head : Head) (c : Confirmed) (j : List Entry) (e : Encoder) (t : TakeOf) (client : ClientState)
        → is_session_size head.size.w head.size.h ≡ true → HasAllCaches c
        → IsLegalJournal head j → t.before ≤ t.number → DescribesClient head.size c j t.before e client
        → length (orders_before_tiles head.size c e.uses (encoder_frame head.size c j e t)) < 2 ^ 16 }
{}

/// The bytes of a frame are read as exactly its orders, its tiles and its mark, each once and in order, and leave the registers of the encoder after it.
pub fn frames_are_read_as_their_orders()
    ensures { (head : Head) (c : Confirmed) → FramesReadAsTheirOrders head c }
{}

/// The frames of a viewer that confirmed the fast path have its packets alone, and those of every other viewer have none.
pub fn frames_go_in_packets_of_the_kind_confirmed()
    ensures { (head : Head) (c : Confirmed) → FramesGoAsConfirmed head c }
{}

/// The cut of a drawing that suits a state suits it too, and does what the drawing does; a drawing without a cut leaves the picture.
pub fn cut_does_what_its_drawing_does()
    ensures suits { (size : Size) (st : SurfaceState) (d : Drawing) (q : Pending) → is_session_size size.w size.h ≡ true → Suits size st d
        → cut size (pending_of size st d) ≡ Some q → Suits size st q.drawing }
    ensures state { (size : Size) (st : SurfaceState) (d : Drawing) (q : Pending) → length st.picture ≡ pixel_count size
        → cut size (pending_of size st d) ≡ Some q → state_after_drawing size st q.drawing ≡ state_after_drawing size st d }
    ensures pending { (size : Size) (st : SurfaceState) (d : Drawing) (q : Pending) → length st.picture ≡ pixel_count size
        → cut size (pending_of size st d) ≡ Some q → q ≡ pending_of size st q.drawing }
    ensures passed_over { (size : Size) (j : List Entry) (st : SurfaceState) (d : Drawing) → IsSound size j st
        → cut size (pending_of size st d) ≡ None → drawn_picture size st d ≡ st.picture }
{}
