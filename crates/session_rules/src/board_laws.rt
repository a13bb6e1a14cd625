//! Laws of the definitions, each as the contract of a function that does nothing.

ghost use Rattle.std.specs.Prelude.{◌≡◌, ◌≤◌, IsTrue, false, length};
ghost use Rattle.px_core.specs.declared.surface.Size.{Size};
ghost use Rattle.px_core.specs.Rectangle.{is_session_size};
ghost use Rattle.draw_ops.specs.declared.shape.Drawing.{Drawing};
ghost use Rattle.draw_ops.specs.Slots.{SurfaceState, opening_surface};
ghost use Rattle.draw_ops.specs.Drawing.{state_after_drawing, state_after_drawings};
ghost use Rattle.draw_ops.specs.Fits.{FitsState, AllFitState};
ghost use Rattle.input_pdu.specs.declared.event.Event.{Event};
ghost use Rattle.session_rules.specs.Board.{Board, opening_board, board_reaction};
ghost use Rattle.session_rules.specs.Journal.{names_board_slot};
ghost use Rattle.session_rules.specs.Agreement.{BoardAgrees};

/// The surface that a session opens with agrees with the board that it opens with.
pub fn opening_surface_agrees()
    ensures { (size : Size) → IsTrue (is_session_size size.w size.h) → BoardAgrees size (opening_surface size) opening_board }
{}

/// A drawing that fits and names no slot of the board keeps the agreement.
pub fn other_drawings_keep_the_agreement()
    ensures { (size : Size) (st : SurfaceState) (b : Board) (d : Drawing) → FitsState size st d → names_board_slot d.shape ≡ false
        → BoardAgrees size st b → BoardAgrees size (state_after_drawing size st d) b }
{}

/// On a surface that agrees with the board each drawing of a reaction fits at its place, and the surface after them agrees with the board after it.
pub fn reactions_fit_and_keep_the_agreement()
    ensures fit { (size : Size) (st : SurfaceState) (b : Board) (e : Event) → IsTrue (is_session_size size.w size.h) → BoardAgrees size st b
        → AllFitState size st (board_reaction size b e).drawings }
    ensures agree { (size : Size) (st : SurfaceState) (b : Board) (e : Event) → IsTrue (is_session_size size.w size.h) → BoardAgrees size st b
        → BoardAgrees size (state_after_drawings size st (board_reaction size b e).drawings) (board_reaction size b e).board }
{}

/// A reaction has at most 8 drawings.
pub fn reactions_are_short()
    ensures { (size : Size) (b : Board) (e : Event) → length (board_reaction size b e).drawings ≤ 8 }
{}
