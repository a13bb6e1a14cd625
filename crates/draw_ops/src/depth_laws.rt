//! Laws of depths: what is shown of drawings is drawings of what is shown. Each is the contract of a function that does nothing.

ghost use Rattle.std.specs.Prelude.{◌≡◌, ℕ, List, map, Option, option_map};
ghost use Rattle.px_core.specs.declared.surface.Size.{Size};
ghost use Rattle.px_core.specs.Picture.{Area, Formula, painted};
ghost use Rattle.draw_ops.specs.declared.shape.Drawing.{Drawing};
ghost use Rattle.draw_ops.specs.declared.shape.Shape.{Shape};
ghost use Rattle.draw_ops.specs.Slots.{SurfaceState};
ghost use Rattle.draw_ops.specs.Drawing.{painting_of, drawn_picture};
ghost use Rattle.draw_ops.specs.Shapes.{form_of, shown_state, shown_drawing, drawn_picture_at};
ghost use Rattle.rop3_core.specs.Rop3.{ternary_raster};
ghost use Rattle.rop3_core.specs.Palette.{session_colors, client_colors};
ghost use Rattle.px_core.specs.declared.depth.Depth.{Depth};
ghost use Rattle.px_core.specs.Depth.{shown, seen};
ghost use Rattle.draw_ops.specs.Depths.{raster_at, maybe_raster_at, client_colors_at, cut_colors_at};
ghost use Rattle.draw_ops.specs.Forms.{Form, formula_of, Changes, changed_form, Follows};

/// What is shown of a raster operation's result is the operation, on as many bits, of what is shown of its operands.
pub fn shown_operations_are_operations_of_what_is_shown()
    ensures shown { (d : Depth) (code p s o : ℕ) → shown d (ternary_raster code p s o) ≡ raster_at d code (shown d p) (shown d s) (shown d o) }
    ensures seen { (d : Depth) (code p s o : ℕ) → maybe_raster_at d code (seen d p) (seen d s) (seen d o) ≡ seen d (ternary_raster code p s o) }
{}

/// Drawing over a picture that is cut is the cut of drawing: a new pixel of any form, and the painted picture, of the session's colours and of a
/// client's, which may be unknown.
pub fn drawing_over_what_is_shown_is_what_is_shown_of_drawing()
    ensures pixel { (d : Depth) (form : Form ℕ) → Follows (shown d) (formula_of session_colors form) (formula_of (cut_colors_at d) (changed_form (shown d) (shown d) form)) }
    ensures picture { (d : Depth) (size : Size) (area : Area) (form : Form ℕ) (old : List ℕ)
        → painted size area (formula_of (cut_colors_at d) (changed_form (shown d) (shown d) form)) (map (shown d) old)
        ≡ map (shown d) (painted size area (formula_of session_colors form) old) }
    ensures client_pixel { (d : Depth) (form : Form (Option ℕ)) → Follows (option_map (shown d)) (formula_of client_colors form)
        (formula_of (client_colors_at d) (changed_form (shown d) (option_map (shown d)) form)) }
    ensures client_picture { (d : Depth) (size : Size) (area : Area) (form : Form (Option ℕ)) (old : List (Option ℕ))
        → painted size area (formula_of (client_colors_at d) (changed_form (shown d) (option_map (shown d)) form)) (map (option_map (shown d)) old)
        ≡ map (option_map (shown d)) (painted size area (formula_of client_colors form) old) }
{}

/// What a drawing makes of a state, at a depth: over the state as it is shown, the drawing as it is shown makes the picture as it is shown.
pub fn drawings_of_what_is_shown_are_shown()
    ensures form { (size : Size) (st : SurfaceState) (s : Shape) → (painting_of size st s).formula ≡ formula_of session_colors (form_of size st s) }
    ensures picture { (d : Depth) (size : Size) (st : SurfaceState) (dr : Drawing)
        → drawn_picture_at d size (shown_state d st) (shown_drawing d dr) ≡ map (shown d) (drawn_picture size st dr) }
{}

/// What showing changes of colours: the session's are those that are cut, and a client's of 24 bits, or the session's, are those of a client of this depth.
pub fn showing_is_a_change_of_colors()
    ensures session { (d : Depth) → Changes session_colors (cut_colors_at d) (shown d) (shown d) }
    ensures client { (d : Depth) → Changes client_colors (client_colors_at d) (shown d) (option_map (shown d)) }
    ensures seen { (d : Depth) → Changes session_colors (client_colors_at d) (shown d) (seen d) }
{}
