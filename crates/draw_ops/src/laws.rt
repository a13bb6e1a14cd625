//! Laws of the definitions, each as the contract of a function that does nothing.

ghost use Rattle.std.specs.Prelude.{◌≡◌, ℕ, ◌+◌, ◌*◌, ◌<◌, pos, false, List, [], length, take, drop, slice_index, All};
ghost use Rattle.std.specs.List.{concat};
ghost use Rattle.px_core.specs.declared.surface.Size.{Size};
ghost use Rattle.px_core.specs.Picture.{item, listed, pixel_at, pixel_count};
ghost use Rattle.px_core.specs.Rectangle.{in_clip};
ghost use Rattle.draw_ops.specs.declared.shape.Drawing.{Drawing};
ghost use Rattle.draw_ops.specs.Slots.{SurfaceState, opening_surface};
ghost use Rattle.draw_ops.specs.Formulas.{painted_area};
ghost use Rattle.draw_ops.specs.Drawing.{drawn_picture, drawn_pixel, drawn_row, painting_of, state_after_drawing, state_after_drawings};
ghost use Rattle.draw_ops.specs.Ranges.{HasColors};
ghost use Rattle.draw_ops.specs.StateColors.{StateHasColors};

/// Each pixel of the picture after a drawing is a formula of the old state, and the picture keeps its size.
pub fn pixels_are_formulas()
    ensures pixel { (size : Size) (st : SurfaceState) (d : Drawing) (x y : ℕ) → length st.picture ≡ pixel_count size → x < size.w → y < size.h
        → pixel_at size (drawn_picture size st d) 0 x y ≡ drawn_pixel size st d (pos x) (pos y) (pixel_at size st.picture 0 x y) }
    ensures sized { (size : Size) (st : SurfaceState) (d : Drawing) → length (drawn_picture size st d) ≡ length st.picture }
{}

/// A list of as many colours as the picture has pixels, of which each is the drawn one, is the picture after the drawing.
pub fn drawn_pixels_are_the_picture()
    ensures { (size : Size) (st : SurfaceState) (d : Drawing) (ps : List ℕ) → length st.picture ≡ pixel_count size → length ps ≡ pixel_count size
        → ((x y : ℕ) → x < size.w → y < size.h → pixel_at size ps 0 x y ≡ drawn_pixel size st d (pos x) (pos y) (pixel_at size st.picture 0 x y))
        → ps ≡ drawn_picture size st d }
{}

/// The picture after a drawing is the join of the drawn rows, and what is so row by row is that picture, as one list or as a list of rows.
pub fn drawn_rows_are_the_picture()
    ensures row { (size : Size) (st : SurfaceState) (d : Drawing) (y : ℕ) → length st.picture ≡ pixel_count size → y < size.h
        → take size.w (drop (size.w * y) (drawn_picture size st d)) ≡ drawn_row size st d y }
    ensures joined { (size : Size) (st : SurfaceState) (d : Drawing) → length st.picture ≡ pixel_count size
        → concat (listed size.h 0 (drawn_row size st d)) ≡ drawn_picture size st d }
    ensures list { (size : Size) (st : SurfaceState) (d : Drawing) (ps : List ℕ) → length st.picture ≡ pixel_count size → length ps ≡ pixel_count size
        → ((y : ℕ) → y < size.h → take size.w (drop (size.w * y) ps) ≡ drawn_row size st d y) → ps ≡ drawn_picture size st d }
    ensures rows { (size : Size) (st : SurfaceState) (d : Drawing) (rows : List (List ℕ)) → length st.picture ≡ pixel_count size → length rows ≡ size.h
        → ((y : ℕ) → y < size.h → item rows y [] ≡ drawn_row size st d y) → concat rows ≡ drawn_picture size st d }
{}

/// A row of which each pixel is the drawn one is the drawn row; one that the drawing doesn't reach is the old one.
pub fn drawn_pixels_are_the_row()
    ensures pixels { (size : Size) (st : SurfaceState) (d : Drawing) (y : ℕ) (row : List ℕ) → length row ≡ size.w
        → ((x : ℕ) → x < size.w → slice_index row x ≡ drawn_pixel size st d (pos x) (pos y) (pixel_at size st.picture 0 x y))
        → row ≡ drawn_row size st d y }
    ensures pixel { (size : Size) (st : SurfaceState) (d : Drawing) (x y : ℕ) → x < size.w
        → slice_index (drawn_row size st d y) x ≡ drawn_pixel size st d (pos x) (pos y) (pixel_at size st.picture 0 x y) }
    ensures sized { (size : Size) (st : SurfaceState) (d : Drawing) (y : ℕ) → length (drawn_row size st d y) ≡ size.w }
    ensures kept { (size : Size) (st : SurfaceState) (d : Drawing) (y : ℕ) → length st.picture ≡ pixel_count size → y < size.h
        → ((x : ℕ) → x < size.w → painted_area (in_clip d.clip) (painting_of size st d.shape) (pos x) (pos y) ≡ false)
        → drawn_row size st d y ≡ take size.w (drop (size.w * y) st.picture) }
{}

/// Where all colours of a state and of a drawing are below 2^24, all colours of the state after it are, those in its slots too.
pub fn drawing_keeps_colors()
    ensures drawing { (size : Size) (st : SurfaceState) (d : Drawing) → StateHasColors st → HasColors d → StateHasColors (state_after_drawing size st d) }
    ensures drawings { (size : Size) (st : SurfaceState) (ds : List Drawing) → StateHasColors st → All HasColors ds → StateHasColors (state_after_drawings size st ds) }
    ensures opening { (size : Size) → StateHasColors (opening_surface size) }
{}
