//! Laws of the definitions, each as the contract of a function that does nothing.

ghost use Rattle.std.specs.Prelude.{◌≡◌, ◌↔◌, ℕ, ◌+◌, ◌*◌, ◌^◌, ◌<◌, pos, List, [], ◌++◌, length, take, drop, slice_index, IsTrue, All};
ghost use Rattle.std.specs.List.{concat};
ghost use Rattle.px_core.specs.declared.surface.Size.{Size};
ghost use Rattle.px_core.specs.declared.rectangle.Rect.{Rect};
ghost use Rattle.px_core.specs.Colors.{are_colors};
ghost use Rattle.px_core.specs.declared.depth.Depth.{Depth};
ghost use Rattle.px_core.specs.Depth.{bits_in, cut_color, wide_color, shown};
ghost use Rattle.px_core.specs.Picture.{item, listed, pixel_at, pixel_count, pixel_in, rows_of};
ghost use Rattle.px_core.specs.Pixels.{pixels_bytes, pixels_of, are_pixels};
ghost use Rattle.px_core.specs.Rectangle.{in_rect};
ghost use Rattle.px_core.specs.Tiles.{HasPixelIn, tile_number, tile_rect, tiles_of};

/// A picture is its pixels: two of one size whose pixels are the same are one.
pub fn pictures_are_their_pixels()
    ensures { (size : Size) (ps qs : List ℕ) → length ps ≡ pixel_count size → length qs ≡ pixel_count size
        → ((x y : ℕ) → x < size.w → y < size.h → pixel_at size ps 0 x y ≡ pixel_at size qs 0 x y) → ps ≡ qs }
{}

/// A picture is the join of its rows; a row is a stretch of the picture, and its items are the picture's pixels.
pub fn pictures_are_their_rows()
    ensures joined { (w h : ℕ) (ps : List ℕ) → length ps ≡ w * h → concat (rows_of w h ps) ≡ ps }
    ensures parted { (w h : ℕ) (rows : List (List ℕ)) → length rows ≡ h → All (λ row. length row ≡ w) rows → rows_of w h (concat rows) ≡ rows }
    ensures stretch { (w h : ℕ) (ps : List ℕ) (y : ℕ) → y < h → item (rows_of w h ps) y [] ≡ take w (drop (w * y) ps) }
    ensures more { (h : ℕ) (row : ℕ → List ℕ) → concat (listed (h + 1) 0 row) ≡ concat (listed h 0 row) ++ row h }
    ensures pixel { (size : Size) (ps : List ℕ) (x y : ℕ) → x < size.w → y < size.h
        → pixel_in (rows_of size.w size.h ps) 0 (pos x) (pos y) ≡ pixel_at size ps 0 x y }
{}

/// A picture's pixel is the item of its list that code reads.
pub fn pixels_are_items()
    ensures { (size : Size) (ps : List ℕ) (x y : ℕ) → pixel_at size ps 0 x y ≡ slice_index ps (size.w * y + x) }
{}

/// A tile is among those of a rectangle exactly where one of its pixels is a pixel of the rectangle on the picture.
///
/// Pixel (x, y) is one of tile `32 * (y / 64) + x / 64` and of no other.
pub fn tiles_are_of_pixels()
    ensures tiles { (size : Size) (r : Rect) (tile : ℕ) → IsTrue (tiles_of size r tile) ↔ HasPixelIn size r tile }
    ensures tile { (x y tile : ℕ) → x < 2048 → IsTrue (in_rect (tile_rect tile) (pos x) (pos y)) ↔ (tile ≡ tile_number x y) }
{}

/// All are colours exactly where each is below 2^24.
pub fn colors_are_numbers()
    ensures { (colors : List ℕ) → IsTrue (are_colors colors) ↔ All (λ color. color < 2 ^ 24) colors }
{}

/// A colour that is shown has its bits alone, and a colour of 16 bits is shown as itself once it is made wide.
pub fn shown_colors_have_their_bits()
    ensures below { (d : Depth) (c : ℕ) → c < 2 ^ 24 → shown d c < 2 ^ bits_in d }
    ensures back { (v : ℕ) → cut_color (wide_color v) ≡ v }
{}

/// Pixels that are written are read back.
pub fn pixels_are_read_back()
    ensures { (d : Depth) (pixels : List ℕ) → IsTrue (are_pixels d pixels) → pixels_of d (pixels_bytes d pixels) ≡ pixels }
{}
