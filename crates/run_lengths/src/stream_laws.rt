//! Laws of the definitions, each as the contract of a function that does nothing.

ghost use Rattle.std.specs.Prelude.{◌≡◌, ◌≤◌, ◌<◌, ◌*◌, List, ℕ, Ok, length, true};
ghost use Rattle.px_core.specs.declared.depth.Depth.{Depth};
ghost use Rattle.px_core.specs.Pixels.{are_pixels};
ghost use Rattle.run_lengths.specs.Packer.{packed};
ghost use Rattle.run_lengths.specs.RunLength.{Decompresses, unrle};

/// What the packer writes of at least one row of a depth's pixels is read back to just them.
pub fn packed_pixels_are_read_back()
    ensures relation { (depth : Depth) (w h : ℕ) (ps : List ℕ) → 1 ≤ w → w ≤ length ps → length ps ≡ w * h → length ps < 65536 → are_pixels depth ps ≡ true
        → Decompresses depth (packed depth w ps) w h ps }
    ensures pixels { (depth : Depth) (w h : ℕ) (ps : List ℕ) → 1 ≤ w → w ≤ length ps → length ps ≡ w * h → length ps < 65536 → are_pixels depth ps ≡ true
        → unrle depth (packed depth w ps) w h ≡ Ok ps }
{}

/// A stream stands for one list of pixels alone: the one that the function gives.
pub fn streams_stand_for_their_pixels()
    ensures given { (depth : Depth) (bytes : List ℕ) (w h : ℕ) (ps : List ℕ) → unrle depth bytes w h ≡ Ok ps → Decompresses depth bytes w h ps }
    ensures alone { (depth : Depth) (bytes : List ℕ) (w h : ℕ) (ps : List ℕ) → 1 ≤ w → Decompresses depth bytes w h ps → unrle depth bytes w h ≡ Ok ps }
{}
