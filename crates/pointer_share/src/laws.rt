//! Laws of the definitions, each as the contract of a function that does nothing.

ghost use Rattle.std.specs.Prelude.{◌≡◌, ℕ, ◌<◌, Bool, List};
ghost use Rattle.frame_rules.specs.Pointers.{Pointer, pointer_key, pointer_of_key};
ghost use Rattle.pointer_share.specs.Views.{View};
ghost use Rattle.pointer_share.specs.Shows.{DescribesPointers, ShowsPointer};

/// From the packets that are told each take shows its pointer, whatever was told before; and a pointer's key tells it.
pub fn each_take_shows_its_pointer()
    ensures shows { (wide : Bool) (cells : ℕ) → 0 < cells → cells < 65536 → (key : ℕ) (v : View) (keys : List ℕ) → DescribesPointers wide cells keys v
        → ShowsPointer wide cells keys key v }
    ensures keys { (p : Pointer) → p.code < 256 → pointer_of_key (pointer_key p) ≡ p }
{}
