//! The laws of grammars as tables: reading by a layout is exact, and refuses at the first field that isn't there.

ghost use Rattle.std.specs.Prelude.{◌≡◌, ◌↔◌, ◌++◌, List, ℕ, Ok, Err};
ghost use Rattle.wire_num.specs.Layout.{Layout, fields_at};
ghost use Rattle.wire_num.specs.Grammar.{IsText};
ghost use Rattle.wire_num.specs.Refusal.{IsRefusedAt};

/// A text is read exactly where its fields stand there, with the values that they have and what is left after them. It is
/// refused at a place exactly where the fields before it stand there and the next one, which begins there, doesn't. No bytes
/// are both, and the place is always in them.
pub fn layouts_are_read_exactly()
    ensures exact { (layout : Layout) (bytes values left : List ℕ) → (fields_at layout bytes ≡ Ok (values, left)) ↔ IsText layout bytes values left }
    ensures refused { (layout : Layout) (bytes left : List ℕ) → (fields_at layout bytes ≡ Err left) ↔ IsRefusedAt layout bytes left }
    ensures apart { (layout : Layout) (bytes values left place : List ℕ) → IsText layout bytes values left → IsRefusedAt layout bytes place → ⊥ }
    ensures place { (layout : Layout) (bytes left : List ℕ) → IsRefusedAt layout bytes left → (front : List ℕ) × (bytes ≡ front ++ left) }
{}
