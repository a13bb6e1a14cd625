//! The laws of what is heard.

ghost use Rattle.std.specs.Prelude.{◌≡◌, ◌∷◌, ◌++◌, List, ℕ, flat_map};
ghost use Rattle.conn_rules.specs.Hearing.{Hearing, heard, then_heard, pieces_heard};

/// It doesn't matter in what pieces a stream comes: what is heard of two pieces joined is what is heard of the first, and then of the
/// second where the first has led.
pub fn streams_are_heard_in_any_pieces()
    ensures pieces { (h : Hearing) (piece : List ℕ) (pieces : List (List ℕ)) → pieces_heard h (piece ∷ pieces) ≡ heard h (flat_map (λ one. one) (piece ∷ pieces)) }
    ensures two { (h : Hearing) (xs ys : List ℕ) → heard h (xs ++ ys) ≡ then_heard (heard h xs) (heard (heard h xs).after ys) }
{}
