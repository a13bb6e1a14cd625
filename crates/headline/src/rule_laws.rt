//! What a script's rules give its steps, each as the contract of a function that does nothing.

ghost use Rattle.std.specs.Prelude.{ℕ, List};
ghost use Rattle.script_rules.specs.Script.{opening_of};
ghost use Rattle.headline.specs.Headline.{IfOpened, AreByPresentViewers, ConfirmAllCaches, HasSessionSize};

/// Each step of a script but a join is by a viewer that is present in its turn, by the line rule on presence.
pub fn steps_of_a_script_are_by_present_viewers()
    ensures { (bytes : List ℕ) → IfOpened (opening_of bytes) (λ s. AreByPresentViewers s.head s.asked) }
{}

/// What the viewers of a script confirm has three bitmap and ten glyph caches, by the presets.
pub fn viewers_of_a_script_confirm_all_caches()
    ensures { (bytes : List ℕ) → IfOpened (opening_of bytes) (λ s. ConfirmAllCaches s.asked) }
{}

/// A script's picture has a session's size, by the rule of its first line.
pub fn size_of_a_script_is_a_sessions()
    ensures { (bytes : List ℕ) → IfOpened (opening_of bytes) (λ s. HasSessionSize s.head) }
{}
