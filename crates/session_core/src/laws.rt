//! Laws of the definitions, each as the contract of a function that does nothing.

ghost use Rattle.std.specs.Prelude.{◌≡◌, ℕ, ◌+◌, ◌≤◌, List, ◌++◌, Some, slice_get};
ghost use Rattle.px_core.specs.declared.surface.Size.{Size};
ghost use Rattle.session_rules.specs.declared.entry.Entry.{Entry};
ghost use Rattle.session_rules.specs.Journal.{drawings_of, state_after};
ghost use Rattle.session_rules.specs.Pending.{pending_drawings, pending_between};

/// The pending drawings between two places are those up to a place between them, and those from it on.
pub fn pending_drawings_go_on()
    ensures between { (size : Size) (j : List Entry) (a b c : ℕ) → a ≤ b → b ≤ c
        → pending_between size j a c ≡ pending_between size j a b ++ pending_between size j b c }
    ensures one { (size : Size) (j : List Entry) (k : ℕ) (e : Entry) → slice_get j k ≡ Some e
        → pending_between size j k (k + 1) ≡ pending_drawings size (state_after size j k).surface (drawings_of size (state_after size j k).board e) }
{}
