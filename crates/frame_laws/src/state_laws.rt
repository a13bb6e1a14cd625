//! Laws of the definitions, each as the contract of a function that does nothing.

ghost use Rattle.std.specs.Prelude.{◌≡◌, ℕ, ◌≤◌, true, List};
ghost use Rattle.px_core.specs.Rectangle.{is_session_size};
ghost use Rattle.draw_ops.specs.Slots.{opening_surface};
ghost use Rattle.session_rules.specs.declared.entry.Entry.{Entry};
ghost use Rattle.session_rules.specs.Board.{opening_board};
ghost use Rattle.session_rules.specs.Journal.{Head, state_after, IsLegalJournal};
ghost use Rattle.frame_rules.specs.Describes.{drawings_from};
ghost use Rattle.frame_laws.specs.SoundState.{IsSound};
ghost use Rattle.frame_laws.specs.Drawings.{AllSuit, AllSound, drawings_between};

/// Each drawing of a legal journal, what the board draws included, fits the state that it finds; its colours are colours, and its codes are bytes.
pub fn drawings_of_a_legal_journal_suit()
    ensures { (head : Head) (j : List Entry) → is_session_size head.size.w head.size.h ≡ true → IsLegalJournal head j
        → AllSuit head.size (opening_surface head.size) (drawings_from head.size opening_board j) }
{}

/// Each state of a legal journal is sound: its picture is of colours, and whatever a slot holds was loaded by the drawing of its number, or saved. So is each
/// that the drawings between two numbers of entries find.
pub fn states_of_a_legal_journal_are_sound()
    ensures at { (head : Head) (j : List Entry) → is_session_size head.size.w head.size.h ≡ true → IsLegalJournal head j → (n : ℕ)
        → IsSound head.size j (state_after head.size j n).surface }
    ensures between { (head : Head) (j : List Entry) → is_session_size head.size.w head.size.h ≡ true → IsLegalJournal head j → (before number : ℕ)
        → before ≤ number
        → AllSound head.size j (state_after head.size j before).surface (drawings_between head.size j before number) }
{}
