//! Laws of the definitions, each as the contract of a function that does nothing.

ghost use Rattle.std.specs.Prelude.{◌≡◌, ℕ, ◌+◌, ◌<◌, List, Some, false, IsTrue, slice_get};
ghost use Rattle.px_core.specs.declared.surface.Size.{Size};
ghost use Rattle.px_core.specs.Rectangle.{is_session_size};
ghost use Rattle.input_pdu.specs.declared.event.Event.{Event};
ghost use Rattle.session_rules.specs.declared.entry.Role.{Role};
ghost use Rattle.session_rules.specs.declared.entry.Entry.{Entry};
ghost use Rattle.session_rules.specs.declared.entry.Entry.TheVariants.{Join, Leave};
ghost use Rattle.session_rules.specs.Journal.{Head, Reached, is_present, reached_at, reached_at_first, reached_after, IsLegalJournal};
ghost use Rattle.session_rules.specs.Steps.{Step, Play, outcome, answer_of_step, row_role};
ghost use Rattle.session_rules.specs.Steps.Step.{JoinStep};
ghost use Rattle.session_rules.specs.Entering.{entry_of_step, entry_of_event, answer_at, is_take, IsOfEvent};
ghost use Rattle.session_rules.specs.Reaching.{IsSoundReached};

/// The entry of a step, and the answer of one that isn't a take, are of what is reached alone.
pub fn steps_are_of_what_is_reached()
    ensures entry { (head : Head) (p : Play) (s : Step) → (outcome head p s).entry ≡ entry_of_step head p.reached s }
    ensures answer { (head : Head) (p : Play) (s : Step) → is_take s ≡ false → answer_of_step head p s ≡ answer_at head p.reached s }
{}

/// All that a legal journal reaches is sound.
pub fn legal_journals_are_sound()
    ensures { (head : Head) (j : List Entry) → IsTrue (is_session_size head.size.w head.size.h) → IsLegalJournal head j
        → IsSoundReached head.size (reached_after head.size (reached_at_first head.size) j) }
{}

/// The entry of a viewer's input event is an Input or a Give by it.
pub fn entries_of_events_are_their_viewers()
    ensures { (head : Head) (v : ℕ) (event : Event) (r : Reached) (entry : Entry) → entry_of_event head v event r ≡ Some entry → IsOfEvent v entry }
{}

/// A join enters the next number, with the role of the row of its name.
pub fn joins_enter_the_next_number()
    ensures { (head : Head) (r : Reached) (name : List ℕ) (entry : Entry) → entry_of_step head r (JoinStep name) ≡ Some entry
        → (role : Role) × (row_role name head.rows ≡ Some role) × (entry ≡ Join (r.joins + 1) role) }
{}

/// Two Joins of one number in a legal journal stand at one place.
pub fn nobody_joins_twice()
    ensures { (head : Head) (j : List Entry) (a b v : ℕ) (role other : Role) → IsLegalJournal head j → slice_get j a ≡ Some (Join v role)
        → slice_get j b ≡ Some (Join v other) → a ≡ b }
{}

/// A viewer that isn't present after its Join has a Leave in between.
pub fn who_is_gone_has_left()
    ensures { (size : Size) (j : List Entry) (v : ℕ) (role : Role) (a n : ℕ) → slice_get j a ≡ Some (Join v role) → a < n
        → is_present v (reached_at size j n).viewers ≡ false → (k : ℕ) × (a < k) × (k < n) × (slice_get j k ≡ Some (Leave v)) }
{}
