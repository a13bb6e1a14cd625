//! Laws of the definitions, each as the contract of a function that does nothing.

ghost use Rattle.std.specs.Prelude.{◌≡◌, ℕ, ◌+◌, ◌≤◌, List, [], ◌∷◌, ◌++◌, length, IsTrue};
ghost use Rattle.px_core.specs.declared.surface.Size.{Size};
ghost use Rattle.session_rules.specs.declared.entry.Entry.{Entry};
ghost use Rattle.session_rules.specs.Journal.{Head, reached_at, IsLegalJournal, ChangesAreTheHolders};
ghost use Rattle.session_rules.specs.Steps.{
  Step,
  play_at_first,
  session_after,
  entries_from,
  answers_from,
  takes_from,
  journal_of_steps,
  answers_of_steps,
  takes_of,
  steps_of_journal,
  TakesFollow,
  are_names_distinct,
};

/// The journal of any steps is legal, whatever is asked and by whomever.
pub fn journal_of_steps_is_legal()
    ensures { (head : Head) (steps : List Step) → IsLegalJournal head (journal_of_steps head steps) }
{}

/// Each change of a legal journal was made by the viewer who held control there.
pub fn changes_are_the_holders()
    ensures { (head : Head) (j : List Entry) → IsLegalJournal head j → ChangesAreTheHolders head.size j }
{}

/// What a journal's first n entries reach stays, however the journal goes on.
pub fn journal_goes_on()
    ensures { (size : Size) (j more : List Entry) (n : ℕ) → n ≤ length j
        → reached_at size (j ++ more) n ≡ reached_at size j n }
{}

/// The front of a legal journal is legal.
pub fn front_of_a_legal_journal_is_legal()
    ensures { (head : Head) (j more : List Entry) → IsLegalJournal head (j ++ more) → IsLegalJournal head j }
{}

/// Steps after steps: the journal, the answers and each viewer's takes go on from the session that the first steps leave.
pub fn steps_go_on()
    ensures journal { (head : Head) (xs ys : List Step) → journal_of_steps head (xs ++ ys)
        ≡ journal_of_steps head xs ++ entries_from head (session_after head (play_at_first head.size) xs) ys }
    ensures answers { (head : Head) (xs ys : List Step) → answers_of_steps head (xs ++ ys)
        ≡ answers_of_steps head xs ++ answers_from head (session_after head (play_at_first head.size) xs) ys }
    ensures takes { (head : Head) (xs ys : List Step) (v : ℕ) → takes_of head (xs ++ ys) v
        ≡ takes_of head xs v ++ takes_from head (session_after head (play_at_first head.size) xs) v ys }
{}

/// Each take of a viewer begins where the one before it ended, the first at 0, and none passes the journal.
pub fn takes_follow_each_other()
    ensures follow { (head : Head) (steps : List Step) (v : ℕ)
        → TakesFollow 0 (takes_of head steps v) ((session_after head (play_at_first head.size) steps).taken v) }
    ensures within { (head : Head) (steps : List Step) (v : ℕ)
        → (session_after head (play_at_first head.size) steps).taken v ≤ length (journal_of_steps head steps) }
{}

/// A legal journal is the journal of its own steps, of which a Give is F12 pressed by its giver; the rows' names are distinct.
pub fn legal_journal_is_of_its_own_steps()
    ensures { (head : Head) (j : List Entry) → IsTrue (are_names_distinct head.rows) → IsLegalJournal head j
        → journal_of_steps head (steps_of_journal head j) ≡ j }
{}
