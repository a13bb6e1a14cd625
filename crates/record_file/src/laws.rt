//! Laws of the definitions, each as the contract of a function that does nothing.

ghost use Rattle.std.specs.Prelude.{◌≡◌, ◌++◌, List, Some, ℕ};
ghost use Rattle.session_rules.specs.declared.entry.Entry.{Entry};
ghost use Rattle.session_rules.specs.Journal.{Head};
ghost use Rattle.record_file.specs.LegalFronts.{IsLongestLegal};
ghost use Rattle.record_file.specs.Replaying.{Fault, replayed, legal_front};

/// The legal front of entries is legal, and the entry behind it, if there is one, isn't legal there.
pub fn legal_fronts_are_longest()
    ensures { (head : Head) (j : List Entry) → IsLongestLegal head j (legal_front head j) }
{}

/// The first fault of bytes, and what stands before it, is that of all bytes that begin with them.
pub fn first_faults_stay()
    ensures { (bytes more : List ℕ) (fault : Fault) → (replayed bytes).fault ≡ Some fault → replayed (bytes ++ more) ≡ replayed bytes }
{}
