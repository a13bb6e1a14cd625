//! Laws of the definitions, each as the contract of a function that does nothing.

ghost use Rattle.std.specs.Prelude.{◌≡◌, ◌≤◌, ◌++◌, List, [], ℕ, Ok, Some, length, take, IsTrue};
ghost use Rattle.session_rules.specs.declared.entry.Entry.{Entry};
ghost use Rattle.px_core.specs.Rectangle.{is_session_size};
ghost use Rattle.session_rules.specs.Journal.{Head, IsLegalJournal};
ghost use Rattle.record_rules.specs.Tables.{head_bytes, entry_bytes, record_bytes, is_recordable, are_recordable, is_recordable_head};
ghost use Rattle.record_rules.specs.Reading.{head_at, framed_at};
ghost use Rattle.record_rules.specs.Records.{journal_of_record, StandsFor, BeginsWith};
ghost use Rattle.record_rules.specs.Records.End.{Unfinished, Faulty};

/// A head and an entry that are written are read back, whatever follows them.
pub fn fields_are_read_back()
    ensures head { (head : Head) (rest : List ℕ) → IsTrue (is_recordable_head head) → head_at (head_bytes head ++ rest) ≡ Ok (head, rest) }
    ensures entry { (e : Entry) (rest : List ℕ) → IsTrue (is_recordable e) → framed_at (entry_bytes e ++ rest) ≡ Ok (e, rest) }
{}

/// Bytes that stand for a head and a journal, with less than a whole entry behind them, are read as these; so they stand for no other.
pub fn records_are_read_back()
    ensures read { (bytes : List ℕ) (head : Head) (j : List Entry) → IsTrue (is_recordable_head head) → IsTrue (are_recordable j) → StandsFor bytes head j
        → journal_of_record bytes ≡ record { head = Some head; entries = j; end = Unfinished (length (record_bytes head j)) } }
    ensures one { (bytes : List ℕ) (head other : Head) (j i : List Entry) → IsTrue (is_recordable_head head) → IsTrue (are_recordable j)
        → IsTrue (is_recordable_head other) → IsTrue (are_recordable i) → StandsFor bytes head j → StandsFor bytes other i → (head ≡ other) × (j ≡ i) }
{}

/// Each front of a record that has the whole head stands for the longest list of whole entries in it.
pub fn fronts_stand_for_whole_entries()
    ensures { (head : Head) (j : List Entry) (front rest : List ℕ) → IsTrue (are_recordable j) → record_bytes head j ≡ front ++ rest
        → length (head_bytes head) ≤ length front
        → (k : ℕ) × StandsFor front head (take k j) × ((i : ℕ) → i ≤ length j → length (record_bytes head (take i j)) ≤ length front → i ≤ k) }
{}

/// A record without a dropped last entry is no proper front of another such record of as many entries: they are one.
pub fn no_record_begins_another()
    ensures { (head other : Head) (j i : List Entry) (more : List ℕ) → IsTrue (is_recordable_head head) → IsTrue (is_recordable_head other)
        → IsTrue (are_recordable j) → IsTrue (are_recordable i) → length j ≡ length i → record_bytes head j ++ more ≡ record_bytes other i
        → (head ≡ other) × (j ≡ i) × (more ≡ []) }
{}

/// A record can hold each entry of a legal journal.
pub fn legal_journals_are_recordable()
    ensures { (head : Head) (j : List Entry) → IsTrue (is_session_size head.size.w head.size.h) → IsLegalJournal head j → IsTrue (are_recordable j) }
{}

/// More bytes change nothing of what was read: a refused record is refused so for ever, a whole head stays, and the entries stay.
pub fn records_go_on()
    ensures refused { (bytes more : List ℕ) (at : ℕ) → (journal_of_record bytes).end ≡ Faulty at → journal_of_record (bytes ++ more) ≡ journal_of_record bytes }
    ensures begun { (bytes more : List ℕ) (head : Head) → (journal_of_record bytes).head ≡ Some head
        → ((journal_of_record (bytes ++ more)).head ≡ Some head) × BeginsWith (journal_of_record bytes).entries (journal_of_record (bytes ++ more)).entries }
{}
