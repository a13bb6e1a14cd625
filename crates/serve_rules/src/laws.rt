//! Laws of the definitions, each as the contract of a function that does nothing.

ghost use Rattle.std.specs.Prelude.{◌≡◌, ℕ, Bool, true, List, [], ◌∷◌, ◌++◌, Option, option_to_list};
ghost use Rattle.input_pdu.specs.declared.event.Event.{Event};
ghost use Rattle.session_rules.specs.declared.entry.Entry.{Entry};
ghost use Rattle.session_rules.specs.Journal.{Head};
ghost use Rattle.edge_io.specs.Outside.{Input};
ghost use Rattle.grow_lock.specs.Journal.{StartsWith};
ghost use Rattle.grow_lock.specs.Shares.{left_half, right_half, both, HoldsShare};
ghost use Rattle.conn_rules.specs.declared.conn_step.ConnStep.{ConnStep};
ghost use Rattle.conn_rules.specs.Hearing.{Hearing, end_of};
ghost use Rattle.conn_rules.specs.Hearing.StreamEnd.{RefusedAt};
ghost use Rattle.serve_rules.specs.Turns.{SessionPass, KeepsShare, IsHandled, Idles};
ghost use Rattle.serve_rules.specs.Events.{Act, HappenFrom, places_of, Ascend, AreOfEvents, Handles};
ghost use Rattle.serve_rules.specs.Notices.{Notice};
ghost use Rattle.serve_rules.specs.Reading.{ReadsOn, ReadsInTurns, ReadFaults};
ghost use Rattle.serve_rules.specs.declared.ends.SideEnd.{SideEnd};
ghost use Rattle.serve_rules.specs.declared.ends.SideEnd.TheVariants.{Stopped};
ghost use Rattle.serve_rules.specs.declared.noted.Noted.{Noted};

/// Events are handled one after the other: none, one in a turn of its own, and some after others; and a turn in which nothing is appended handles none.
pub fn events_are_handled_in_turns()
    ensures none { (head : Head) (v : ℕ) (p : SessionPass) (places : List ℕ) → Handles head v [] p p places places }
    ensures idle { (head : Head) (v : ℕ) (p q : SessionPass) (places : List ℕ) → Idles p q → Handles head v [] p q places places }
    ensures one { (head : Head) (v : ℕ) (event : Event) (p q : SessionPass) (places : List ℕ) (place : Option ℕ) → IsHandled head v event p q place
        → Handles head v (event ∷ []) p q places (places ++ option_to_list place) }
    ensures more { (head : Head) (v : ℕ) (events others : List Event) (p q r : SessionPass) (a b c : List ℕ) → Handles head v events p q a b → Handles head v others q r b c
        → Handles head v (events ++ others) p r a c }
{}

/// What was handled stays so, for a pass that has seen more of the journal and had further turns, in which it appended nothing, and that has all of the lock
/// that it had.
pub fn what_was_handled_stays()
    ensures { (head : Head) (v : ℕ) (events : List Event) (p q r : SessionPass) (a b turns : List ℕ) → Handles head v events p q a b → StartsWith r.seen q.seen
        → r.found ≡ q.found ++ turns → r.mine ≡ q.mine → KeepsShare q r → Handles head v events p r a b }
{}

/// The places of events' entries ascend, and an Input or a Give by the viewer stands at each.
pub fn places_of_events_ascend()
    ensures ascend { (head : Head) (v : ℕ) (j : List Entry) (low : ℕ) (acts : List Act) (high : ℕ) → HappenFrom head v j low acts high
        → Ascend low (places_of head v j acts) high }
    ensures entries { (head : Head) (v : ℕ) (j : List Entry) (low : ℕ) (acts : List Act) (high : ℕ) → HappenFrom head v j low acts high
        → AreOfEvents v j (places_of head v j acts) }
{}

/// A read side goes on after a stretch that went well; and what it did stays so for the pass in which it meets that of a side that appended nothing and has its
/// half of the lock.
pub fn reading_goes_on()
    ensures after { (head : Head) (v : ℕ) (rest : List ConnStep) (flagged : Bool) (conn mid last : Hearing) (p q r : SessionPass) (a b c : Noted)
        (before between after : Input) (end : SideEnd) → ReadsOn head v rest true conn mid p q a b before between Stopped
        → ReadsOn head v [] flagged mid last q r b c between after end → ReadsOn head v rest flagged conn last p r a c before after end }
    ensures met { (head : Head) (v : ℕ) (rest : List ConnStep) (flagged : Bool) (conn last : Hearing) (split p mine theirs met : SessionPass) (a b : Noted)
        (before after : Input) (end : SideEnd) → split ≡ record p { share = left_half p.share } → ReadsOn head v rest flagged conn last split mine a b before after end
        → StartsWith met.seen mine.seen → met.found ≡ mine.found ++ theirs.found → met.mine ≡ mine.mine ++ theirs.mine → theirs.mine ≡ []
        → met.share ≡ both mine.share theirs.share → HoldsShare theirs.share (right_half p.share) → ReadsOn head v rest flagged conn last p met a b before after end }
{}

/// A read side that has its turns to itself goes on so after a stretch that went well.
pub fn turns_go_on()
    ensures { (head : Head) (v : ℕ) (rest : List ConnStep) (flagged : Bool) (conn mid last : Hearing) (p q r : SessionPass) (a b c : Noted)
        (before between after : Input) (end : SideEnd) → ReadsInTurns head v rest true conn mid p q a b before between Stopped
        → ReadsInTurns head v [] flagged mid last q r b c between after end → ReadsInTurns head v rest flagged conn last p r a c before after end }
{}

/// Who reads on behind a refusal has no end to give where such a read fails.
pub fn no_read_fails_behind_a_refusal()
    ensures { (h : Hearing) (notice : Notice) (before now : Input) (end : SideEnd) (k at : ℕ) → end_of h ≡ RefusedAt k at → ReadFaults h notice before now end
        → now.faults ≡ before.faults }
{}
