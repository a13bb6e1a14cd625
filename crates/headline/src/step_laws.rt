//! Laws of the definitions, each as the contract of a function that does nothing.

ghost use Rattle.std.specs.Prelude.{◌≡◌, ℕ, ◌≤◌, true, List, ◌++◌, map, length};
ghost use Rattle.px_core.specs.declared.surface.Size.{Size};
ghost use Rattle.px_core.specs.Rectangle.{is_session_size};
ghost use Rattle.caps_sets.specs.declared.confirmed.Confirmed.{Confirmed};
ghost use Rattle.order_means.specs.ClientState.{ClientState};
ghost use Rattle.order_means.specs.Packets.{without_pointers};
ghost use Rattle.session_rules.specs.declared.entry.Entry.{Entry};
ghost use Rattle.session_rules.specs.Journal.{Head, IsLegalJournal};
ghost use Rattle.session_rules.specs.Steps.{TakeOf, TakesFollow, journal_of_steps, takes_of};
ghost use Rattle.frame_rules.specs.FrameBytes.{joined_bytes};
ghost use Rattle.frame_rules.specs.Encoder.{Encoder, first_encoder, bytes_of_takes, pointed_of_takes, encoder_after_takes};
ghost use Rattle.frame_rules.specs.Describes.{DescribesClient, HasAllCaches};
ghost use Rattle.script_rules.specs.Script.{Asked};
ghost use Rattle.script_rules.specs.CaptureText.{run_at_first, sent_from, encoder_frames};
ghost use Rattle.headline.specs.Headline.{SeesJournal, EveryViewerOfSteps, AreByPresentViewers, steps_of, confirmed_in};
ghost use Rattle.headline.specs.Fronts.{SeesFirst};
ghost use Rattle.headline.specs.Pointed.{SeesPointers};
ghost use Rattle.headline.specs.Interleaving.{frames_from};

/// A viewer that is sent its takes over a legal journal, one after the other from its first on, sees that journal:
/// its bytes aren't refused and leave no rest, and each take's mark shows, cut to the viewer's depth, the picture after the entries that the take found.
/// With pointers it is sent these bytes with packets of pointers between them, and at each mark it shows the pointer after those entries.
pub fn takes_show_the_journal()
    ensures journal { (head : Head) (c : Confirmed) (j : List Entry) (ts : List TakeOf) (last : ℕ) → is_session_size head.size.w head.size.h ≡ true → HasAllCaches c
        → IsLegalJournal head j → TakesFollow 0 ts last → last ≤ length j
        → SeesJournal head.size c j (map (λ t. t.number) ts) (joined_bytes (bytes_of_takes head.size c j first_encoder ts)) }
    ensures without { (head : Head) (c : Confirmed) (j : List Entry) (ts : List TakeOf) (last : ℕ) → is_session_size head.size.w head.size.h ≡ true → HasAllCaches c
        → IsLegalJournal head j → TakesFollow 0 ts last → last ≤ length j
        → without_pointers (joined_bytes (pointed_of_takes head.size c j first_encoder ts)) ≡ joined_bytes (bytes_of_takes head.size c j first_encoder ts) }
    ensures pointers { (head : Head) (c : Confirmed) (j : List Entry) (ts : List TakeOf) (last : ℕ) → is_session_size head.size.w head.size.h ≡ true → HasAllCaches c
        → IsLegalJournal head j → TakesFollow 0 ts last → last ≤ length j
        → SeesPointers head.size c j (map (λ t. t.number) ts) (joined_bytes (pointed_of_takes head.size c j first_encoder ts)) }
{}

/// Each front of what a viewer is sent for its takes, with pointers, shows it its first takes, wherever it is cut: their pictures, and their pointers.
pub fn fronts_of_takes_show_the_journal()
    ensures { (head : Head) (c : Confirmed) (j : List Entry) (ts : List TakeOf) (last : ℕ) → is_session_size head.size.w head.size.h ≡ true → HasAllCaches c
        → IsLegalJournal head j → TakesFollow 0 ts last → last ≤ length j
        → (front rest : List ℕ) → joined_bytes (pointed_of_takes head.size c j first_encoder ts) ≡ front ++ rest
        → SeesFirst head.size c j (map (λ t. t.number) ts) front }
{}

/// What a viewer is sent in the course of any steps of any viewers who are present is what its takes come to over the journal of all of these steps.
pub fn viewer_is_sent_its_takes_over_the_final_journal()
    ensures frames { (head : Head) (asked : List Asked) (v : ℕ) → AreByPresentViewers head asked
        → frames_from head (run_at_first encoder_frames head.size) v asked
        ≡ pointed_of_takes head.size (confirmed_in head asked v) (journal_of_steps head (steps_of asked)) first_encoder (takes_of head (steps_of asked) v) }
    ensures bytes { (head : Head) (asked : List Asked) (v : ℕ) → AreByPresentViewers head asked
        → sent_from encoder_frames head (run_at_first encoder_frames head.size) asked v
        ≡ joined_bytes (pointed_of_takes head.size (confirmed_in head asked v) (journal_of_steps head (steps_of asked)) first_encoder
        (takes_of head (steps_of asked) v)) }
{}

/// The headline over steps: whatever they are and in whatever order, as long as each but a join is of a viewer who is present, every viewer sees the journal,
/// which is legal, and in which each change was made by the holder of control.
pub fn every_viewer_sees_the_journal()
    ensures { (head : Head) (asked : List Asked) → EveryViewerOfSteps head asked }
{}

/// That an encoder describes its client stays true, however the journal goes on: so a sender that takes later still begins from what it knows.
pub fn encoder_describes_its_client_as_the_journal_goes_on()
    ensures { (size : Size) (c : Confirmed) (j more : List Entry) (number : ℕ) (e : Encoder) (client : ClientState) → number ≤ length j
        → DescribesClient size c j number e client → DescribesClient size c (j ++ more) number e client }
{}

/// The bytes of takes that follow each other stay the same, however the journal goes on after the last of them; so does the encoder after them.
pub fn takes_stay_as_the_journal_goes_on()
    ensures bytes { (size : Size) (c : Confirmed) (j more : List Entry) (e : Encoder) (ts : List TakeOf) (from last : ℕ) → TakesFollow from ts last
        → last ≤ length j → bytes_of_takes size c (j ++ more) e ts ≡ bytes_of_takes size c j e ts }
    ensures pointed { (size : Size) (c : Confirmed) (j more : List Entry) (e : Encoder) (ts : List TakeOf) (from last : ℕ) → TakesFollow from ts last
        → last ≤ length j → pointed_of_takes size c (j ++ more) e ts ≡ pointed_of_takes size c j e ts }
    ensures encoder { (size : Size) (c : Confirmed) (j more : List Entry) (e : Encoder) (ts : List TakeOf) (from last : ℕ) → TakesFollow from ts last
        → last ≤ length j → encoder_after_takes size c (j ++ more) e ts ≡ encoder_after_takes size c j e ts }
{}
