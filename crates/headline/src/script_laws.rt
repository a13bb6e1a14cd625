//! Laws of the definitions, each as the contract of a function that does nothing.

ghost use Rattle.std.specs.Prelude.{◌≡◌, ℕ, ◌≤◌, true, List, [], ◌++◌};
ghost use Rattle.px_core.specs.Rectangle.{is_session_size};
ghost use Rattle.caps_sets.specs.declared.confirmed.Confirmed.{Confirmed};
ghost use Rattle.session_rules.specs.declared.entry.Entry.{Entry};
ghost use Rattle.session_rules.specs.Journal.{Head, IsLegalJournal};
ghost use Rattle.session_rules.specs.Steps.{TakeOf};
ghost use Rattle.frame_rules.specs.FrameOrders.{orders_before_tiles};
ghost use Rattle.frame_rules.specs.Encoder.{Encoder, encoder_frame};
ghost use Rattle.frame_rules.specs.Describes.{HasAllCaches};
ghost use Rattle.script_rules.specs.Script.{Asked, opening_of};
ghost use Rattle.script_rules.specs.CaptureText.{capture_of, encoder_frames};
ghost use Rattle.headline.specs.Headline.{IfOpened, HasSessionSize, ConfirmAllCaches, EveryViewerOfCapture};
ghost use Rattle.headline.specs.Sent.{run_of, SendsBytes};
ghost use Rattle.headline.specs.OrderBytes.{HoldBytes, FramesHoldBytes};
ghost use Rattle.headline.specs.Fronts.{EveryViewerOfOpeningFront};
ghost use Rattle.headline.specs.Cuts.{IsCutCaptureOf};

/// The numbers and contents of the orders of every frame over a legal journal fit the bytes in which they are written; so do those of each frame that any
/// steps of a session are answered with, and what the steps send is bytes.
pub fn frames_hold_bytes()
    ensures take { (head : Head) (c : Confirmed) (j : List Entry) (e : Encoder) (t : TakeOf) → is_session_size head.size.w head.size.h ≡ true → HasAllCaches c
        → IsLegalJournal head j → t.before ≤ t.number → HoldBytes (orders_before_tiles head.size c e.uses (encoder_frame head.size c j e t)) }
    ensures steps { (head : Head) (asked : List Asked) → HasSessionSize head → ConfirmAllCaches asked → FramesHoldBytes head (run_of head []) asked }
    ensures sent { (head : Head) (asked : List Asked) → HasSessionSize head → ConfirmAllCaches asked → SendsBytes head asked }
{}

/// The headline over scripts: whatever bytes a script is, every viewer sees the journal in what the script's capture says that it was sent;
/// the journal is legal, and each change in it was made by the holder of control.
pub fn every_viewer_of_every_script_sees_the_journal()
    ensures { (bytes : List ℕ) → EveryViewerOfCapture bytes (capture_of encoder_frames bytes) }
{}

/// Each front of a script's capture, wherever it ends, shows each viewer its first takes.
pub fn every_front_of_every_capture_shows_the_journal()
    ensures { (bytes front rest : List ℕ) → capture_of encoder_frames bytes ≡ front ++ rest
        → EveryViewerOfOpeningFront (opening_of bytes) front }
{}

/// A capture that was cut after any of a script's steps, in a line or between lines, with a line of a refusal or without one, shows each viewer its first
/// takes.
pub fn every_capture_that_was_cut_shows_the_journal()
    ensures { (bytes front : List ℕ) → IfOpened (opening_of bytes) (λ s. IsCutCaptureOf s front)
        → EveryViewerOfOpeningFront (opening_of bytes) front }
{}
