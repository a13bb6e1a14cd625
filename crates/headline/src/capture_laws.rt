//! Laws of the definitions, each as the contract of a function that does nothing.

ghost use Rattle.std.specs.Prelude.{◌≡◌, ℕ, List, [], ◌∷◌, ◌++◌, Option, Ok};
ghost use Rattle.px_core.specs.declared.surface.Size.{Size};
ghost use Rattle.caps_sets.specs.declared.confirmed.Confirmed.{Confirmed};
ghost use Rattle.caps_sets.specs.Confirmed.{pointer_cells};
ghost use Rattle.session_rules.specs.declared.entry.Entry.{Entry};
ghost use Rattle.session_rules.specs.Journal.{Head};
ghost use Rattle.session_rules.specs.Steps.{outcome};
ghost use Rattle.order_means.specs.FrameMarks.{ClientReading, read_stream, pictures_at_marks};
ghost use Rattle.order_means.specs.Packets.{without_pointers};
ghost use Rattle.script_rules.specs.Script.{Asked, Script, opening_of};
ghost use Rattle.script_rules.specs.Capture.{viewer_of, written_bytes};
ghost use Rattle.script_rules.specs.CaptureText.{Run, bytes_of_answer, run_after_all, lines_from, sent_from, capture_of, capture_of_script, encoder_frames};
ghost use Rattle.frame_rules.specs.Frame.{FrameOf};
ghost use Rattle.frame_rules.specs.FrameOrders.{Uses, orders_before_tiles};
ghost use Rattle.frame_rules.specs.FrameBytes.{frame_bytes};
ghost use Rattle.frame_rules.specs.Encoder.{Encoder};
ghost use Rattle.order_fields.specs.OrderTable.{Registers};
ghost use Rattle.headline.specs.Headline.{AreByPresentViewers, IfOpened, SeesJournal, EveryViewerOfCapture};
ghost use Rattle.headline.specs.Pointed.{SeesPointers};
ghost use Rattle.headline.specs.Sent.{AreBytes, sent_to, run_of, SendsBytes, PresetsConfirm, EveryViewerIsSentTheJournal};
ghost use Rattle.headline.specs.OrderBytes.{HoldBytes, FramesHoldBytes};
ghost use Rattle.headline.specs.Fronts.{IsFront, ReadsFront, ShowsFirst, SeesFirst, IsSentWhatIsWritten, EveryViewerOfOpeningFront};

/// The bytes of each viewer's lines in the capture of any steps are those that it was sent, with pointers, whatever line ends the capture.
pub fn viewer_bytes_are_those_sent()
    ensures { (s : Script) → AreByPresentViewers s.head s.asked → PresetsConfirm s.asked → SendsBytes s.head s.asked
        → (v : ℕ) → written_bytes v (capture_of_script encoder_frames s) ≡ sent_to s.head s.asked v }
{}

/// The preset words of a script's joins confirm what their viewers confirmed.
pub fn presets_of_a_script_confirm()
    ensures { (bytes : List ℕ) → IfOpened (opening_of bytes) (λ s. PresetsConfirm s.asked) }
{}

/// Where every viewer of a script's steps sees the journal in what it is sent, every viewer sees it in the script's capture.
pub fn captures_of_scripts_show_the_journal()
    ensures { (bytes : List ℕ) → IfOpened (opening_of bytes) EveryViewerIsSentTheJournal
        → EveryViewerOfCapture bytes (capture_of encoder_frames bytes) }
{}

/// Each front of bytes that a client reads without a refusal is read without one, and the pictures at its marks are the first ones, wherever it is cut.
pub fn fronts_of_a_stream_are_read()
    ensures reading { (confirmed : Confirmed) (size : Size) (front rest : List ℕ) (whole : ClientReading) → read_stream confirmed size (front ++ rest) ≡ Ok whole
        → ReadsFront confirmed size front rest whole }
    ensures marks { (confirmed : Confirmed) (size : Size) (front rest : List ℕ) (pictures : List (List (Option ℕ)))
        → pictures_at_marks confirmed size (front ++ rest) ≡ Ok pictures → ShowsFirst confirmed size front pictures }
{}

/// Where bytes without the packets of pointers are read without a refusal, each front of them is, and the pictures at its marks are the first ones,
/// wherever it is cut, also in a packet of a pointer.
pub fn fronts_without_pointers_are_read()
    ensures { (confirmed : Confirmed) (size : Size) (front rest : List ℕ) (pictures : List (List (Option ℕ)))
        → pictures_at_marks confirmed size (without_pointers (front ++ rest)) ≡ Ok pictures → ShowsFirst confirmed size (without_pointers front) pictures }
{}

/// Where a viewer's bytes show it a journal, and with their packets of pointers the journal's pointers, each front of them shows it the first takes: their
/// pictures, and the pointers of these same takes, wherever it is cut.
pub fn fronts_with_pointers_are_read()
    ensures { (size : Size) (confirmed : Confirmed) (j : List Entry) (numbers front rest : List ℕ) → SeesJournal size confirmed j numbers (without_pointers (front ++ rest))
        → SeesPointers size confirmed j numbers (front ++ rest) → SeesFirst size confirmed j numbers front }
{}

/// Where a viewer without pointer cells is shown a journal, none of its bytes is of a pointer: without packets of pointers they are the same.
pub fn bytes_without_pointer_cells_have_no_pointers()
    ensures { (size : Size) (confirmed : Confirmed) (j : List Entry) (numbers bytes : List ℕ) → pointer_cells confirmed ≡ 0 → SeesPointers size confirmed j numbers bytes
        → without_pointers bytes ≡ bytes }
{}

/// The bytes of a viewer in a front of a text are a front of its bytes in the text.
pub fn bytes_in_a_front_are_a_front()
    ensures { (v : ℕ) (front rest : List ℕ) → IsFront (written_bytes v front) (written_bytes v (front ++ rest)) }
{}

/// Where every viewer of a script's steps sees the journal in what it is sent, each front of the script's capture shows each viewer its first takes.
pub fn fronts_of_captures_show_the_journal()
    ensures { (bytes front rest : List ℕ) → IfOpened (opening_of bytes) EveryViewerIsSentTheJournal
        → capture_of encoder_frames bytes ≡ front ++ rest → EveryViewerOfOpeningFront (opening_of bytes) front }
{}

/// Where the capture of a script was cut, in a line or between lines, and every viewer of the script's steps sees the journal in what it is sent,
/// what was written shows each viewer its first takes. Nothing is asked of the frames of the steps after the cut.
pub fn cut_captures_show_the_journal()
    ensures { (bytes front : List ℕ) → IfOpened (opening_of bytes) (λ s. IsSentWhatIsWritten s front)
        → EveryViewerOfOpeningFront (opening_of bytes) front }
{}

/// Steps after steps: the run, the lines of a capture and what each viewer is sent go on from the run that the first steps leave.
pub fn runs_go_on()
    ensures run { (head : Head) (run : Run Encoder) (xs ys : List Asked) → run_after_all encoder_frames head run (xs ++ ys)
        ≡ run_after_all encoder_frames head (run_after_all encoder_frames head run xs) ys }
    ensures lines { (head : Head) (run : Run Encoder) (xs ys : List Asked) → lines_from encoder_frames head run (xs ++ ys)
        ≡ lines_from encoder_frames head run xs ++ lines_from encoder_frames head (run_after_all encoder_frames head run xs) ys }
    ensures sent { (head : Head) (run : Run Encoder) (xs ys : List Asked) (v : ℕ) → sent_from encoder_frames head run (xs ++ ys) v
        ≡ sent_from encoder_frames head run xs v ++ sent_from encoder_frames head (run_after_all encoder_frames head run xs) ys v }
{}

/// What steps send is bytes where it was bytes before the last step, and the bytes of that step's frame, if any, are bytes.
pub fn bytes_are_sent_step_by_step()
    ensures first { (head : Head) → SendsBytes head [] }
    ensures next { (head : Head) (asked : List Asked) (a : Asked) → SendsBytes head asked
        → AreBytes (bytes_of_answer encoder_frames head.size (run_of head asked) (viewer_of a.step) (outcome head (run_of head asked).play a.step).answer)
        → SendsBytes head (asked ++ a ∷ []) }
{}

/// The bytes of a frame are bytes, where the contents of its orders fit into bytes; and so is what steps send, where those of each frame do.
pub fn frames_are_sent_as_bytes()
    ensures frame { (size : Size) (c : Confirmed) (regs : Registers) (uses : Uses) (f : FrameOf) → HoldBytes (orders_before_tiles size c uses f)
        → AreBytes (frame_bytes size c regs uses f) }
    ensures steps { (head : Head) (asked : List Asked) → FramesHoldBytes head (run_of head []) asked → SendsBytes head asked }
{}
