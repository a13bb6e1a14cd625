//! The laws.

ghost use Rattle.std.specs.Prelude.{◌≡◌, ◌++◌, [], None, Some, IfSome, Ok, List, ℕ, IsTrue};
ghost use Rattle.px_core.specs.declared.surface.Size.{Size};
ghost use Rattle.px_core.specs.Rectangle.{is_session_size};
ghost use Rattle.caps_sets.specs.declared.confirmed.Confirmed.{Confirmed};
ghost use Rattle.caps_sets.specs.Confirmed.{depth_of};
ghost use Rattle.caps_sets.specs.ConfirmActive.{confirmed_of};
ghost use Rattle.caps_sets.specs.Presets.{presets, confirmed_by};
ghost use Rattle.order_means.specs.FrameMarks.{ClientReading, read_stream};
ghost use Rattle.viewer_rules.specs.declared.stage.Stage.TheVariants.{Shown};
ghost use Rattle.viewer_rules.specs.ClientPackets.{confirm_fields};
ghost use Rattle.viewer_rules.specs.ViewerHandshake.{Standing, Watching, watched, viewer_handshake, refusal_in};
ghost use Rattle.viewer_rules.specs.Shown.{IsShown, standing_at};
ghost use Rattle.viewer_rules.specs.Rounds.{without_pointers, IsConfirmable, greeting, answers, joined};

/// It doesn't matter in what pieces a host's stream comes.
pub fn hosts_bytes_are_heard_in_any_pieces()
    ensures text { (name : List ℕ) (c : Confirmed) (w : Watching) (xs ys : List ℕ)
        → (watched name c w (xs ++ ys)).text ≡ (watched name c w xs).text ++ (watched name c (watched name c w xs).after ys).text }
    ensures after { (name : List ℕ) (c : Confirmed) (w : Watching) (xs ys : List ℕ)
        → (watched name c w (xs ++ ys)).after ≡ (watched name c (watched name c w xs).after ys).after }
{}

/// The host of a viewer's depth reads in its Confirm Active just what the viewer was given to confirm, and that it keeps no shapes of pointers.
pub fn what_is_confirmed_is_read()
    ensures { (c : Confirmed) → IsConfirmable c → confirmed_of (depth_of c) (confirm_fields c) ≡ Ok (without_pointers c) }
{}

/// Whatever preset words confirm has as many caches as a viewer confirms, and numbers of two bytes.
pub fn preset_words_are_confirmable()
    ensures { (words : List (List ℕ)) → IfSome (confirmed_by presets words) IsConfirmable }
{}

/// The host's answers aren't refused, whatever the session's size and the viewer's depth are; the viewer says all of its packets, knows the size, and is shown
/// what comes then.
pub fn client_is_answered()
    ensures text { (size : Size) (name : List ℕ) (c : Confirmed) → IsTrue (is_session_size size.w size.h)
        → (viewer_handshake name c (joined (answers size (depth_of c)))).text ≡ joined (greeting name c) }
    ensures stage { (size : Size) (name : List ℕ) (c : Confirmed) → IsTrue (is_session_size size.w size.h)
        → (viewer_handshake name c (joined (answers size (depth_of c)))).after.at.stage ≡ Shown }
    ensures size { (size : Size) (name : List ℕ) (c : Confirmed) → IsTrue (is_session_size size.w size.h)
        → (viewer_handshake name c (joined (answers size (depth_of c)))).after.at.size ≡ Some size }
    ensures unrefused { (size : Size) (name : List ℕ) (c : Confirmed) → IsTrue (is_session_size size.w size.h)
        → refusal_in c (viewer_handshake name c (joined (answers size (depth_of c)))).after ≡ None }
{}

/// Bytes behind the Font Map that a client reads are neither refused nor an end, and the packets in them come to the client's view.
pub fn frames_are_shown()
    ensures { (name : List ℕ) (c : Confirmed) (size : Size) (s : Standing) (bytes : List ℕ) (r : ClientReading) → s.stage ≡ Shown → s.shown ≡ []
        → read_stream c size bytes ≡ Ok r → IsShown c size (watched name c (standing_at s) bytes).after r }
{}
