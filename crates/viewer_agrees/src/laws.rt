//! The laws.

ghost use Rattle.std.specs.Prelude.{◌≡◌, ◌∷◌, ◌++◌, [], Ok, List, ℕ, IsTrue};
ghost use Rattle.px_core.specs.declared.surface.Size.{Size};
ghost use Rattle.px_core.specs.Rectangle.{is_session_size};
ghost use Rattle.caps_sets.specs.declared.confirmed.Confirmed.{Confirmed};
ghost use Rattle.caps_sets.specs.Confirmed.{depth_of, pointer_cells};
ghost use Rattle.info_lic.specs.Name.{IsName};
ghost use Rattle.info_lic.specs.ClientInfo.{name_of};
ghost use Rattle.conn_rules.specs.declared.conn_step.ConnStep.TheVariants.{Named, Ready};
ghost use Rattle.conn_rules.specs.Hearing.{host_handshake, end_of};
ghost use Rattle.conn_rules.specs.Hearing.StreamEnd.{Between};
ghost use Rattle.viewer_rules.specs.ClientPackets.{info_body};
ghost use Rattle.viewer_rules.specs.Rounds.{without_pointers, IsConfirmable, greeting, answers, joined};
ghost use Rattle.session_rules.specs.Journal.{Head};
ghost use Rattle.script_rules.specs.Script.{Asked};
ghost use Rattle.headline.specs.Headline.{HasSessionSize, AreByPresentViewers, ConfirmAllCaches, confirmed_in};
ghost use Rattle.headline.specs.Sent.{sent_to};
ghost use Rattle.viewer_agrees.specs.Turns.{exchange, after_turns};
ghost use Rattle.viewer_agrees.specs.Watched.{sent_without, ShowsAllTakes, ShowsFirstTakes};

/// The host reads a viewer's name.
pub fn name_is_read()
    ensures { (name : List ℕ) → IsName name → name_of (info_body name) ≡ Ok name }
{}

/// The host hears a viewer's packets to the end: it answers them at the viewer's depth, tells the name and what is confirmed, without
/// pointers, and refuses nothing.
pub fn greeting_is_heard()
    ensures replies { (size : Size) (name : List ℕ) (c : Confirmed) → IsName name → IsConfirmable c
        → (host_handshake size (joined (greeting name c))).replies ≡ joined (answers size (depth_of c)) }
    ensures steps { (size : Size) (name : List ℕ) (c : Confirmed) → IsName name → IsConfirmable c
        → (host_handshake size (joined (greeting name c))).steps ≡ Named name ∷ Ready (without_pointers c) ∷ [] }
    ensures end { (size : Size) (name : List ℕ) (c : Confirmed) → IsName name → IsConfirmable c
        → end_of (host_handshake size (joined (greeting name c))).after ≡ Between }
{}

/// Neither half waits for ever: by turns, each answering what the other has sent so far, both have sent all of it after ten turns.
pub fn both_halves_take_turns()
    ensures { (size : Size) (name : List ℕ) (c : Confirmed) → IsTrue (is_session_size size.w size.h) → IsName name → IsConfirmable c
        → after_turns 10 size name c ≡ exchange (joined (greeting name c)) (joined (answers size (depth_of c))) }
{}

/// Whatever the steps of a session are, as long as each but a join is of a viewer who is present: a viewer that hears the answers of the session's host and
/// then what the steps send it is shown at each mark, cut to its depth, the picture after just the entries that the frame's take found. It says its greeting
/// and no more, refuses nothing, and the connection goes on. So it is with each front of these bytes, of which it is shown the first marks. Packets of pointers
/// are taken out for it; of what is sent to a viewer without pointer cells, as `rdp_view` is one, that takes nothing.
pub fn every_viewer_is_shown_the_journal()
    ensures whole { (head : Head) (asked : List Asked) (v : ℕ) (name : List ℕ) → HasSessionSize head → AreByPresentViewers head asked → ConfirmAllCaches asked
        → ShowsAllTakes head asked v name }
    ensures front { (head : Head) (asked : List Asked) (v : ℕ) (name : List ℕ) → HasSessionSize head → AreByPresentViewers head asked → ConfirmAllCaches asked
        → (front rest : List ℕ) → sent_without head asked v ≡ front ++ rest → ShowsFirstTakes head asked v name front }
    ensures untouched { (head : Head) (asked : List Asked) (v : ℕ) → HasSessionSize head → AreByPresentViewers head asked → ConfirmAllCaches asked
        → pointer_cells (confirmed_in head asked v) ≡ 0 → sent_without head asked v ≡ sent_to head asked v }
{}
