//! The laws.

ghost use Rattle.std.specs.Prelude.{◌≡◌, ◌++◌, true, [], List, ℕ};
ghost use Rattle.px_core.specs.declared.surface.Size.{Size};
ghost use Rattle.conn_rules.specs.declared.conn_step.ConnStep.{ConnStep};
ghost use Rattle.conn_rules.specs.Hearing.{Hearing, silent, between, is_over, heard, host_handshake};
ghost use Rattle.conn_rules.specs.Told.{is_ready};
ghost use Rattle.conn_rules.specs.Placed.{AreBytes, ArePlaced};
ghost use Rattle.conn_rules.specs.Progress.{Progress, progress_of, ComeInOrder};
ghost use Rattle.conn_rules.specs.Progress.Progress.{Connecting};
ghost use Rattle.conn_rules.specs.Sound.{IsSound, AllConfirmCaches};

/// Once a client is ready, no byte of its stream is replied to.
pub fn once_ready_nothing_is_replied()
    ensures { (h : Hearing) (bytes : List ℕ) → is_ready h.stage ≡ true → (heard h bytes).replies ≡ [] }
{}

/// After a Bye, a Shutdown or a refusal nothing is replied or told, and nothing changes.
pub fn nothing_follows_the_end()
    ensures { (h : Hearing) (bytes : List ℕ) → is_over h.stage ≡ true → heard h bytes ≡ silent (between h) }
{}

/// A stream tells names, or that the client has left, while the client connects; then once that it is ready; then events, areas,
/// suppressions and the ends of packets; and at last that the client has left, or asks for the end, and the end of that packet.
pub fn steps_come_in_order()
    ensures whole { (size : Size) (bytes : List ℕ) → ComeInOrder Connecting (host_handshake size bytes).steps (progress_of (host_handshake size bytes).after.stage) }
    ensures further { (h : Hearing) (bytes : List ℕ) → ComeInOrder (progress_of h.stage) (heard h bytes).steps (progress_of (heard h bytes).after.stage) }
    ensures joined { (first middle last : Progress) (steps more : List ConnStep) → ComeInOrder first steps middle → ComeInOrder middle more last
        → ComeInOrder first (steps ++ more) last }
{}

/// The areas that a stream of bytes tells have their corners and their sides within 65,536 pixels; and what is left of a packet is bytes.
pub fn areas_lie_near()
    ensures areas { (h : Hearing) (bytes : List ℕ) → AreBytes h.part → AreBytes bytes → ArePlaced (heard h bytes).steps }
    ensures part { (h : Hearing) (bytes : List ℕ) → AreBytes h.part → AreBytes bytes → AreBytes (heard h bytes).after.part }
{}

/// A stream is refused only by the numbers 1 to 14; and what it says that a client confirmed has three bitmap caches and ten glyph caches.
pub fn streams_are_sound()
    ensures stands { (h : Hearing) (bytes : List ℕ) → IsSound h.stage → IsSound (heard h bytes).after.stage }
    ensures tells { (h : Hearing) (bytes : List ℕ) → IsSound h.stage → AllConfirmCaches (heard h bytes).steps }
    ensures whole { (size : Size) (bytes : List ℕ) → IsSound (host_handshake size bytes).after.stage }
{}
