//! The updates of a packet, one by one.

ghost use Rattle.std.specs.Prelude.{◌≡◌, ◌<◌};
ghost use Rattle.order_means.specs.Updates.{Updates};
ghost use Rattle.update_read.specs.Cutters.{Gives, IsSoundBy, behind_first, pending, step_of, step_by, body_by};

use crate::Step;
use crate::judge::judge_behind;
use crate::state::State;
use std::marker::Model;

/// A packet, and the update of it that is told. A packet of the fast path may have several updates: `step` tells the first one, and `go_on`
/// those behind it.
#[derive(Drop)]
pub struct Opened<'a> {
    fast: bool,
    start: u64,
    packet: &'a [u8],
    state: State,
}

impl<'a> Model for Opened<'a> {
    ghost use Rattle.update_read.specs.Cutters.{CutterOf, IsSoundBy};

    ghost Value = { CutterOf };

    ghost view = { λ o. record { fast = o.fast; start = o.start; packet = o.packet.now; state = o.state } };

    ghost invariant = { λ o. IsSoundBy o.state o.packet.now };
}

impl<'a> Opened<'a> {
    /// A packet that begins at a place and has come so far.
    pub(crate) fn new(fast: bool, start: u64, packet: &'a [u8], state: State) -> Opened<'a>
        requires { IsSoundBy state packet.now }
        ensures { result ≡ record { fast = fast; start = start; packet = packet.now; state = state } }
    {
        Opened {
            fast,
            start,
            packet,
            state,
        }
    }

    /// What the packet has come to.
    pub fn step(&self) -> Step
        ensures { result ≡ step_of self.now }
    {
        step_of(self.state, self.start)
    }

    /// Goes on to the next update of the packet, behind the one that was given. Without a further one the answer is `More`, or the packet's
    /// refusal.
    pub fn go_on(&mut self) -> Step
        ensures step { result ≡ step_of self.new }
        ensures cut { (u : Updates) → Gives u self.old → Gives (behind_first u) self.new }
        ensures fast { self.new.fast ≡ self.old.fast }
        ensures fewer { 0 < pending self.old → pending self.new < pending self.old }
        ensures stays { self.new ≡ record self.old { state = self.new.state } }
    {
        self.state = judge_behind(self.state, self.start, self.packet);
        step_of(self.state, self.start)
    }

    /// The body of the update that is told; none else.
    pub fn body(&self) -> &'a [u8]
        ensures { result.now ≡ body_by self.now.state self.now.packet }
    {
        match self.state {
            State::Update(found) => &self.packet[found.body.from..found.body.to],
            _ => &[],
        }
    }

    /// How far the packet has come.
    pub fn state(&self) -> State
        ensures value { result ≡ self.now.state }
        ensures sound { IsSoundBy result self.now.packet }
    {
        self.state
    }
}

/// What a packet has come to.
fn step_of(state: State, start: u64) -> Step
    ensures { result ≡ step_by state start }
{
    match state {
        State::Open | State::Ended => Step::More,
        State::Update(found) => Step::Update {
            at: start.saturating_add(found.body.from as u64),
            form: found.form,
        },
        State::Refused(at) => Step::Refused { at },
    }
}
